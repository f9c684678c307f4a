#![tactic(auto)]

// One pass over the records of an image of either form: 32 head, then L records 33, any 34, any 35 or any of 41 to 47, then 36. A second one over its log.
ghost use Rattle.std.specs.Prelude.{◌*◌, ◌+◌, ◌<◌, ◌≤◌, ◌&&◌, ◌||◌, true, eqb, ltb, ◌≡◌, map, drop, length, take};
ghost use Rattle.rules.specs.Marks.{no_mark};
ghost use Rattle.rules.specs.Reader.{is_known_thread, key_at, listed_at};
ghost use Rattle.rules.specs.Lists.{all};
ghost use Rattle.headed.specs.Reader.{headed_body, held_in, is_beside, is_header, is_kind_of, is_on_board, records_read_as};
ghost use Rattle.reading.specs.Scan.{by_number, filled, log_of, read_of, regions_of};
ghost use Rattle.reading.specs.Spots.{holds, is_inside, is_log_kind, log_start, mark_on, next_spot, old_at, spot_at, spots_from};
ghost use Rattle.reading.specs.Item.{behind_short, count_for, end_item, entries_item, fields_item, head_item, item_of, placed, region_item};
ghost use Rattle.reading.specs.Item.{after_entries, after_head, after_line, after_region, tabled};

use measures::{MOST_DEPS, MOST_ENTRIES, MOST_LOGGED, MOST_REGIONS, NUMBERS};
use rules::{Listed, Mark, Refusal};

/// What was read of an image: T and L, the number of line records, the regions and the log entries. The first `held` places of `regions` and the first
/// `logged` of `log` are in use.
// Kept: no heap; a generic struct has no array of its type parameter, so the two pairs don't become one type.
#[derive(Clone, Copy)]
pub struct Scan {
    pub threads: u8,
    pub lines: u16,
    pub seen: usize,
    pub held: usize,
    pub regions: [Listed; MOST_REGIONS],
    pub logged: usize,
    pub log: [Mark; MOST_LOGGED],
}

impl Scan {
    /// The regions that were read.
    pub fn regions(&self) -> &[Listed]
        ensures { result.now ≡ regions_of self.now }
    {
        &self.regions[..self.held.min(MOST_REGIONS)]
    }

    /// The log entries that were read.
    pub fn log(&self) -> &[Mark]
        ensures { result.now ≡ log_of self.now }
    {
        &self.log[..self.logged.min(MOST_LOGGED)]
    }
}

/// What the next record is judged by: T and L, 0 before the head; how many lines, regions and log entries came before it, the key of the last region and of
/// the last log entry, how many log entries the thread of the last one has, and the kind of the last log record, 0 before the first.
// Kept: 0 for none; `placed`, `tally_of` and `is_beside` of specs/ test and tell these numbers.
#[derive(Clone, Copy)]
pub struct Tally {
    pub threads: u8,
    pub lines: u16,
    pub seen: usize,
    pub held: usize,
    pub last: u32,
    pub logged: usize,
    pub mark: u32,
    pub count: usize,
    pub kind: u8,
}

/// An old line among the log records: that of one entry of the record at a place.
#[derive(Clone, Copy)]
pub struct Spot {
    pub at: usize,
    pub entry: usize,
}

/// A record that is taken: T and L; a line; a region; log entries, by their key and the kind that holds them; the end.
#[derive(Clone, Copy)]
pub enum Item {
    Head(u8, u16),
    Line,
    Region(Listed),
    Entries(u32, u8),
    End,
}

// A place without a region.
const NO_REGION: Listed = Listed {
    key: 0,
    state: 0,
    deps: [0; MOST_DEPS],
};

// A place without a log entry.
const NO_MARK: Mark = Mark {
    key: 0,
    line: 0,
    at: 0,
};

// ---- kinds
//
// Kept as bytes: `placed` of specs/ orders them (`34 <= kind`), `is_beside` has them in a range, and `headed_body` counts with them (`kind - 40`); an enum
// would be turned back into its byte in each of these tests: no plainer.

// Whether a record is one of 41 to 47.
fn is_header(kind: u8) -> bool
    ensures { result ≡ is_header kind }
{
    41 <= kind && kind <= 47
}

// Whether a record is one of an image, with `headed` of a new one too.
fn is_kind(kind: u8, headed: bool) -> bool
    ensures { result ≡ is_kind_of headed kind }
{
    (32 <= kind && kind <= 36) || (headed && is_header(kind))
}

// Whether a record holds log entries.
fn is_log_kind(kind: u8) -> bool
    ensures { result ≡ is_log_kind kind }
{
    kind == 35 || is_header(kind)
}

// How many log entries a record of a log holds.
fn held_by(kind: u8) -> usize
    ensures { result ≡ holds kind }
{
    if is_header(kind) {
        (kind - 40) as usize
    } else {
        1
    }
}

// The bytes of a body, by its kind.
fn body_length(kind: u8) -> usize
    requires { 32 ≤ kind }
    ensures { result ≡ headed_body kind }
{
    match kind {
        32 => 3,
        33 => 64,
        34 => 16,
        35 => 68,
        41..=47 => 3 + 65 * held_by(kind),
        _ => 0,
    }
}

// Whether 35 stands beside any of 41 to 47.
fn is_beside(last: u8, kind: u8) -> bool
    ensures { result ≡ is_beside last kind }
{
    (kind == 35 && is_header(last)) || (is_header(kind) && last == 35)
}

// ---- what the next record is judged by

// Whether the thread of a key is below T.
fn is_known(threads: u8, key: u32) -> bool
    ensures { result ≡ is_known_thread threads key }
{
    key / NUMBERS < threads as u32
}

impl Tally {
    // Behind the head, or with T and L 0 before it.
    fn new(threads: u8, lines: u16) -> Tally
        ensures { result ≡ after_head threads lines }
    {
        Tally {
            threads,
            lines,
            seen: 0,
            held: 0,
            last: 0,
            logged: 0,
            mark: 0,
            count: 0,
            kind: 0,
        }
    }

    fn after_line(self) -> Tally
        requires { self.seen < self.lines }
        ensures { result ≡ after_line self }
    {
        Tally {
            seen: self.seen + 1,
            ..self
        }
    }

    fn after_region(self, key: u32) -> Tally
        requires { self.held < 32 }
        ensures { result ≡ after_region self key }
    {
        Tally {
            held: self.held + 1,
            last: key,
            ..self
        }
    }

    fn after_entries(self, key: u32, kind: u8) -> Tally
        requires { (self.logged ≤ 256) × (count_for self key ≤ 32) }
        ensures { result ≡ after_entries self key kind }
    {
        let entries = held_by(kind);
        Tally {
            logged: self.logged + entries,
            mark: key,
            count: self.count_for(key) + entries,
            kind,
            ..self
        }
    }

    // Whether a record of this kind may stand here.
    fn is_placed(self, kind: u8) -> bool
        ensures { result ≡ placed self kind }
    {
        if is_beside(self.kind, kind) {
            return false;
        }
        if self.threads == 0 {
            return kind == 32;
        }
        if self.seen < self.lines as usize {
            return kind == 33;
        }
        if self.logged == 0 {
            return 34 <= kind;
        }
        35 <= kind
    }

    // Whether a region's key rises.
    fn rises(self, key: u32) -> bool
        ensures { result ≡ (eqb self.held 0 || ltb self.last key) }
    {
        self.held == 0 || self.last < key
    }

    // How many log entries the thread of a key has.
    fn count_for(self, key: u32) -> usize
        ensures { result ≡ count_for self key }
    {
        if self.mark / NUMBERS == key / NUMBERS {
            self.count
        } else {
            0
        }
    }

    // Whether the last log record is of this region and holds fewer than seven entries.
    fn is_behind_short(self, key: u32) -> bool
        ensures { result ≡ behind_short self key }
    {
        is_header(self.kind) && (self.kind < 47 && self.mark == key)
    }

    // Where the records of the log begin: behind the head, the lines and the regions.
    fn log_start(self) -> usize
        requires { (self.seen ≤ self.lines) × (self.held ≤ 32) }
        ensures { result ≡ log_start self.seen self.held }
    {
        4 + 65 * self.seen + 17 * self.held
    }

    // What was read, with the tables as they are filled.
    fn scan(self, regions: [Listed; MOST_REGIONS], log: [Mark; MOST_LOGGED]) -> Scan
        ensures { result ≡ tabled self regions log }
    {
        Scan {
            threads: self.threads,
            lines: self.lines,
            seen: self.seen,
            held: self.held,
            regions,
            logged: self.logged,
            log,
        }
    }
}

// ---- the fields of a record

// Thread and number at a place of a body.
fn key_at(body: &[u8], place: usize) -> u32
    requires { place + 3 ≤ length body.now }
    ensures { result ≡ key_at body.now place }
{
    let number = lines::join8(body[place + 1], body[place + 2]);
    lines::join16(number, body[place] as u16)
}

// The head: 6 for T or L out of range.
fn head(body: &[u8]) -> Result<Item, Refusal>
    requires { 3 ≤ length body.now }
    ensures { result ≡ head_item body.now }
{
    let threads = body[0];
    let lines = lines::join8(body[1], body[2]);
    if lookup::in_range(threads, lines) {
        Ok(Item::Head(threads, lines))
    } else {
        Err(Refusal::OutOfRange)
    }
}

// Kept: `map` over the four places asks `place + 3 <= 16` of its closure at each turn; tried, and that proof did not close.
#[tactic(auto, unfolding(rules::specs::Reader::listed_at))]
fn listed_at(body: &[u8]) -> Listed
    requires { 16 ≤ length body.now }
    ensures { result ≡ listed_at body.now }
{
    Listed {
        key: key_at(body, 0),
        state: body[3],
        deps: [
            key_at(body, 4),
            key_at(body, 7),
            key_at(body, 10),
            key_at(body, 13),
        ],
    }
}

// Whether the threads of the keys are below T.
fn all_known(threads: u8, keys: &[u32]) -> bool
    ensures { result ≡ all (is_known_thread threads) keys.now }
{
    keys.iter().all(|&key| is_known(threads, key))
}

// A region: 3 for a thread, its own or that of a dependence, 7 for a key that does not rise, 7 for a region too many.
#[tactic(auto, unfolding(crate::specs::Item::region_item))]
fn region(tally: Tally, region: Listed) -> Result<Item, Refusal>
    ensures { result ≡ region_item tally region }
{
    if !is_known(tally.threads, region.key) {
        return Err(Refusal::NoThread);
    }
    if !all_known(tally.threads, &region.deps) {
        return Err(Refusal::NoThread);
    }
    if !tally.rises(region.key) {
        return Err(Refusal::OutOfPlace);
    }
    if MOST_REGIONS <= tally.held {
        return Err(Refusal::OutOfPlace);
    }
    Ok(Item::Region(region))
}

fn all_below(numbers: &[u8], most: u16) -> bool
    ensures { result ≡ all (λ n. ltb n most) numbers.now }
{
    numbers.iter().all(|&number| (number as u16) < most)
}

// Whether the lines of as many entries are below L.
fn is_on_board(body: &[u8], entries: usize, lines: u16) -> bool
    requires { 3 + entries ≤ length body.now }
    ensures { result ≡ all (is_on_board lines) (held_in entries body.now) }
{
    all_below(&body[3..3 + entries], lines)
}

// Log entries: 3 for their thread, 4 for any of their lines, 7 for a key that falls, 7 behind fewer than seven of their region, 7 for entries too many of
// their thread.
#[tactic(auto, using(crate::proofs::Tests::few_held), unfolding(crate::specs::Item::entries_item))]
fn entries(body: &[u8], tally: Tally, kind: u8) -> Result<Item, Refusal>
    requires { 3 + 65 * holds kind ≤ length body.now }
    ensures { result ≡ entries_item tally kind body.now }
{
    let entries = held_by(kind);
    let key = key_at(body, 0);
    if !is_known(tally.threads, key) {
        return Err(Refusal::NoThread);
    }
    if !is_on_board(body, entries, tally.lines) {
        return Err(Refusal::NoLine);
    }
    if key < tally.mark {
        return Err(Refusal::OutOfPlace);
    }
    if tally.is_behind_short(key) {
        return Err(Refusal::OutOfPlace);
    }
    if MOST_ENTRIES - entries < tally.count_for(key) {
        return Err(Refusal::OutOfPlace);
    }
    Ok(Item::Entries(key, kind))
}

// The end: 7 for bytes behind it.
#[tactic(auto, unfolding(crate::specs::Item::end_item))]
fn end(body: &[u8]) -> Result<Item, Refusal>
    ensures { result ≡ end_item body.now }
{
    if body.is_empty() {
        Ok(Item::End)
    } else {
        Err(Refusal::OutOfPlace)
    }
}

#[tactic(auto, using(crate::proofs::Tests::log_body), unfolding(crate::specs::Item::fields_item))]
fn fields(body: &[u8], tally: Tally, kind: u8) -> Result<Item, Refusal>
    requires { headed_body kind ≤ length body.now }
    ensures { result ≡ fields_item tally kind body.now }
{
    if kind == 32 {
        return head(body);
    }
    if kind == 33 {
        return Ok(Item::Line);
    }
    if kind == 34 {
        return region(tally, listed_at(body));
    }
    if is_log_kind(kind) {
        return entries(body, tally, kind);
    }
    end(body)
}

// The record at the front: 1 if nothing is left, 2 for its kind, 7 for its place, 1 for its length, then its fields.
fn one_record(src: &[u8], tally: Tally, headed: bool) -> Result<Item, Refusal>
    ensures { result ≡ item_of headed tally src.now }
{
    let [kind, body @ ..] = src else {
        return Err(Refusal::CutShort);
    };
    let kind = *kind;
    if !is_kind(kind, headed) {
        return Err(Refusal::UnknownKind);
    }
    if !tally.is_placed(kind) {
        return Err(Refusal::OutOfPlace);
    }
    if body.len() < body_length(kind) {
        return Err(Refusal::CutShort);
    }
    fields(body, tally, kind)
}

// ---- the log entries

// The log entry at a spot.
// Kept: `mark_at` of specs/ takes the place modulo 65536; `u16::try_from` would refuse a place that the definition tells.
#[tactic(auto, using(crate::proofs::Spots::mark_is))]
fn mark_at(src: &[u8], spot: Spot) -> Mark
    requires { old_at src.now spot + 64 ≤ length src.now }
    ensures { result ≡ mark_on src.now spot }
{
    let old = spot.at + 4 + held_by(src[spot.at]) + 64 * spot.entry;
    Mark {
        key: key_at(src, spot.at + 1),
        line: src[spot.at + 4 + spot.entry],
        at: (old % 65536) as u16,
    }
}

// The spot behind it: of the next entry of its record, or of the first one of the next record.
#[tactic(auto, unfolding(crate::specs::Spots::next_spot))]
fn next_spot(src: &[u8], spot: Spot) -> Spot
    requires { old_at src.now spot + 64 ≤ length src.now }
    ensures { result ≡ next_spot src.now spot }
{
    let entries = held_by(src[spot.at]);
    if spot.entry + 1 < entries {
        Spot {
            at: spot.at,
            entry: spot.entry + 1,
        }
    } else {
        Spot {
            at: spot.at + 4 + 65 * entries,
            entry: 0,
        }
    }
}

// The log entries from the first record of the log on.
fn log_marks(src: &[u8], first: usize, logged: usize) -> [Mark; MOST_LOGGED]
    requires { (all (is_inside src.now) (spots_from logged src.now (spot_at first)) ≡ true) × (logged ≤ 256) }
    ensures { result ≡ filled 256 no_mark (map (mark_on src.now) (spots_from logged src.now (spot_at first))) }
{
    let mut log = [NO_MARK; MOST_LOGGED];
    let mut spot = Spot {
        at: first,
        entry: 0,
    };
    for i in 0..logged {
        log[i] = mark_at(src, spot);
        spot = next_spot(src, spot);
    }
    log
}

// ---- the whole

/// Reads an image record for record, until one is refused or the image is whole: 1 for nothing left or a record cut short, 2 for an unknown kind, 3 for a
/// thread not below T, 4 for a line not below L, 6 for T or L out of range, 7 for a record out of its place. `headed`: of either form.
// Kept: `headed` beside the bytes, as `records_read_as` of specs/ takes it; a loop by `at`, since a slice that shrinks would measure each record all the
// same: no plainer.
pub fn read_records(src: &[u8], headed: bool) -> Result<Scan, Refusal>
    ensures { by_number result ≡ read_of src.now (records_read_as headed src.now) }
{
    let mut tally = Tally::new(0, 0);
    let mut regions = [NO_REGION; MOST_REGIONS];
    let mut at = 0;
    loop {
        let item = one_record(&src[at..], tally, headed)?;
        match item {
            Item::Head(threads, lines) => {
                tally = Tally::new(threads, lines);
            }
            Item::Line => {
                tally = tally.after_line();
            }
            Item::Region(region) => {
                regions[tally.held] = region;
                tally = tally.after_region(region.key);
            }
            Item::Entries(key, kind) => {
                tally = tally.after_entries(key, kind);
            }
            Item::End => {
                let log = log_marks(src, tally.log_start(), tally.logged);
                return Ok(tally.scan(regions, log));
            }
        }
        at = at + 1 + body_length(src[at]);
    }
}
