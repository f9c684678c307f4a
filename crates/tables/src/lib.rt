#![tactic(auto)]

// The tables where they stand: the searches over them, what they tell of one thread or region, and a region's flight. Every function answers for every value of its
// arguments: a thread above 7 has no depth, number, log or marks.
ghost use Rattle.std.specs.Prelude.{◌/◌, ◌≡◌, ◌<◌, ◌≤◌, ◌&&◌, cond, eqb, not, position, length, set, count_by, IfSome};
ghost use Rattle.undo.specs.Table.{any};
ghost use Rattle.rules.specs.Lists.{count};
ghost use Rattle.rules.specs.Tables.{current, free_place, in_channel, is_held, is_key, is_placed, listed, owner_of, region_at, thread_at, with_region};
ghost use Rattle.rules.specs.Access.{also_read, has_read, note_read};
ghost use Rattle.rules.specs.Slots.{carries};
ghost use Rattle.rules.specs.Flight.{flown};
ghost use Rattle.rules.specs.Refusal.{depth_of, in_flight, is_modified, is_of_party, is_of_thread, is_read_elsewhere};
ghost use Rattle.rules.specs.Step.{is_other, open_region};
ghost use Rattle.lookup.specs.Place.{IsPlace};

use measures::{MOST_REGIONS, MOST_THREADS, NUMBERS, READ_WORDS, THREADS};
use rules::{Board, Region, Shares, Tables, Thread};

// ---- one thread

// The length of an array of structs is known where it is lent alone.
// Kept: what changes a thread tests its index and takes it, here and in the crates above: `get_mut` of the library says nothing of what the slice ends as, so that no proof closed with it.
pub fn threads_are_eight(threads: &[Thread; MOST_THREADS])
    ensures { length threads.now ≡ 8 }
{}

/// The depth of a thread.
// Kept: see `last_of`.
pub fn depth_of(tables: &Tables, thread: u8) -> u8
    ensures { result ≡ depth_of thread tables.now }
{
    match tables.threads.get(thread as usize) {
        Some(thread) => thread.depth,
        None => 0,
    }
}

/// The number of a thread's last region.
// Kept: one field each of what `get` finds; a function over both would owe what its closure takes out, and is no plainer.
pub fn last_of(tables: &Tables, thread: u8) -> u16
    ensures { result ≡ (thread_at thread tables.now).last }
{
    match tables.threads.get(thread as usize) {
        Some(thread) => thread.last,
        None => 0,
    }
}

/// The key of a thread's last region, which is the open one at any depth but 0.
pub fn current(tables: &Tables, thread: u8) -> u32
    ensures key { result ≡ current thread tables.now }
    ensures thread { result / 65536 ≡ thread }
{
    NUMBERS * thread as u32 + last_of(tables, thread) as u32
}

/// The key of a thread's open region; 0 at depth 0.
pub fn open_region(tables: &Tables, thread: u8) -> u32
    ensures { result ≡ open_region thread tables.now }
{
    if depth_of(tables, thread) == 0 {
        0
    } else {
        current(tables, thread)
    }
}

// ---- the lines that open regions have read

fn has_read(thread: &Thread, line: u8) -> bool
    ensures { result ≡ has_read line thread.now }
{
    (thread.reads[(line / 64) as usize] >> (line % 64)) % 2 == 1
}

fn reads_too(tables: &Tables, thread: u8, other: u8, line: u8) -> bool
    ensures { result ≡ (not (eqb other thread) && has_read line (thread_at other tables.now)) }
{
    threads_are_eight(&tables.threads);
    other != thread
        && (other as usize) < MOST_THREADS
        && has_read(&tables.threads[other as usize], line)
}

/// Whether the open region of another thread has read the line: refusal 25.
pub fn read_elsewhere(tables: &Tables, thread: u8, line: u8) -> bool
    ensures { result ≡ is_read_elsewhere thread line tables.now }
{
    THREADS
        .iter()
        .any(|&other| reads_too(tables, thread, other, line))
}

fn mark_read(reads: &mut [u64; READ_WORDS], line: u8)
    ensures { reads.new ≡ also_read line reads.old }
{
    let word = (line / 64) as usize;
    reads[word] = (1 << (line % 64)) | reads[word];
}

/// The line counts as read by the thread's open region.
#[tactic(auto, unfolding(rules::specs::Access::note_read))]
pub fn note_read(tables: &mut Tables, thread: u8, line: u8)
    ensures { tables.new ≡ note_read thread line tables.old }
{
    threads_are_eight(&tables.threads);
    if (thread as usize) < MOST_THREADS {
        mark_read(&mut tables.threads[thread as usize].reads, line);
    }
}

// ---- one region

// Whether a lookup of region `key` finds it here: in the channel of its number.
fn is_placed(region: &Region, key: u32) -> bool
    ensures { result ≡ is_placed key region.now }
{
    region.key == key && region.channel == lookup::channel_of(key % NUMBERS)
}

fn first_placed(regions: &[Region; MOST_REGIONS], key: u32) -> Option<usize>
    ensures { result ≡ position (is_placed key) regions.now }
{
    regions.iter().position(|region| is_placed(region, key))
}

/// The place of region `key`.
#[tactic(auto, using(lookup::proofs::Lists::is_place))]
pub fn place_of(regions: &[Region; MOST_REGIONS], key: u32) -> Option<usize>
    ensures place { IsPlace (is_placed key) regions.now result }
    ensures within { IfSome result (λ at. at < 32) }
{
    first_placed(regions, key)
}

/// Region `key`; what a free place holds if it is not there.
pub fn region_at(regions: &[Region; MOST_REGIONS], key: u32) -> Region
    ensures { result ≡ region_at key regions.now }
{
    match place_of(regions, key) {
        Some(at) => regions[at],
        None => Region::default(),
    }
}

/// Region `key` becomes `region`; nothing changes if it is not there.
pub fn put_region(tables: &mut Tables, key: u32, region: Region)
    ensures { tables.new ≡ with_region key region tables.old }
{
    if let Some(at) = place_of(&tables.regions, key) {
        tables.regions[at] = region;
    }
}

// Kept: a search each for a region and for a log entry; one over any element would owe what its closure decides, and is no plainer.
fn first_unheld(regions: &[Region; MOST_REGIONS]) -> Option<usize>
    ensures { result ≡ position (is_key 0) regions.now }
{
    regions.iter().position(|region| region.key == 0)
}

#[tactic(auto, using(lookup::proofs::Lists::is_place))]
fn free_place(regions: &[Region; MOST_REGIONS]) -> Option<usize>
    ensures place { IsPlace (is_key 0) regions.now result }
    ensures within { IfSome result (λ at. at < 32) }
{
    first_unheld(regions)
}

/// A region takes the first free place; nothing changes where none is.
pub fn enter(regions: &mut [Region; MOST_REGIONS], region: Region)
    ensures { regions.new ≡ set regions.old (free_place regions.old) region }
{
    if let Some(at) = free_place(regions) {
        regions[at] = region;
    }
}

fn has_placed(regions: &[Region; MOST_REGIONS], key: u32) -> bool
    ensures { result ≡ any (is_placed key) regions.now }
{
    regions.iter().any(|region| is_placed(region, key))
}

// Whether region `key` is uncommitted.
fn is_listed(regions: &[Region; MOST_REGIONS], key: u32) -> bool
    ensures { result ≡ listed key regions.now }
{
    key != 0 && has_placed(regions, key)
}

/// The region `key` if it is uncommitted, else 0.
pub fn uncommitted(regions: &[Region; MOST_REGIONS], key: u32) -> u32
    ensures { result ≡ cond (listed key regions.now) key 0 }
{
    if is_listed(regions, key) { key } else { 0 }
}

// ---- owners and dependences

/// The uncommitted region that wrote the line last; 0 if none.
#[tactic(auto, unfolding(rules::specs::Tables::owner_of))]
pub fn owner_of(tables: &Tables, line: u8) -> u32
    ensures { result ≡ owner_of line tables.now }
{
    uncommitted(&tables.regions, tables.owner[line as usize])
}

/// The dependence that an access by region `key` brings of a line whose last writer is `owner`; 0 if none. Where the writer is the region itself nothing is searched.
pub fn dependence(regions: &[Region; MOST_REGIONS], owner: u32, key: u32) -> u32
    ensures { result ≡ cond (eqb (cond (listed owner regions.now) owner 0) key) 0 (cond (listed owner regions.now) owner 0) }
{
    if owner == key {
        return 0;
    }
    let writer = uncommitted(regions, owner);
    if writer == key { 0 } else { writer }
}

// ---- how many regions, and whether there is one

fn is_of_thread(region: &Region, thread: u8) -> bool
    ensures { result ≡ is_of_thread thread region.now }
{
    region.key != 0 && region.key / NUMBERS == thread as u32
}

fn is_other(region: &Region, thread: u8, key: u32) -> bool
    ensures { result ≡ is_other thread key region.now }
{
    is_of_thread(region, thread) && region.key != key
}

/// Whether the thread has an uncommitted region other than `key`.
pub fn has_other(regions: &[Region; MOST_REGIONS], thread: u8, key: u32) -> bool
    ensures { result ≡ any (is_other thread key) regions.now }
{
    regions.iter().any(|region| is_other(region, thread, key))
}

// Kept: a count by the library and one in the word of crate rules, `count`, since a chain has to stand alone in its function.
fn number_held(regions: &[Region; MOST_REGIONS]) -> usize
    ensures count { result ≡ count_by is_held regions.now }
    ensures within { result ≤ 32 }
{
    regions.iter().filter(|region| region.key != 0).count()
}

/// How many places of the dependence list are taken.
#[tactic(auto, using(lookup::proofs::Lists::count_is))]
pub fn count_held(regions: &[Region; MOST_REGIONS]) -> usize
    ensures count { result ≡ count is_held regions.now }
    ensures within { result ≤ 32 }
{
    number_held(regions)
}

fn is_modified(region: &Region, thread: u8) -> bool
    ensures { result ≡ is_modified thread region.now }
{
    is_of_thread(region, thread) && !region.done
}

// Kept: as `number_held`.
fn number_modified(regions: &[Region; MOST_REGIONS], thread: u8) -> usize
    ensures count { result ≡ count_by (is_modified thread) regions.now }
    ensures within { result ≤ 32 }
{
    regions
        .iter()
        .filter(|region| is_modified(region, thread))
        .count()
}

/// How many regions the thread has in the modified list.
#[tactic(auto, using(lookup::proofs::Lists::count_is))]
pub fn count_modified(regions: &[Region; MOST_REGIONS], thread: u8) -> usize
    ensures count { result ≡ count (is_modified thread) regions.now }
    ensures within { result ≤ 32 }
{
    number_modified(regions, thread)
}

fn is_in_channel(region: &Region, channel: u8) -> bool
    ensures { result ≡ in_channel channel region.now }
{
    region.key != 0 && region.channel == channel
}

// Kept: as `number_held`.
fn number_in_channel(regions: &[Region; MOST_REGIONS], channel: u8) -> usize
    ensures count { result ≡ count_by (in_channel channel) regions.now }
    ensures within { result ≤ 32 }
{
    regions
        .iter()
        .filter(|region| is_in_channel(region, channel))
        .count()
}

/// How many entries of the channel are taken.
#[tactic(auto, using(lookup::proofs::Lists::count_is))]
pub fn count_channel(regions: &[Region; MOST_REGIONS], channel: u8) -> usize
    ensures count { result ≡ count (in_channel channel) regions.now }
    ensures within { result ≤ 32 }
{
    number_in_channel(regions, channel)
}

fn is_of_party(region: &Region, shares: Shares, channel: u8, party: u8) -> bool
    ensures { result ≡ is_of_party shares channel party region.now }
{
    is_in_channel(region, channel) && lookup::party_of(shares, region.key / NUMBERS) == party
}

// Kept: as `number_held`.
fn number_of_party(
    regions: &[Region; MOST_REGIONS],
    shares: Shares,
    channel: u8,
    party: u8,
) -> usize
    ensures count { result ≡ count_by (is_of_party shares channel party) regions.now }
    ensures within { result ≤ 32 }
{
    regions
        .iter()
        .filter(|region| is_of_party(region, shares, channel, party))
        .count()
}

/// How many entries of the channel the threads of a party hold.
#[tactic(auto, using(lookup::proofs::Lists::count_is))]
pub fn count_party(
    regions: &[Region; MOST_REGIONS],
    shares: Shares,
    channel: u8,
    party: u8,
) -> usize
    ensures count { result ≡ count (is_of_party shares channel party) regions.now }
    ensures within { result ≤ 32 }
{
    number_of_party(regions, shares, channel, party)
}

// ---- flights

fn has_flight(regions: &[Region; MOST_REGIONS], line: u8) -> bool
    ensures { result ≡ any (λ r. any (carries line) r.slots) regions.now }
{
    regions.iter().any(|region| slots::has_flight(region, line))
}

/// Whether a slot of some region is in flight with the line. Mostly it is one of the line's last writer, which is asked first.
#[tactic(auto, using(std::proofs::lemmas::List::Folds::list_any_at))]
pub fn is_in_flight(tables: &Tables, line: u8) -> bool
    ensures { result ≡ in_flight line tables.now }
{
    match place_of(&tables.regions, tables.owner[line as usize]) {
        Some(at) if slots::has_flight(&tables.regions[at], line) => true,
        _ => has_flight(&tables.regions, line),
    }
}

fn first_flight(regions: &[Region; MOST_REGIONS], line: u8) -> Option<usize>
    ensures { result ≡ position (λ r. any (carries line) r.slots) regions.now }
{
    regions
        .iter()
        .position(|region| slots::has_flight(region, line))
}

/// The place of the region whose slot is in flight with the line.
#[tactic(auto, using(lookup::proofs::Lists::is_place))]
pub fn flight_place(regions: &[Region; MOST_REGIONS], line: u8) -> Option<usize>
    ensures place { IsPlace (λ r. any (carries line) r.slots) regions.now result }
    ensures within { IfSome result (λ at. at < 32) }
{
    first_flight(regions, line)
}

/// The slots of region `key` fly where they can.
pub fn fly(board: &mut Board, key: u32)
    ensures { board.new ≡ flown key board.old }
{
    if let Some(at) = place_of(&board.tables.regions, key) {
        let region = &mut board.tables.regions[at];
        slots::fly(
            &mut region.slots,
            region.ended,
            &board.tables.lock,
            &board.cur,
            &mut board.car,
        );
    }
}
