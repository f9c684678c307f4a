#![tactic(auto)]

// Which refusal an event meets: its tests, in the order of document 01. Nothing here changes a table, and every test has its answer for every content of the tables. The
// last two tests of a write, 20 and 21, stand with its step, which makes the one pass over the slots.
ghost use Rattle.std.specs.Prelude.{◌≡◌, ◌<◌, ◌≤◌, ◌&&◌, cond, eqb, IfErr, IsTrue, OnOk};
ghost use Rattle.rules.specs.Access.{dependence, needs_log};
ghost use Rattle.rules.specs.Codes.{code, code_of};
ghost use Rattle.rules.specs.Refusal.{depth_of, first_bad, fits, is_foreign_open, is_set_up, no_room_for, no_room_for_dep, other_party, refusal, tests_of};
ghost use Rattle.rules.specs.Tables.{current, locked, owner_of, region_at, thread_at};
ghost use Rattle.rules.specs.declared.Tables.{Tables};
ghost use Rattle.rules.specs.declared.Event.TheVariants.{Begin, Cut, DataAck, End, Fence, LogAck, Read, Setup, Write};
ghost use Rattle.refusals.specs.Order.{before, late};

use measures::{
    LINE_BYTES, LINE_WORDS, MOST_DEPTH, MOST_IN_CHANNEL, MOST_MODIFIED, MOST_NUMBER, NUMBERS,
};
use rules::{Refusal, Shares, Size, Tables};

// ---- the conditions

// Lent memory has 64 bytes for each line.
fn fits(lines: u16, size: Size) -> bool
    ensures { result ≡ fits lines size }
{
    size.zero || size.lent == LINE_BYTES as u64 * lines as u64
}

fn is_set_up(tables: &Tables) -> bool
    ensures test { result ≡ is_set_up tables.now }
    ensures within { IsTrue result → tables.now.size.threads ≤ 8 }
{
    lookup::in_range(tables.size.threads, tables.size.lines)
}

// The line's owner, where that is another region than the thread's own; 0 where it is this one, and then nothing is searched.
#[tactic(auto, using(crate::proofs::Owner::own), unfolding(rules::specs::Tables::owner_of))]
fn other_owner(tables: &Tables, thread: u8, line: u8) -> u32
    ensures foreign { is_foreign_open thread result tables.now ≡ is_foreign_open thread (owner_of line tables.now) tables.now }
    ensures dependence { result ≡ dependence (current thread tables.now) line tables.now }
{
    if tables.owner[line as usize] == tables::current(tables, thread) {
        0
    } else {
        tables::owner_of(tables, line)
    }
}

// The owner is an open region of another thread.
fn is_foreign_open(tables: &Tables, thread: u8, owner: u32) -> bool
    ensures { result ≡ is_foreign_open thread owner tables.now }
{
    owner != 0
        && owner / NUMBERS != thread as u32
        && !tables::region_at(&tables.regions, owner).ended
}

fn other_party(party: u8) -> u8
    ensures { result ≡ other_party party }
{
    u8::from(party == 0)
}

// An entry of the number that the thread would open next would leave fewer free entries in its channel than the other party's reserve still lacks there.
fn no_room_for(tables: &Tables, thread: u8) -> bool
    ensures { result ≡ no_room_for thread tables.now }
{
    let shares = tables.size.shares;
    let channel = lookup::channel_of(tables::last_of(tables, thread) as u32 + 1);
    let other = other_party(lookup::party_of(shares, thread as u32));
    let reserve = lookup::reserve_of(shares, other) as usize;
    let taken = tables::count_channel(&tables.regions, channel) + 1;
    // What the reserve still lacks is at most all of it.
    if taken + reserve <= MOST_IN_CHANNEL {
        return false;
    }
    let held = tables::count_party(&tables.regions, shares, channel, other);
    MOST_IN_CHANNEL < taken + reserve.saturating_sub(held)
}

// A write that needs a log entry, on a line still locked.
fn is_held_up(tables: &Tables, key: u32, line: u8) -> bool
    ensures { result ≡ (needs_log key line tables.now && locked line tables.now) }
{
    tables.owner[line as usize] != key && tables.lock[line as usize]
}

// Region `key` has no place for the dependence on the line's owner; none is needed on no region and on itself.
fn lacks_dep(tables: &Tables, key: u32, owner: u32) -> bool
    ensures { result ≡ no_room_for_dep (cond (eqb owner key) 0 owner) (region_at key tables.now.regions).deps }
{
    owner != 0
        && owner != key
        && lookup::no_room_for_dep(&tables::region_at(&tables.regions, key).deps, owner)
}

// ---- the tests of each event

/// A setup of T threads and L lines, where `size` are the numbers before it: 6, 24.
#[tactic(auto, unfolding(rules::specs::Refusal::refusal, rules::specs::Refusal::tests_of))]
pub fn test_setup(size: Size, threads: u8, lines: u16, shares: Shares) -> Result<(), Refusal>
    ensures { (ts : Tables) → ts.size ≡ size → code_of result ≡ refusal ts (Setup threads lines shares) }
{
    if !lookup::in_range(threads, lines) {
        return Err(Refusal::OutOfRange);
    }
    if !fits(lines, size) {
        return Err(Refusal::OutOfRange);
    }
    if lookup::in_range(size.threads, size.lines) {
        return Err(Refusal::OutOfRange);
    }
    if lookup::is_unfit(threads, shares) {
        return Err(Refusal::UnfitParties);
    }
    Ok(())
}

/// A begin: 6, 3, 11, 13, and at depth 0 the numbers, the modified list and the channel, 14, 15, 16.
#[tactic(auto, unfolding(rules::specs::Refusal::refusal, rules::specs::Refusal::tests_of))]
pub fn test_begin(tables: &Tables, thread: u8) -> Result<(), Refusal>
    ensures code { code_of result ≡ refusal tables.now (Begin thread) }
    ensures within { OnOk result ((thread < 8) × ((thread_at thread tables.now).depth < 15)) }
    ensures number { OnOk result ((thread_at thread tables.now).depth ≡ 0 → (thread_at thread tables.now).last < 65535) }
{
    if !is_set_up(tables) {
        return Err(Refusal::OutOfRange);
    }
    if tables.size.threads <= thread {
        return Err(Refusal::NoThread);
    }
    if tables.cut {
        return Err(Refusal::AfterCut);
    }
    let depth = tables::depth_of(tables, thread);
    if MOST_DEPTH <= depth {
        return Err(Refusal::TooDeep);
    }
    if depth != 0 {
        return Ok(());
    }
    if MOST_NUMBER <= tables::last_of(tables, thread) {
        return Err(Refusal::NumbersSpent);
    }
    if MOST_MODIFIED as usize <= tables::count_modified(&tables.regions, thread) {
        return Err(Refusal::ModifiedFull);
    }
    if no_room_for(tables, thread) {
        return Err(Refusal::ChannelFull);
    }
    Ok(())
}

/// An end: 6, 3, 11, 12.
#[tactic(auto, unfolding(rules::specs::Refusal::refusal, rules::specs::Refusal::tests_of))]
pub fn test_end(tables: &Tables, thread: u8) -> Result<(), Refusal>
    ensures { code_of result ≡ refusal tables.now (End thread) }
{
    test_fence(tables, thread)?;
    if tables::depth_of(tables, thread) == 0 {
        return Err(Refusal::NoOpenRegion);
    }
    Ok(())
}

/// A read: 6, 3, 4, 5, 11, 12, 17, 19.
// Kept: a read and a write have their tests one behind the other, as `tests_of` lists them; with what they share in functions of their own no proof closed by the check's search.
#[tactic(auto, unfolding(rules::specs::Refusal::refusal, rules::specs::Refusal::tests_of))]
pub fn test_read(tables: &Tables, thread: u8, line: u8, word: u8) -> Result<(), Refusal>
    ensures code { code_of result ≡ refusal tables.now (Read thread line word) }
    ensures within { OnOk result (word < 8) }
{
    if !is_set_up(tables) {
        return Err(Refusal::OutOfRange);
    }
    if tables.size.threads <= thread {
        return Err(Refusal::NoThread);
    }
    if tables.size.lines <= line as u16 {
        return Err(Refusal::NoLine);
    }
    if LINE_WORDS <= word as usize {
        return Err(Refusal::NoWord);
    }
    if tables.cut {
        return Err(Refusal::AfterCut);
    }
    if tables::depth_of(tables, thread) == 0 {
        return Err(Refusal::NoOpenRegion);
    }
    let owner = other_owner(tables, thread, line);
    if is_foreign_open(tables, thread, owner) {
        return Err(Refusal::Owned);
    }
    if lacks_dep(tables, tables::current(tables, thread), owner) {
        return Err(Refusal::DependencesFull);
    }
    Ok(())
}

/// A write, before its last two tests: 6, 3, 4, 5, 27, 11, 12, 17, 25, 18, 19. Where it passes them, its refusal is what the last two say.
// Kept: as `test_read`.
#[tactic(auto, unfolding(rules::specs::Refusal::refusal, rules::specs::Refusal::tests_of, rules::specs::Access::needs_log))]
pub fn test_write(
    tables: &Tables,
    thread: u8,
    line: u8,
    word: u8,
    mask: u8,
    value: u64,
) -> Result<(), Refusal>
    ensures code { code_of result ≡ first_bad (before 20 (tests_of tables.now (Write thread line word mask value))) }
    ensures refused { IfErr result (λ r. code r ≡ refusal tables.now (Write thread line word mask value)) }
    ensures passed { OnOk result (late thread line tables.now ≡ refusal tables.now (Write thread line word mask value)) }
{
    if !is_set_up(tables) {
        return Err(Refusal::OutOfRange);
    }
    if tables.size.threads <= thread {
        return Err(Refusal::NoThread);
    }
    if tables.size.lines <= line as u16 {
        return Err(Refusal::NoLine);
    }
    if LINE_WORDS <= word as usize {
        return Err(Refusal::NoWord);
    }
    if mask == 0 {
        return Err(Refusal::NoByte);
    }
    if tables.cut {
        return Err(Refusal::AfterCut);
    }
    if tables::depth_of(tables, thread) == 0 {
        return Err(Refusal::NoOpenRegion);
    }
    let owner = other_owner(tables, thread, line);
    if is_foreign_open(tables, thread, owner) {
        return Err(Refusal::Owned);
    }
    if tables::read_elsewhere(tables, thread, line) {
        return Err(Refusal::BeingRead);
    }
    let key = tables::current(tables, thread);
    if is_held_up(tables, key, line) {
        return Err(Refusal::Locked);
    }
    if lacks_dep(tables, key, owner) {
        return Err(Refusal::DependencesFull);
    }
    Ok(())
}

// Setup, line and cut: what both acknowledgements are tested for before 22.
#[tactic(auto, unfolding(rules::specs::Refusal::tests_of))]
fn test_ack(tables: &Tables, line: u8) -> Result<(), Refusal>
    ensures { code_of result ≡ first_bad (before 22 (tests_of tables.now (LogAck line))) }
{
    if !is_set_up(tables) {
        return Err(Refusal::OutOfRange);
    }
    if tables.size.lines <= line as u16 {
        return Err(Refusal::NoLine);
    }
    if tables.cut {
        return Err(Refusal::AfterCut);
    }
    Ok(())
}

/// A log acknowledgement: 6, 4, 11, 22.
#[tactic(auto, unfolding(rules::specs::Refusal::refusal, rules::specs::Refusal::tests_of))]
pub fn test_log_ack(tables: &Tables, line: u8) -> Result<(), Refusal>
    ensures { code_of result ≡ refusal tables.now (LogAck line) }
{
    test_ack(tables, line)?;
    if !tables.lock[line as usize] {
        return Err(Refusal::NotInFlight);
    }
    Ok(())
}

/// A data acknowledgement: 6, 4, 11, 22.
#[tactic(auto, unfolding(rules::specs::Refusal::refusal, rules::specs::Refusal::tests_of))]
pub fn test_data_ack(tables: &Tables, line: u8) -> Result<(), Refusal>
    ensures { code_of result ≡ refusal tables.now (DataAck line) }
{
    test_ack(tables, line)?;
    if !tables::is_in_flight(tables, line) {
        return Err(Refusal::NotInFlight);
    }
    Ok(())
}

/// A fence: 6, 3, 11.
#[tactic(auto, unfolding(rules::specs::Refusal::refusal, rules::specs::Refusal::tests_of))]
pub fn test_fence(tables: &Tables, thread: u8) -> Result<(), Refusal>
    ensures { code_of result ≡ refusal tables.now (Fence thread) }
{
    if !is_set_up(tables) {
        return Err(Refusal::OutOfRange);
    }
    let threads = tables.size.threads;
    if threads <= thread {
        return Err(Refusal::NoThread);
    }
    if tables.cut {
        return Err(Refusal::AfterCut);
    }
    Ok(())
}

/// A cut: 6, 11.
#[tactic(auto, unfolding(rules::specs::Refusal::refusal, rules::specs::Refusal::tests_of))]
pub fn test_cut(tables: &Tables) -> Result<(), Refusal>
    ensures { code_of result ≡ refusal tables.now Cut }
{
    if !is_set_up(tables) {
        return Err(Refusal::OutOfRange);
    }
    let cut = tables.cut;
    if cut {
        return Err(Refusal::AfterCut);
    }
    Ok(())
}
