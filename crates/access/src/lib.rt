#![tactic(auto)]

// What a read and a write do, where the board stands. Each answers for every value of its arguments; a thread above 7 has no log and no marks.
// Kept: thread, line, word, mask and value travel as the record has them, `Event::Write` of crate rules, and each function looks at some of them alone: a struct of them is no plainer.
ghost use Rattle.std.specs.Prelude.{◌≡◌, ◌<◌, ◌&&◌, cond, not, position, count_by, IfOk, IfSome, OnOk, OnErr};
ghost use Rattle.undo.specs.Table.{any};
ghost use Rattle.rules.specs.Tables.{region_at, thread_at};
ghost use Rattle.rules.specs.Access.{change_line, is_of, logged, logged_once, needs_log, note_read, read, stored_in, write, wrote};
ghost use Rattle.rules.specs.Slots.{is_full, slot_for};
ghost use Rattle.rules.specs.Codes.{code_of};
ghost use Rattle.lookup.specs.Place.{IsPlace};
ghost use Rattle.refusals.specs.Order.{late};
ghost use Rattle.access.specs.Log.{IsAdded, entered};

use measures::{Lines, MOST_ENTRIES, MOST_THREADS};
use rules::{Board, Entry, Refusal, Region, Tables};

// ---- read

// "If the line's owner is uncommitted and not the current region, it joins the current region's dependences"
fn depend(tables: &mut Tables, key: u32, line: u8)
    ensures { tables.new ≡ read key line tables.old }
{
    let dep = tables::dependence(&tables.regions, tables.owner[line as usize], key);
    if let Some(at) = tables::place_of(&tables.regions, key) {
        lookup::join(&mut tables.regions[at].deps, dep);
    }
}

/// What a read of a line by region `key` of a thread does: the line's owner becomes a dependence, and the line is marked as read.
pub fn read(tables: &mut Tables, thread: u8, key: u32, line: u8)
    ensures { tables.new ≡ note_read thread line (read key line tables.old) }
{
    depend(tables, key, line);
    tables::note_read(tables, thread, line);
}

// ---- the log

fn count_entries(log: &[Entry; MOST_ENTRIES], key: u32) -> usize
    ensures { result ≡ count_by (is_of key) log.now }
{
    log.iter().filter(|entry| entry.key == key).count()
}

// Kept: as `first_unheld` of crate tables.
fn first_free(log: &[Entry; MOST_ENTRIES]) -> Option<usize>
    ensures { result ≡ position (is_of 0) log.now }
{
    log.iter().position(|entry| entry.key == 0)
}

#[tactic(auto, using(lookup::proofs::Lists::is_place))]
fn free_entry(log: &[Entry; MOST_ENTRIES]) -> Option<usize>
    ensures place { IsPlace (is_of 0) log.now result }
    ensures within { IfSome result (λ at. at < 32) }
{
    first_free(log)
}

// An entry of region `key` for the line, in flight, takes the first free place; the log stays as it is where none is free.
fn add_entry(log: &mut [Entry; MOST_ENTRIES], key: u32, line: u8) -> Option<usize>
    ensures added { IsAdded key line log.old log.new result }
    ensures within { IfSome result (λ at. at < 32) }
{
    let at = free_entry(log)?;
    let rank = count_entries(log, key) as u8;
    log[at] = Entry {
        key,
        line,
        rank,
        persistent: false,
    };
    Some(at)
}

// "the whole old line becomes a log entry, in flight": refusal 21 where the log is full. A thread above 7 has no place for one, and nothing changes.
fn keep_old_line(board: &mut Board, thread: u8, key: u32, line: u8) -> Result<(), Refusal>
    ensures entered { OnOk result (board.new ≡ entered thread key line board.old) }
    ensures kept { OnErr result (board.new ≡ board.old) }
    ensures code { code_of result ≡ cond (not (any (is_of 0) (thread_at thread board.old.tables).log)) 21 0 }
{
    tables::threads_are_eight(&board.tables.threads);
    if MOST_THREADS <= thread as usize {
        return Ok(());
    }
    let Some(at) = add_entry(&mut board.tables.threads[thread as usize].log, key, line) else {
        return Err(Refusal::LogFull);
    };
    board.log_lines[MOST_ENTRIES * thread as usize + at] = board.cur[line as usize];
    Ok(())
}

// "the current region becomes owner, the line is locked, and the whole old line becomes a log entry"
#[tactic(auto, unfolding(rules::specs::Access::logged))]
fn log_line(board: &mut Board, thread: u8, key: u32, line: u8) -> Result<(), Refusal>
    ensures logged { OnOk result (board.new ≡ logged thread key line board.old) }
    ensures kept { OnErr result (board.new ≡ board.old) }
    ensures code { code_of result ≡ cond (not (any (is_of 0) (thread_at thread board.old.tables).log)) 21 0 }
{
    keep_old_line(board, thread, key, line)?;
    board.tables.owner[line as usize] = key;
    board.tables.lock[line as usize] = true;
    Ok(())
}

// A line that the region owns is logged already.
#[tactic(auto, unfolding(rules::specs::Access::needs_log))]
fn log_once(board: &mut Board, thread: u8, key: u32, line: u8) -> Result<(), Refusal>
    ensures logged { OnOk result (board.new ≡ logged_once thread key line board.old) }
    ensures kept { OnErr result (board.new ≡ board.old) }
    ensures code { code_of result ≡ cond (needs_log key line board.old.tables && not (any (is_of 0) (thread_at thread board.old.tables).log)) 21 0 }
{
    if board.tables.owner[line as usize] == key {
        return Ok(());
    }
    log_line(board, thread, key, line)
}

// ---- write

// Region `key` as a write of the line leaves it; refusal 20 where no slot is free.
fn wrote(tables: &Tables, key: u32, line: u8) -> Result<Region, Refusal>
    ensures region { IfOk result (λ r. r ≡ wrote key line tables.now (region_at key tables.now.regions)) }
    ensures code { code_of result ≡ cond (is_full (slot_for line (region_at key tables.now.regions).slots)) 20 0 }
{
    let mut region = tables::region_at(&tables.regions, key);
    let dep = tables::dependence(&tables.regions, tables.owner[line as usize], key);
    lookup::join(&mut region.deps, dep);
    slots::take_slot(&mut region, line)?;
    Ok(region)
}

fn store(cur: &mut Lines, line: u8, word: u8, mask: u8, value: u64)
    ensures { cur.new ≡ change_line line (stored_in word mask value) cur.old }
{
    let before = lines::line_of(cur, line);
    lines::set_line(
        cur,
        line,
        lines::store_bytes(before, word as usize, mask, value),
    );
}

/// What a write does that has passed its tests before 20: the last two, and then the log entry, the region's slots and dependences, the bytes of the mask's bits, and
/// what flies. A refusal, 20 or 21, leaves the board as it was.
pub fn write(
    board: &mut Board,
    thread: u8,
    line: u8,
    word: u8,
    mask: u8,
    value: u64,
) -> Result<(), Refusal>
    ensures done { OnOk result (board.new ≡ write thread line (stored_in word mask value) board.old) }
    ensures kept { OnErr result (board.new ≡ board.old) }
    ensures code { code_of result ≡ late thread line board.old.tables }
{
    let key = tables::current(&board.tables, thread);
    let region = wrote(&board.tables, key, line)?;
    log_once(board, thread, key, line)?;
    tables::put_region(&mut board.tables, key, region);
    store(&mut board.cur, line, word, mask, value);
    tables::fly(board, key);
    Ok(())
}
