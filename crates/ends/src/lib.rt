#![tactic(auto)]

// What an end and the acknowledgements do where the board stands, before regions become done and commit. Each answers for every value of its arguments; a thread above
// 7 has nothing that could change.
ghost use Rattle.std.specs.Prelude.{◌≡◌, ◌-◌, map};
ghost use Rattle.rules.specs.Tables.{no_reads, with_depth, with_reads};
ghost use Rattle.rules.specs.End.{closed, end_region, outside, shallower};
ghost use Rattle.rules.specs.Acknowledge.{data_ack, dropped, kept_entry, log_ack, unlocked};

use measures::{MOST_ENTRIES, MOST_REGIONS, MOST_THREADS, NUMBERS, READ_WORDS};
use rules::{Board, Entry, Region, Tables, Thread};

// ---- end

// Back at depth 0 what the thread has read counts no more.
fn leave(thread: &mut Thread)
    ensures { thread.new ≡ with_reads no_reads (with_depth (thread.old.depth - 1) thread.old) }
{
    thread.depth = thread.depth.saturating_sub(1);
    thread.reads = [0; READ_WORDS];
}

#[tactic(auto, unfolding(rules::specs::End::outside))]
fn outside(tables: &mut Tables, thread: u8)
    ensures { tables.new ≡ outside thread tables.old }
{
    tables::threads_are_eight(&tables.threads);
    if (thread as usize) < MOST_THREADS {
        leave(&mut tables.threads[thread as usize]);
    }
}

// Region `key` has ended, behind all that ended before it.
fn close(tables: &mut Tables, key: u32)
    ensures { tables.new ≡ closed key tables.old }
{
    tables.clock = tables.clock.wrapping_add(1);
    if let Some(at) = tables::place_of(&tables.regions, key) {
        let clock = tables.clock;
        let region = &mut tables.regions[at];
        region.ended = true;
        region.stamp = clock;
    }
}

/// An end at depth 1: the thread's region ends, and its slots fly.
#[tactic(auto, unfolding(rules::specs::End::end_region))]
pub fn end_region(board: &mut Board, thread: u8)
    ensures { board.new ≡ end_region thread board.old }
{
    let key = tables::current(&board.tables, thread);
    outside(&mut board.tables, thread);
    close(&mut board.tables, key);
    tables::fly(board, key);
}

/// An end at any other depth: only the depth falls.
pub fn shallower(tables: &mut Tables, thread: u8)
    ensures { tables.new ≡ shallower thread tables.old }
{
    tables::threads_are_eight(&tables.threads);
    if (thread as usize) < MOST_THREADS {
        let thread = &mut tables.threads[thread as usize];
        thread.depth = thread.depth.saturating_sub(1);
    }
}

// ---- acknowledgements

// Kept: as `drop_slots` of crate slots.
#[tactic(auto, using(lookup::proofs::Lists::turn))]
fn drop_flights(regions: &mut [Region; MOST_REGIONS], key: u32, line: u8)
    ensures { regions.new ≡ map (dropped key line) regions.old }
{
    for region in regions {
        slots::drop_flight(region, key, line);
    }
}

#[tactic(auto, unfolding(rules::specs::Acknowledge::kept_entry))]
fn keep_entry(entry: &mut Entry, key: u32, line: u8)
    ensures { entry.new ≡ kept_entry key line entry.old }
{
    if entry.key == key && entry.line == line {
        entry.persistent = true;
    }
}

// Kept: as `drop_slots` of crate slots.
#[tactic(auto, using(lookup::proofs::Lists::turn))]
fn keep_entries(log: &mut [Entry; MOST_ENTRIES], key: u32, line: u8)
    ensures { log.new ≡ map (kept_entry key line) log.old }
{
    for entry in log {
        keep_entry(entry, key, line);
    }
}

fn unlock(tables: &mut Tables, key: u32, line: u8)
    ensures { tables.new ≡ unlocked key line tables.old }
{
    drop_flights(&mut tables.regions, key, line);
    tables.lock[line as usize] = false;
    let thread = (key / NUMBERS) as usize;
    tables::threads_are_eight(&tables.threads);
    if thread < MOST_THREADS {
        keep_entries(&mut tables.threads[thread].log, key, line);
    }
}

/// A log acknowledgement of a line: it is unlocked, its log entry is persistent, flights of other regions on it are dropped, and its owner's slots fly.
#[tactic(auto, unfolding(rules::specs::Acknowledge::log_ack))]
pub fn log_ack(board: &mut Board, line: u8)
    ensures { board.new ≡ log_ack line board.old }
{
    let key = board.tables.owner[line as usize];
    unlock(&mut board.tables, key, line);
    tables::fly(board, key);
}

/// A data acknowledgement of a line: the carried line is in the medium, and the slot that was in flight is empty.
pub fn data_ack(board: &mut Board, line: u8)
    ensures { board.new ≡ data_ack line board.old }
{
    board.med[line as usize] = board.car[line as usize];
    if let Some(at) = tables::flight_place(&board.tables.regions, line) {
        slots::land(&mut board.tables.regions[at], line);
    }
}
