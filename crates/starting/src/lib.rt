#![tactic(auto)]

//! The board before setup, over zero or lent starting memory.
ghost use Rattle.std.specs.Prelude.{◌≡◌};
ghost use Rattle.rules.specs.Tables.{fresh, fresh_tables, no_entry, no_region, no_thread, start_lines, Lent, Zero};
ghost use Rattle.starting.specs.Lend.{lent};

use measures::{
    LINE_BYTES, LINE_WORDS, Lines, MOST_ENTRIES, MOST_LINES, MOST_LOGGED, MOST_REGIONS,
    MOST_THREADS,
};
use rules::{Board, Entry, Region, Size, Tables, Thread};

// ---- the tables

fn no_entry() -> Entry
    ensures { result ≡ no_entry }
{
    Entry::default()
}

fn no_thread() -> Thread
    ensures { result ≡ no_thread }
{
    Thread {
        log: [no_entry(); MOST_ENTRIES],
        ..Thread::default()
    }
}

fn no_region() -> Region
    ensures { result ≡ no_region }
{
    Region::default()
}

/// The tables before setup: no owner, no lock and empty lists. `zero` says whether the starting memory is zero, `lent` is the length in bytes of a lent one.
// Kept: `fresh_tables` of crate rules takes it so, and `Size` has a field of that name.
pub fn fresh_tables(zero: bool, lent: u64) -> Tables
    ensures { result ≡ fresh_tables zero lent }
{
    Tables {
        size: Size {
            zero,
            lent,
            ..Size::default()
        },
        cut: false,
        clock: 0,
        threads: [no_thread(); MOST_THREADS],
        regions: [no_region(); MOST_REGIONS],
        owner: [0; MOST_LINES],
        lock: [false; MOST_LINES],
    }
}

// ---- the starting memory

/// Loads lent memory into a memory of lines, whatever that held. A line that the lent memory does not hold whole is zero.
#[tactic(auto, using(crate::proofs::Laws::fill_end), unfolding(rules::specs::Tables::start_lines))]
pub fn load(memory: &[u8], m: &mut Lines)
    ensures { m.new ≡ start_lines (Lent memory.now) }
{
    for (i, line) in m.iter_mut().enumerate() {
        *line = lines::take_line(memory, LINE_BYTES * i);
    }
}

// ---- the board

/// The board before setup over zero memory: "with no owner, no lock and empty lists".
#[tactic(auto, unfolding(rules::specs::Tables::fresh, rules::specs::Tables::start_lines))]
pub fn zero() -> Board
    ensures { result ≡ fresh Zero }
{
    Board {
        tables: fresh_tables(true, 0),
        cur: [[0; LINE_WORDS]; MOST_LINES],
        med: [[0; LINE_WORDS]; MOST_LINES],
        log_lines: [[0; LINE_WORDS]; MOST_LOGGED],
        car: [[0; LINE_WORDS]; MOST_LINES],
    }
}

/// Lends starting memory to a board: current memory and the medium "both begin as it". Where the board stands before setup over zero memory, that is all there is to
/// do; log and carried lines stay as they are.
#[tactic(auto, unfolding(rules::specs::Tables::fresh))]
pub fn lend(board: &mut Board, memory: &[u8])
    ensures all { board.new ≡ lent memory.now board.old }
    ensures fresh { board.old ≡ fresh Zero → board.new ≡ fresh (Lent memory.now) }
{
    board.tables.size.zero = false;
    board.tables.size.lent = memory.len() as u64;
    load(memory, &mut board.cur);
    board.med = board.cur;
}

/// Resets a board, whatever it held, to the one before setup over lent memory. A board is large; this one stays where it stands.
#[tactic(auto, unfolding(rules::specs::Tables::fresh))]
pub fn reset(board: &mut Board, memory: &[u8])
    ensures { board.new ≡ fresh (Lent memory.now) }
{
    board.tables = fresh_tables(false, memory.len() as u64);
    board.log_lines = [[0; LINE_WORDS]; MOST_LOGGED];
    board.car = [[0; LINE_WORDS]; MOST_LINES];
    lend(board, memory);
}

/// The board before setup over lent memory.
pub fn fresh(memory: &[u8]) -> Board
    ensures { result ≡ fresh (Lent memory.now) }
{
    let mut board = zero();
    reset(&mut board, memory);
    board
}
