#![tactic(auto)]

// The measures of document 01 as constants, and the types of what is lent to the board's functions. A type or a bound that names one is checked as its number.

// "Threads T: 1 to 8. Lines L: 1 to 256. A line is eight words of 8 bytes"
pub const MOST_THREADS: usize = 8;

// The threads, in their order.
pub const THREADS: [u8; MOST_THREADS] = [0, 1, 2, 3, 4, 5, 6, 7];

pub const MOST_LINES: usize = 256;

pub const LINE_WORDS: usize = 8;

pub const LINE_BYTES: usize = 8 * LINE_WORDS;

// Request 5: a bit for each line, in words of 64 bits.
pub const WORD_BITS: usize = 64;

pub const READ_WORDS: usize = MOST_LINES / WORD_BITS;

// Request 9: "all bits set", a bit for each byte of a word.
pub const WHOLE_WORD: u8 = 255;

// "Per thread: 4 regions in the modified list, 32 log entries, nesting depth 15, region numbers 1 to 65,535"
pub const MOST_MODIFIED: u8 = 4;

pub const MOST_ENTRIES: usize = 32;

// The log entries of all threads.
pub const MOST_LOGGED: usize = MOST_THREADS * MOST_ENTRIES;

pub const MOST_DEPTH: u8 = 15;

pub const MOST_NUMBER: u16 = 65535;

// A region's key is NUMBERS * thread + number.
pub const NUMBERS: u32 = 65536;

// "Per region: 8 line slots, 4 dependences"
pub const MOST_SLOTS: usize = 8;

pub const MOST_DEPS: usize = 4;

// "Dependence list: 32 entries shared by all threads"
pub const MOST_REGIONS: usize = 32;

// Request 8: "16 entries each", of two channels.
pub const MOST_IN_CHANNEL: usize = 16;

// "A waiting slot flies when its line is unlocked and its count is 4"
pub const RIPE_COUNT: u8 = 4;

// Request 2: a count goes up to 4, so that it is told by the last four different lines.
pub const MOST_RECENT: usize = RIPE_COUNT as usize;

// ---- what is lent

// Of each line its owner, whether it is locked, and its words.
pub type Owners = [u32; MOST_LINES];

pub type Locks = [bool; MOST_LINES];

pub type Line = [u64; LINE_WORDS];

pub type Lines = [Line; MOST_LINES];

// The old lines of the log: entry k of thread t at MOST_ENTRIES * t + k.
pub type OldLines = [Line; MOST_LOGGED];
