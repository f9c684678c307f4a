#![tactic(auto)]

// The tables of the board and its events, as plain structs and enums. The definitions of specs/ and the programs of the other crates work on these same types.
//
// A region's key is 65536 * thread + number; 0 is no region. A place of a list that holds the key 0 is free, and what a free place holds is each struct's default.
// Kept: `ended`, `done`, `persistent`, `cut` and `zero` are what document 01 says of a region, an entry, the board and its memory, and definitions name them (`done_region`, `commits`, `kept_entry`,
// `tests_of`, `fits`).
ghost use Rattle.std.specs.Prelude.{◌≡◌};
ghost use Rattle.rules.specs.Claim.{Demand3, OnlyImage, ReadsBack};
ghost use Rattle.rules.specs.Codes.{answered, code};

// A slot is empty, waits with its count, or is in flight.
#[derive(Clone, Copy, PartialEq, Eq, Default)]
pub enum SlotState {
    #[default]
    Empty,
    Waiting(u8),
    InFlight,
}

// A line that a region has yet to bring to the medium.
#[derive(Clone, Copy, Default)]
pub struct Slot {
    pub line: u8,
    pub state: SlotState,
}

// An uncommitted region. Every region listed here is in the dependence list; those that are not done are the modified list. Its entry is in `channel`.
// `stamp` tells which region ended first. `deps` are the keys of the regions on which it depends, 0 for a free place. `recent` are the last four different
// lines that it wrote, the newest first; a place behind them holds 0.
#[derive(Clone, Copy, Default)]
pub struct Region {
    pub key: u32,
    pub channel: u8,
    pub ended: bool,
    pub done: bool,
    pub stamp: u32,
    pub deps: [u32; measures::MOST_DEPS],
    pub recent: [u8; measures::MOST_RECENT],
    pub slots: [Slot; measures::MOST_SLOTS],
}

// A log entry: region `key` logged the old line. It is in flight until it is persistent. `rank` is the number of entries that its region wrote before it.
// The old line itself stands in the memory of old lines, entry k of thread t at 32 * t + k.
#[derive(Clone, Copy, Default)]
pub struct Entry {
    pub key: u32,
    pub line: u8,
    pub rank: u8,
    pub persistent: bool,
}

// A thread: its depth, the number of its last region, its log. `reads` has a bit for each line, set where the thread's open region has read the line.
#[derive(Clone, Copy, Default)]
pub struct Thread {
    pub depth: u8,
    pub last: u16,
    pub log: [Entry; measures::MOST_ENTRIES],
    pub reads: [u64; measures::READ_WORDS],
}

// How the threads share the dependence list. `parties` are eight bytes, the party of each thread, and `reserves` two, the reserve of each party; the
// low byte is that of thread 0 and of party 0.
#[derive(Clone, Copy, Default)]
pub struct Shares {
    pub parties: u64,
    pub reserves: u16,
}

// The numbers of the setup, 0 before it: T, L, the parties and reserves; and the starting memory, which is zero or lent with a length in bytes.
#[derive(Clone, Copy, Default)]
pub struct Size {
    pub threads: u8,
    pub lines: u16,
    pub shares: Shares,
    pub zero: bool,
    pub lent: u64,
}

// All tables. `clock` counts the regions that ended. A line's owner is the last region that wrote it, committed or not.
#[derive(Clone, Copy)]
pub struct Tables {
    pub size: Size,
    pub cut: bool,
    pub clock: u32,
    pub threads: [Thread; measures::MOST_THREADS],
    pub regions: [Region; measures::MOST_REGIONS],
    pub owner: [u32; measures::MOST_LINES],
    pub lock: [bool; measures::MOST_LINES],
}

// The whole board: the tables and the four memories of lines. Current memory, the medium, the old lines of the log (entry k of thread t at 32 * t + k), and the line
// that the flight of each line carries ("at most one flight per line exists").
#[derive(Drop)]
pub struct Board {
    pub tables: Tables,
    pub cur: measures::Lines,
    pub med: measures::Lines,
    pub log_lines: measures::OldLines,
    pub car: measures::Lines,
}

// An event: thread, line, word, mask and value as far as its kind has them, in the order of its record. A write of a whole word has the mask 255.
#[derive(Clone, Copy)]
pub enum Event {
    Setup(u8, u16, Shares),
    Begin(u8),
    End(u8),
    Read(u8, u8, u8),
    Write(u8, u8, u8, u8, u64),
    LogAck(u8),
    DataAck(u8),
    Fence(u8),
    Cut,
}

/// Why a record, a file or an image is refused: the refusals of events, images and calls, each with its number. The same numbers stand in include/board.h.
#[derive(Clone, Copy, PartialEq, Eq)]
pub enum Refusal {
    /// A record cut short, or an image without its end record.
    CutShort = 1,
    UnknownKind = 2,
    NoThread = 3,
    NoLine = 4,
    NoWord = 5,
    /// T, L or the length of a memory, a second setup or none yet, no accepted cut, a buffer that is too short, a place not of eight bytes.
    OutOfRange = 6,
    /// A record of an image out of its place or order, or too many.
    OutOfPlace = 7,
    /// An image that contradicts itself.
    Contradiction = 8,
    AfterCut = 11,
    NoOpenRegion = 12,
    TooDeep = 13,
    NumbersSpent = 14,
    ModifiedFull = 15,
    ChannelFull = 16,
    /// The line's owner is another thread's open region.
    Owned = 17,
    Locked = 18,
    DependencesFull = 19,
    SlotsFull = 20,
    LogFull = 21,
    NotInFlight = 22,
    UnfitParties = 24,
    /// Another thread's open region has read the line.
    BeingRead = 25,
    /// A mask of 0.
    NoByte = 27,
}

impl Refusal {
    /// The number by which a refusal is told, never 0.
    pub fn number(self) -> u8
        ensures { result ≡ code self }
    {
        self as u8
    }
}

/// The answer to an event, a save or a recovery step: a refusal, 0 for accepted, and a value, 0 with every refusal.
// Kept: the C interface, `board_answer` of include/board.h.
#[repr(C)]
#[derive(Clone, Copy)]
pub struct Answer {
    pub refusal: u8,
    pub value: u64,
}

impl From<Result<u64, Refusal>> for Answer {
    ghost from_gives = { λ r a. a ≡ answered r };

    fn from(outcome: Result<u64, Refusal>) -> Answer {
        match outcome {
            Ok(value) => Answer { refusal: 0, value },
            Err(refusal) => Answer {
                refusal: refusal.number(),
                value: 0,
            },
        }
    }
}

// An entry of the dependence list in an image: state 0 in progress, 1 done; four keys in rising order, empty ones last as 0.
// Kept: the state is an image's byte, of any value; `is_unknown_state` asks it.
#[derive(Clone, Copy)]
pub struct Listed {
    pub key: u32,
    pub state: u8,
    pub deps: [u32; measures::MOST_DEPS],
}

// A log entry of an image by its region and line; its old line stays in the image, at the place `at`. No image that is accepted has 65536 bytes.
#[derive(Clone, Copy)]
pub struct Mark {
    pub key: u32,
    pub line: u8,
    pub at: u16,
}

// Demand 3: after every list of events, an accepted cut, and every list of recovery steps and cuts, recovery leaves the expected memory.
pub fn recovery_is_right()
    ensures { Demand3 }
{}

// A saved image reads back to the same persistent state, and is the only image of it.
pub fn image_is_right()
    ensures { ReadsBack × OnlyImage }
{}
