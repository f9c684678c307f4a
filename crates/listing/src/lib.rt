#![tactic(auto)]

//! The tables as bytes in a fixed layout, into a lent buffer.
ghost use Rattle.std.specs.Prelude.{ℕ, ◌≡◌, IsTrue, Bool, List, [], ◌∷◌, length};
ghost use Rattle.output.specs.Writer.{Puts};
ghost use Rattle.rules.specs.Bytes.{bytes_of};
ghost use Rattle.rules.specs.Lists.{all, flat};
ghost use Rattle.rules.specs.Run.{Wrote};
ghost use Rattle.listing.specs.Layout.{count_byte, entry_bytes, flag, head_bytes, region_bytes, slot_bytes, state_byte, tables_bytes, tables_into, thread_bytes};
ghost use Rattle.listing.specs.Claim.{Fixed, Long, OneTables, Worked, long_region, long_thread};

use output::Writer;
use rules::{Answer, Entry, Refusal, Region, Slot, SlotState, Tables, Thread};

/// The bytes of all tables.
const TABLES_BYTES: usize = 5130;

/// What has bytes in the layout.
trait Put {
    ghost bytes: { Self → List ℕ };

    fn put(&self, out: &mut Writer<'_>)
        ensures { Puts out.old (bytes self.now) out.new };
}

#[tactic(auto, using(crate::proofs::Bytes::elements))]
fn put_each<T: Put>(items: &[T], out: &mut Writer<'_>)
    ensures { Puts out.old (flat T.bytes items.now) out.new }
{
    for item in items {
        item.put(out);
    }
}

// ---- flags and numbers

impl Put for bool {
    ghost bytes = { λ b. flag b ∷ [] };

    fn put(&self, out: &mut Writer<'_>) {
        out.put_byte(u8::from(*self));
    }
}

impl Put for u32 {
    ghost bytes = { bytes_of 4 };

    fn put(&self, out: &mut Writer<'_>) {
        out.put_le(u64::from(*self), 4);
    }
}

impl Put for u64 {
    ghost bytes = { bytes_of 8 };

    fn put(&self, out: &mut Writer<'_>) {
        out.put_le(*self, 8);
    }
}

// ---- a region

// Kept: a slot that waits holds its count, so no cast gives a state's number, and a second enum without it is no plainer.
fn state_byte(state: SlotState) -> u8
    ensures { result ≡ state_byte state }
{
    match state {
        SlotState::Empty => 0,
        SlotState::Waiting(_) => 1,
        SlotState::InFlight => 2,
    }
}

fn count_byte(state: SlotState) -> u8
    ensures { result ≡ count_byte state }
{
    match state {
        SlotState::Waiting(count) => count,
        SlotState::Empty | SlotState::InFlight => 0,
    }
}

impl Put for Slot {
    ghost bytes = { slot_bytes };

    #[tactic(auto, using(crate::proofs::Bytes::parts), unfolding(crate::specs::Layout::slot_bytes))]
    fn put(&self, out: &mut Writer<'_>) {
        out.put_byte(self.line);
        out.put_byte(state_byte(self.state));
        out.put_byte(count_byte(self.state));
    }
}

impl Put for Region {
    ghost bytes = { region_bytes };

    #[tactic(auto, using(crate::proofs::Bytes::parts), unfolding(crate::specs::Layout::region_bytes, crate::specs::Layout::front_bytes))]
    fn put(&self, out: &mut Writer<'_>) {
        self.key.put(out);
        out.put_byte(self.channel);
        self.ended.put(out);
        self.done.put(out);
        self.stamp.put(out);
        put_each(&self.deps, out);
        out.put_all(&self.recent);
        put_each(&self.slots, out);
    }
}

// ---- a thread

impl Put for Entry {
    ghost bytes = { entry_bytes };

    #[tactic(auto, using(crate::proofs::Bytes::parts), unfolding(crate::specs::Layout::entry_bytes))]
    fn put(&self, out: &mut Writer<'_>) {
        self.key.put(out);
        out.put_byte(self.line);
        out.put_byte(self.rank);
        self.persistent.put(out);
    }
}

impl Put for Thread {
    ghost bytes = { thread_bytes };

    #[tactic(auto, using(crate::proofs::Bytes::parts), unfolding(crate::specs::Layout::thread_bytes))]
    fn put(&self, out: &mut Writer<'_>) {
        out.put_byte(self.depth);
        out.put_le(u64::from(self.last), 2);
        put_each(&self.reads, out);
        put_each(&self.log, out);
    }
}

// ---- the tables

#[tactic(auto, using(crate::proofs::Bytes::parts), unfolding(crate::specs::Layout::head_bytes))]
fn put_head(tables: &Tables, out: &mut Writer<'_>)
    ensures { Puts out.old (head_bytes tables.now) out.new }
{
    let size = &tables.size;
    out.put_byte(size.threads);
    out.put_le(u64::from(size.lines), 2);
    size.shares.parties.put(out);
    out.put_le(u64::from(size.shares.reserves), 2);
    tables.cut.put(out);
    tables.clock.put(out);
}

impl Put for Tables {
    ghost bytes = { tables_bytes };

    #[tactic(auto, using(crate::proofs::Bytes::parts), unfolding(crate::specs::Layout::tables_bytes))]
    fn put(&self, out: &mut Writer<'_>) {
        put_head(self, out);
        put_each(&self.threads, out);
        put_each(&self.regions, out);
        put_each(&self.owner, out);
        put_each(&self.lock, out);
    }
}

// ---- lengths: no code, and the facts for `put_tables`

// An array has its length.
fn is_full<T, const N: usize>(items: &[T; N])
    ensures { length items.now ≡ N }
{}

/// What has lists of fixed lengths.
trait Whole {
    ghost is_whole: { Self → Bool };

    fn whole(&self)
        ensures { IsTrue (is_whole self.now) };
}

impl Whole for Thread {
    ghost is_whole = { long_thread };

    fn whole(&self) {
        is_full(&self.reads);
        is_full(&self.log);
    }
}

impl Whole for Region {
    ghost is_whole = { long_region };

    fn whole(&self) {
        is_full(&self.deps);
        is_full(&self.recent);
        is_full(&self.slots);
    }
}

fn all_whole<T: Whole>(items: &[T])
    ensures { IsTrue (all T.is_whole items.now) }
{
    for item in items {
        item.whole();
    }
}

fn tables_long(tables: &Tables)
    ensures { Long tables.now }
{
    is_full(&tables.threads);
    all_whole(&tables.threads);
    is_full(&tables.regions);
    all_whole(&tables.regions);
    is_full(&tables.owner);
    is_full(&tables.lock);
}

// ---- the call

/// The tables at the front of a buffer. The value is the number of their bytes, 5,130; refused with 6 and nothing written if the buffer is shorter.
#[tactic(auto, using(crate::proofs::Call::tables_short, crate::proofs::Call::tables_whole))]
pub fn put_tables(tables: &Tables, out: &mut [u8]) -> Answer
    ensures { ◌≡◌ {A = Wrote} (record { answer = result; buffer = out.new }) (tables_into tables.now out.old) }
{
    tables_long(tables);
    if out.len() < TABLES_BYTES {
        return Answer::from(Err(Refusal::OutOfRange));
    }
    let mut writer = Writer::new(out, 0);
    tables.put(&mut writer);
    Answer::from(Ok(TABLES_BYTES as u64))
}

/// The layout is fixed, as the worked cases have it, and tells the tables.
pub fn listing_is_right()
    ensures { Fixed × (Worked × OneTables) }
{}
