#![tactic(auto)]

// A region's slots where they stand: the one pass that gives a write its slot and every count, flights, and what an acknowledgement takes away.
ghost use Rattle.std.specs.Prelude.{◌≡◌, ◌<◌, cond, eqb, map, position, set, OnOk, IfSome};
ghost use Rattle.rules.specs.Lists.{place};
ghost use Rattle.rules.specs.Tables.{line_of, no_slot};
ghost use Rattle.rules.specs.Slots.{carried, carries, counted_slot, flies, flown_slot, flown_slots, has_slot, is_empty, is_full, is_ripe, names, or_at, renewed, slot_for};
ghost use Rattle.rules.specs.Access.{wrote_line};
ghost use Rattle.rules.specs.Acknowledge.{dropped, dropped_slot, landed};
ghost use Rattle.rules.specs.Codes.{code_of};
ghost use Rattle.undo.specs.Table.{any};
ghost use Rattle.lookup.specs.Place.{IsPlace};
ghost use Rattle.slots.specs.Pass.{OnePass, or_else};

use measures::{Lines, Locks, MOST_RECENT, MOST_SLOTS, RIPE_COUNT};
use rules::{Refusal, Region, Slot, SlotState};

// ---- what a slot is

fn no_slot() -> Slot
    ensures { result ≡ no_slot }
{
    Slot::default()
}

fn is_empty(slot: &Slot) -> bool
    ensures { result ≡ is_empty slot.now.state }
{
    slot.state == SlotState::Empty
}

// Whether the slot is in use for the line.
fn names(slot: &Slot, line: u8) -> bool
    ensures { result ≡ names line slot.now.state slot.now.line }
{
    slot.state != SlotState::Empty && slot.line == line
}

/// Whether the region has a slot.
pub fn has_slot(region: &Region) -> bool
    ensures { result ≡ has_slot region.now }
{
    region.slots.iter().any(|slot| !is_empty(slot))
}

/// Whether a slot of the region is in flight with the line.
pub fn has_flight(region: &Region, line: u8) -> bool
    ensures { result ≡ any (carries line) region.now.slots }
{
    region.slots.iter().any(|slot| lookup::carries(slot, line))
}

// ---- "the number of different other lines the region has written since its last write of this line, up to 4"

// One of two numbers: the compiler makes no branch of it.
fn either(first: bool, x: u8, y: u8) -> u8
    ensures { result ≡ cond first x y }
{
    if first { x } else { y }
}

/// The last four different lines after a write of a line: it goes to the front, and its former place, or the last, goes. A line moves back by one place
/// unless the written one stood before it.
// Kept: four places told apart without a branch; a loop over them would carry whether the line has passed, and is no plainer.
pub fn renewed(recent: [u8; MOST_RECENT], line: u8) -> [u8; MOST_RECENT]
    ensures { result ≡ renewed line recent }
{
    let first = recent[0] == line;
    let second = first | (recent[1] == line);
    let third = second | (recent[2] == line);
    [
        line,
        either(first, recent[1], recent[0]),
        either(second, recent[2], recent[1]),
        either(third, recent[3], recent[2]),
    ]
}

// The place of a line among the last four, 4 if it is not there: how many other lines were written since.
// Kept: four comparisons without a branch, for each of eight slots at each write; a search by `position` wants a function for `position`, one for `place` and this one, and is no plainer.
fn place_in(recent: &[u8; MOST_RECENT], line: u8) -> u8
    ensures { result ≡ place (eqb line) recent.now }
{
    let last = either(line == recent[3], 3, RIPE_COUNT);
    let third = either(line == recent[2], 2, last);
    let second = either(line == recent[1], 1, third);
    either(line == recent[0], 0, second)
}

// The slot's count when the last four different lines are these.
fn count_slot(slot: &mut Slot, recent: &[u8; MOST_RECENT])
    ensures { slot.new ≡ counted_slot recent.now slot.old }
{
    if let SlotState::Waiting(_) = slot.state {
        slot.state = SlotState::Waiting(place_in(recent, slot.line));
    }
}

// ---- request 4: "one walk over the region's slots shall give a write both its slot, or that none is free, and every new count"

// The first place that was hit: the one found before, or i.
fn or_at(found: Option<usize>, hit: bool, i: usize) -> Option<usize>
    ensures first { result ≡ or_at found hit i }
    ensures within { IfSome found (λ at. at < 8) → i < 8 → IfSome result (λ at. at < 8) }
{
    found.or(hit.then_some(i))
}

// The slot that names the line, else the first empty one.
fn or_else(named: Option<usize>, free: Option<usize>) -> Option<usize>
    ensures first { result ≡ or_else named free }
    ensures within { IfSome named (λ at. at < 8) → IfSome free (λ at. at < 8) → IfSome result (λ at. at < 8) }
{
    named.or(free)
}

/// The one pass over a region's slots for a write of a line, the newest of its last four different lines: the slot that the write takes, or that none is free,
/// and every slot with its new count. Each slot is looked at once, and all are, so that those behind the line's own have their counts too.
pub fn one_pass(
    slots: &mut [Slot; MOST_SLOTS],
    recent: &[u8; MOST_RECENT],
    line: u8,
) -> Option<usize>
    ensures pass { OnePass line recent.now slots.old result slots.new }
    ensures within { IfSome result (λ at. at < 8) }
{
    let mut named = None;
    let mut free = None;
    let mut i: usize = 0;
    // Kept: the list of forms by place (docs/DECISIONS.md) asks for a slot search that is a loop and yields its index by break.
    loop {
        if MOST_SLOTS <= i {
            break or_else(named, free);
        }
        named = or_at(named, names(&slots[i], line), i);
        free = or_at(free, is_empty(&slots[i]), i);
        count_slot(&mut slots[i], recent);
        i += 1;
    }
}

/// What a write of a line does to its region: the last four different lines, every count, and the line's slot, which waits with count 0. Refusal 20 where no
/// slot is free: then the region is changed all the same, and its caller lets it go.
pub fn take_slot(region: &mut Region, line: u8) -> Result<(), Refusal>
    ensures taken { OnOk result (region.new ≡ wrote_line line region.old) }
    ensures code { code_of result ≡ cond (is_full (slot_for line region.old.slots)) 20 0 }
{
    let before = region.recent;
    region.recent = renewed(before, line);
    let Some(at) = one_pass(&mut region.slots, &region.recent, line) else {
        return Err(Refusal::SlotsFull);
    };
    region.slots[at] = Slot {
        line,
        state: SlotState::Waiting(0),
    };
    Ok(())
}

// ---- the acknowledgements

fn drop_slot(slot: &mut Slot, line: u8)
    ensures { slot.new ≡ dropped_slot line slot.old }
{
    if lookup::carries(slot, line) {
        *slot = no_slot();
    }
}

// Kept: each loop that takes a step at every element stands beside its step, here and in crates commits and ends; one loop over any step would owe what its closure writes, and is no plainer.
#[tactic(auto, using(lookup::proofs::Lists::turn))]
fn drop_slots(slots: &mut [Slot; MOST_SLOTS], line: u8)
    ensures { slots.new ≡ map (dropped_slot line) slots.old }
{
    for slot in slots {
        drop_slot(slot, line);
    }
}

/// A log acknowledgement of a line that region `key` owns drops the line's flight in every other region.
#[tactic(auto, unfolding(rules::specs::Acknowledge::dropped))]
pub fn drop_flight(region: &mut Region, key: u32, line: u8)
    ensures { region.new ≡ dropped key line region.old }
{
    if region.key != key {
        drop_slots(&mut region.slots, line);
    }
}

fn first_carrier(slots: &[Slot; MOST_SLOTS], line: u8) -> Option<usize>
    ensures { result ≡ position (carries line) slots.now }
{
    slots.iter().position(|slot| lookup::carries(slot, line))
}

#[tactic(auto, using(lookup::proofs::Lists::is_place))]
fn carrier(slots: &[Slot; MOST_SLOTS], line: u8) -> Option<usize>
    ensures place { IsPlace (carries line) slots.now result }
    ensures within { IfSome result (λ at. at < 8) }
{
    first_carrier(slots, line)
}

/// A data acknowledgement empties the slot that is in flight with the line.
pub fn land(region: &mut Region, line: u8)
    ensures { region.new ≡ landed line region.old }
{
    if let Some(at) = carrier(&region.slots, line) {
        region.slots[at] = no_slot();
    }
}

// ---- "A waiting slot flies when its line is unlocked and its count is 4 or its region has ended"

fn is_ripe(state: SlotState, ended: bool) -> bool
    ensures { result ≡ is_ripe ended state }
{
    matches!(state, SlotState::Waiting(count) if count == RIPE_COUNT || ended)
}

// "It carries the line as it then stands"
// Kept: locks, current lines and carried lines are lent each by itself, since the region's slots are lent out of the same board.
fn fly_slot(slot: &mut Slot, ended: bool, lock: &Locks, cur: &Lines, car: &mut Lines)
    ensures slot { slot.new ≡ flown_slot lock.now ended slot.old }
    ensures carried { car.new ≡ cond (flies lock.now ended slot.old) (set car.old slot.old.line (line_of slot.old.line cur.now)) car.old }
{
    let line = slot.line as usize;
    if is_ripe(slot.state, ended) && !lock[line] {
        car[line] = cur[line];
        slot.state = SlotState::InFlight;
    }
}

/// The slots of a region fly where they can: a flight carries the line as it then stands.
// Kept: as in `fly_slot`.
pub fn fly(slots: &mut [Slot; MOST_SLOTS], ended: bool, lock: &Locks, cur: &Lines, car: &mut Lines)
    ensures slots { slots.new ≡ flown_slots lock.now ended slots.old }
    ensures carried { car.new ≡ carried lock.now ended slots.old cur.now car.old }
{
    for slot in slots {
        fly_slot(slot, ended, lock, cur, car);
    }
}
