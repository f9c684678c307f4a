#![tactic(auto)]

// What a setup may carry, a region's dependences, and whether a slot carries a line: small tests and searches, on every value.
ghost use Rattle.std.specs.Prelude.{◌≡◌, eqb, position};
ghost use Rattle.rules.specs.Tables.{channel_of};
ghost use Rattle.rules.specs.Slots.{carries};
ghost use Rattle.rules.specs.Access.{is_had, joined, word_places};
ghost use Rattle.rules.specs.Bytes.{byte_of};
ghost use Rattle.rules.specs.Refusal.{in_range, is_no_party, is_unfit, no_room_for_dep, party_of, reserve_of};
ghost use Rattle.undo.specs.Table.{any};
ghost use Rattle.lookup.specs.Place.{IsPlace};

use measures::{MOST_DEPS, MOST_IN_CHANNEL, MOST_LINES, MOST_THREADS, THREADS};
use rules::{Shares, Slot, SlotState};

// ---- the numbers of a setup

/// Whether a setup can have T and L: "Threads T: 1 to 8. Lines L: 1 to 256."
pub fn in_range(threads: u8, lines: u16) -> bool
    ensures { result ≡ in_range threads lines }
{
    (1 <= threads && threads as usize <= MOST_THREADS)
        && (1 <= lines && lines as usize <= MOST_LINES)
}

// Byte i of a word, byte 0 the low one.
// Kept: `byte_of` of specs/ divides by a power of 256, as this does; a place among the word's bytes would need a law of its own, and is no plainer.
fn byte_of(word: u64, i: usize) -> u8
    ensures { result ≡ byte_of i word }
{
    if 8 <= i {
        return 0;
    }
    ((word >> (8 * i)) % 256) as u8
}

/// The party of a thread; 0 for a thread above 7.
pub fn party_of(shares: Shares, thread: u32) -> u8
    ensures { result ≡ party_of thread shares }
{
    byte_of(shares.parties, thread as usize)
}

/// The reserve of a party; 0 for a party above 1.
pub fn reserve_of(shares: Shares, party: u8) -> u8
    ensures { result ≡ reserve_of party shares }
{
    byte_of(shares.reserves as u64, party as usize)
}

// A thread's party is above 1, or not 0 where the thread is not below T.
fn is_no_party(threads: u8, shares: Shares, thread: u8) -> bool
    ensures { result ≡ is_no_party threads shares thread }
{
    let party = party_of(shares, thread as u32);
    1 < party || (threads <= thread && party != 0)
}

fn has_no_party(threads: u8, shares: Shares) -> bool
    ensures { result ≡ any (is_no_party threads shares) word_places }
{
    THREADS
        .iter()
        .any(|&thread| is_no_party(threads, shares, thread))
}

/// Whether a setup of T threads cannot have these parties and reserves: refusal 24.
pub fn is_unfit(threads: u8, shares: Shares) -> bool
    ensures { result ≡ is_unfit threads shares }
{
    has_no_party(threads, shares)
        || MOST_IN_CHANNEL < reserve_of(shares, 0) as usize + reserve_of(shares, 1) as usize
}

// ---- channels

/// The channel of a region's number: its lowest bit.
pub fn channel_of(number: u32) -> u8
    ensures { result ≡ channel_of number }
{
    (number % 2) as u8
}

// ---- dependences

fn holds(deps: &[u32; MOST_DEPS], dep: u32) -> bool
    ensures { result ≡ any (eqb dep) deps.now }
{
    deps.iter().any(|&held| dep == held)
}

/// Whether `dep` is no dependence, or one of those held.
pub fn is_had(deps: &[u32; MOST_DEPS], dep: u32) -> bool
    ensures { result ≡ is_had dep deps.now }
{
    dep == 0 || holds(deps, dep)
}

/// Whether the dependences have no place for `dep`: refusal 19.
pub fn no_room_for_dep(deps: &[u32; MOST_DEPS], dep: u32) -> bool
    ensures { result ≡ no_room_for_dep dep deps.now }
{
    !is_had(deps, dep) && !holds(deps, 0)
}

fn first_free(deps: &[u32; MOST_DEPS]) -> Option<usize>
    ensures { result ≡ position (eqb 0) deps.now }
{
    deps.iter().position(|&held| 0 == held)
}

#[tactic(auto, using(crate::proofs::Lists::is_place))]
fn free_dep(deps: &[u32; MOST_DEPS]) -> Option<usize>
    ensures { IsPlace (eqb 0) deps.now result }
{
    first_free(deps)
}

/// `dep` joins the dependences, a set; they stay as they are where no place is free.
pub fn join(deps: &mut [u32; MOST_DEPS], dep: u32)
    ensures { deps.new ≡ joined dep deps.old }
{
    if is_had(deps, dep) {
        return;
    }
    if let Some(at) = free_dep(deps) {
        deps[at] = dep;
    }
}

// ---- slots

/// Whether the slot is in flight with the line. The line is asked for first: it differs in most slots.
pub fn carries(slot: &Slot, line: u8) -> bool
    ensures { result ≡ carries line slot.now }
{
    slot.line == line && slot.state == SlotState::InFlight
}
