#![tactic(auto)]

// The recovery walk: the order of the regions, and the log entry at a place of the walk.
ghost use Rattle.std.specs.Prelude.{◌<◌, ◌≤◌, ◌≡◌, ◌-◌, eqb, length, map, not, position, take};
ghost use Rattle.std.specs.List.{count_by};
ghost use Rattle.rules.specs.Measures.{most_regions};
ghost use Rattle.rules.specs.Walk.{is_needed, walk_from, without};
ghost use Rattle.walking.specs.Indices.{entry_at, held_order, indices_of, nth, order_of};

use measures::{MOST_DEPS, MOST_REGIONS};
use rules::{Listed, Mark};

/// The keys of the regions in the order of the walk: the first `count` of them.
// Kept: no heap.
#[derive(Clone, Copy)]
pub struct Order {
    pub count: usize,
    pub keys: [u32; MOST_REGIONS],
}

// A place without a region.
const NO_REGION: Listed = Listed {
    key: 0,
    state: 0,
    deps: [0; MOST_DEPS],
};

impl Order {
    /// The keys, first to last.
    pub fn keys(&self) -> &[u32]
        ensures { result.now ≡ order_of self.now }
    {
        &self.keys[..self.count.min(MOST_REGIONS)]
    }
}

// ---- the order of the regions

// Whether some region depends on region `key`.
fn is_needed(regions: &[Listed], key: u32) -> bool
    ensures { result ≡ is_needed regions.now key }
{
    regions
        .iter()
        .any(|region| faults::depends(&region.deps, key))
}

// The place of the first region on which none depends.
fn next_place(regions: &[Listed]) -> Option<usize>
    ensures { result ≡ position (λ r. not (is_needed regions.now r.key)) regions.now }
{
    regions
        .iter()
        .position(|region| !is_needed(regions, region.key))
}

// The region at a place taken out: those behind it move up, and the last place is free.
fn remove(regions: &mut [Listed], place: usize)
    requires { place < length regions.old }
    ensures { take (length regions.old - 1) regions.new ≡ without place regions.old }
{
    let end = regions.len();
    regions.copy_within(place + 1..end, place);
}

/// The regions in the order of the walk: always the first on which no remaining region depends. The first 32 regions count; no image that is read has more.
// Kept: no heap, so what remains is the front of an array, whose length falls.
pub fn walk_order(regions: &[Listed]) -> Order
    ensures { result ≡ held_order (walk_from (length (take most_regions regions.now)) (take most_regions regions.now)) }
{
    let mut left = regions.len().min(MOST_REGIONS);
    let mut remaining = [NO_REGION; MOST_REGIONS];
    remaining[..left].copy_from_slice(&regions[..left]);
    let mut count = 0;
    let mut keys = [0u32; MOST_REGIONS];
    while let Some(place) = next_place(&remaining[..left]) {
        keys[count] = remaining[place].key;
        count += 1;
        remove(&mut remaining[..left], place);
        left -= 1;
    }
    Order { count, keys }
}

// ---- the log entry at a place of the walk

// How many log entries region `key` has.
// Kept: a chain of `filter` and `count` runs mark by mark, and a recovery step takes more than twice as long (docs/SPEED.md,
// "What was tried").
fn count_of(log: &[Mark], key: u32) -> usize
    ensures { result ≡ count_by (λ m. eqb m.key key) log.now }
{
    let mut entries = 0;
    for mark in log {
        if mark.key == key {
            entries += 1;
        }
    }
    entries
}

// The index of number n of the entries of region `key`, last entry first.
// Kept: the answer is an index, and entries are counted from the last; `enumerate`, `rev`, `filter` and `nth` would be four adapters for one loop: no plainer.
fn entry_in(log: &[Mark], key: u32, n: usize) -> Option<usize>
    ensures { result ≡ nth (indices_of (map (λ m. m.key) log.now) key) n }
{
    let mut left = n;
    for i in (0..log.len()).rev() {
        if log[i].key == key {
            if left == 0 {
                return Some(i);
            }
            left -= 1;
        }
    }
    None
}

/// The index of log entry number `place` of the walk: region by region in its order, of each the last entry first.
pub fn entry_at(order: &Order, log: &[Mark], place: usize) -> Option<usize>
    ensures { result ≡ entry_at (order_of order.now) log.now place }
{
    let mut left = place;
    for &key in order.keys() {
        let entries = count_of(log, key);
        if left < entries {
            return entry_in(log, key, left);
        }
        left -= entries;
    }
    None
}
