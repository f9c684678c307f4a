#![tactic(auto)]

// What is wrong with a region of an image by itself, and with two of a thread, one behind the other. A dependence is a region's key, 0 for an empty one.
// Kept: the 0, since `in_order` and `is_astray` of specs/ test it.
ghost use Rattle.std.specs.Prelude.{◌≡◌, position, eqb, get_or};
ghost use Rattle.undo.specs.Table.{any};
ghost use Rattle.rules.specs.Lists.{all};
ghost use Rattle.rules.specs.Contradiction.{in_order, is_astray, is_broken, is_left_over, is_listed};
ghost use Rattle.faults.specs.Faults.{is_faulty, is_region, stands};

use measures::{MOST_DEPS, NUMBERS};
use rules::Listed;

// ---- places

/// The place of region `key` in the list.
pub fn place_in(regions: &[Listed], key: u32) -> Option<usize>
    ensures { result ≡ position (is_region key) regions.now }
{
    regions.iter().position(|region| region.key == key)
}

fn is_listed(regions: &[Listed], key: u32) -> bool
    ensures { result ≡ is_listed key regions.now }
{
    regions.iter().any(|region| region.key == key)
}

// ---- a region by itself

fn no_deps(deps: &[u32]) -> bool
    ensures { result ≡ all (eqb 0) deps.now }
{
    deps.iter().all(|&dep| 0 == dep)
}

// The first of the dependences, 0 where there is none.
fn first_of(deps: &[u32]) -> u32
    ensures { result ≡ get_or deps.now 0 0 }
{
    deps.first().copied().unwrap_or(0)
}

// The dependence `dep` before others: `next` is the one behind it, the others are in order, the others are all empty.
fn is_placed(dep: u32, next: u32, order: bool, empty: bool) -> bool
    ensures { result ≡ stands dep next order empty }
{
    if dep == 0 {
        return empty;
    }
    dep % NUMBERS != 0 && order && (next == 0 || dep < next)
}

// Whether the dependences rise strictly, with the empty ones last and no number 0.
fn in_order(deps: &[u32]) -> bool
    ensures { result ≡ in_order deps.now }
{
    let [dep, rest @ ..] = deps else {
        return true;
    };
    is_placed(*dep, first_of(rest), in_order(rest), no_deps(rest))
}

/// Whether one of the dependences is region `key`.
pub fn depends(deps: &[u32; MOST_DEPS], key: u32) -> bool
    ensures { result ≡ any (eqb key) deps.now }
{
    deps.iter().any(|&dep| key == dep)
}

// A dependence on a region that is not listed.
fn is_astray(regions: &[Listed], dep: u32) -> bool
    ensures { result ≡ is_astray regions.now dep }
{
    dep != 0 && !is_listed(regions, dep)
}

fn has_astray(regions: &[Listed], deps: &[u32; MOST_DEPS]) -> bool
    ensures { result ≡ any (is_astray regions.now) deps.now }
{
    deps.iter().any(|&dep| is_astray(regions, dep))
}

// A done region without dependences.
// Kept: the state is a byte; `is_unknown_state` of specs/ is asked of any byte of an image, after the reading.
fn is_left_over(region: &Listed) -> bool
    ensures { result ≡ is_left_over region.now }
{
    region.state == 1 && no_deps(&region.deps)
}

/// Whether something is wrong with a region by itself: its number, its state, the order of its dependences, one that is not listed, or a done region without any.
// Kept: as `is_left_over`.
pub fn is_faulty(regions: &[Listed], region: &Listed) -> bool
    ensures { result ≡ is_faulty regions.now region.now }
{
    region.key % NUMBERS == 0
        || 1 < region.state
        || !in_order(&region.deps)
        || has_astray(regions, &region.deps)
        || is_left_over(region)
}

// ---- a thread's regions, one behind the other

/// Of two regions, one behind the other: whether they are of one thread, and their numbers are not consecutive or the second does not depend on the first.
pub fn is_broken(first: &Listed, second: &Listed) -> bool
    ensures { result ≡ is_broken first.now second.now }
{
    let follows = second.key as u64 == first.key as u64 + 1;
    first.key / NUMBERS == second.key / NUMBERS && !(follows && depends(&second.deps, first.key))
}
