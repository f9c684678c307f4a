#![tactic(auto)]

// Whether an image contradicts itself, by its regions and the marks of its log.
//
// What belongs to one region is tested region by region. Then every dependence is of a listed region, and a table of bits tells which region reaches which:
// row p has bit q set where the region at place p reaches the region at place q. One pass over the log finds the lines that regions apart from each other
// logged.
ghost use Rattle.std.specs.Prelude.{◌<◌, ◌≤◌, ◌+◌, ◌^◌, ◌≡◌, map, min, get_or, length, drop, take, ℕ};
ghost use Rattle.rules.specs.Measures.{most_regions};
ghost use Rattle.std.specs.List.{zip};
ghost use Rattle.undo.specs.Table.{any};
ghost use Rattle.rules.specs.Contradiction.{is_broken};
ghost use Rattle.faults.specs.Faults.{is_faulty};
ghost use Rattle.judging.specs.Marks.{contradicts_in};
ghost use Rattle.judging.specs.Reach.{apart_from, bit_if, clashes_in, is_apart, is_round, link_of, links_of, meet, rows_of};
ghost use Rattle.judging.specs.Reach.{round_of, rounds_of, row_of, sees_at, step_to, table_by, tangled_by};

use measures::{MOST_DEPS, MOST_LINES, MOST_REGIONS};
use rules::{Listed, Mark};

// ---- what is wrong with a region by itself, and with a thread's regions, one behind the other

fn any_faulty(regions: &[Listed]) -> bool
    ensures { result ≡ any (is_faulty regions.now) regions.now }
{
    regions
        .iter()
        .any(|region| faults::is_faulty(regions, region))
}

fn any_broken(regions: &[Listed]) -> bool
    ensures { result ≡ any (λ p. is_broken p.0 p.1) (zip regions.now (drop 1 regions.now)) }
{
    regions
        .iter()
        .zip(regions.iter().skip(1))
        .any(|(first, second)| faults::is_broken(first, second))
}

// ---- which region reaches which
//
// Kept: no heap, so rows, links and sets of places stand in arrays of 32, of which as many count as there are regions.

// The place of a dependence; the number of regions for none.
// Kept: `link_of` of specs/ tells none so, and `step_to` tests the place in any case.
fn link_of(regions: &[Listed], dep: u32) -> usize
    ensures { result ≡ link_of regions.now dep }
{
    if dep == 0 {
        return regions.len();
    }
    faults::place_in(regions, dep).unwrap_or(regions.len())
}

fn links_of(regions: &[Listed], region: &Listed) -> [usize; MOST_DEPS]
    ensures { result ≡ links_of regions.now region.now }
{
    region.deps.map(|dep| link_of(regions, dep))
}

fn bit(place: usize) -> u32
    requires { place < 32 }
    ensures { result ≡ 2 ^ place }
{
    1u32 << place
}

// The regions of an image, and a row of bits for each of the first 32.
#[derive(Clone, Copy)]
struct BitTable<'r> {
    regions: &'r [Listed],
    rows: [u32; MOST_REGIONS],
}

impl<'r> BitTable<'r> {
    fn rows(&self) -> &[u32]
        ensures { result.now ≡ rows_of self.now }
    {
        &self.rows[..self.regions.len().min(MOST_REGIONS)]
    }

    // What one dependence adds to a row: its own place, and what the row of that place has.
    fn step_to(&self, link: usize) -> u32
        ensures { result ≡ step_to (rows_of self.now) link }
    {
        let rows = self.rows();
        if link < rows.len() {
            bit(link) | rows[link]
        } else {
            0
        }
    }

    fn row_of(&self, links: &[usize; MOST_DEPS]) -> u32
        ensures { result ≡ row_of (rows_of self.now) links.now }
    {
        links
            .iter()
            .rev()
            .fold(0, |row, &link| self.step_to(link) | row)
    }

    // The rows for one dependence more.
    fn round(&self, links: &[[usize; MOST_DEPS]]) -> BitTable<'r>
        requires { length links.now ≡ length (rows_of self.now) }
        ensures same { result.regions.now ≡ self.now.regions.now }
        ensures rows { rows_of result ≡ round_of links.now (rows_of self.now) }
    {
        let mut rows = [0u32; MOST_REGIONS];
        for (place, its_links) in links.iter().enumerate() {
            rows[place] = self.row_of(its_links);
        }
        BitTable {
            regions: self.regions,
            rows,
        }
    }

    // Rounds until one adds nothing.
    fn rounds(regions: &'r [Listed], links: &[[usize; MOST_DEPS]]) -> BitTable<'r>
        requires { length links.now ≡ min (length regions.now) 32 }
        ensures same { result.regions.now ≡ regions.now }
        ensures rows { rows_of result ≡ rounds_of (length links.now) links.now }
    {
        let mut table = BitTable {
            regions,
            rows: [0; MOST_REGIONS],
        };
        for _depth in 0..links.len() {
            let wider = table.round(links);
            if wider.rows() == table.rows() {
                return table;
            }
            table = wider;
        }
        table
    }

    // The table of an image's regions.
    #[tactic(auto, unfolding(crate::specs::Reach::table_by))]
    fn of(regions: &'r [Listed]) -> BitTable<'r>
        requires { length regions.now ≤ 32 }
        ensures same { result.regions.now ≡ regions.now }
        ensures rows { rows_of result ≡ table_by regions.now regions.now }
    {
        let mut links = [[0; MOST_DEPS]; MOST_REGIONS];
        for (place, region) in regions.iter().enumerate() {
            links[place] = links_of(regions, region);
        }
        BitTable::rounds(regions, &links[..regions.len()])
    }

    // Whether the region at place p reaches the region at place q; false for a place behind the list.
    fn sees(&self, p: usize, q: usize) -> bool
        ensures { result ≡ sees_at (rows_of self.now) p q }
    {
        let rows = self.rows();
        p < rows.len() && q < rows.len() && (rows[p] >> q) % 2 == 1
    }

    // Whether the regions at two places may not log one line both: they are one, or neither reaches the other.
    fn is_apart(&self, p: usize, q: usize) -> bool
        ensures { result ≡ is_apart (rows_of self.now) p q }
    {
        p == q || !(self.sees(p, q) || self.sees(q, p))
    }

    // The places that are apart from place p, as bits.
    #[tactic(auto, unfolding(crate::specs::Reach::bits_below))]
    fn apart_from(&self, p: usize) -> u32
        ensures { result ≡ apart_from (rows_of self.now) p }
    {
        let mut bits = 0;
        for q in 0..self.rows().len() {
            bits = bit_if(self.is_apart(p, q), q) | bits;
        }
        bits
    }

    fn all_apart(&self) -> [u32; MOST_REGIONS]
        ensures { (p : ℕ) → p < length (rows_of self.now) → get_or result p 0 ≡ apart_from (rows_of self.now) p }
    {
        let mut apart = [0u32; MOST_REGIONS];
        for p in 0..self.rows().len() {
            apart[p] = self.apart_from(p);
        }
        apart
    }

    // Whether a region is on a circle.
    fn is_round(&self, region: &Listed) -> bool
        ensures { result ≡ is_round self.now.regions.now (rows_of self.now) region.now }
    {
        match faults::place_in(self.regions, region.key) {
            Some(place) => self.sees(place, place),
            None => false,
        }
    }

    fn any_round(&self) -> bool
        ensures { result ≡ any (is_round self.now.regions.now (rows_of self.now)) self.now.regions.now }
    {
        self.regions.iter().any(|region| self.is_round(region))
    }

    // Whether a log entry is of a region that is not listed, or a line is logged by two regions that are apart. `seen` has for each line the places of the
    // regions that logged it among the entries passed, the last ones, as bits.
    fn any_clash(&self, log: &[Mark]) -> bool
        requires { length self.now.regions.now ≤ 32 }
        ensures { result ≡ clashes_in self.now.regions.now (rows_of self.now) log.now }
    {
        let apart = self.all_apart();
        let mut seen = [0u32; MOST_LINES];
        for mark in log.iter().rev() {
            let Some(place) = faults::place_in(self.regions, mark.key) else {
                return true;
            };
            let line = mark.line as usize;
            if meets(apart[place], seen[line]) {
                return true;
            }
            seen[line] = bit(place) | seen[line];
        }
        false
    }
}

fn meets(a: u32, b: u32) -> bool
    ensures { result ≡ meet a b }
{
    a & b != 0
}

fn bit_if(set: bool, place: usize) -> u32
    requires { place < 32 }
    ensures { result ≡ bit_if set place }
{
    if set { bit(place) } else { 0 }
}

// ---- the whole

/// Whether the regions and the log entries of an image contradict themselves (8): a region of number 0 or of an unknown state, dependences out of order or on
/// a region that is not listed, a log entry of such a region, a thread's regions not one behind the other, a circle, a done region without dependences, or one
/// line logged twice by regions that do not wait for each other. The first 32 regions count; no image that is read has more.
pub fn contradicts(regions: &[Listed], log: &[Mark]) -> bool
    ensures { result ≡ contradicts_in (take most_regions regions.now) log.now }
{
    let regions = &regions[..regions.len().min(MOST_REGIONS)];
    if any_faulty(regions) || any_broken(regions) {
        return true;
    }
    let table = BitTable::of(regions);
    table.any_round() || table.any_clash(log)
}
