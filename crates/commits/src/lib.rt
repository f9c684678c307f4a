#![tactic(auto)]

// "Done" and "Commit" in the tables where they stand: regions become done, and commit until none can.
ghost use Rattle.std.specs.Prelude.{◌≡◌, map, length, if◌then◌else◌};
ghost use Rattle.undo.specs.Table.{any};
ghost use Rattle.rules.specs.Commit.{after_commit, commit, commits, done_region, earlier, earliest, freed_entry, settled, without_dep};
ghost use Rattle.commits.specs.Ripe.{ripe};

use measures::{MOST_DEPS, MOST_ENTRIES, MOST_REGIONS, MOST_THREADS, NUMBERS};
use rules::{Entry, Region, Tables};

// ---- done

#[tactic(auto, unfolding(rules::specs::Commit::done_region))]
fn become_done(region: &mut Region)
    ensures { region.new ≡ done_region region.old }
{
    if region.ended && !slots::has_slot(region) {
        region.done = true;
    }
}

// Kept: as `drop_slots` of crate slots.
#[tactic(auto, using(lookup::proofs::Lists::turn))]
fn done_all(regions: &mut [Region; MOST_REGIONS])
    ensures { regions.new ≡ map done_region regions.old }
{
    for region in regions {
        become_done(region);
    }
}

// ---- commit

#[tactic(auto, unfolding(rules::specs::Commit::commits))]
fn commits(region: &Region) -> bool
    ensures { result ≡ commits region.now }
{
    region.key != 0 && region.done && region.deps.iter().all(|&dep| dep == 0)
}

fn without_dep(dep: u32, key: u32) -> u32
    ensures { result ≡ without_dep key dep }
{
    if dep == key { 0 } else { dep }
}

// Kept: as `drop_slots` of crate slots.
#[tactic(auto, using(std::proofs::lemmas::List::Edits::map_over_more))]
fn drop_deps(deps: &mut [u32; MOST_DEPS], key: u32)
    ensures { deps.new ≡ map (without_dep key) deps.old }
{
    for dep in deps {
        *dep = without_dep(*dep, key);
    }
}

#[tactic(auto, unfolding(rules::specs::Commit::after_commit))]
fn after_commit(region: &mut Region, key: u32)
    ensures { region.new ≡ after_commit key region.old }
{
    if region.key == key {
        *region = Region::default();
    } else {
        drop_deps(&mut region.deps, key);
    }
}

// Kept: as `drop_slots` of crate slots.
#[tactic(auto, using(lookup::proofs::Lists::turn))]
fn without_region(regions: &mut [Region; MOST_REGIONS], key: u32)
    ensures { regions.new ≡ map (after_commit key) regions.old }
{
    for region in regions {
        after_commit(region, key);
    }
}

fn free_entry(entry: &mut Entry, key: u32)
    ensures { entry.new ≡ freed_entry key entry.old }
{
    if entry.key == key {
        *entry = Entry::default();
    }
}

// Kept: as `drop_slots` of crate slots.
#[tactic(auto, using(lookup::proofs::Lists::turn))]
fn free_entries(log: &mut [Entry; MOST_ENTRIES], key: u32)
    ensures { log.new ≡ map (freed_entry key) log.old }
{
    for entry in log {
        free_entry(entry, key);
    }
}

fn commit(tables: &mut Tables, key: u32)
    ensures { tables.new ≡ commit key tables.old }
{
    without_region(&mut tables.regions, key);
    let thread = (key / NUMBERS) as usize;
    tables::threads_are_eight(&tables.threads);
    if thread < MOST_THREADS {
        free_entries(&mut tables.threads[thread].log, key);
    }
}

// ---- which region commits next

#[tactic(auto, unfolding(rules::specs::Commit::earlier))]
fn is_earlier(region: &Region, best: &Region) -> bool
    ensures { earlier best.now region.now ≡ (if result then region.now else best.now) }
{
    commits(region) && (!commits(best) || region.stamp < best.stamp)
}

fn earliest(regions: &[Region; MOST_REGIONS]) -> Region
    ensures { result ≡ earliest regions.now }
{
    let mut best = Region::default();
    for region in regions {
        if is_earlier(region, &best) {
            best = *region;
        }
    }
    best
}

// A done region that commits, or another that becomes done.
fn is_ripe(region: &Region) -> bool
    ensures { result ≡ ripe region.now }
{
    if region.done {
        commits(region)
    } else {
        region.ended && !slots::has_slot(region)
    }
}

fn has_ripe(regions: &[Region; MOST_REGIONS]) -> bool
    ensures found { result ≡ any ripe regions.now }
    ensures long { length regions.now ≡ 32 }
{
    regions.iter().any(is_ripe)
}

/// Every ended region without slots becomes done, and regions commit, the one that ended first before the others, until none can. The value is how many did. Where
/// no region is ripe nothing is gone through.
pub fn settle(tables: &mut Tables) -> u64
    ensures tables { tables.new ≡ (settled tables.old).tables }
    ensures count { result ≡ length (settled tables.old).keys }
{
    if !has_ripe(&tables.regions) {
        return 0;
    }
    done_all(&mut tables.regions);
    for committed in 0..MOST_REGIONS as u64 {
        let next = earliest(&tables.regions);
        if !commits(&next) {
            return committed;
        }
        commit(tables, next.key);
    }
    MOST_REGIONS as u64
}
