// A job's figures by its list: plunges and depths by reach, changes of the electrode, and the way from plunge to plunge.
#![tactic(auto)]

ghost use Rattle.std.specs.Prelude.{◌≡◌, cond, ◌≤◌, ◌<◌, eqb};
ghost use Rattle.geometry.specs.declared.Kind.TheVariants.{Diamond};
ghost use Rattle.geometry.specs.Plane.{dist};
ghost use Rattle.geometry.specs.Plunges.{centre};
ghost use Rattle.reading.specs.Reading.{nth_plunge, plunges_in, total};
ghost use Rattle.reading.specs.Steps.{JobOf};
ghost use Rattle.motion.specs.Changes.{changes_in};
ghost use Rattle.job_figures.specs.Figures.{travel_in};
ghost use Rattle.job_figures.specs.Passes.{reaches, Untallied, Tallied, longest_way};

use geometry::{Kind, Plunge, Reach};
use reading::Job;

// How many reaches there are: from 0 to the largest.
pub const REACHES: usize = (Reach::MAX.0 as usize) + 1;

// ---- by reach

// Plunge number i; its reach is at most the largest.
fn plunge_at(file: &[u8], job: Job, i: usize) -> Plunge
    requires { JobOf file.now job × (i < total file.now) }
    ensures { (result ≡ nth_plunge file.now i) × (result.reach.0 < reaches) }
{
    reading::nth_plunge(file, job, i)
}

// For each reach the number of its plunges, their least and their greatest depth, in one pass over the list.
pub fn tally(
    file: &[u8],
    job: Job,
    counts: &mut [u64; REACHES],
    least: &mut [u8; REACHES],
    greatest: &mut [u8; REACHES],
)
    requires { JobOf file.now job × Untallied counts.old least.old greatest.old }
    ensures { Tallied (plunges_in file.now) counts.new least.new greatest.new }
{
    for i in 0..job.plunges {
        let q = plunge_at(file, job, i);
        let reach = q.reach.0 as usize;
        counts[reach] += 1;
        least[reach] = least[reach].min(q.depth);
        greatest[reach] = greatest[reach].max(q.depth);
    }
}

// ---- from plunge to plunge

// 1 where the reach differs, else 0.
fn change(before: Plunge, next: Plunge) -> u64
    ensures { result ≡ cond (eqb next.reach.0 before.reach.0) 0 1 }
{
    if next.reach.0 == before.reach.0 { 0 } else { 1 }
}

// How often the electrode changes.
pub fn count_changes(file: &[u8], job: Job) -> u64
    requires { JobOf file.now job }
    ensures { result ≡ changes_in (plunges_in file.now) }
{
    let plunges = job.plunges;
    if plunges == 0 {
        return 0;
    }
    let mut before = reading::nth_plunge(file, job, 0);
    let mut changes: u64 = 1;
    for i in 1..plunges {
        let next = reading::nth_plunge(file, job, i);
        changes += change(before, next);
        before = next;
    }
    changes
}

// The cells from a plunge to the next: columns and rows.
fn way(before: Plunge, next: Plunge) -> u64
    ensures { (result ≡ dist Diamond (centre before) (centre next)) × (result ≤ longest_way) }
{
    let diamond = Kind::Diamond;
    diamond.distance(before.column, before.row, next.column, next.row) as u64
}

// All cells from each plunge to the next; 2^32 plunges of 2^17 cells at most stay below 2^64.
pub fn sum_travel(file: &[u8], job: Job) -> u64
    requires { JobOf file.now job }
    ensures { result ≡ travel_in (plunges_in file.now) }
{
    let plunges = job.plunges;
    if plunges == 0 {
        return 0;
    }
    let mut before = reading::nth_plunge(file, job, 0);
    let mut travel: u64 = 0;
    for i in 1..plunges {
        let next = reading::nth_plunge(file, job, i);
        travel += way(before, next);
        before = next;
    }
    travel
}
