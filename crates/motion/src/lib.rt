// Press motions: what the press does for one plunge of a file, by a sink table.
#![tactic(auto)]

ghost use Rattle.std.specs.Prelude.{◌≡◌, ◌<◌};
ghost use Rattle.refusal.specs.Refusals.{first_met};
ghost use Rattle.reading.specs.Reading.{total};
ghost use Rattle.reading.specs.Steps.{JobOf};
ghost use Rattle.sink.specs.Sink.{built_in};
ghost use Rattle.motion.specs.Motions.{changes, ask_trials, motions_in};

use motion_floats::{Motions, Scale};
use reading::Job;
use refusal::{Refusal, Verdict};

// ---- the plunge that is asked for

// Whether the electrode changes before plunge number i.
fn is_changed(file: &[u8], job: Job, i: usize) -> bool
    requires { JobOf file.now job × (i < total file.now) }
    ensures { result ≡ changes file.now i }
{
    if i == 0 {
        return true;
    }
    let q = reading::nth_plunge(file, job, i);
    let before = reading::nth_plunge(file, job, i - 1);
    q.reach.0 != before.reach.0
}

// Refusals 13 and 14 in their order: the scale, and the number of a plunge.
fn check_asked(plunges: usize, i: usize, scale: Scale) -> Verdict
    ensures { result ≡ first_met (ask_trials plunges i scale) }
{
    if !motion_floats::in_range(scale) {
        return refusal::refuse(13, 0);
    }
    if plunges <= i {
        return refusal::refuse(14, 0);
    }
    Ok(())
}

// ---- by a table

// Refusals 13 and 14, then the motions of plunge number i of a readable file: for a caller that read it once and asks for many.
pub fn motions_at(
    table: &[u16; sink::ENTRIES],
    file: &[u8],
    job: Job,
    i: usize,
    scale: Scale,
) -> Result<Motions, Refusal>
    requires { JobOf file.now job }
    ensures { result ≡ motions_in table.now file.now i scale }
{
    check_asked(job.plunges, i, scale)?;
    let changed = is_changed(file, job, i);
    let q = reading::nth_plunge(file, job, i);
    let depth = q.depth as usize;
    let entry = table[depth];
    Ok(motion_floats::motions_of(entry, scale, changed, q))
}

// The motions of plunge number i of a file. The file's refusals, then 13 and 14.
pub fn plunge_motions(
    table: &[u16; sink::ENTRIES],
    file: &[u8],
    i: usize,
    scale: Scale,
) -> Result<Motions, Refusal>
    ensures { result ≡ motions_in table.now file.now i scale }
{
    let job = reading::read(file)?;
    motions_at(table, file, job, i, scale)
}

// ---- by the built-in table, which no caller has to lend

fn built_in_at(file: &[u8], job: Job, i: usize, scale: Scale) -> Result<Motions, Refusal>
    requires { JobOf file.now job }
    ensures { result ≡ motions_in built_in file.now i scale }
{
    check_asked(job.plunges, i, scale)?;
    let changed = is_changed(file, job, i);
    let q = reading::nth_plunge(file, job, i);
    let entry = sink::sink_at(q.depth);
    Ok(motion_floats::motions_of(entry, scale, changed, q))
}

// The motions of plunge number i of a file. The file's refusals, then 13 and 14.
pub fn built_in_motions(file: &[u8], i: usize, scale: Scale) -> Result<Motions, Refusal>
    ensures { result ≡ motions_in built_in file.now i scale }
{
    let job = reading::read(file)?;
    built_in_at(file, job, i, scale)
}
