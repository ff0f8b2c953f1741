// A job's figures by the relief that it draws: the volume, and whether the file is tidy.
#![tactic(auto)]

ghost use Rattle.std.specs.Prelude.{◌≡◌, ◌≤◌, length};
ghost use Rattle.geometry.specs.Plate.{area};
ghost use Rattle.reading.specs.Reading.{head_in};
ghost use Rattle.reading.specs.Steps.{JobOf};
ghost use Rattle.job_relief.specs.Relief.{volume_in, is_tidy, WorkedOn};
ghost use Rattle.job_relief.specs.Works.{Workable, WorkKept};

use reading::Job;
use refusal::Verdict;

// The volume of the relief that a file draws, which is drawn into a work buffer.
pub fn volume_of(file: &[u8], job: Job, work: &mut [u8]) -> u64
    requires { JobOf file.now job × (area (head_in file.now) ≤ length work.old) }
    ensures { (result ≡ volume_in file.now) × WorkKept file.now work.old work.new }
{
    let head = job.head;
    let _ = jobs::draw(file, work);
    match erosion_maps::volume(work, head.width, head.height) {
        Ok(volume) => volume as u64,
        Err(_) => 0,
    }
}

// Whether a readable file is tidy.
pub fn is_tidy(file: &[u8], job: Job, a: &mut [u8], b: &mut [u8], c: &mut [u8]) -> bool
    requires { Workable file.now job a.old b.old c.old }
    ensures { (result ≡ is_tidy file.now) × WorkedOn file.now a.old a.new b.old b.new
        c.old c.new }
{
    job_check::check(file, a, b, c).is_ok()
}
