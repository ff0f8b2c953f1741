// The tidy check: whether tidying would return a file's own bytes.
#![tactic(auto)]

ghost use Rattle.buffers.specs.Fill.{PlateOnly};
ghost use Rattle.job_check.specs.Checking.{CheckCall};
ghost use Rattle.job_check.specs.Comparing.{Comparable, Compared};

use geometry::Head;
use listing_pass::Pass;
use refusal::{Refusal, Verdict};

// Compares the list of the relief that a file draws with the file's own plunges; 12 with the first byte unlike.
fn compare(
    head: Head,
    plunges: usize,
    file: &[u8],
    relief: &[u8],
    a: &mut [u8],
    b: &mut [u8],
) -> Verdict
    requires { Comparable head plunges file.now relief.now a.old b.old }
    ensures { Compared file.now result × PlateOnly head a.old a.new × PlateOnly head b.old b.new }
{
    let mut none = [0u8; 1];
    let sent = listing_plunges::send_listing(head, Pass::Compare, relief, file, &mut none, a, b);
    let progress = sent.progress;
    if progress.like {
        if progress.at == fields::place(head, plunges) {
            return Ok(());
        }
    }
    Err(Refusal {
        number: 12,
        place: progress.at,
    })
}

// Whether tidying would return the file's own bytes; else 12 with the first byte unlike. The file's refusals, then 4 and 12.
pub fn check(file: &[u8], a: &mut [u8], b: &mut [u8], c: &mut [u8]) -> Verdict
    ensures { CheckCall file.now a.old a.new b.old b.new c.old c.new result }
{
    let job = reading::read(file)?;
    let head = job.head;
    let room = jobs::shortest(a.len(), b.len(), c.len());
    if room < jobs::cells_of(head) {
        return Err(jobs::too_short());
    }
    drawing::draw_into(head, file, job.plunges, c);
    compare(head, job.plunges, file, c, a, b)
}
