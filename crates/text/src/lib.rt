// Document 01's text of a list, a line for the plate, one for each plunge and the total, and of a refusal; put into slices.
#![tactic(auto)]

ghost use Rattle.std.specs.Prelude.{◌+◌, ◌≤◌, length};
ghost use Rattle.io.specs.Counts.{IsPrefixLen};
ghost use Rattle.numerals.specs.Numerals.{Puts};
ghost use Rattle.reading.specs.Steps.{JobOf};
ghost use Rattle.text.specs.Pages.{line_at, line_count, PageOf};
ghost use Rattle.text_lines.specs.Text.{line_room};

use reading::Job;

// Room for any line of a list's text.
pub const LINE: usize = 32;

// How much of a page is used, and which part of the text comes next.
#[derive(Clone, Copy)]
pub struct Page {
    pub used: usize,
    pub next: usize,
}

// ---- the text of a file

// Line i of the text of a readable file.
fn put_line(page: &mut [u8], at: usize, file: &[u8], job: Job, i: usize) -> usize
    requires { JobOf file.now job × (at + line_room ≤ length page.old) }
    ensures { Puts page.old at (line_at file.now i) page.new result × (result ≤ at + line_room) }
{
    if i == 0 {
        return text_lines::put_plate(page, at, job.head);
    }
    if job.plunges < i {
        return text_lines::put_total(page, at, job.plunges);
    }
    let q = reading::nth_plunge(file, job, i - 1);
    text_lines::put_plunge(page, at, q)
}

// The lines of the text of a readable file from one on, as many as the page has room for.
pub fn put_page(page: &mut [u8], file: &[u8], job: Job, from: usize) -> Page
    requires { JobOf file.now job × (from ≤ line_count file.now) }
    ensures { PageOf (line_at file.now) (line_count file.now) line_room from page.old page.new result × IsPrefixLen
        result.used page.new }
{
    let lines = job.plunges + 2;
    let mut used = 0;
    for next in from..lines {
        if page.len() - used < LINE {
            return Page { used, next };
        }
        used = put_line(page, used, file, job, next);
    }
    Page { used, next: lines }
}
