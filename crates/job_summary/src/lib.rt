// What a planner reads of a job file before a quote: its figures, and the text of them.
#![tactic(auto)]

ghost use Rattle.std.specs.Prelude.{◌≡◌, ◌++◌, ◌≤◌, length};
ghost use Rattle.io.specs.Counts.{IsPrefixLen};
ghost use Rattle.reading.specs.Reading.{plunges_in};
ghost use Rattle.reading.specs.Steps.{JobOf};
ghost use Rattle.phrases.specs.Phrases.{Appends};
ghost use Rattle.job_summary.specs.Summary.{plate_line, reach_line, line_of_reach, reach_lines, list_text, volume_line, tidy_line, rungs_line, summary_text, summary_room};
ghost use Rattle.job_relief.specs.Relief.{WorkedOn};
ghost use Rattle.job_relief.specs.Works.{Workable};

use geometry::Head;
use reading::Job;

// The largest depth, from which the least of a reach falls.
const DEEPEST: u8 = 255;

// The length of a page in which every text has room.
pub const ROOM: usize = 16384;

// ---- lines of the list

// The line of a plate.
fn append_plate(page: &mut [u8], at: usize, head: Head) -> usize
    requires { at ≤ length page.old }
    ensures { Appends page.old at (plate_line head) page.new result × IsPrefixLen result page.new }
{
    let kind = head.kind;
    let a = phrases::append_phrase(page, at, b"plate ", head.width as u64, b" by ");
    let b = phrases::append_phrase(page, a, b"", head.height as u64, b", kind ");
    phrases::append_phrase(page, b, b"", kind.byte() as u64, b"\n")
}

// The line of a reach, by its figures.
fn append_reach(
    page: &mut [u8],
    at: usize,
    reach: u64,
    count: u64,
    least: u64,
    greatest: u64,
) -> usize
    requires { at ≤ length page.old }
    ensures { Appends page.old at (reach_line reach count least greatest) page.new result × IsPrefixLen result page.new }
{
    let a = phrases::append_phrase(page, at, b"reach ", reach, b": plunges ");
    let b = phrases::append_phrase(page, a, b"", count, b", depths ");
    let c = phrases::append_phrase(page, b, b"", least, b" to ");
    phrases::append_phrase(page, c, b"", greatest, b"\n")
}

// The same, if some plunge has the reach.
fn append_found(
    page: &mut [u8],
    at: usize,
    reach: usize,
    count: u64,
    least: u8,
    greatest: u8,
) -> usize
    requires { at ≤ length page.old }
    ensures { Appends page.old at (line_of_reach reach count least greatest) page.new result × IsPrefixLen result page.new }
{
    if count == 0 {
        return at;
    }
    append_reach(page, at, reach as u64, count, least as u64, greatest as u64)
}

// The lines of all reaches that a file has.
fn append_reaches(page: &mut [u8], at: usize, file: &[u8], job: Job) -> usize
    requires { JobOf file.now job × (at ≤ length page.old) }
    ensures { Appends page.old at (reach_lines (plunges_in file.now)) page.new result × IsPrefixLen result page.new }
{
    let mut counts = [0u64; job_figures::REACHES];
    let mut least = [DEEPEST; job_figures::REACHES];
    let mut greatest = [0u8; job_figures::REACHES];
    job_figures::tally(file, job, &mut counts, &mut least, &mut greatest);
    let mut end = at;
    for reach in 0..job_figures::REACHES {
        end = append_found(
            page,
            end,
            reach,
            counts[reach],
            least[reach],
            greatest[reach],
        );
    }
    end
}

// All lines of the list.
fn append_list(page: &mut [u8], at: usize, file: &[u8], job: Job) -> usize
    requires { JobOf file.now job × (at ≤ length page.old) }
    ensures { Appends page.old at (list_text file.now) page.new result × IsPrefixLen result page.new }
{
    let head = job.head;
    let changes = job_figures::count_changes(file, job);
    let travel = job_figures::sum_travel(file, job);
    let a = append_plate(page, at, head);
    let b = phrases::append_phrase(page, a, b"plunges ", job.plunges as u64, b"\n");
    let c = append_reaches(page, b, file, job);
    let d = phrases::append_phrase(page, c, b"changes ", changes, b"\n");
    phrases::append_phrase(page, d, b"travel ", travel, b" cells\n")
}

// ---- lines of the relief

// Whether the file is tidy, as a line.
fn append_tidy(page: &mut [u8], at: usize, tidy: bool) -> usize
    requires { at ≤ length page.old }
    ensures { Appends page.old at (tidy_line tidy) page.new result × IsPrefixLen result page.new }
{
    if tidy {
        return phrases::append(page, at, b"tidy yes\n");
    }
    phrases::append(page, at, b"tidy no\n")
}

// All lines of the relief that the list draws.
fn append_relief(page: &mut [u8], at: usize, volume: u64, tidy: bool) -> usize
    requires { at ≤ length page.old }
    ensures { Appends page.old at (volume_line volume ++ tidy_line tidy) page.new result × IsPrefixLen result page.new }
{
    let a = phrases::append_phrase(page, at, b"volume ", volume, b"\n");
    append_tidy(page, a, tidy)
}

// ---- a listing

// The line of the rungs climbed.
pub fn append_rungs(page: &mut [u8], at: usize, rungs: u64) -> usize
    requires { at ≤ length page.old }
    ensures { Appends page.old at (rungs_line rungs) page.new result × IsPrefixLen result page.new }
{
    phrases::append_phrase(page, at, b"rungs ", rungs, b"\n")
}

// ---- the whole text

// A page in which the text of any file has room.
pub fn summary_page() -> [u8; ROOM]
    ensures { summary_room ≡ length result }
{
    [0; ROOM]
}

// The figures of a readable file as text, behind what the page holds and cut at its end; gives the place behind it. Each work
// buffer has a byte for each cell of the file's plate.
pub fn append_summary(
    page: &mut [u8],
    at: usize,
    file: &[u8],
    job: Job,
    a: &mut [u8],
    b: &mut [u8],
    c: &mut [u8],
) -> usize
    requires { Workable file.now job a.old b.old c.old × (at ≤ length page.old) }
    ensures text { Appends page.old at (summary_text file.now) page.new result × IsPrefixLen result page.new }
    ensures work { WorkedOn file.now a.old a.new b.old b.new c.old c.new }
{
    let volume = job_relief::volume_of(file, job, c);
    let tidy = job_relief::is_tidy(file, job, a, b, c);
    let end = append_list(page, at, file, job);
    append_relief(page, end, volume, tidy)
}
