// Press motions as text, a line for each; put into slices.
#![tactic(auto)]

ghost use Rattle.std.specs.Prelude.{[], ◌∷◌, ◌++◌, ◌+◌, ◌≤◌, length};
ghost use Rattle.io.specs.Counts.{IsPrefixLen};
ghost use Rattle.numerals.specs.Numerals.{Puts};
ghost use Rattle.reading.specs.Reading.{total};
ghost use Rattle.reading.specs.Steps.{JobOf};
ghost use Rattle.text.specs.Pages.{PageOf};
ghost use Rattle.motion_text.specs.Lines.{millimetres, motion_line, motion_lines, lines_at, lines_room};

use motion_floats::{Motion, Motions, Scale};
use reading::Job;
use text::Page;

// Room for the three lines of a plunge.
const LINES: usize = 320;

// A blank and millimetres, as few digits as tell the number from every other.
fn put_millimetres(page: &mut [u8], at: usize, x: f64) -> usize
    requires { at + length (millimetres x) ≤ length page.old }
    ensures { Puts page.old at (millimetres x) page.new result }
{
    page[at] = b' ';
    decimal_text::put_number(x, page, at + 1)
}

// A word, millimetres, and the end of the line.
fn put_one(page: &mut [u8], at: usize, word: &[u8], x: f64) -> usize
    requires { at + length (word.now ++ millimetres x ++ (10 ∷ [])) ≤ length page.old }
    ensures { Puts page.old at (word.now ++ millimetres x ++ (10 ∷ [])) page.new result }
{
    let a = phrases::put_bytes(page, at, word);
    let b = put_millimetres(page, a, x);
    phrases::put_bytes(page, b, b"\n")
}

// A travel has two numbers.
fn put_travel(page: &mut [u8], at: usize, column: f64, row: f64) -> usize
    requires { at + length (motion_line (Motion.Travel column row)) ≤ length page.old }
    ensures { Puts page.old at (motion_line (Motion.Travel column row)) page.new result }
{
    let a = phrases::put_bytes(page, at, b"travel");
    let b = put_millimetres(page, a, column);
    let c = put_millimetres(page, b, row);
    phrases::put_bytes(page, c, b"\n")
}

// The line of a motion.
fn put_motion(page: &mut [u8], at: usize, motion: Motion) -> usize
    requires { at + length (motion_line motion) ≤ length page.old }
    ensures { Puts page.old at (motion_line motion) page.new result }
{
    match motion {
        Motion::Change(width) => put_one(page, at, b"change", width),
        Motion::Stay => phrases::put_bytes(page, at, b"stay\n"),
        Motion::Travel(column, row) => put_travel(page, at, column, row),
        Motion::Sink(depth) => put_one(page, at, b"sink", depth),
    }
}

// The three lines of a plunge.
fn put_three(page: &mut [u8], at: usize, motions: Motions) -> usize
    requires { at + length (motion_lines motions) ≤ length page.old }
    ensures { Puts page.old at (motion_lines motions) page.new result }
{
    let first = motions.first;
    let second = motions.second;
    let third = motions.third;
    let a = put_motion(page, at, first);
    let b = put_motion(page, a, second);
    put_motion(page, b, third)
}

// The lines of plunge number i of a readable file, by a sink table.
fn put_lines(
    page: &mut [u8],
    at: usize,
    table: &[u16; sink::ENTRIES],
    file: &[u8],
    job: Job,
    i: usize,
    scale: Scale,
) -> usize
    requires { JobOf file.now job × (at + lines_room ≤ length page.old) }
    ensures { Puts page.old at (lines_at table.now file.now scale i) page.new result × (result ≤ at + lines_room) }
{
    let answer = motion::motions_at(table, file, job, i, scale);
    match answer {
        Ok(motions) => put_three(page, at, motions),
        Err(_) => at,
    }
}

// The lines of a readable file's plunges from one on, by a sink table, as many as the page has room for.
pub fn put_page(
    page: &mut [u8],
    table: &[u16; sink::ENTRIES],
    file: &[u8],
    job: Job,
    scale: Scale,
    from: usize,
) -> Page
    requires { JobOf file.now job × (from ≤ total file.now) }
    ensures { PageOf (lines_at table.now file.now scale) (total file.now) lines_room from page.old
        page.new result × IsPrefixLen result.used page.new }
{
    let plunges = job.plunges;
    let mut used = 0;
    for next in from..plunges {
        if page.len() - used < LINES {
            return Page { used, next };
        }
        used = put_lines(page, used, table, file, job, next, scale);
    }
    Page {
        used,
        next: plunges,
    }
}
