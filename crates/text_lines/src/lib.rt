// The lines of document 01's text of a list and of a refusal, put at a place of a page.
#![tactic(auto)]

ghost use Rattle.std.specs.Prelude.{◌+◌, ◌≤◌, length};
ghost use Rattle.io.specs.Counts.{IsPrefixLen};
ghost use Rattle.numerals.specs.Numerals.{Puts};
ghost use Rattle.text_lines.specs.Text.{word, plate_line, plunge_line, total_line, refusal_line, tidy_line};

use geometry::{Head, Plunge};
use refusal::Refusal;

// ---- words

// A number in decimal and the character after it.
fn put_word(page: &mut [u8], at: usize, n: u64, mark: u8) -> usize
    requires { at + length (word n mark) ≤ length page.old }
    ensures { Puts page.old at (word n mark) page.new result }
{
    let end = numerals::put_numeral(n, page, at);
    page[end] = mark;
    end + 1
}

// ---- lines

// The line of a plate.
pub fn put_plate(page: &mut [u8], at: usize, head: Head) -> usize
    requires { at + length (plate_line head) ≤ length page.old }
    ensures { Puts page.old at (plate_line head) page.new result }
{
    let kind = head.kind;
    let a = phrases::put_bytes(page, at, b"plate ");
    let b = put_word(page, a, kind.byte() as u64, b' ');
    let c = put_word(page, b, head.width as u64, b' ');
    put_word(page, c, head.height as u64, b'\n')
}

// The line of a plunge.
pub fn put_plunge(page: &mut [u8], at: usize, q: Plunge) -> usize
    requires { at + length (plunge_line q) ≤ length page.old }
    ensures { Puts page.old at (plunge_line q) page.new result }
{
    let a = put_word(page, at, q.reach.0 as u64, b' ');
    let b = put_word(page, a, q.row as u64, b' ');
    let c = put_word(page, b, q.column as u64, b' ');
    put_word(page, c, q.depth as u64, b'\n')
}

// The line of the total.
pub fn put_total(page: &mut [u8], at: usize, plunges: usize) -> usize
    requires { at + length (total_line plunges) ≤ length page.old }
    ensures { Puts page.old at (total_line plunges) page.new result }
{
    let a = phrases::put_bytes(page, at, b"total ");
    put_word(page, a, plunges as u64, b'\n')
}

// The line of a refusal, at the start of a page; gives its length.
pub fn put_refusal(page: &mut [u8], refusal: Refusal) -> usize
    requires { 64 ≤ length page.old }
    ensures { Puts page.old 0 (refusal_line refusal) page.new result × IsPrefixLen result page.new }
{
    let a = phrases::put_bytes(page, 0, b"refused ");
    let b = put_word(page, a, refusal.number as u64, b' ');
    put_word(page, b, refusal.place as u64, b'\n')
}

// The line of a file that is tidy, at the start of a page; gives its length.
pub fn put_tidy(page: &mut [u8]) -> usize
    requires { 64 ≤ length page.old }
    ensures { Puts page.old 0 tidy_line page.new result × IsPrefixLen result page.new }
{
    phrases::put_bytes(page, 0, b"tidy\n")
}
