// What two job files have in common, as a line; put into pages.
#![tactic(auto)]

ghost use Rattle.std.specs.Prelude.{◌≡◌, ◌≤◌, length, get_or};
ghost use Rattle.io.specs.Counts.{IsPrefixLen};
ghost use Rattle.phrases.specs.Phrases.{Appends};
ghost use Rattle.comparison_text.specs.Line.{size_text, cell_line, kind_line, size_line, comparison_line};

use comparison::{Comparison, Difference};

// A byte of a file as a number, 0 past the end.
fn number_in(file: &[u8], i: usize) -> u64
    ensures { result ≡ get_or file.now i 0 }
{
    u64::from(scan::byte_in(file, i))
}

fn append_kinds(page: &mut [u8], at: usize, first: &[u8], second: &[u8]) -> usize
    requires { at ≤ length page.old }
    ensures { Appends page.old at (kind_line first.now second.now) page.new result × IsPrefixLen result page.new }
{
    let next = phrases::append_phrase(page, at, b"kind ", number_in(first, 3), b" and ");
    phrases::append_phrase(page, next, b"", number_in(second, 3), b"\n")
}

fn append_size(page: &mut [u8], at: usize, file: &[u8], after: &[u8]) -> usize
    requires { at ≤ length page.old }
    ensures { Appends page.old at (size_text file.now after.now) page.new result × IsPrefixLen result page.new }
{
    let next = phrases::append_phrase(page, at, b"", number_in(file, 4), b" by ");
    phrases::append_phrase(page, next, b"", number_in(file, 5), after)
}

fn append_sizes(page: &mut [u8], at: usize, first: &[u8], second: &[u8]) -> usize
    requires { at ≤ length page.old }
    ensures { Appends page.old at (size_line first.now second.now) page.new result × IsPrefixLen result page.new }
{
    let a = phrases::append(page, at, b"size ");
    let b = append_size(page, a, first, b" and ");
    append_size(page, b, second, b"\n")
}

fn append_cell(page: &mut [u8], at: usize, d: Difference) -> usize
    requires { at ≤ length page.old }
    ensures { Appends page.old at (cell_line d) page.new result × IsPrefixLen result page.new }
{
    let x = phrases::append_phrase(page, at, b"column ", d.column as u64, b", row ");
    let y = phrases::append_phrase(page, x, b"", d.row as u64, b": depth ");
    let z = phrases::append_phrase(page, y, b"", u64::from(d.first), b" and ");
    phrases::append_phrase(page, z, b"", u64::from(d.second), b"\n")
}

// The line of a comparison of two files; none of a refusal.
pub fn append_line(
    page: &mut [u8],
    at: usize,
    first: &[u8],
    second: &[u8],
    compared: Comparison,
) -> usize
    requires { at ≤ length page.old }
    ensures { Appends page.old at (comparison_line first.now second.now compared) page.new result × IsPrefixLen result page.new }
{
    match compared {
        Comparison::Same => phrases::append(page, at, b"same\n"),
        Comparison::OtherKind => append_kinds(page, at, first, second),
        Comparison::OtherSize => append_sizes(page, at, first, second),
        Comparison::OtherCell(d) => append_cell(page, at, d),
        Comparison::FirstRefused(_) => at,
        Comparison::SecondRefused(_) => at,
    }
}
