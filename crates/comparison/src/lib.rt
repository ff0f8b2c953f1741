// Whether two job files cut the same relief, and the first cell where they do not.
#![tactic(auto)]

ghost use Rattle.std.specs.Prelude.{◌≡◌, ◌≤◌, length};
ghost use Rattle.geometry.specs.Plate.{area};
ghost use Rattle.refusal.specs.Sides.{Sides};
ghost use Rattle.comparison.specs.Comparing.{CompareCall};
ghost use Rattle.comparison.specs.Drawings.{maps_compared, plates_compared, Holds, SecondCompared};

use geometry::Head;
use refusal::{Refusal, Verdict};

// A cell whose depths differ, with the depth in each relief.
#[derive(Clone, Copy)]
pub struct Difference {
    pub column: usize,
    pub row: usize,
    pub first: u8,
    pub second: u8,
}

// What two files have in common: the relief; not the kind; not the size; not a cell; or one of them is refused.
#[derive(Clone, Copy)]
pub enum Comparison {
    Same,
    OtherKind,
    OtherSize,
    OtherCell(Difference),
    FirstRefused(Refusal),
    SecondRefused(Refusal),
}

// Two maps of one plate, row after row.
fn compare_maps(head: Head, a: &[u8], b: &[u8]) -> Comparison
    requires { Sides head × (area head ≤ length a.now) × (area head ≤ length b.now) }
    ensures { result ≡ maps_compared head a.now b.now }
{
    let width = head.width as usize;
    let cells = (head.height as usize) * width;
    let i = listing_pass::common_run(&a[..cells], 0, &b[..cells]);
    if i < cells {
        return Comparison::OtherCell(Difference {
            column: i % width,
            row: i / width,
            first: a[i],
            second: b[i],
        });
    }
    Comparison::Same
}

// Two plates: kind, then width and height, then their maps.
fn compare_plates(first: Head, second: Head, a: &[u8], b: &[u8]) -> Comparison
    requires { Sides first × (area first ≤ length a.now) × (area second ≤ length b.now) }
    ensures { result ≡ plates_compared first second a.now b.now }
{
    let kind = first.kind;
    let other = second.kind;
    if kind.byte() != other.byte() {
        return Comparison::OtherKind;
    }
    if first.width != second.width || first.height != second.height {
        return Comparison::OtherSize;
    }
    compare_maps(first, a, b)
}

// Draws the second file and compares it with the first, whose map is drawn.
fn compare_second(first: &[u8], second: &[u8], a: &[u8], b: &mut [u8]) -> Comparison
    requires { Holds first.now a.now }
    ensures { SecondCompared first.now second.now b.old b.new result }
{
    match jobs::draw(second, b) {
        Err(r) => Comparison::SecondRefused(r),
        Ok(()) => compare_plates(reading::head_in(first), reading::head_in(second), a, b),
    }
}

// Whether two files cut the same relief. Each is drawn into a map of its own: the first file's refusals and 4, then the second's.
pub fn compare(first: &[u8], second: &[u8], a: &mut [u8], b: &mut [u8]) -> Comparison
    ensures { CompareCall first.now second.now a.old a.new b.old b.new result }
{
    match jobs::draw(first, a) {
        Err(r) => Comparison::FirstRefused(r),
        Ok(()) => compare_second(first, second, a, b),
    }
}
