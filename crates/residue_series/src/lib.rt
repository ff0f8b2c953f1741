// The residues of a relief one after the other, in runs of places: a run is marked where its residue is above 0, while the erosion after next
// is written over the erosion before, in two buffers.
#![tactic(auto)]

ghost use Rattle.std.specs.Prelude.{List, ℕ, ◌≤◌, length};
ghost use Rattle.geometry.specs.Plate.{area};
ghost use Rattle.residue_series.specs.Stands.{Due, Tops, PairMidway, Level, RunEnd, PairToSweep, PairSweep, LastResidue};
ghost use Rattle.residue_series.specs.Stands.{Advanced, Startable, Started, Underway, Taken};

use geometry::Head;
use residue_sweep::{Places, Swept};

// Where a series stands: the last residue that it takes; the erosion whose residue is taken, and a number no lower than any of it, 0 where it
// is bare; the next place, and such a number of the next erosion before that place; whether some places are left.
#[derive(Clone, Copy)]
pub struct Stand {
    pub limit: usize,
    pub number: usize,
    pub here: u8,
    pub place: usize,
    pub top: u8,
    pub more: bool,
}

// Some places of a residue, a number no lower than any of their marks, and where the series stands after them.
#[derive(Clone, Copy)]
pub struct Run {
    pub places: Places,
    pub deepest: u8,
    pub next: Stand,
}

// The highest of the first n bytes of a map.
fn highest(map: &[u8], n: usize) -> u8
    requires { n ≤ length map.now }
    ensures { Tops n map.now result }
{
    let mut top = 0u8;
    for i in 0..n {
        top = top.max(map[i]);
    }
    top
}

// The series before its first run: the relief in the first buffer, its first erosion in the second. The number that the step returns may be
// that of a cell at a side, which it then sets to 0: a bare erosion would not be seen.
pub fn start(head: Head, limit: usize, a: &[u8], b: &mut [u8]) -> Stand
    requires { Startable head limit a.now b.old }
    ensures { Started head limit a.now b.old b.new result }
{
    let cells = (head.height as usize) * (head.width as usize);
    erosion_step::erode_step(head, 0, a, b);
    let here = highest(b, cells);
    Stand {
        limit,
        number: 1,
        here,
        place: 0,
        top: 0,
        more: true,
    }
}

// Where the run from where a series stands ends: before the last rows that the residue can mark, after the first row, before the last, and
// where the bytes about a place begin or end to lie in the map.
fn run_end(head: Head, at: Stand) -> usize
    requires { Level head at.limit at.number at.place }
    ensures { RunEnd head at.number at.place result }
{
    let place = at.place;
    let width = head.width as usize;
    let cells = (head.height as usize) * width;
    let end = cells - (at.number - 1) * width;
    if place < width {
        return end.min(width);
    }
    if cells <= place + width {
        return end;
    }
    if place == width {
        return place + 1;
    }
    if cells <= place + width + 1 {
        return place + 1;
    }
    end.min(place + residue_sweep::RUN).min(cells - width - 1)
}

// Sweeps places of the pair's erosions number - 1 and number.
fn sweep_pair(
    head: Head,
    number: usize,
    places: Places,
    a: &mut [u8],
    b: &mut [u8],
    marks: &mut [u8; residue_marks::MARK_PLACES],
) -> Swept
    requires { PairToSweep head number places a.old b.old marks.old }
    ensures { PairSweep head number places a.old a.new b.old b.new
        marks.old marks.new result }
{
    if number % 2 == 0 {
        return residue_sweep::sweep_places(head, places, b, a, marks);
    }
    residue_sweep::sweep_places(head, places, a, b, marks)
}

// Whether no residue after this one is taken or can mark a place: it is the last, or its erosion is bare ("the climb … shall end there").
fn is_last(head: Head, at: Stand) -> bool
    requires { Level head at.limit at.number at.place }
    ensures { LastResidue head at result }
{
    let width = head.width as usize;
    let cells = (head.height as usize) * width;
    let first = at.number * width;
    at.number == at.limit || at.here == 0 || cells <= first + first
}

// Where a series stands that has swept up to a place: there, or at the next residue's first place, or at its end.
fn advance(head: Head, at: Stand, place: usize, top: u8) -> Stand
    requires { Level head at.limit at.number at.place × (at.place ≤ place) × (place ≤ area head) }
    ensures { (m a b : List ℕ) → Due head m at.number → PairMidway head m at.number at.here place top a b
        → Advanced head m at.limit at.number place a b result }
{
    let limit = at.limit;
    let number = at.number;
    let here = at.here;
    let width = head.width as usize;
    let cells = (head.height as usize) * width;
    let first = number * width;
    if place + first < cells + width {
        return Stand {
            limit,
            number,
            here,
            place,
            top,
            more: true,
        };
    }
    if is_last(head, at) {
        return Stand {
            limit,
            number,
            here,
            place,
            top,
            more: false,
        };
    }
    Stand {
        limit,
        number: number + 1,
        here: top,
        place: first,
        top: 0,
        more: true,
    }
}

// The next run of a series. `marks` is left with its marks: the depth of each marked place, 0 at the others.
pub fn next_run(
    head: Head,
    at: Stand,
    a: &mut [u8],
    b: &mut [u8],
    marks: &mut [u8; residue_marks::MARK_PLACES],
) -> Run
    requires { Underway head at a.old b.old marks.old }
    ensures { Taken head at a.old a.new b.old b.new marks.new result }
{
    let number = at.number;
    let place = at.place;
    let end = run_end(head, at);
    let places = Places {
        start: place,
        number: end - place,
    };
    let swept = sweep_pair(head, number, places, a, b, marks);
    let next = advance(head, at, end, at.top.max(swept.top));
    Run {
        places,
        deepest: swept.deepest,
        next,
    }
}
