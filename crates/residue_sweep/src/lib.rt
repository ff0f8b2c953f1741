// Sweeps over places of two erosions, one after the other: each place with a residue above 0 is marked with its depth, and the erosion after
// both is written over the first.
#![tactic(auto)]

ghost use Rattle.buffers.specs.Margin.{Margin};
ghost use Rattle.residue_sweep.specs.Sweeps.{RunBuffers, EdgeBuffers, SweepBuffers, low_in, high_in, low_near, high_near, high_beside, Sweep};

use geometry::{Head, Kind};
use residue_marks::MARK_PLACES;

// The places swept at once where their windows lie in the map: a multiple of 16.
pub const RUN: usize = 1920;

// Places of a flat map, one after the other.
#[derive(Clone, Copy)]
pub struct Places {
    pub start: usize,
    pub number: usize,
}

// What a sweep found: a number no lower than any of its marks, and one no lower than any number that it wrote, 0 if all of these are.
#[derive(Clone, Copy)]
pub struct Swept {
    pub deepest: u8,
    pub top: u8,
}

// Sweeps places with the nine bytes about each for its window.
fn sweep_run(
    kind: Kind,
    width: usize,
    places: Places,
    prev: &mut [u8],
    cur: &[u8],
    marks: &mut [u8; MARK_PLACES],
) -> Swept
    requires { RunBuffers width places prev.old cur.now marks.old }
    ensures { Sweep (low_in kind width cur.now) (high_in kind width cur.now) places.start places.number
        prev.old prev.new marks.old marks.new result.deepest result.top }
{
    let start = places.start;
    let number = places.number;
    let mut deepest = 0u8;
    let mut top = 0u8;
    for i in 0..number {
        let n = start + i;
        let win = window::window_in(cur, width, n);
        let low = window::window_min(kind, win);
        let v = residue_marks::mark(prev[n], window::window_max(kind, win));
        marks[i] = v;
        prev[n] = low;
        deepest = deepest.max(v);
        top = top.max(low);
    }
    Swept { deepest, top }
}

// Sweeps places of the first or the last row: the second map is 0 there, so only the row beside it counts, from a place on.
fn sweep_edge(
    kind: Kind,
    places: Places,
    beside: usize,
    prev: &mut [u8],
    cur: &[u8],
    marks: &mut [u8; MARK_PLACES],
) -> Swept
    requires { EdgeBuffers places beside prev.old cur.now marks.old }
    ensures { Sweep (λ n. 0) (high_beside kind beside places.start cur.now) places.start places.number
        prev.old prev.new marks.old marks.new result.deepest result.top }
{
    let start = places.start;
    let number = places.number;
    let mut deepest = 0u8;
    for i in 0..number {
        let n = start + i;
        let j = beside + i;
        let win = [[0, 0, 0], [0, 0, 0], [cur[j - 1], cur[j], cur[j + 1]]];
        let v = residue_marks::mark(prev[n], window::window_max(kind, win));
        marks[i] = v;
        prev[n] = 0;
        deepest = deepest.max(v);
    }
    Swept { deepest, top: 0 }
}

// Sweeps any places, each cell by its own window.
fn sweep_cells(
    head: Head,
    places: Places,
    prev: &mut [u8],
    cur: &[u8],
    marks: &mut [u8; MARK_PLACES],
) -> Swept
    requires { SweepBuffers head places prev.old cur.now marks.old }
    ensures { Sweep (low_near head cur.now) (high_near head cur.now) places.start places.number
        prev.old prev.new marks.old marks.new result.deepest result.top }
{
    let kind = head.kind;
    let width = head.width as usize;
    let start = places.start;
    let number = places.number;
    let mut deepest = 0u8;
    let mut top = 0u8;
    for i in 0..number {
        let n = start + i;
        let win = window::window_at(head, cur, (n % width) as u16, (n / width) as u16);
        let low = window::window_min(kind, win);
        let v = residue_marks::mark(prev[n], window::window_max(kind, win));
        marks[i] = v;
        prev[n] = low;
        deepest = deepest.max(v);
        top = top.max(low);
    }
    Swept { deepest, top }
}

// Sweeps places of erosions of which the second is 0 along the border: by the row beside them where they lie in the first or the last row,
// by the nine bytes about each where these lie in the map.
pub fn sweep_places(
    head: Head,
    places: Places,
    prev: &mut [u8],
    cur: &[u8],
    marks: &mut [u8; MARK_PLACES],
) -> Swept
    requires { SweepBuffers head places prev.old cur.now marks.old × Margin head 1 cur.now }
    ensures { Sweep (low_near head cur.now) (high_near head cur.now) places.start places.number
        prev.old prev.new marks.old marks.new result.deepest result.top }
{
    let kind = head.kind;
    let width = head.width as usize;
    let cells = (head.height as usize) * width;
    let start = places.start;
    let end = start + places.number;
    if cells < 3 * width {
        return sweep_cells(head, places, prev, cur, marks);
    }
    if end <= width {
        return sweep_edge(kind, places, start + width, prev, cur, marks);
    }
    if cells <= start + width {
        return sweep_edge(kind, places, start - width, prev, cur, marks);
    }
    if start <= width {
        return sweep_cells(head, places, prev, cur, marks);
    }
    if cells < end + width + 1 {
        return sweep_cells(head, places, prev, cur, marks);
    }
    sweep_run(kind, width, places, prev, cur, marks)
}
