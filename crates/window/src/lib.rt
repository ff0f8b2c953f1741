// A cell's window, three rows of three numbers of a map by value, and the leaves that take its lowest and highest for either kind.
#![tactic(auto)]

ghost use Rattle.std.specs.Prelude.{◌≡◌, true, [], ◌∷◌, ◌+◌, ◌-◌, ◌<◌, ◌≤◌, min, max, length, get_or};
ghost use Rattle.geometry.specs.Plane.{cell};
ghost use Rattle.geometry.specs.Plate.{at};
ghost use Rattle.window.specs.Windows.{window_of, window_min, window_max};
ghost use Rattle.window.specs.Places.{largest_word, before, window_in, Inner, cross_of, corners_of};

use geometry::{Head, Kind};

// The lowest of the middle and the four that share a side with it.
fn cross_min(win: [[u8; 3]; 3]) -> u8
    ensures { result ≡ cross_of min win }
{
    win[0][1]
        .min(win[2][1])
        .min(win[1][0].min(win[1][2]).min(win[1][1]))
}

// The lowest of the four corners.
fn corners_min(win: [[u8; 3]; 3]) -> u8
    ensures { result ≡ corners_of min win }
{
    win[0][0].min(win[0][2]).min(win[2][0].min(win[2][2]))
}

// The highest of the middle and the four that share a side with it.
fn cross_max(win: [[u8; 3]; 3]) -> u8
    ensures { result ≡ cross_of max win }
{
    win[0][1]
        .max(win[2][1])
        .max(win[1][0].max(win[1][2]).max(win[1][1]))
}

// The highest of the four corners.
fn corners_max(win: [[u8; 3]; 3]) -> u8
    ensures { result ≡ corners_of max win }
{
    win[0][0].max(win[0][2]).max(win[2][0].max(win[2][2]))
}

// The lowest of a window among the middle cell and its neighbours.
pub fn window_min(kind: Kind, win: [[u8; 3]; 3]) -> u8
    ensures { result ≡ window_min kind win }
{
    match kind {
        Kind::Diamond => cross_min(win),
        Kind::Square => cross_min(win).min(corners_min(win)),
    }
}

// The highest of a window among the middle cell and its neighbours.
pub fn window_max(kind: Kind, win: [[u8; 3]; 3]) -> u8
    ensures { result ≡ window_max kind win }
{
    match kind {
        Kind::Diamond => cross_max(win),
        Kind::Square => cross_max(win).max(corners_max(win)),
    }
}

// A map's number at column i - 1 and row j - 1, 0 off the plate and past the end of the buffer.
fn at_before(head: Head, map: &[u8], i: usize, j: usize) -> u8
    requires { (i ≤ largest_word + 2) × (j ≤ largest_word + 2) }
    ensures { result ≡ at head map.now (before i j) }
{
    let width = head.width as usize;
    let height = head.height as usize;
    if i == 0 || j == 0 {
        return 0;
    }
    let column = i - 1;
    let row = j - 1;
    if width <= column || height <= row {
        return 0;
    }
    let number = row * width + column;
    if map.len() <= number {
        return 0;
    }
    map[number]
}

// Three numbers of a map side by side: columns i - 1, i and i + 1 of row j - 1, 0 off the plate.
fn row_before(head: Head, map: &[u8], i: usize, j: usize) -> [u8; 3]
    requires { (i ≤ largest_word) × (j ≤ largest_word + 2) }
    ensures { result ≡ at head map.now (before i j) ∷ at head map.now (before (i + 1) j)
        ∷ at head map.now (before (i + 2) j) ∷ [] }
{
    [
        at_before(head, map, i, j),
        at_before(head, map, i + 1, j),
        at_before(head, map, i + 2, j),
    ]
}

// The window of a cell of a map.
pub fn window_at(head: Head, map: &[u8], column: u16, row: u16) -> [[u8; 3]; 3]
    ensures { result ≡ window_of head map.now (cell column row) }
{
    let x = column as usize;
    let y = row as usize;
    [
        row_before(head, map, x, y),
        row_before(head, map, x, y + 1),
        row_before(head, map, x, y + 2),
    ]
}

// Three bytes of a flat map side by side, the second at place n.
fn row_in(map: &[u8], n: usize) -> [u8; 3]
    requires { (1 ≤ n) × (n + 1 < length map.now) }
    ensures { result ≡ get_or map.now (n - 1) 0 ∷ get_or map.now n 0 ∷ get_or map.now (n + 1) 0 ∷ [] }
{
    [map[n - 1], map[n], map[n + 1]]
}

// The nine bytes about a number of a flat map: the window of a cell that does not touch the edge.
pub fn window_in(map: &[u8], width: usize, number: usize) -> [[u8; 3]; 3]
    requires { (width + 1 ≤ number) × (number + width + 1 < length map.now) }
    ensures { result ≡ window_in map.now width number }
{
    [
        row_in(map, number - width),
        row_in(map, number),
        row_in(map, number + width),
    ]
}

// Whether a row of the plate has cells that do not touch its edge: their windows can be read by place, those of its two ends cannot.
pub fn is_inner(head: Head, row: u16) -> bool
    requires { row < head.height }
    ensures { result ≡ true → Inner head row }
{
    0 < row && row < head.height - 1 && 2 < head.width
}
