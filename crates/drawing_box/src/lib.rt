// A box of a plate that holds the balls of a file's plunges, and the plunges as they lie on it, taken for a plate of its own.
#![tactic(auto)]

ghost use Rattle.std.specs.Prelude.{◌≡◌, ◌≤◌, ◌<◌};
ghost use Rattle.geometry.specs.Forms.{largest_reach};
ghost use Rattle.refusal.specs.Sides.{Sides};
ghost use Rattle.bounding_box.specs.Boxes.{Within};
ghost use Rattle.reading.specs.Reading.{nth_plunge};
ghost use Rattle.drawing_box.specs.Boxed.{Drawable, widened_by, Extended, Holding, Placeable, part_of, plunge_in};

use bounding_box::Bounds;
use geometry::{Head, Plunge, Reach};

// A list is gone through for its box if it has at most one plunge for so many cells of the plate and each reach above 0: that takes less time
// than the dilations, one for each of these reaches, which a box makes shorter.
const CELLS: usize = 64;

// A box that leaves at most this part of a side bare at each end is taken for the whole plate.
const EDGE: usize = 16;

// What is drawn: a plate, how many plunges its file has, and a box of the plate that holds their balls.
#[derive(Clone, Copy)]
pub struct Drawing {
    pub head: Head,
    pub count: usize,
    pub part: Bounds,
}

// The columns and rows that some balls hold, each from the first up to one past the last.
#[derive(Clone, Copy)]
struct Extent {
    left: usize,
    right: usize,
    top: usize,
    bottom: usize,
}

// Plunge number i of a file.
pub fn plunge_at(head: Head, file: &[u8], count: usize, i: usize) -> Plunge
    requires { Sides head × Drawable head count file.now × (i < count) }
    ensures { result ≡ nth_plunge file.now i }
{
    reading::plunge_at(head.size(), file, fields::place(head, i)).unwrap()
}

// ---- the box

// An extent with the ball of one plunge more.
fn widened(e: Extent, q: Plunge) -> Extent
    requires { (q.reach.0 ≤ q.column) × (q.reach.0 ≤ q.row) }
    ensures { result ≡ widened_by e q }
{
    let reach = q.reach.0 as usize;
    let column = q.column as usize;
    let row = q.row as usize;
    Extent {
        left: e.left.min(column - reach),
        right: e.right.max(column + reach + 1),
        top: e.top.min(row - reach),
        bottom: e.bottom.max(row + reach + 1),
    }
}

// Whether an extent leaves little of the plate bare. A box may be any that holds the balls, so nothing is promised.
fn is_wide(head: Head, e: Extent) -> bool {
    let width = head.width as usize;
    let height = head.height as usize;
    let across = width / EDGE;
    let down = height / EDGE;
    e.left <= across && e.top <= down && width - across <= e.right && height - down <= e.bottom
}

// An extent that has all balls of a file: the smallest, or the whole plate's where that one leaves little of it bare. From the last plunge on,
// since the balls of a list in order are widest there.
fn extent_of(head: Head, file: &[u8], count: usize) -> Extent
    requires { Sides head × Drawable head count file.now }
    ensures { Extended head file.now 0 count result }
{
    let width = head.width as usize;
    let height = head.height as usize;
    let mut extent = Extent {
        left: width,
        right: 0,
        top: height,
        bottom: 0,
    };
    for i in (0..count).rev() {
        extent = widened(extent, plunge_at(head, file, count, i));
        if is_wide(head, extent) {
            return Extent {
                left: 0,
                right: width,
                top: 0,
                bottom: height,
            };
        }
    }
    extent
}

// A box of the plate that holds all balls of a file, whose reaches go up to `top`: where it is worth while to look for it the smallest, or
// near it; else the whole plate.
pub fn box_of(head: Head, file: &[u8], count: usize, top: usize) -> Bounds
    requires { Sides head × Drawable head count file.now × (top ≤ largest_reach) }
    ensures { Holding head result count file.now }
{
    let width = head.width as usize;
    let height = head.height as usize;
    if count <= height * width / CELLS * top {
        let e = extent_of(head, file, count);
        if e.left < e.right && e.top < e.bottom {
            return Bounds {
                column: e.left,
                row: e.top,
                width: e.right - e.left,
                height: e.bottom - e.top,
            };
        }
    }
    Bounds {
        column: 0,
        row: 0,
        width,
        height,
    }
}

// ---- on the box

// The box as a plate of its own.
pub fn part_of(d: Drawing) -> Head
    requires { Sides d.head × Within d.head d.part }
    ensures { result ≡ part_of d }
{
    let head = d.head;
    let kind = head.kind;
    let width = d.part.width as u16;
    let height = d.part.height as u16;
    Head {
        kind,
        width,
        height,
    }
}

// Plunge number i of a file, with its column and row counted from the box's.
pub fn plunge_in(d: Drawing, file: &[u8], i: usize) -> Plunge
    requires { Placeable d file.now × (i < d.count) }
    ensures { result ≡ plunge_in d file.now i }
{
    let q = plunge_at(d.head, file, d.count, i);
    let reach = q.reach;
    Plunge {
        column: q.column - (d.part.column as u16),
        row: q.row - (d.part.row as u16),
        reach,
        depth: q.depth,
    }
}
