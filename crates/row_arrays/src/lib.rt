// Rows of a plate in arrays: loaded from a map, propagated along themselves, joined with the row beside, stored.
#![tactic(auto)]

ghost use Rattle.std.specs.Prelude.{◌≡◌, cond, ◌+◌, ◌-◌, ◌*◌, ◌≤◌, ◌<◌, max, eqb, length, get_or};
ghost use Rattle.buffers.specs.Fill.{Filled};
ghost use Rattle.row_arrays.specs.Rows.{margin, row_places, widest_row, row_reach, Row, propagated_at, Widened, highest_beside, joined_row, with_columns, Merged};
ghost use Rattle.row_arrays.specs.Start.{seed, start};
ghost use Rattle.row_arrays.specs.Asked.{Loadable, RowPair, Mergeable};

use geometry::{Head, Kind};

// What the transform starts from: a wall at every cell below a level, those off the plate too, or a map's own numbers.
#[derive(Clone, Copy)]
pub enum Seeds {
    Walls(u8),
    Numbers,
}

// The number of a wall, from which distances are taken off.
pub const WALL: u8 = 255;

// A row of cells is held in an array: column x at place MARGIN + x, zeros at all other places. It has up to 1,024 columns, so that rows of
// 16-bit numbers are held alike.
pub const MARGIN: usize = 512;

pub const ROW_PLACES: usize = 2048;

fn seed_of(seeds: Seeds, n: u8) -> u8
    ensures { result ≡ seed seeds n }
{
    match seeds {
        Seeds::Walls(level) => if n < level { WALL } else { 0 },
        Seeds::Numbers => n,
    }
}

// ---- the start

// Seeds of a stretch of a map, none below floor.
pub fn load_run(
    seeds: Seeds,
    map: &[u8],
    from: usize,
    width: usize,
    floor: u8,
    row: &mut [u8; ROW_PLACES],
)
    requires { (from + width ≤ length map.now) × (width ≤ widest_row) × (length row.old ≡ row_places) }
    ensures { Filled (λ n. max (seed seeds (get_or map.now (from + (n - margin)) 0)) floor) margin (margin + width)
        row.old row.new }
{
    for n in MARGIN..MARGIN + width {
        row[n] = seed_of(seeds, map[from + (n - MARGIN)]).max(floor);
    }
}

// The least number at the start in a row: in the plate's first and last row that of the border.
fn floor_of(y: usize, height: usize, edge: u8) -> u8
    requires { y < height }
    ensures { result ≡ cond (eqb y 0) edge (cond (eqb (y + 1) height) edge 0) }
{
    if y == 0 || y + 1 == height { edge } else { 0 }
}

// The numbers that a row of the plate starts from.
pub fn load_row(head: Head, seeds: Seeds, map: &[u8], y: usize, row: &mut [u8; ROW_PLACES])
    requires { Loadable head map.now y row.old }
    ensures { Row (λ x. start head (seed seeds) map.now x y) head.width row.new }
{
    let width = head.width as usize;
    let edge = seed_of(seeds, 0).saturating_sub(1);
    let floor = floor_of(y, head.height as usize, edge);
    load_run(seeds, map, y * width, width, floor, row);
    row[MARGIN] = row[MARGIN].max(edge);
    row[MARGIN + width - 1] = row[MARGIN + width - 1].max(edge);
}

// ---- along a row

// One doubling: what is known within a step becomes known within two.
fn propagate_step(src: &[u8; ROW_PLACES], dst: &mut [u8; ROW_PLACES], step: usize, width: usize)
    requires { (step < row_reach) × (width ≤ widest_row) × (length dst.old ≡ row_places) }
    ensures { Filled (propagated_at src.now step) margin (margin + width) dst.old dst.new }
{
    let fall = step as u8;
    for n in MARGIN..MARGIN + width {
        dst[n] = src[n].max(src[n - step].max(src[n + step]).saturating_sub(fall));
    }
}

// Two doublings, to the spare row and back.
fn propagate_twice(
    row: &mut [u8; ROW_PLACES],
    spare: &mut [u8; ROW_PLACES],
    step: usize,
    width: usize,
)
    requires { (2 * step < row_reach) × RowPair width row.old spare.old }
    ensures { Widened width step (4 * step) row.old row.new spare.new }
{
    propagate_step(row, spare, step, width);
    propagate_step(spare, row, 2 * step, width);
}

// Along a row: the highest number less the distance, after steps 1, 2, 4 up to 128.
pub fn propagate_row(row: &mut [u8; ROW_PLACES], spare: &mut [u8; ROW_PLACES], width: usize)
    requires { RowPair width row.old spare.old }
    ensures { Widened width 1 row_reach row.old row.new spare.new }
{
    propagate_twice(row, spare, 1, width);
    propagate_twice(row, spare, 4, width);
    propagate_twice(row, spare, 16, width);
    propagate_twice(row, spare, 64, width);
}

// ---- the row beside

// The highest of the row beside that is one step away from place n.
fn highest_beside(kind: Kind, beside: &[u8; ROW_PLACES], n: usize) -> u8
    requires { (1 ≤ n) × (n + 1 < row_places) }
    ensures { result ≡ highest_beside kind beside.now n }
{
    match kind {
        Kind::Diamond => beside[n],
        Kind::Square => beside[n].max(beside[n - 1].max(beside[n + 1])),
    }
}

// From the row beside: its highest near each cell, less 1.
fn join_row(kind: Kind, beside: &[u8; ROW_PLACES], row: &mut [u8; ROW_PLACES], width: usize)
    requires { (width ≤ widest_row) × (length row.old ≡ row_places) }
    ensures { Filled (joined_row kind beside.now row.old) margin (margin + width) row.old row.new }
{
    for n in MARGIN..MARGIN + width {
        row[n] = row[n].max(highest_beside(kind, beside, n).saturating_sub(1));
    }
}

// A row into its stretch of a map.
fn store_row(row: &[u8; ROW_PLACES], out: &mut [u8], from: usize, width: usize)
    requires { (from + width ≤ length out.old) × (width ≤ widest_row) }
    ensures { Filled (λ n. get_or row.now (margin + (n - from)) 0) from (from + width) out.old out.new }
{
    out[from..from + width].copy_from_slice(&row[MARGIN..MARGIN + width]);
}

// A row's columns to those of another, whatever the numbers' width.
pub fn copy_row<T: Copy>(row: &[T], beside: &mut [T], width: usize)
    requires { (width ≤ widest_row) × (length row.now ≡ row_places) × (length beside.old ≡ row_places) }
    ensures { beside.new ≡ with_columns width row.now beside.old }
{
    beside[MARGIN..MARGIN + width].copy_from_slice(&row[MARGIN..MARGIN + width]);
}

// Joins a row with the row beside, stores it, and leaves it as the next row's row beside.
pub fn merge_row(
    kind: Kind,
    width: usize,
    from: usize,
    beside: &mut [u8; ROW_PLACES],
    row: &mut [u8; ROW_PLACES],
    out: &mut [u8],
)
    requires { Mergeable width from beside.old row.old out.old }
    ensures { Merged kind width from beside.old beside.new row.old row.new
        out.old out.new }
{
    join_row(kind, beside, row, width);
    store_row(row, out, from, width);
    copy_row(row, beside, width);
}
