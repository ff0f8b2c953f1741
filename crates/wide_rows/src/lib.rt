// Rows of a plate in arrays of 16-bit numbers, as `row_arrays` has them in bytes; their maps have two bytes a number, high byte first.
#![tactic(auto)]

ghost use Rattle.std.specs.Prelude.{◌≡◌, cond, ◌+◌, ◌-◌, ◌*◌, ◌≤◌, ◌<◌, max, eqb, length, get_or};
ghost use Rattle.buffers.specs.Fill.{Filled};
ghost use Rattle.row_arrays.specs.Rows.{margin, row_places, widest_row, Margins, Row, propagated_at, Widened, highest_beside, joined_row};
ghost use Rattle.row_arrays.specs.Start.{wall_number, start};
ghost use Rattle.row_arrays.specs.Asked.{Loadable, RowPair, Mergeable};
ghost use Rattle.wide_rows.specs.Wide.{wide_numbers, wide_wall, wide_reach, WideFilled, WideMerged};

use geometry::{Head, Kind};
use row_arrays::{MARGIN, ROW_PLACES};

// The number of a wall, from which distances are taken off.
pub const WIDE_WALL: u16 = 65535;

// ---- the start

// The number of a wall where a depth is below the level, else 0.
fn seed_of(level: u8, depth: u8) -> u16
    ensures { result ≡ wall_number wide_wall level depth }
{
    if depth < level { WIDE_WALL } else { 0 }
}

// Seeds of a stretch of a relief, none below floor.
fn load_seeds(
    level: u8,
    relief: &[u8],
    from: usize,
    width: usize,
    floor: u16,
    row: &mut [u16; ROW_PLACES],
)
    requires { (from + width ≤ length relief.now) × (width ≤ widest_row) × (length row.old ≡ row_places) }
    ensures { Filled (λ n. max (wall_number wide_wall level (get_or relief.now (from + (n - margin)) 0)) floor)
        margin (margin + width) row.old row.new }
{
    for n in MARGIN..MARGIN + width {
        row[n] = seed_of(level, relief[from + (n - MARGIN)]).max(floor);
    }
}

// The least number at the start in a row: in the plate's first and last row that of the border.
fn floor_of(y: usize, height: usize, edge: u16) -> u16
    requires { y < height }
    ensures { result ≡ cond (eqb y 0) edge (cond (eqb (y + 1) height) edge 0) }
{
    if y == 0 || y + 1 == height { edge } else { 0 }
}

// The numbers that a row of the plate starts from, for the walls of a level.
pub fn load_walls(head: Head, level: u8, relief: &[u8], y: usize, row: &mut [u16; ROW_PLACES])
    requires { Loadable head relief.now y row.old }
    ensures { Row (λ x. start head (wall_number wide_wall level) relief.now x y) head.width row.new }
{
    let width = head.width as usize;
    let edge = seed_of(level, 0).saturating_sub(1);
    let floor = floor_of(y, head.height as usize, edge);
    load_seeds(level, relief, y * width, width, floor, row);
    row[MARGIN] = row[MARGIN].max(edge);
    row[MARGIN + width - 1] = row[MARGIN + width - 1].max(edge);
}

// A stretch of a map of two bytes a number.
pub fn load_numbers(map: &[u8], from: usize, width: usize, row: &mut [u16; ROW_PLACES])
    requires { (2 * (from + width) ≤ length map.now) × (width ≤ widest_row) × Margins width row.old }
    ensures { Row (λ x. get_or (wide_numbers map.now) (from + x) 0) width row.new }
{
    for n in MARGIN..MARGIN + width {
        let at = 2 * (from + (n - MARGIN));
        row[n] = numbers::of_bytes(map[at], map[at + 1]);
    }
}

// ---- along a row

// One doubling: what is known within a step becomes known within two.
fn propagate_step(src: &[u16; ROW_PLACES], dst: &mut [u16; ROW_PLACES], step: usize, width: usize)
    requires { (step ≤ margin) × (width ≤ widest_row) × (length dst.old ≡ row_places) }
    ensures { Filled (propagated_at src.now step) margin (margin + width) dst.old dst.new }
{
    let fall = step as u16;
    for n in MARGIN..MARGIN + width {
        dst[n] = src[n].max(src[n - step].max(src[n + step]).saturating_sub(fall));
    }
}

// Two doublings, to the spare row and back.
fn propagate_twice(
    row: &mut [u16; ROW_PLACES],
    spare: &mut [u16; ROW_PLACES],
    step: usize,
    width: usize,
)
    requires { (2 * step ≤ margin) × RowPair width row.old spare.old }
    ensures { Widened width step (4 * step) row.old row.new spare.new }
{
    propagate_step(row, spare, step, width);
    propagate_step(spare, row, 2 * step, width);
}

// Along a row: the highest number less the distance, after steps 1, 2, 4 up to 512.
pub fn propagate_row(row: &mut [u16; ROW_PLACES], spare: &mut [u16; ROW_PLACES], width: usize)
    requires { RowPair width row.old spare.old }
    ensures { Widened width 1 wide_reach row.old row.new spare.new }
{
    propagate_twice(row, spare, 1, width);
    propagate_twice(row, spare, 4, width);
    propagate_twice(row, spare, 16, width);
    propagate_twice(row, spare, 64, width);
    propagate_twice(row, spare, 256, width);
}

// ---- the row beside

// The highest of the row beside that is one step away from place n.
pub fn highest_beside(kind: Kind, beside: &[u16; ROW_PLACES], n: usize) -> u16
    requires { (1 ≤ n) × (n + 1 < row_places) }
    ensures { result ≡ highest_beside kind beside.now n }
{
    match kind {
        Kind::Diamond => beside[n],
        Kind::Square => beside[n].max(beside[n - 1].max(beside[n + 1])),
    }
}

// From the row beside: its highest near each cell, less 1.
pub fn join_row(kind: Kind, beside: &[u16; ROW_PLACES], row: &mut [u16; ROW_PLACES], width: usize)
    requires { (width ≤ widest_row) × (length row.old ≡ row_places) }
    ensures { Filled (joined_row kind beside.now row.old) margin (margin + width) row.old row.new }
{
    for n in MARGIN..MARGIN + width {
        row[n] = row[n].max(highest_beside(kind, beside, n).saturating_sub(1));
    }
}

// A row into its stretch of a map, two bytes a number.
fn store_row(row: &[u16; ROW_PLACES], out: &mut [u8], from: usize, width: usize)
    requires { (2 * (from + width) ≤ length out.old) × (width ≤ widest_row) }
    ensures { WideFilled (λ n. get_or row.now (margin + (n - from)) 0) from (from + width) out.old out.new }
{
    for n in from..from + width {
        let number = row[MARGIN + (n - from)];
        out[2 * n] = numbers::first_byte(number);
        out[2 * n + 1] = numbers::second_byte(number);
    }
}

// Joins a row with the row beside, stores it, and leaves it as the next row's row beside.
pub fn merge_row(
    kind: Kind,
    width: usize,
    from: usize,
    beside: &mut [u16; ROW_PLACES],
    row: &mut [u16; ROW_PLACES],
    out: &mut [u8],
)
    requires { Mergeable width from beside.old row.old (wide_numbers out.old) }
    ensures { WideMerged kind width from beside.old beside.new row.old row.new
        out.old out.new }
{
    join_row(kind, beside, row, width);
    store_row(row, out, from, width);
    row_arrays::copy_row(row, beside, width);
}
