// Drawing back from a map of two bytes a number: 1 where some cell's number exceeds its distance, else 0. There is nowhere to keep 16-bit
// numbers between the passes, so each pass makes them of the map anew and marks the cells that they reach.
#![tactic(auto)]

ghost use Rattle.std.specs.Prelude.{◌≡◌, ◌++◌, ◌+◌, ◌-◌, ◌≤◌, length, get_or, drop};
ghost use Rattle.geometry.specs.Plate.{tabulated};
ghost use Rattle.theory.specs.Levels.{reconstructed};
ghost use Rattle.buffers.specs.Fill.{Filled};
ghost use Rattle.row_arrays.specs.Rows.{margin, widest_row};
ghost use Rattle.wide_rows.specs.Wide.{wide_numbers};
ghost use Rattle.wide_reconstruct.specs.Marks.{marked, own, MarkPlates, Markable, RowMarked, MarkedDown, MarkedUp};

use geometry::Head;
use row_arrays::{MARGIN, ROW_PLACES};

// The mark of a number: 1 where it is above 0, else the mark that was there.
fn mark_of(number: u16, mark: u8) -> u8
    ensures { result ≡ marked number mark }
{
    if 0 < number { 1 } else { mark }
}

// A row's marks into its stretch of a map.
fn mark_run(row: &[u16; ROW_PLACES], out: &mut [u8], from: usize, width: usize)
    requires { (from + width ≤ length out.old) × (width ≤ widest_row) }
    ensures { Filled (λ n. marked (get_or row.now (margin + (n - from)) 0) (get_or out.old n 0))
        from (from + width) out.old out.new }
{
    for n in from..from + width {
        out[n] = mark_of(row[MARGIN + (n - from)], out[n]);
    }
}

// One row: its numbers along itself and from the row beside, whose place they take, and their marks.
fn mark_row(
    head: Head,
    map: &[u8],
    y: usize,
    row: &mut [u16; ROW_PLACES],
    spare: &mut [u16; ROW_PLACES],
    beside: &mut [u16; ROW_PLACES],
    out: &mut [u8],
)
    requires { Markable head map.now y row.old spare.old beside.old out.old }
    ensures { RowMarked head map.now y row.new spare.new beside.old beside.new
        out.old out.new }
{
    let kind = head.kind;
    let width = head.width as usize;
    wide_rows::load_numbers(map, y * width, width, row);
    wide_rows::propagate_row(row, spare, width);
    wide_rows::join_row(kind, beside, row, width);
    mark_run(row, out, y * width, width);
    row_arrays::copy_row(row, beside, width);
}

// Every row, each with the rows above it.
fn mark_down(head: Head, map: &[u8], out: &mut [u8])
    requires { MarkPlates head map.now out.old }
    ensures { MarkedDown head (own head map.now) out.old out.new }
{
    let mut row = [0u16; ROW_PLACES];
    let mut spare = [0u16; ROW_PLACES];
    let mut above = [0u16; ROW_PLACES];
    let height = head.height as usize;
    for y in 0..height {
        mark_row(head, map, y, &mut row, &mut spare, &mut above, out);
    }
}

// Every row from the last on, each with the rows below it.
fn mark_up(head: Head, map: &[u8], out: &mut [u8])
    requires { MarkPlates head map.now out.old }
    ensures { MarkedUp head (own head map.now) out.old out.new }
{
    let mut row = [0u16; ROW_PLACES];
    let mut spare = [0u16; ROW_PLACES];
    let mut below = [0u16; ROW_PLACES];
    let height = head.height as usize;
    for y in (0..height).rev() {
        mark_row(head, map, y, &mut row, &mut spare, &mut below, out);
    }
}

// What a map of two bytes a number reaches; bytes past the plate's stay.
pub fn put_reconstruction(head: Head, map: &[u8], out: &mut [u8])
    requires { MarkPlates head map.now out.old }
    ensures { out.new ≡ tabulated head (reconstructed head (wide_numbers map.now))
        ++ drop (length (tabulated head (reconstructed head (wide_numbers map.now)))) out.old }
{
    buffers::zero_run(out, 0, (head.height as usize) * (head.width as usize));
    mark_down(head, map, out);
    mark_up(head, map, out);
}
