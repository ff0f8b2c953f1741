// The medial axis of a level in two bytes a cell, high byte first, for plates whose rows have up to 1,024 columns: the pass of
// `row_filter` with 16-bit numbers.
#![tactic(auto)]

ghost use Rattle.std.specs.Prelude.{◌≡◌, ◌++◌, ◌+◌, ◌-◌, ◌*◌, ◌≤◌, ◌<◌, length, drop};
ghost use Rattle.geometry.specs.Lists.{highest};
ghost use Rattle.geometry.specs.Plane.{cell};
ghost use Rattle.geometry.specs.Plate.{area, at, tabulated};
ghost use Rattle.window.specs.Windows.{around};
ghost use Rattle.theory.specs.Levels.{axis};
ghost use Rattle.row_arrays.specs.Rows.{margin, row_places, widest_row, Row};
ghost use Rattle.row_arrays.specs.Asked.{Held};
ghost use Rattle.wide_rows.specs.Wide.{wide_map, wide_numbers, WideFilled};
ghost use Rattle.wide_transform.specs.Passes.{WidePlates};
ghost use Rattle.row_filter.specs.Filter.{window_rows, kept};
ghost use Rattle.wide_axis.specs.Kept.{kept_map, WideReadable, KeptRow};

use geometry::{Head, Kind};
use row_arrays::{MARGIN, ROW_PLACES};
use wide_rows::highest_beside;

// The highest among the neighbours of place n of the middle row.
fn highest_around(
    kind: Kind,
    above: &[u16; ROW_PLACES],
    mid: &[u16; ROW_PLACES],
    below: &[u16; ROW_PLACES],
    n: usize,
) -> u16
    requires { (1 ≤ n) × (n + 1 < row_places) }
    ensures { result ≡ highest 0 (around kind (window_rows above.now mid.now below.now n)) }
{
    let along = mid[n - 1].max(mid[n + 1]);
    let beside = highest_beside(kind, above, n).max(highest_beside(kind, below, n));
    along.max(beside)
}

// The number at place n of the middle row where no neighbour's is larger, else 0.
fn keep(
    kind: Kind,
    above: &[u16; ROW_PLACES],
    mid: &[u16; ROW_PLACES],
    below: &[u16; ROW_PLACES],
    n: usize,
) -> u16
    requires { (1 ≤ n) × (n + 1 < row_places) }
    ensures { result ≡ kept kind (window_rows above.now mid.now below.now n) }
{
    let number = mid[n];
    if highest_around(kind, above, mid, below, n) <= number {
        number
    } else {
        0
    }
}

// What is kept of a stretch of the map, from three rows in arrays; all other bytes stay.
fn keep_run(
    kind: Kind,
    above: &[u16; ROW_PLACES],
    mid: &[u16; ROW_PLACES],
    below: &[u16; ROW_PLACES],
    out: &mut [u8],
    from: usize,
    width: usize,
)
    requires { (2 * (from + width) ≤ length out.old) × (width ≤ widest_row) }
    ensures { WideFilled
        (λ n. kept kind (window_rows above.now mid.now below.now (margin + (n - from))))
        from (from + width) out.old out.new }
{
    for n in from..from + width {
        let number = keep(kind, above, mid, below, MARGIN + (n - from));
        out[2 * n] = numbers::first_byte(number);
        out[2 * n + 1] = numbers::second_byte(number);
    }
}

// Row y of a map's numbers into an array; zeros for the row past the last.
fn read_row(head: Head, y: usize, map: &[u8], row: &mut [u16; ROW_PLACES])
    requires { WideReadable head y map.now row.old }
    ensures { Row (λ x. at head (wide_numbers map.now) (cell x y)) head.width row.new }
{
    let width = head.width as usize;
    if y < (head.height as usize) {
        wide_rows::load_numbers(map, y * width, width, row);
    } else {
        *row = [0u16; ROW_PLACES];
    }
}

// What is kept of row y, after the row below it is read; bytes of other rows stay.
fn keep_row(
    head: Head,
    y: usize,
    above: &[u16; ROW_PLACES],
    mid: &[u16; ROW_PLACES],
    below: &mut [u16; ROW_PLACES],
    out: &mut [u8],
)
    requires { WideReadable head (y + 1) out.old below.old }
    ensures { KeptRow head y above.now mid.now below.new out.old out.new }
{
    let kind = head.kind;
    let width = head.width as usize;
    read_row(head, y + 1, out, below);
    keep_run(kind, above, mid, below, out, y * width, width);
}

// Each number where no neighbour's is larger, 0 elsewhere; bytes past the plate's stay.
// The arrays change roles from row to row, and no row is copied.
fn keep_axis(head: Head, out: &mut [u8])
    requires { Held head × (2 * area head ≤ length out.old) }
    ensures { out.new ≡ wide_map (kept_map head (wide_numbers out.old))
        ++ drop (length (wide_map (kept_map head (wide_numbers out.old)))) out.old }
{
    let height = head.height as usize;
    let mut first = [0u16; ROW_PLACES];
    let mut second = [0u16; ROW_PLACES];
    let mut third = [0u16; ROW_PLACES];
    let mut above = &mut first;
    let mut mid = &mut second;
    let mut below = &mut third;
    read_row(head, 0, out, mid);
    for y in 0..height {
        keep_row(head, y, above, mid, below, out);
        (above, mid, below) = (mid, below, above);
    }
}

// The medial axis of a level with its clearances, two bytes a cell, high byte first; bytes past the plate's stay.
pub fn put_axis(head: Head, level: u8, relief: &[u8], out: &mut [u8])
    requires { WidePlates head relief.now out.old × (1 ≤ level) }
    ensures { out.new ≡ wide_map (tabulated head (axis head relief.now level))
        ++ drop (length (wide_map (tabulated head (axis head relief.now level)))) out.old }
{
    wide_transform::put_clearances(head, level, relief, out);
    keep_axis(head, out);
}
