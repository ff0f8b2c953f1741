// A pass over a map in place, row by row, from three rows in arrays: each number becomes what is made of its window.
#![tactic(auto)]

ghost use Rattle.std.specs.Prelude.{◌≡◌, ◌+◌, ◌-◌, ◌*◌, ◌≤◌, ◌<◌, length};
ghost use Rattle.window.specs.Windows.{window_of};
ghost use Rattle.refusal.specs.Refusals.{largest_side};
ghost use Rattle.buffers.specs.Fill.{Filled, Mapped};
ghost use Rattle.row_arrays.specs.Rows.{margin, row_places, Row};
ghost use Rattle.row_filter.specs.Filter.{window_rows, kept, leaf, row_of, Filterable, Between, Readable, FilteredRow};

use geometry::{Head, Kind};
use row_arrays::{MARGIN, ROW_PLACES, Seeds};

// What is made of a window: its middle number where none is larger, else 0; or its highest number.
#[derive(Clone, Copy)]
pub enum Leaf {
    Axis,
    Highest,
}

// The window about place n of three rows.
fn window_rows(
    above: &[u8; ROW_PLACES],
    mid: &[u8; ROW_PLACES],
    below: &[u8; ROW_PLACES],
    n: usize,
) -> [[u8; 3]; 3]
    requires { (1 ≤ n) × (n + 1 < row_places) }
    ensures { result ≡ window_rows above.now mid.now below.now n }
{
    [
        [above[n - 1], above[n], above[n + 1]],
        [mid[n - 1], mid[n], mid[n + 1]],
        [below[n - 1], below[n], below[n + 1]],
    ]
}

// A window's middle number where none is larger, else 0.
fn keep(kind: Kind, win: [[u8; 3]; 3]) -> u8
    ensures { result ≡ kept kind win }
{
    let middle = win[1][1];
    if window::window_max(kind, win) <= middle {
        middle
    } else {
        0
    }
}

// What is made of a window.
fn leaf_of(made: Leaf, kind: Kind, win: [[u8; 3]; 3]) -> u8
    ensures { result ≡ leaf made kind win }
{
    match made {
        Leaf::Axis => keep(kind, win),
        Leaf::Highest => window::window_max(kind, win),
    }
}

// A stretch of the map, from three rows in arrays.
fn filter_run(
    made: Leaf,
    kind: Kind,
    above: &[u8; ROW_PLACES],
    mid: &[u8; ROW_PLACES],
    below: &[u8; ROW_PLACES],
    map: &mut [u8],
    from: usize,
    count: usize,
)
    requires { (from + count ≤ length map.old) × (count ≤ largest_side) }
    ensures { Filled
        (λ n. leaf made kind (window_rows above.now mid.now below.now (margin + (n - from))))
        from (from + count) map.old map.new }
{
    for n in from..from + count {
        map[n] = leaf_of(
            made,
            kind,
            window_rows(above, mid, below, MARGIN + (n - from)),
        );
    }
}

// The columns of row y that are filtered, into an array; zeros for the first row that is not.
fn read_row(head: Head, edge: usize, map: &[u8], y: usize, row: &mut [u8; ROW_PLACES])
    requires { Readable head edge map.now y row.old }
    ensures { Row (row_of head edge map.now y) (head.width - 2 * edge) row.new }
{
    let width = head.width as usize;
    let count = width - 2 * edge;
    if y + edge < (head.height as usize) {
        row_arrays::load_run(Seeds::Numbers, map, y * width + edge, count, 0, row);
    } else {
        buffers::zero_run(row, MARGIN, MARGIN + count);
    }
}

// Filters row y between the edges, after the row below it is read.
fn filter_row(
    made: Leaf,
    head: Head,
    edge: usize,
    y: usize,
    above: &[u8; ROW_PLACES],
    mid: &[u8; ROW_PLACES],
    below: &mut [u8; ROW_PLACES],
    map: &mut [u8],
)
    requires { Readable head edge map.old (y + 1) below.old }
    ensures { FilteredRow head made edge y above.now mid.now below.new
        map.old map.new }
{
    let kind = head.kind;
    let width = head.width as usize;
    let count = width - 2 * edge;
    let from = y * width + edge;
    read_row(head, edge, map, y + 1, below);
    filter_run(made, kind, above, mid, below, map, from, count);
}

// Each row between the edges, from the first on.
// The arrays change roles from row to row, and no row is copied.
pub fn filter_rows(made: Leaf, head: Head, edge: usize, map: &mut [u8])
    requires { Filterable head edge map.old × Between head edge }
    ensures { Mapped head (λ c. leaf made head.kind (window_of head map.old c))
        map.old map.new }
{
    let height = head.height as usize;
    let mut first = [0u8; ROW_PLACES];
    let mut second = [0u8; ROW_PLACES];
    let mut third = [0u8; ROW_PLACES];
    let mut above = &mut first;
    let mut mid = &mut second;
    let mut below = &mut third;
    read_row(head, edge, map, edge, mid);
    for y in edge..height - edge {
        filter_row(made, head, edge, y, above, mid, below, map);
        (above, mid, below) = (mid, below, above);
    }
}
