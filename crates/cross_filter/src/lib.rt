// A pass in place for the highest of a diamond, with an edge: the row below is read as a row is written.
#![tactic(auto)]

ghost use Rattle.std.specs.Prelude.{◌≡◌, ◌+◌, ◌-◌, ◌*◌, ◌≤◌, ◌<◌};
ghost use Rattle.geometry.specs.declared.Kind.TheVariants.{Diamond};
ghost use Rattle.window.specs.Windows.{window_of};
ghost use Rattle.buffers.specs.Fill.{Mapped};
ghost use Rattle.row_arrays.specs.Rows.{row_places};
ghost use Rattle.row_filter.specs.declared.Leaf.TheVariants.{Highest};
ghost use Rattle.row_filter.specs.Filter.{leaf, Filterable, Between, Growable};
ghost use Rattle.cross_filter.specs.Cross.{cross_window, Crossable, CrossedRun};

use geometry::{Head, Kind};
use row_arrays::{MARGIN, ROW_PLACES};

// A window of which only the middle and the four beside it are filled in, about place n of two rows; the number below it is given.
fn cross_window(
    above: &[u8; ROW_PLACES],
    mid: &[u8; ROW_PLACES],
    n: usize,
    under: u8,
) -> [[u8; 3]; 3]
    requires { (1 ≤ n) × (n + 1 < row_places) }
    ensures { result ≡ cross_window above.now mid.now n under }
{
    [
        [0, above[n], 0],
        [mid[n - 1], mid[n], mid[n + 1]],
        [0, under, 0],
    ]
}

// A stretch of a row of the map for the diamond, from the rows above it and in it, in arrays, and the map's own row below it, which is
// read on the way.
fn cross_run(
    above: &[u8; ROW_PLACES],
    mid: &[u8; ROW_PLACES],
    below: &mut [u8; ROW_PLACES],
    map: &mut [u8],
    from: usize,
    width: usize,
    count: usize,
)
    requires { Crossable from width count below.old map.old }
    ensures { CrossedRun from width count above.now mid.now below.old below.new
        map.old map.new }
{
    for i in 0..count {
        let under = map[from + width + i];
        map[from + i] = window::window_max(
            Kind::Diamond,
            cross_window(above, mid, MARGIN + i, under),
        );
        below[MARGIN + i] = under;
    }
}

// Row y between the edges.
fn cross_row(
    head: Head,
    edge: usize,
    y: usize,
    above: &[u8; ROW_PLACES],
    mid: &[u8; ROW_PLACES],
    below: &mut [u8; ROW_PLACES],
    map: &mut [u8],
)
    requires { Growable head edge y below.old map.old }
    ensures { CrossedRun (y * head.width + edge) head.width (head.width - 2 * edge) above.now mid.now
        below.old below.new map.old map.new }
{
    let width = head.width as usize;
    cross_run(
        above,
        mid,
        below,
        map,
        y * width + edge,
        width,
        width - 2 * edge,
    );
}

// Each row between the edges, from the first on: that one and the row above it have zeros, as the arrays do at the start.
// Three rows a turn, so that the arrays change roles.
pub fn cross_rows(head: Head, edge: usize, map: &mut [u8])
    requires { Filterable head edge map.old × Between head edge × (1 ≤ edge) × (head.kind ≡ Diamond) }
    ensures { Mapped head (λ c. leaf Highest head.kind (window_of head map.old c))
        map.old map.new }
{
    let height = head.height as usize;
    let mut above = [0u8; ROW_PLACES];
    let mut mid = [0u8; ROW_PLACES];
    let mut below = [0u8; ROW_PLACES];
    // y steps by hand: where references to the arrays change roles instead, drawing takes up to 1.2 times as long
    let mut y = edge;
    while y + edge < height {
        cross_row(head, edge, y, &above, &mid, &mut below, map);
        y += 1;
        if height <= y + edge {
            return;
        }
        cross_row(head, edge, y, &mid, &below, &mut above, map);
        y += 1;
        if height <= y + edge {
            return;
        }
        cross_row(head, edge, y, &below, &above, &mut mid, map);
        y += 1;
    }
}
