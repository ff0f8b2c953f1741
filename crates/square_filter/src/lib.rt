// A pass in place for the highest of a square, with an edge: the highest of nine by threes.
#![tactic(auto)]

ghost use Rattle.std.specs.Prelude.{◌≡◌, ◌+◌, ◌-◌, ◌*◌, ◌≤◌, ◌<◌, length};
ghost use Rattle.geometry.specs.declared.Kind.TheVariants.{Square};
ghost use Rattle.window.specs.Windows.{window_of};
ghost use Rattle.buffers.specs.Fill.{Mapped};
ghost use Rattle.row_filter.specs.declared.Leaf.TheVariants.{Highest};
ghost use Rattle.row_filter.specs.Filter.{leaf, Filterable, Between, Growable};
ghost use Rattle.square_filter.specs.Square.{highest_three, Squarable, SquaredRun};

use geometry::Head;
use row_arrays::ROW_PLACES;

// The highest of three neighbours of a map, the second at place n.
fn highest_three(map: &[u8], n: usize) -> u8
    requires { (1 ≤ n) × (n + 1 < length map.now) }
    ensures { result ≡ highest_three map.now n }
{
    map[n - 1].max(map[n + 1]).max(map[n])
}

// A stretch of a row: the highest of the threes above it, in it and below it. Those above it and in it stand in arrays; those below it
// are made of the map, which no array is between, and left in the array of those above it.
fn square_run(
    above: &mut [u8; ROW_PLACES],
    mid: &[u8; ROW_PLACES],
    map: &mut [u8],
    from: usize,
    width: usize,
    count: usize,
)
    requires { Squarable from width count above.old map.old }
    ensures { SquaredRun from width count above.old mid.now above.new map.old map.new }
{
    for i in 0..count {
        let three = highest_three(map, from + width + i);
        map[from + i] = above[i].max(mid[i]).max(three);
        above[i] = three;
    }
}

// Row y between the edges.
fn square_row(
    head: Head,
    edge: usize,
    y: usize,
    above: &mut [u8; ROW_PLACES],
    mid: &[u8; ROW_PLACES],
    map: &mut [u8],
)
    requires { Growable head edge y above.old map.old }
    ensures { SquaredRun (y * head.width + edge) head.width (head.width - 2 * edge)
        above.old mid.now above.new map.old map.new }
{
    let width = head.width as usize;
    square_run(above, mid, map, y * width + edge, width, width - 2 * edge);
}

// Each row between the edges, from the first on: that one and the row above it have zeros, as the arrays do at the start.
// Two rows a turn, so that the arrays change roles.
pub fn square_rows(head: Head, edge: usize, map: &mut [u8])
    requires { Filterable head edge map.old × Between head edge × (1 ≤ edge) × (head.kind ≡ Square) }
    ensures { Mapped head (λ c. leaf Highest head.kind (window_of head map.old c))
        map.old map.new }
{
    let height = head.height as usize;
    let mut above = [0u8; ROW_PLACES];
    let mut mid = [0u8; ROW_PLACES];
    // y steps by hand: where references to the arrays change roles instead, LLVM does not vectorise the rows (drawing takes up to 20 times as long)
    let mut y = edge;
    while y + edge < height {
        square_row(head, edge, y, &mut above, &mid, map);
        y += 1;
        if height <= y + edge {
            return;
        }
        square_row(head, edge, y, &mut mid, &above, map);
        y += 1;
    }
}
