// The transform that clearance and reconstruction share: at each cell the highest of all cells' numbers less their distance.
// Linear in the cells: each row along itself, then down from the row above, then up from the row below.
#![tactic(auto)]

ghost use Rattle.std.specs.Prelude.{◌≡◌, ◌≤◌, length, get_or};
ghost use Rattle.geometry.specs.Plate.{area};
ghost use Rattle.buffers.specs.Fill.{Filled, Mapped};
ghost use Rattle.row_arrays.specs.Rows.{row_reach};
ghost use Rattle.row_arrays.specs.Start.{seed, start};
ghost use Rattle.row_arrays.specs.Asked.{Held};
ghost use Rattle.distance_transform.specs.Transform.{Plates, BeforeDown, RowDown, Down, BeforeUp, RowUp, Up, finish, IsLevel, levelled};

use geometry::Head;
use row_arrays::{ROW_PLACES, Seeds};

// ---- the passes

// One row on the way down.
fn row_down(
    head: Head,
    seeds: Seeds,
    map: &[u8],
    y: usize,
    row: &mut [u8; ROW_PLACES],
    spare: &mut [u8; ROW_PLACES],
    above: &mut [u8; ROW_PLACES],
    out: &mut [u8],
)
    requires { BeforeDown row_reach head (start head (seed seeds) map.now) map.now y row.old spare.old above.old out.old }
    ensures { RowDown head (start head (seed seeds) map.now) y row.new spare.new above.new
        out.old out.new }
{
    let kind = head.kind;
    let width = head.width as usize;
    row_arrays::load_row(head, seeds, map, y, row);
    row_arrays::propagate_row(row, spare, width);
    row_arrays::merge_row(kind, width, y * width, above, row, out);
}

// Every row, each with the rows above it.
fn pass_down(head: Head, seeds: Seeds, map: &[u8], out: &mut [u8])
    requires { Plates head map.now out.old }
    ensures { Down head (start head (seed seeds) map.now) out.old out.new }
{
    let mut row = [0u8; ROW_PLACES];
    let mut spare = [0u8; ROW_PLACES];
    let mut above = [0u8; ROW_PLACES];
    let height = head.height as usize;
    for y in 0..height {
        row_down(head, seeds, map, y, &mut row, &mut spare, &mut above, out);
    }
}

// One row on the way up.
fn row_up(
    head: Head,
    y: usize,
    row: &mut [u8; ROW_PLACES],
    below: &mut [u8; ROW_PLACES],
    out: &mut [u8],
)
    requires { BeforeUp head y row.old below.old out.old }
    ensures { RowUp head y row.new below.old below.new out.old out.new }
{
    let kind = head.kind;
    let width = head.width as usize;
    row_arrays::load_run(Seeds::Numbers, out, y * width, width, 0, row);
    row_arrays::merge_row(kind, width, y * width, below, row, out);
}

// Every row from the last but one on, each with the rows below it.
fn pass_up(head: Head, out: &mut [u8])
    requires { Held head × (area head ≤ length out.old) }
    ensures { Up head out.old out.new }
{
    let mut row = [0u8; ROW_PLACES];
    let mut below = [0u8; ROW_PLACES];
    let width = head.width as usize;
    let last = (head.height as usize) - 1;
    row_arrays::load_run(Seeds::Numbers, out, last * width, width, 0, &mut below);
    for y in (0..last).rev() {
        row_up(head, y, &mut row, &mut below, out);
    }
}

// ---- the end

fn finish_of(seeds: Seeds, v: u8) -> u8
    ensures { result ≡ finish seeds v }
{
    match seeds {
        Seeds::Walls(_level) => row_arrays::WALL - v,
        Seeds::Numbers => if 0 < v { 1 } else { 0 },
    }
}

// What the numbers say, in their place.
fn finish_run(seeds: Seeds, out: &mut [u8], to: usize)
    requires { to ≤ length out.old }
    ensures { Filled (λ n. finish seeds (get_or out.old n 0)) 0 to out.old out.new }
{
    for v in out[..to].iter_mut() {
        *v = finish_of(seeds, *v);
    }
}

// The clearance of each cell from the walls of a level, or the reconstruction from a map.
pub fn transform(head: Head, seeds: Seeds, map: &[u8], out: &mut [u8])
    requires { Plates head map.now out.old × IsLevel seeds }
    ensures { Mapped head (levelled head seeds map.now) out.old out.new }
{
    pass_down(head, seeds, map, out);
    pass_up(head, out);
    finish_run(seeds, out, (head.height as usize) * (head.width as usize));
}
