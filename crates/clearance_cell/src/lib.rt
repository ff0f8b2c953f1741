// The clearance of one cell: rows are searched outwards from the cell's, no further than the nearest wall found so far.
#![tactic(auto)]

ghost use Rattle.std.specs.Prelude.{◌≡◌, ◌+◌, ◌≤◌, ◌<◌, length};
ghost use Rattle.geometry.specs.Plane.{cell};
ghost use Rattle.theory.specs.Levels.{clearance};
ghost use Rattle.clearance_cell.specs.Search.{Searchable, edge_distance, RowGap, InRow};
ghost use Rattle.clearance_cell.specs.Calls.{clearance_answer, wrong_cell};

use geometry::{Clearance, Head, Kind};
use refusal::{Refusal, Verdict};

// The distance from a cell of the plate to the nearest cell off it.
fn edge_distance(width: usize, height: usize, column: usize, row: usize) -> usize
    requires { (column < width) × (row < height) }
    ensures { result ≡ edge_distance width height column row }
{
    let beside = (column + 1).min(width - column);
    beside.min((row + 1).min(height - row))
}

// How far from a place, to either side, the first byte below a level stands; the limit if none stands nearer.
fn row_gap(map: &[u8], level: u8, place: usize, limit: usize) -> usize
    requires { (limit ≤ place + 1) × (place + limit ≤ length map.now) }
    ensures { RowGap map.now level place limit result }
{
    for gap in 0..limit {
        if map[place - gap] < level || map[place + gap] < level {
            return gap;
        }
    }
    limit
}

// The distance to the nearest byte below a level in a row that is away from the cell's; best if none is nearer.
fn nearest_in_row(
    kind: Kind,
    map: &[u8],
    level: u8,
    place: usize,
    away: usize,
    best: usize,
) -> usize
    requires { (away < best) × (best ≤ place + 1) × (place + best ≤ length map.now) }
    ensures { InRow kind map.now level place away best result }
{
    match kind {
        Kind::Diamond => row_gap(map, level, place, best - away) + away,
        Kind::Square => row_gap(map, level, place, best).max(away),
    }
}

// The clearance of a cell of the plate, row by row outwards until no row can hold a nearer wall.
fn nearest_wall(head: Head, map: &[u8], level: u8, column: usize, row: usize) -> usize
    requires { Searchable head map.now level column row }
    ensures { result ≡ clearance head map.now level (cell column row) }
{
    let kind = head.kind;
    let width = head.width as usize;
    let height = head.height as usize;
    let mut best = edge_distance(width, height, column, row);
    let mut away = 0;
    // no range: the end comes nearer as walls are found
    while away < best {
        best = nearest_in_row(kind, map, level, (row - away) * width + column, away, best);
        if away < best {
            best = nearest_in_row(kind, map, level, (row + away) * width + column, away, best);
        }
        away += 1;
    }
    best
}

fn is_wrong_cell(level: u8, column: u16, row: u16, width: u16, height: u16) -> bool
    ensures { result ≡ wrong_cell level column row width height }
{
    level == 0 || column >= width || row >= height
}

// The distance from one cell to the nearest cell that is not in the shape of a level; refusals 1, 2, 3 and 4.
pub fn clearance_of(
    relief: &[u8],
    kind: u8,
    width: u16,
    height: u16,
    level: u8,
    column: u16,
    row: u16,
) -> Result<Clearance, Refusal>
    ensures { result ≡ clearance_answer relief.now kind width height level column row }
{
    let wrong = is_wrong_cell(level, column, row, width, height);
    refusal::check_map(kind, width, height, wrong, relief.len())?;
    let head = refusal::head_of(kind, width, height);
    let nearest = nearest_wall(head, relief, level, column as usize, row as usize);
    Ok(Clearance(nearest as u16))
}
