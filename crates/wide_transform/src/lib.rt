// The clearance of each cell in two bytes, high byte first, for plates whose rows have up to 1,024 columns: the passes of
// `distance_transform` with 16-bit numbers.
#![tactic(auto)]

ghost use Rattle.std.specs.Prelude.{◌≡◌, ◌++◌, ◌-◌, ◌*◌, ◌≤◌, length, get_or, drop};
ghost use Rattle.geometry.specs.Plate.{area, tabulated};
ghost use Rattle.theory.specs.Levels.{clearance};
ghost use Rattle.row_arrays.specs.Start.{wall_number, start};
ghost use Rattle.row_arrays.specs.Asked.{Held};
ghost use Rattle.wide_rows.specs.Wide.{wide_map, wide_numbers, wide_wall, wide_reach, WideFilled};
ghost use Rattle.distance_transform.specs.Transform.{BeforeDown, RowDown, Down, BeforeUp, RowUp, Up};
ghost use Rattle.wide_transform.specs.Passes.{WidePlates, WideOnly};

use geometry::Head;
use row_arrays::ROW_PLACES;

// One row on the way down.
fn row_down(
    head: Head,
    level: u8,
    relief: &[u8],
    y: usize,
    row: &mut [u16; ROW_PLACES],
    spare: &mut [u16; ROW_PLACES],
    above: &mut [u16; ROW_PLACES],
    out: &mut [u8],
)
    requires { BeforeDown wide_reach head (start head (wall_number wide_wall level) relief.now) relief.now y
        row.old spare.old above.old (wide_numbers out.old) }
    ensures { RowDown head (start head (wall_number wide_wall level) relief.now) y row.new spare.new
        above.new (wide_numbers out.old) (wide_numbers out.new) × WideOnly head out.old out.new }
{
    let kind = head.kind;
    let width = head.width as usize;
    wide_rows::load_walls(head, level, relief, y, row);
    wide_rows::propagate_row(row, spare, width);
    wide_rows::merge_row(kind, width, y * width, above, row, out);
}

// Every row, each with the rows above it.
fn pass_down(head: Head, level: u8, relief: &[u8], out: &mut [u8])
    requires { WidePlates head relief.now out.old }
    ensures { Down head (start head (wall_number wide_wall level) relief.now) (wide_numbers out.old)
        (wide_numbers out.new) × WideOnly head out.old out.new }
{
    let mut row = [0u16; ROW_PLACES];
    let mut spare = [0u16; ROW_PLACES];
    let mut above = [0u16; ROW_PLACES];
    let height = head.height as usize;
    for y in 0..height {
        row_down(
            head, level, relief, y, &mut row, &mut spare, &mut above, out,
        );
    }
}

// One row on the way up.
fn row_up(
    head: Head,
    y: usize,
    row: &mut [u16; ROW_PLACES],
    below: &mut [u16; ROW_PLACES],
    out: &mut [u8],
)
    requires { BeforeUp head y row.old below.old (wide_numbers out.old) }
    ensures { RowUp head y row.new below.old below.new (wide_numbers out.old)
        (wide_numbers out.new) × WideOnly head out.old out.new }
{
    let kind = head.kind;
    let width = head.width as usize;
    wide_rows::load_numbers(out, y * width, width, row);
    wide_rows::merge_row(kind, width, y * width, below, row, out);
}

// Every row from the last but one on, each with the rows below it.
fn pass_up(head: Head, out: &mut [u8])
    requires { Held head × (2 * area head ≤ length out.old) }
    ensures { Up head (wide_numbers out.old) (wide_numbers out.new)
        × WideOnly head out.old out.new }
{
    let mut row = [0u16; ROW_PLACES];
    let mut below = [0u16; ROW_PLACES];
    let width = head.width as usize;
    let last = (head.height as usize) - 1;
    wide_rows::load_numbers(out, last * width, width, &mut below);
    for y in (0..last).rev() {
        row_up(head, y, &mut row, &mut below, out);
    }
}

// Each number becomes its distance from the number of a wall.
fn finish_run(out: &mut [u8], to: usize)
    requires { 2 * to ≤ length out.old }
    ensures { WideFilled (λ n. wide_wall - get_or (wide_numbers out.old) n 0) 0 to out.old out.new }
{
    for n in 0..to {
        let distance = wide_rows::WIDE_WALL - numbers::of_bytes(out[2 * n], out[2 * n + 1]);
        out[2 * n] = numbers::first_byte(distance);
        out[2 * n + 1] = numbers::second_byte(distance);
    }
}

// The clearance of each cell from the walls of a level; bytes past the plate's stay.
pub fn put_clearances(head: Head, level: u8, relief: &[u8], out: &mut [u8])
    requires { WidePlates head relief.now out.old × (1 ≤ level) }
    ensures { out.new ≡ wide_map (tabulated head (clearance head relief.now level))
        ++ drop (length (wide_map (tabulated head (clearance head relief.now level)))) out.old }
{
    pass_down(head, level, relief, out);
    pass_up(head, out);
    finish_run(out, (head.height as usize) * (head.width as usize));
}
