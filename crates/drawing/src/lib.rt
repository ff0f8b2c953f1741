// Drawing a list of plunges into a relief: on the box that their balls hold, taken for a plate of its own, from the largest reach down; the map
// grows by one, then the plunges of the next reach are placed. At the end the box is spread out over the plate.
// Where the reaches of a list rise, each plunge is read two or three times; in any other order at most once more for each reach.
#![tactic(auto)]

ghost use Rattle.std.specs.Prelude.{◌≡◌, ◌+◌, ◌≤◌, ◌<◌, cond, eqb, length, replicate};
ghost use Rattle.geometry.specs.Plate.{area};
ghost use Rattle.theory.specs.Listing.{drawn};
ghost use Rattle.buffers.specs.Fill.{Mapped};
ghost use Rattle.refusal.specs.Sides.{Sides};
ghost use Rattle.reading.specs.Reading.{plunges_up_to};
ghost use Rattle.drawing_box.specs.Boxed.{Drawable, Placeable, part_of, plunge_in, plunges_on};
ghost use Rattle.drawing.specs.Reaches.{drawn_from};
ghost use Rattle.drawing.specs.Files.{reaches, reach_in, Ranges, Raised};

use drawing_box::Drawing;
use geometry::{Head, Reach};
use row_filter::Leaf;

// How many reaches there are: from 0 to the largest.
const REACHES: usize = (Reach::MAX.0 as usize) + 1;

// ---- which plunges have a reach

// The reach of plunge number i of a file, as a number.
fn reach_at(head: Head, file: &[u8], count: usize, i: usize) -> usize
    requires { Sides head × Drawable head count file.now × (i < count) }
    ensures { result ≡ reach_in file.now i }
{
    let q = drawing_box::plunge_at(head, file, count, i);
    q.reach.0 as usize
}

// Where a stretch starts: where it did, or here if there was none.
fn start_of(first: usize, last: usize, here: usize) -> usize
    ensures { result ≡ cond (eqb last 0) here first }
{
    if last == 0 { here } else { first }
}

// For each reach the stretch from its first plunge to its last; gives back the largest reach.
fn find_ranges(
    head: Head,
    file: &[u8],
    count: usize,
    first: &mut [usize; REACHES],
    last: &mut [usize; REACHES],
) -> usize
    requires { Sides head × Drawable head count file.now × (first.old ≡ replicate reaches 0) × (last.old ≡ replicate reaches 0) }
    ensures { Ranges (reach_in file.now) count first.new last.new result }
{
    let mut top = 0;
    for i in 0..count {
        let reach = reach_at(head, file, count, i);
        first[reach] = start_of(first[reach], last[reach], i);
        last[reach] = i + 1;
        top = top.max(reach);
    }
    top
}

// ---- placing

// A plunge of the reach raises the number at its centre to its depth at least; any other leaves the map as it is.
fn place_one(d: Drawing, file: &[u8], i: usize, reach: usize, map: &mut [u8])
    requires { Placeable d file.now × (i < d.count) × (area (part_of d) ≤ length map.old) }
    ensures { Raised (part_of d) (plunge_in d file.now) reach i (i + 1) map.old map.new }
{
    let width = d.part.width;
    let q = drawing_box::plunge_in(d, file, i);
    if (q.reach.0 as usize) == reach {
        let n = (q.row as usize) * width + (q.column as usize);
        map[n] = map[n].max(q.depth);
    }
}

// Places the plunges of one reach in a stretch of the list.
fn place_range(d: Drawing, file: &[u8], from: usize, to: usize, reach: usize, map: &mut [u8])
    requires { Placeable d file.now × (from ≤ to) × (to ≤ d.count) × (area (part_of d) ≤ length map.old) }
    ensures { Raised (part_of d) (plunge_in d file.now) reach from to map.old map.new }
{
    for i in from..to {
        place_one(d, file, i, reach, map);
    }
}

// ---- drawing

// From the largest reach down: what is drawn so far grows by one, and the plunges of the next reach are placed.
fn draw_reaches(
    d: Drawing,
    file: &[u8],
    first: &[usize; REACHES],
    last: &[usize; REACHES],
    top: usize,
    map: &mut [u8],
)
    requires { Placeable d file.now × (area (part_of d) ≤ length map.old) × Ranges (reach_in file.now) d.count first.now last.now top
        × Mapped (part_of d) (λ c. 0) map.old map.old }
    ensures { Mapped (part_of d) (drawn_from d.head.kind 0 (plunges_on d file.now)) map.old map.new }
{
    let part = drawing_box::part_of(d);
    place_range(d, file, first[top], last[top], top, map);
    for reach in (0..top).rev() {
        window_filter::filter_map(part, Leaf::Highest, reach, map);
        place_range(d, file, first[reach], last[reach], reach, map);
    }
}

// Each cell gets the highest depth among the plunges whose ball holds it, 0 if none; bytes past the plate stay.
pub fn draw_into(head: Head, file: &[u8], count: usize, map: &mut [u8])
    requires { Sides head × Drawable head count file.now × (area head ≤ length map.old) }
    ensures { Mapped head (drawn head.kind (plunges_up_to count file.now)) map.old map.new }
{
    let mut first = [0usize; REACHES];
    let mut last = [0usize; REACHES];
    let top = find_ranges(head, file, count, &mut first, &mut last);
    let part = drawing_box::box_of(head, file, count, top);
    buffers::zero_run(map, 0, part.height * part.width);
    draw_reaches(Drawing { head, count, part }, file, &first, &last, top, map);
    bounding_box::spread(head, part, map);
}
