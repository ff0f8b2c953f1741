// The climb of a relief: residue after residue, in runs of places, each on the region of the plate where its erosion is not bare.
#![tactic(auto)]

ghost use Rattle.std.specs.Prelude.{◌≡◌, true, false, ◌-◌, ◌≤◌, length};
ghost use Rattle.geometry.specs.Plate.{area};
ghost use Rattle.theory.specs.Climbed.{Bare};
ghost use Rattle.refusal.specs.Refusals.{largest_erosion};
ghost use Rattle.refusal.specs.Sides.{Sides};
ghost use Rattle.erosion_series.specs.Pairs.{SeriesBuffers};
ghost use Rattle.bounding_box.specs.Boxes.{Within};
ghost use Rattle.climb.specs.Climbs.{erosions_taken, OnPlates, part_in, RegionPart, Settleable, Settled, no_climb, Begun};
ghost use Rattle.climb.specs.Climbs.{Turnable, Turning, ClimbingSome, Narrowed, Underway, Stepped};

use bounding_box::Bounds;
use geometry::{Clearance, Head, Reach};
use residue_series::Stand;
use residue_sweep::Places;

// A region is taken anew after so many residues, and one more for so many columns: by then bare columns cost about what that costs.
const RESIDUES: usize = 12;

const COLUMNS: usize = 24;

// A region of a plate outside of which an erosion is 0: a plate of its own, where its first cell lies, and the erosion's number.
#[derive(Clone, Copy)]
pub struct Region {
    pub head: Head,
    pub column: usize,
    pub row: usize,
    pub erosion: usize,
}

// Where a climb is: its plate, its region, and where the series of the region's residues stands.
#[derive(Clone, Copy)]
pub struct Climb {
    pub plate: Head,
    pub region: Region,
    pub stand: Stand,
}

// What an array of marks is of: a region, a reach, some places, and a number no lower than any mark.
#[derive(Clone, Copy)]
pub struct Found {
    pub region: Region,
    pub reach: Reach,
    pub places: Places,
    pub deepest: u8,
}

// A run of a climb, and where it is after it.
#[derive(Clone, Copy)]
pub struct Step {
    pub found: Found,
    pub next: Climb,
}

// The reach of a residue's number, which is one less.
fn reach_of(number: usize) -> Reach
    requires { (1 ≤ number) × (number ≤ largest_erosion) }
    ensures { result.0 ≡ number - 1 }
{
    Reach::of_clearance(Clearance(number as u16)).unwrap()
}

// The part of a region that lies in a box of it.
fn part_in(region: Region, found: Bounds) -> Region
    requires { OnPlates region × Within region.head found }
    ensures { result ≡ part_in region found }
{
    let head = region.head;
    let kind = head.kind;
    let width = found.width as u16;
    let height = found.height as u16;
    Region {
        head: Head {
            kind,
            width,
            height,
        },
        column: region.column + found.column,
        row: region.row + found.row,
        erosion: region.erosion,
    }
}

// The part of a region that is not bare, its erosion copied from one buffer to the front of another.
fn copy_region(region: Region, map: &[u8], a: &mut [u8]) -> Region
    requires { OnPlates region × (area region.head ≤ length map.now) × (area region.head ≤ length a.old) }
    ensures { RegionPart region map.now a.old a.new result }
{
    let head = region.head;
    let found = bounding_box::bounds_of(head, map);
    bounding_box::copy_box(head.width as usize, found, map, a);
    part_in(region, found)
}

// The part of a region that is not bare, its erosion brought to the front of its buffer.
fn crop_region(region: Region, a: &mut [u8]) -> Region
    requires { OnPlates region × (area region.head ≤ length a.old) }
    ensures { RegionPart region a.old a.old a.new result }
{
    let head = region.head;
    let found = bounding_box::bounds_of(head, a);
    bounding_box::crop(head.width as usize, found, a);
    part_in(region, found)
}

// A climb that begins with a region's erosion, which stands in the first buffer.
fn settle(plate: Head, region: Region, a: &[u8], b: &mut [u8]) -> Climb
    requires { Settleable region a.now b.old }
    ensures { Settled plate region a.now b.old b.new result }
{
    let limit = (refusal::LARGEST_EROSION as usize) - region.erosion;
    let stand = residue_series::start(region.head, limit, a, b);
    Climb {
        plate,
        region,
        stand,
    }
}

// Whether a map is 0 everywhere.
fn is_bare(head: Head, map: &[u8]) -> bool
    requires { Sides head × (area head ≤ length map.now) }
    ensures { (result ≡ true → Bare head map.now 0) × (result ≡ false → Bare head map.now 0 → ⊥) }
{
    let cells = (head.height as usize) * (head.width as usize);
    bounding_box::first_set(map, cells) == cells
}

// The climb of a bare relief, which is at its end: no residue is taken.
fn no_climb(plate: Head, region: Region) -> Climb
    ensures { result ≡ no_climb plate region }
{
    let stand = Stand {
        limit: refusal::LARGEST_EROSION as usize,
        number: 0,
        here: 0,
        place: 0,
        top: 0,
        more: false,
    };
    Climb {
        plate,
        region,
        stand,
    }
}

// The climb of a relief before its first run. Its region is bare only if the relief is: then it is the plate's first cell.
pub fn begin(head: Head, relief: &[u8], a: &mut [u8], b: &mut [u8]) -> Climb
    requires { Sides head × SeriesBuffers head relief.now a.old b.old }
    ensures { Begun head relief.now a.old a.new b.old b.new result }
{
    let whole = Region {
        head,
        column: 0,
        row: 0,
        erosion: 0,
    };
    let part = copy_region(whole, relief, a);
    if is_bare(part.head, a) {
        return no_climb(head, part);
    }
    settle(head, part, a, b)
}

// How many erosions a climb at its end has taken: the rungs climbed.
pub fn erosions_taken(climb: Climb) -> usize
    requires { erosions_taken climb ≤ largest_erosion }
    ensures { result ≡ erosions_taken climb }
{
    climb.region.erosion + climb.stand.number
}

// Whether a climb takes its region anew: at the first place of an odd residue, after as many as make it worth while.
fn is_turn(climb: Climb) -> bool
    requires { Turnable climb }
    ensures { result ≡ true → Turning climb }
{
    let stand = climb.stand;
    let width = climb.region.head.width as usize;
    stand.more
        && RESIDUES + width / COLUMNS < stand.number
        && stand.number % 2 == 1
        && stand.place == (stand.number - 1) * width
}

// The same climb, on a smaller region where it is worth while.
fn narrow(climb: Climb, a: &mut [u8], b: &mut [u8]) -> Climb
    requires { ClimbingSome climb a.old b.old }
    ensures { Narrowed climb a.old a.new b.old b.new result }
{
    if !is_turn(climb) {
        return climb;
    }
    let plate = climb.plate;
    let region = climb.region;
    let head = region.head;
    let erosion = region.erosion + (climb.stand.number - 1);
    let here = Region {
        head,
        column: region.column,
        row: region.row,
        erosion,
    };
    let part = crop_region(here, a);
    settle(plate, part, a, b)
}

// The next run of a climb. `marks` is left with its marks: the depth of each marked place, 0 at the others.
pub fn next(
    climb: Climb,
    a: &mut [u8],
    b: &mut [u8],
    marks: &mut [u8; residue_marks::MARK_PLACES],
) -> Step
    requires { Underway climb a.old b.old marks.old }
    ensures { Stepped climb a.old a.new b.old b.new marks.new result }
{
    let plate = climb.plate;
    let region = climb.region;
    let stand = climb.stand;
    let run = residue_series::next_run(region.head, stand, a, b, marks);
    let reach = reach_of(region.erosion + stand.number);
    let places = run.places;
    let found = Found {
        region,
        reach,
        places,
        deepest: run.deepest,
    };
    let after = run.next;
    let next = narrow(
        Climb {
            plate,
            region,
            stand: after,
        },
        a,
        b,
    );
    Step { found, next }
}
