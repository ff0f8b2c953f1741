// The smallest box of a plate outside of which a map is 0; a box copied to another map, a map cropped to a box in place, and a box spread out
// over its plate in place.
#![tactic(auto)]

ghost use Rattle.std.specs.Prelude.{◌≡◌, ◌+◌, ◌-◌, ◌≤◌, length, get_or};
ghost use Rattle.geometry.specs.Plate.{area};
ghost use Rattle.refusal.specs.Refusals.{largest_side};
ghost use Rattle.refusal.specs.Sides.{Sides};
ghost use Rattle.buffers.specs.Fill.{Filled};
ghost use Rattle.buffers.specs.Runs.{ZeroRun};
ghost use Rattle.bounding_box.specs.Boxes.{Within, BareOutside, Copied, Copyable, Cropped, Croppable, Spread};
ghost use Rattle.bounding_box.specs.Boxes.{Joinable, Joined, Plates, Topped, FirstSet, Spans};

use geometry::Head;

// A number for each column or for each row is held in an array of this length.
const SIDE: usize = refusal::LARGEST_SIDE as usize;

// A box of a plate: its first column and its first row, and how many there are.
#[derive(Clone, Copy)]
pub struct Bounds {
    pub column: usize,
    pub row: usize,
    pub width: usize,
    pub height: usize,
}

// Places of an array, one after the other.
#[derive(Clone, Copy)]
struct Span {
    first: usize,
    number: usize,
}

// ---- the box of a map

// Joins a stretch of a map to the numbers of its columns, each the highest of its own. Returns the highest of the stretch.
fn join_row(map: &[u8], start: usize, width: usize, columns: &mut [u8; SIDE]) -> u8
    requires { Joinable start width map.now columns.old }
    ensures { Joined start width map.now columns.old columns.new result }
{
    let mut all = 0u8;
    for x in 0..width {
        let v = map[start + x];
        columns[x] = columns[x].max(v);
        all = all.max(v);
    }
    all
}

// The highest number of each column and of each row of a map.
fn join_rows(head: Head, map: &[u8], columns: &mut [u8; SIDE], rows: &mut [u8; SIDE])
    requires { Plates head map.now columns.old rows.old }
    ensures { Topped head.width head.height map.now columns.new rows.new }
{
    let width = head.width as usize;
    let height = head.height as usize;
    for y in 0..height {
        rows[y] = join_row(map, y * width, width, columns);
    }
}

// The first of n places with a number above 0; n if there is none.
pub fn first_set(numbers: &[u8], n: usize) -> usize
    requires { n ≤ length numbers.now }
    ensures { FirstSet n numbers.now result }
{
    numbers[..n].iter().position(|v| 0 < *v).unwrap_or(n)
}

// One past the last of n places with a number above 0; 0 if there is none.
fn end_set(numbers: &[u8; SIDE], n: usize) -> usize
    requires { n ≤ largest_side }
    ensures { (result ≤ n) × ZeroRun numbers.now result n }
{
    numbers[..n]
        .iter()
        .rposition(|v| 0 < *v)
        .map_or(0, |last| last + 1)
}

// From the first to the last of n places with a number above 0; the first place if there is none.
fn span_of(numbers: &[u8; SIDE], n: usize) -> Span
    requires { (1 ≤ n) × (n ≤ largest_side) }
    ensures { Spans n result numbers.now }
{
    let first = first_set(numbers, n);
    let end = end_set(numbers, n);
    if end <= first {
        return Span {
            first: 0,
            number: 1,
        };
    }
    Span {
        first,
        number: end - first,
    }
}

// The smallest box that holds all numbers of a map above 0; the plate's first cell if there is none.
pub fn bounds_of(head: Head, map: &[u8]) -> Bounds
    requires { Sides head × (area head ≤ length map.now) }
    ensures { Within head result × BareOutside head result map.now }
{
    let mut columns = [0u8; SIDE];
    let mut rows = [0u8; SIDE];
    join_rows(head, map, &mut columns, &mut rows);
    let across = span_of(&columns, head.width as usize);
    let down = span_of(&rows, head.height as usize);
    Bounds {
        column: across.first,
        row: down.first,
        width: across.number,
        height: down.number,
    }
}

// ---- a box copied

// Some bytes of a map from a place on, to another map from a place on.
fn copy_line(src: &[u8], from: usize, dst: &mut [u8], to: usize, count: usize)
    requires { (from + count ≤ length src.now) × (to + count ≤ length dst.old) }
    ensures { Filled (λ n. get_or src.now (from + (n - to)) 0) to (to + count) dst.old dst.new }
{
    dst[to..to + count].copy_from_slice(&src[from..from + count]);
}

// Copies a box of a map with rows of `width` bytes to the start of another map, row after row; what lies past them there stays.
pub fn copy_box(width: usize, b: Bounds, src: &[u8], dst: &mut [u8])
    requires { Copyable width b src.now dst.old }
    ensures { Copied width b src.now dst.old dst.new }
{
    let left = b.column;
    let top = b.row;
    let count = b.width;
    let height = b.height;
    if count == width {
        copy_line(src, top * width, dst, 0, height * width);
        return;
    }
    for y in 0..height {
        copy_line(src, (y + top) * width + left, dst, y * count, count);
    }
}

// ---- a map cropped

// Crops a map with rows of `width` bytes to a box: the box's rows, one after the other, from the map's start on; what lies past them stays.
// A row gets no later place than it had, so none is written over before it is read. Rows that stand right already are left alone.
pub fn crop(width: usize, b: Bounds, map: &mut [u8])
    requires { Croppable width b map.old }
    ensures { Cropped width b map.old map.new }
{
    let left = b.column;
    let top = b.row;
    let count = b.width;
    let height = b.height;
    if top == 0 && count == width {
        return;
    }
    for y in 0..height {
        let from = (y + top) * width + left;
        map.copy_within(from..from + count, y * count);
    }
}

// ---- a box spread out

// Spreads rows that stand one after the other at a map's start over their box of a plate, with zeros about it; what lies past the plate stays.
// From the last row on: a row gets no earlier place than it had, so none is written over before it is read.
pub fn spread(head: Head, b: Bounds, map: &mut [u8])
    requires { Sides head × Within head b × (area head ≤ length map.old) }
    ensures { Spread head b map.old map.new }
{
    let width = head.width as usize;
    let height = head.height as usize;
    let left = b.column;
    let top = b.row;
    let count = b.width;
    let rows = b.height;
    if count == width && rows == height {
        return;
    }
    for y in (0..rows).rev() {
        let start = (y + top) * width;
        let end = start + left + count;
        map.copy_within(y * count..y * count + count, start + left);
        buffers::zero_run(map, start, start + left);
        buffers::zero_run(map, end, start + width);
    }
    buffers::zero_run(map, 0, top * width);
    buffers::zero_run(map, (rows + top) * width, height * width);
}
