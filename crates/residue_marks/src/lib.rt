// Marks of the places of a run, each a depth where the residue is above 0: how a place is marked, how many marks there are, and where.
#![tactic(auto)]

ghost use Rattle.std.specs.Prelude.{◌≡◌, ◌+◌, ◌≤◌, length};
ghost use Rattle.buffers.specs.Runs.{ZeroRun};
ghost use Rattle.residue_marks.specs.Marks.{mark_places, block, mark_of, counted, CountRun, tally, NotePlaces, Noted};

// The marks of a run are held in an array of this length.
pub const MARK_PLACES: usize = 2048;

// The marks counted at once: few enough that their number is a byte.
const COUNTED: usize = 240;

// The places passed over at once where none of them is marked.
const BLOCK: usize = 8;

// A depth where the highest of the next erosion about it is lower, else 0.
pub fn mark(depth: u8, highest: u8) -> u8
    ensures { result ≡ mark_of depth highest }
{
    if highest < depth { depth } else { 0 }
}

// 1 for a mark, 0 for none.
fn count_of(mark: u8) -> u8
    ensures { result ≡ counted mark }
{
    if mark == 0 { 0 } else { 1 }
}

// How many marks there are from one place up to another.
fn count_run(marks: &[u8; MARK_PLACES], from: usize, to: usize) -> u8
    requires { CountRun from to marks.now }
    ensures { result + tally marks.now from ≡ tally marks.now to }
{
    let mut count = 0u8;
    for i in from..to {
        count += count_of(marks[i]);
    }
    count
}

// How many marks there are before a place.
pub fn count_marks(marks: &[u8; MARK_PLACES], number: usize) -> usize
    requires { (number ≤ mark_places) × (length marks.now ≡ mark_places) }
    ensures { result ≡ tally marks.now number }
{
    let mut count = 0;
    let mut i = 0;
    while i < number {
        let end = number.min(i + COUNTED);
        count += count_run(marks, i, end) as usize;
        i = end;
    }
    count
}

// All marks of a block in one byte, which is 0 only if none is marked.
fn block_marks(marks: &[u8; MARK_PLACES], from: usize) -> u8
    requires { (from + block ≤ mark_places) × (length marks.now ≡ mark_places) }
    ensures { result ≡ 0 → ZeroRun marks.now from (from + block) }
{
    let mut all = 0u8;
    for i in 0..BLOCK {
        all |= marks[from + i];
    }
    all
}

// Notes the marked places from one up to another in an array that holds some already. Returns how many it holds then.
fn note_places(
    marks: &[u8; MARK_PLACES],
    from: usize,
    to: usize,
    noted: &mut [u16; MARK_PLACES],
    count: usize,
) -> usize
    requires { NotePlaces from to count marks.now noted.old }
    ensures { Noted marks.now from to count noted.old result noted.new }
{
    let mut n = count;
    for i in from..to {
        noted[n] = i as u16;
        n += count_of(marks[i]) as usize;
    }
    n
}

// Notes the marked places of a block, if there are some.
fn note_block(
    marks: &[u8; MARK_PLACES],
    from: usize,
    noted: &mut [u16; MARK_PLACES],
    count: usize,
) -> usize
    requires { NotePlaces from (from + block) count marks.now noted.old }
    ensures { Noted marks.now from (from + block) count noted.old result noted.new }
{
    if block_marks(marks, from) == 0 {
        return count;
    }
    note_places(marks, from, from + BLOCK, noted, count)
}

// Notes the marked places before one, block by block, and returns how many there are.
pub fn note_marks(marks: &[u8; MARK_PLACES], number: usize, noted: &mut [u16; MARK_PLACES]) -> usize
    requires { NotePlaces 0 number 0 marks.now noted.old }
    ensures { Noted marks.now 0 number 0 noted.old result noted.new }
{
    let mut count = 0;
    for i in 0..number / BLOCK {
        count = note_block(marks, BLOCK * i, noted, count);
    }
    note_places(marks, BLOCK * (number / BLOCK), number, noted, count)
}
