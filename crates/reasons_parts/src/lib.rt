// What the sentences about scans and about job files share: bytes of a file as numbers, how files begin, the faults of a plate and of an answer.
#![tactic(auto)]

ghost use Rattle.std.specs.Prelude.{◌≡◌, ◌+◌, ◌≤◌, ◌<◌, length, get_or};
ghost use Rattle.io.specs.Counts.{IsPrefixLen};
ghost use Rattle.phrases.specs.Phrases.{Appends};
ghost use Rattle.reasons_parts.specs.Parts.{kind_reason, sides_reason, long_reason, begins_as_job, begins_as_picture, begins_as_scan};

// The byte that stands so many behind a place, as a number; 0 past the end.
pub fn byte_behind(file: &[u8], place: usize, i: usize) -> u64
    ensures { (result ≡ get_or file.now (place + i) 0) × (result < 256) }
{
    if place < file.len() && i < file.len() - place {
        return u64::from(file[place + i]);
    }
    0
}

// ---- faults of a plate and of an answer

// Refusal 1: the kind.
pub fn append_kind(page: &mut [u8], at: usize, kind: u64) -> usize
    requires { at ≤ length page.old }
    ensures { Appends page.old at (kind_reason kind) page.new result × IsPrefixLen result page.new }
{
    phrases::append_phrase(page, at, b"kind ", kind, b" is not 4 or 8")
}

// Refusal 2: the width and the height.
pub fn append_sides(page: &mut [u8], at: usize, width: u64, height: u64) -> usize
    requires { at ≤ length page.old }
    ensures { Appends page.old at (sides_reason width height) page.new result × IsPrefixLen result page.new }
{
    let a = phrases::append_phrase(page, at, b"width ", width, b" and height ");
    let b = phrases::append_phrase(page, a, b"", height, b": sides are 1 to ");
    phrases::append_number(page, b, refusal::LARGEST_SIDE as u64)
}

// Refusal 5: the length needed.
pub fn append_long(page: &mut [u8], at: usize, bytes: usize) -> usize
    requires { at ≤ length page.old }
    ensures { Appends page.old at (long_reason bytes) page.new result × IsPrefixLen result page.new }
{
    phrases::append_phrase(
        page,
        at,
        b"the answer has ",
        bytes as u64,
        b" bytes, more than jobtool holds",
    )
}

// ---- another sort of file than the command takes

// Whether a file begins with the opening of a head.
pub fn begins_as_job(file: &[u8]) -> bool
    ensures { result ≡ begins_as_job file.now }
{
    if byte_behind(file, 0, 0) != 1 {
        return false;
    }
    if byte_behind(file, 0, 1) != 0 {
        return false;
    }
    byte_behind(file, 0, 2) == 3
}

// Whether a file begins with 'P5'.
pub fn begins_as_picture(file: &[u8]) -> bool
    ensures { result ≡ begins_as_picture file.now }
{
    if byte_behind(file, 0, 0) != 80 {
        return false;
    }
    byte_behind(file, 0, 1) == 53
}

// Whether a file begins with a kind.
pub fn begins_as_scan(file: &[u8]) -> bool
    ensures { result ≡ begins_as_scan file.now }
{
    if byte_behind(file, 0, 0) == 4 {
        return true;
    }
    byte_behind(file, 0, 0) == 8
}
