// From record to record of a test program's input, and the buffers that records ask for.
// A record is one test case: a call with its arguments, the lengths of its buffers, and the bytes of its relief or file.
#![tactic(auto)]

ghost use Rattle.std.specs.Prelude.{◌<◌, ◌≤◌, ◌≡◌, length};

use refusal::LARGEST_SIDE;
use test_io::UNTOUCHED;

const SIDE: usize = LARGEST_SIDE as usize;

// Bytes of a buffer with a byte for each cell: ten rows more than the largest plate has, since records ask for surplus bytes
// and for buffers of plates that are too large.
pub const CELLS_ROOM: usize = SIDE * (SIDE + 10);

// Bytes of a buffer that holds a file; the longest that is asked for.
pub const FILE_ROOM: usize = 10 * CELLS_ROOM;

// ---- places

// The bytes from one place to another; none where they are not all there.
pub fn between(s: &[u8], from: usize, to: usize) -> &[u8] {
    if to < from {
        return &s[s.len()..];
    }
    if s.len() < to {
        return &s[s.len()..];
    }
    &s[from..to]
}

// Where the next record begins, if the one at a place takes count bytes; the input's end if it takes none, or more than there are.
pub fn next(s: &[u8], at: usize, count: usize) -> usize
    requires { at < length s.now }
    ensures { at < result }
{
    if count == 0 {
        return s.len();
    }
    if s.len() - at < count {
        return s.len();
    }
    at + count
}

// ---- lengths

pub fn size_of(length: u16) -> usize
    ensures { result ≤ 65535 }
{
    length as usize
}

// How many bytes a record has behind its fixed ones: those of its relief or file where no pattern makes it.
pub fn literal(pattern: u8, length: u16) -> usize
    ensures { result ≤ 65535 }
{
    if pattern == 0 { size_of(length) } else { 0 }
}

// ---- buffers, as every call finds them

pub fn cells_room() -> [u8; CELLS_ROOM]
    ensures { 60000 ≡ length result }
{
    [UNTOUCHED; CELLS_ROOM]
}

pub fn file_room() -> [u8; FILE_ROOM]
    ensures { 600000 ≡ length result }
{
    [UNTOUCHED; FILE_ROOM]
}
