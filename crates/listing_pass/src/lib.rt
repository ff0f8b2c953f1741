// A pass over the bytes of a file: they are written to an output, compared with a file, or staged.
#![tactic(auto)]

ghost use Rattle.std.specs.Prelude.{◌≡◌, ◌+◌, length, drop};
ghost use Rattle.fields.specs.Lengths.{IsLength};
ghost use Rattle.geometry.specs.Lists.{common};

// What is done with bytes. Staged ones are all counted, and written as far as an output has room.
#[derive(Clone, Copy)]
pub enum Pass {
    Write,
    Compare,
    Stage,
}

// The place that a pass came to, and whether it went over all that it was sent: if not, a byte of the file is unlike there.
#[derive(Clone, Copy)]
pub struct Progress {
    pub at: usize,
    pub like: bool,
}

// How many of some bytes stand in a file from a place on, up to the first unlike one or the file's end.
pub fn common_run(file: &[u8], at: usize, bytes: &[u8]) -> usize
    requires { IsLength (at + length bytes.now) }
    ensures { result ≡ common (drop at file.now) bytes.now }
{
    for (i, byte) in bytes.iter().enumerate() {
        if file.get(at + i) != Some(byte) {
            return i;
        }
    }
    bytes.len()
}
