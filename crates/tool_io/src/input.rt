// An input, read whole: the file that a word names, or standard input.
ghost use Rattle.std.specs.Prelude.{IfSome};
ghost use Rattle.io.specs.Counts.{IsPrefixLen};

use crate::words;
use std::fs::File;
use std::io::{Error, Read};
use std::os::fd::AsRawFd;

// Standard input.
const STDIN: i32 = 0;

// Whether an input ends where its bytes were read: one byte more is asked for. If it does not, or cannot be read, that is said.
fn ends<T: Read>(rt: &HostRuntime, source: &mut T, about: &[u8], most: usize) -> bool {
    let mut one = [0u8; 1];
    match source.read(&mut one) {
        Ok(more) => {
            if more == 0 {
                return true;
            }
            crate::messages::say_number(about, b"longer than ", most as u64, b" bytes");
            false
        }
        Err(error) => {
            crate::messages::fail(rt, about, &error);
            false
        }
    }
}

// Reads to the end of an input, whose descriptor is fd, and gives how many bytes it has; of an input that does not end within the
// buffer the reason is said, and none is given.
fn read_all<T: Read>(
    rt: &HostRuntime,
    source: &mut T,
    fd: i32,
    about: &[u8],
    buf: &mut [u8],
) -> Option<usize>
    ensures { IfSome result (λ n. IsPrefixLen n buf.new) }
{
    let bytes = io::read_full(fd, buf);
    if ends(rt, source, about, buf.len()) {
        Some(bytes)
    } else {
        None
    }
}

// The file of a word, open for reading.
fn open(rt: &HostRuntime, number: usize) -> Result<File, Error> {
    let mut name = io::buffer();
    let n = words::fetch(rt, number, &mut name).map_err(words::error_of)?;
    File::open(rt, file_status::text_of(&name[..n])?)
}

// The file that a word names.
fn read_named(rt: &HostRuntime, number: usize, about: &[u8], buf: &mut [u8]) -> Option<usize>
    ensures { IfSome result (λ n. IsPrefixLen n buf.new) }
{
    match open(rt, number) {
        Ok(mut file) => {
            let fd = file.as_raw_fd();
            read_all(rt, &mut file, fd, about, buf)
        }
        Err(error) => {
            crate::messages::fail(rt, about, &error);
            None
        }
    }
}

// The file that a word names, or standard input where there is no such word or it is "-": how many bytes it has, all of which were
// read. Where there is none, the reason was said.
pub fn read_input(
    rt: &HostRuntime,
    word: Option<usize>,
    about: &[u8],
    buf: &mut [u8],
) -> Option<usize>
    ensures { IfSome result (λ n. IsPrefixLen n buf.new) }
{
    if let Some(number) = crate::names::named(rt, word) {
        return read_named(rt, number, about, buf);
    }
    let mut source = rt.stdin();
    read_all(rt, &mut source, STDIN, about, buf)
}
