// The words of the command line; word 0 is the program's name. They are bytes: text is asked for only where a file is.
ghost use Rattle.std.specs.Prelude.{◌≡◌, IfOk, Some};
ghost use Rattle.std.specs.IoError.{raw_os_error};
ghost use Rattle.io.specs.Counts.{IsPrefixLen};
ghost use Rattle.tool_io.specs.Words.{error_number};

use std::env::FillError;
use std::io::Error;
use std::rt::Env;

// C's ENAMETOOLONG and EINVAL.
const TOO_LONG: i32 = 36;

const NO_WORD: i32 = 22;

// Puts the word with this number at the start of a buffer and gives its length, or says why not: there is no such word, or it is
// longer than the buffer; then its first bytes are there.
pub fn fetch(rt: &HostRuntime, number: usize, buf: &mut [u8]) -> Result<usize, FillError>
    ensures { IfOk result (λ n. IsPrefixLen n buf.new) }
{
    let n = rt.arg(number, buf)?;
    Ok(n.min(buf.len()))
}

// Why a word is no file's name.
pub fn error_of(fault: FillError) -> Error
    ensures { raw_os_error result ≡ Some (error_number fault) }
{
    match fault {
        FillError::TooLong => Error::from_raw_os_error(TOO_LONG),
        FillError::NotPresent => Error::from_raw_os_error(NO_WORD),
    }
}

// How many words there are.
pub fn count(rt: &HostRuntime) -> usize {
    let mut first = [0u8; 1];
    for i in 0..usize::MAX {
        if let Err(FillError::NotPresent) = fetch(rt, i, &mut first) {
            return i;
        }
    }
    0
}
