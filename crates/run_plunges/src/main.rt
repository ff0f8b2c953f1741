// The program plunges: it takes no words, lends the work its memory and ends with its status.
#![tactic(auto)]

ghost use Rattle.std.specs.Prelude.{◌≤◌, IfOk};

use std::alloc::AllocError;
use std::process::ExitCode;

// Standard error.
const STDERR: i32 = 2;

// A wrong use: one line on standard error.
fn usage() -> u32
    ensures { result ≤ 2 }
{
    io::write_all(
        STDERR,
        b"usage: plunges < SCAN    kind, width, height and depths, a byte each; it takes no words\n",
    );
    2
}

// The largest plate's scan, and the text of the longest list; what follows the plate changes nothing.
fn run(rt: &HostRuntime) -> Result<u32, AllocError>
    ensures { IfOk result (λ status. status ≤ 2) }
{
    let mut scan = vec![in rt.alloc(); 0u8; scan_text::SCAN]?;
    let mut text = vec![in rt.alloc(); 0u8; scan_text::TEXT]?;
    Ok(plunges::plunges(rt, scan.as_mut_slice(), text.as_mut_slice()))
}

// The status of the work, or 2 where there is no memory for it, which is said.
fn status(rt: &HostRuntime) -> u32
    ensures { result ≤ 2 }
{
    if 1 < tool_io::words::count(rt) {
        return usage();
    }
    match run(rt) {
        Ok(status) => status,
        Err(_) => {
            tool_io::messages::say(b"plunges", b"Cannot allocate memory");
            2
        }
    }
}

fn main(rt: HostRuntime) -> ExitCode {
    ExitCode::from(status(&rt) as u8)
}
