// The program jobtool: it lends the work its memory and ends with its status.
#![tactic(auto)]

ghost use Rattle.std.specs.Prelude.{◌≤◌, IfOk};

use std::alloc::AllocError;
use std::process::ExitCode;

// The longest input and the longest answer.
const FILE: usize = 1048576;

// The cells of the largest plate.
const CELLS: usize = (refusal::LARGEST_SIDE as usize) * (refusal::LARGEST_SIDE as usize);

fn run(rt: &HostRuntime) -> Result<u32, AllocError>
    ensures { IfOk result (λ status. status ≤ 2) }
{
    let mut input = vec![in rt.alloc(); 0u8; FILE]?;
    let mut out = vec![in rt.alloc(); 0u8; FILE]?;
    let mut a = vec![in rt.alloc(); 0u8; CELLS]?;
    let mut b = vec![in rt.alloc(); 0u8; CELLS]?;
    let mut c = vec![in rt.alloc(); 0u8; CELLS]?;
    Ok(jobtool::jobtool(
        rt,
        input.as_mut_slice(),
        out.as_mut_slice(),
        a.as_mut_slice(),
        b.as_mut_slice(),
        c.as_mut_slice(),
    ))
}

// The status of the work, or 2 where there is no memory for it, which is said.
fn status(rt: &HostRuntime) -> u32
    ensures { result ≤ 2 }
{
    match run(rt) {
        Ok(status) => status,
        Err(_) => {
            tool_io::messages::say(b"jobtool", b"Cannot allocate memory");
            2
        }
    }
}

fn main(rt: HostRuntime) -> ExitCode {
    ExitCode::from(status(&rt) as u8)
}
