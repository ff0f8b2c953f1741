// The program of document 01: kind, width, height and depths come in, a byte each; the list of plunges goes out as text. The program lends it
// memory and the system, and hands its status on.
#![tactic(auto)]

ghost use Rattle.std.specs.Prelude.{◌≤◌};

// Standard input and standard output.
const STDIN: i32 = 0;

const STDOUT: i32 = 1;

// What a text that was printed says of the scan: 1 for the line of a refusal.
fn status_of(first: u8) -> u32
    ensures { result ≤ 2 }
{
    if first == b'r' { 1 } else { 0 }
}

// The program: a buffer for the scan and one of scan_text::TEXT bytes for the text. Gives the status: 0 done, 1 refused, 2 trouble, which is
// said on standard error.
pub fn plunges(rt: &HostRuntime, scan: &mut [u8], text: &mut [u8]) -> u32
    ensures { result ≤ 2 }
{
    if text.len() < scan_text::TEXT {
        return 2;
    }
    let n = io::read_full(STDIN, scan);
    let used = scan_text::put_text(text, &scan[..n]);
    if !io::write_all(STDOUT, &text[..used]) {
        tool_io::messages::fail_last(rt, b"plunges: standard output");
        return 2;
    }
    status_of(text[0])
}
