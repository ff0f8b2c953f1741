// Runs the whole work of the program `plunges` on scans that its input describes, and prints the text of each: of a long one its length and two sums.
#![tactic(auto)]

ghost use Rattle.std.specs.Prelude.{◌≤◌};

use scan::byte_in;
use test_io::{STDIN_FILENO, print_next, print_text, word};
use test_records::{between, size_of};

// A text of up to this many bytes is printed as it is.
const SHORT: usize = 256;

// The bytes of a record before its literal ones: how many those are, how many come after them from two bytes in turn, those two,
// how many come last, and their byte.
const FIXED: usize = 9;

fn literal(s: &[u8]) -> usize
    ensures { result ≤ 65535 }
{
    size_of(word(byte_in(s, 0), byte_in(s, 1)))
}

fn in_turn(s: &[u8]) -> usize
    ensures { result ≤ 65535 }
{
    size_of(word(byte_in(s, 2), byte_in(s, 3)))
}

fn last(s: &[u8]) -> usize
    ensures { result ≤ 65535 }
{
    size_of(word(byte_in(s, 6), byte_in(s, 7)))
}

// Byte i of the part where two bytes come in turn, or of the last part.
fn byte_behind(s: &[u8], i: usize) -> u8 {
    if in_turn(s) <= i {
        return byte_in(s, 8);
    }
    byte_in(s, 4 + i % 2)
}

// Byte i of the scan that a record describes.
fn scan_byte(s: &[u8], i: usize) -> u8 {
    let n = literal(s);
    if i < n {
        return byte_in(between(s, FIXED, s.len()), i);
    }
    byte_behind(s, i - n)
}

fn fill_scan(scan: &mut [u8], s: &[u8]) {
    for (i, byte) in scan.iter_mut().enumerate() {
        *byte = scan_byte(s, i);
    }
}

fn print_long(text: &[u8]) {
    print_text(b"bytes");
    print_next(text.len() as u64);
    print_text(b" ");
    test_io::print_bytes(text);
}

fn run_scan(scan: &[u8]) {
    let mut text = scan_text::text_buffer();
    let used = scan_text::put_text(&mut text, scan);
    print_text(b"scan");
    print_next(scan.len() as u64);
    print_text(b"\n");
    if used <= SHORT {
        print_text(&text[..used]);
    } else {
        print_long(&text[..used]);
    }
}

fn run_filled(scan: &mut [u8], s: &[u8]) {
    fill_scan(scan, s);
    run_scan(scan);
}

// Runs the record at the start of some bytes and gives the bytes it takes; 0 if it is not whole.
fn run_first(s: &[u8]) -> usize {
    let n = literal(s);
    if s.len() < FIXED + n {
        return 0;
    }
    let mut room = test_records::cells_room();
    let length = test_io::part(&room, n + in_turn(s) + last(s));
    run_filled(&mut room[..length], s);
    FIXED + n
}

// One record after the other; it ends at one that is not whole.
fn run_records(s: &[u8]) {
    let mut at = 0;
    while at < s.len() {
        let count = run_first(between(s, at, s.len()));
        at = test_records::next(s, at, count);
    }
}

fn main() {
    let mut input = io::large_buffer();
    let n = io::read_full(STDIN_FILENO, &mut input);
    run_records(&input[..n]);
}
