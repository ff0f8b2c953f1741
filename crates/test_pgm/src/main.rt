// Runs the calls of `pgm`, `pgm_copies` and `pgm_sentences` on the records of its input, and prints each answer, what it left of the output, and the sentence of a fault.
#![tactic(auto)]

ghost use Rattle.std.specs.Prelude.{◌≤◌};

use pgm::{Picture, PictureFault};
use pgm_copies::CopyFault;
use scan::byte_in;
use test_io::{STDIN_FILENO, print_next, print_text, word};
use test_records::{between, size_of};

// The bytes of a record before its literal ones: which call, kind or width, height, the length of the output, how many literal bytes
// there are, how many come after them, and their byte.
const FIXED: usize = 12;

fn room(s: &[u8]) -> usize
    ensures { result ≤ 65535 }
{
    size_of(word(byte_in(s, 5), byte_in(s, 6)))
}

fn literal(s: &[u8]) -> usize
    ensures { result ≤ 65535 }
{
    size_of(word(byte_in(s, 7), byte_in(s, 8)))
}

fn more(s: &[u8]) -> usize
    ensures { result ≤ 65535 }
{
    size_of(word(byte_in(s, 9), byte_in(s, 10)))
}

// Byte i of the picture or of the depths that a record describes.
fn file_byte(s: &[u8], i: usize) -> u8 {
    if i < literal(s) {
        return byte_in(between(s, FIXED, s.len()), i);
    }
    byte_in(s, 11)
}

fn fill_file(file: &mut [u8], s: &[u8]) {
    for (i, byte) in file.iter_mut().enumerate() {
        *byte = file_byte(s, i);
    }
}

// ---- answers

fn print_fault(fault: PictureFault) {
    let mut page = [0u8; 256];
    let end = pgm_sentences::append_fault(&mut page, 0, fault);
    print_text(&page[..end]);
    print_text(b"\n");
}

fn print_picture(answer: Result<Picture, PictureFault>) {
    match answer {
        Ok(picture) => {
            print_text(b"picture");
            print_next(picture.width as u64);
            print_next(picture.height as u64);
            print_next(picture.at as u64);
            print_text(b"\n");
        }
        Err(fault) => print_fault(fault),
    }
}

fn print_copied(out: &[u8], n: usize) {
    let used = test_io::part(out, n);
    print_text(b"copied");
    print_next(n as u64);
    print_text(b"\n");
    test_io::print_bytes(&out[..used]);
    test_io::print_rest(out, n);
}

fn print_needed(out: &[u8], n: usize) {
    print_text(b"needed");
    print_next(n as u64);
    print_text(b"\n");
    test_io::print_rest(out, 0);
}

fn print_answer(answer: Result<usize, CopyFault>, out: &[u8]) {
    match answer {
        Ok(n) => print_copied(out, n),
        Err(CopyFault::NoRoom(n)) => print_needed(out, n),
        Err(CopyFault::TooFew) => {
            print_text(b"too few\n");
            test_io::print_rest(out, 0);
        }
        Err(CopyFault::Unread(_)) => {
            print_text(b"unread\n");
            test_io::print_rest(out, 0);
        }
    }
}

// ---- records

fn run_scan(s: &[u8], file: &[u8], out: &mut [u8]) {
    print_picture(pgm::read_picture(file));
    let answer = pgm_copies::put_scan(file, byte_in(s, 2), out);
    print_answer(answer, out);
}

fn run_picture(s: &[u8], depths: &[u8], out: &mut [u8]) {
    let width = word(byte_in(s, 1), byte_in(s, 2));
    let height = word(byte_in(s, 3), byte_in(s, 4));
    let answer = pgm_copies::put_picture(width, height, depths, out);
    print_answer(answer, out);
}

fn run_call(s: &[u8], file: &[u8]) {
    let mut out = test_records::cells_room();
    let size = test_io::part(&out, room(s));
    if byte_in(s, 0) == 0 {
        run_scan(s, file, &mut out[..size]);
    } else {
        run_picture(s, file, &mut out[..size]);
    }
}

fn run_filled(file: &mut [u8], s: &[u8]) {
    fill_file(file, s);
    run_call(s, file);
}

// Runs the record at the start of some bytes and gives the bytes it takes; 0 if it is not whole.
fn run_first(s: &[u8]) -> usize {
    let n = literal(s);
    if s.len() < FIXED + n {
        return 0;
    }
    let mut file = test_records::cells_room();
    let length = test_io::part(&file, n + more(s));
    run_filled(&mut file[..length], s);
    FIXED + n
}

// One record after the other; it ends at one that is not whole.
fn run_records(s: &[u8]) {
    let mut at = 0;
    while at < s.len() {
        let count = run_first(between(s, at, s.len()));
        at = test_records::next(s, at, count);
    }
}

fn main() {
    let mut input = io::large_buffer();
    let n = io::read_full(STDIN_FILENO, &mut input);
    run_records(&input[..n]);
}
