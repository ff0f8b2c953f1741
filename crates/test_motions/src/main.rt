// Runs the motion call on files, plunge numbers and scales that its input describes, and prints what comes back, floats to the last bit.
#![tactic(auto)]

ghost use Rattle.std.specs.Prelude.{◌≡◌, ◌≤◌};
ghost use Rattle.std.specs.Float.{binary64};
ghost use Rattle.std.specs.Float.Ieee.{nan_bits};

use motion_floats::Scale;
use scan::byte_in;
use test_io::{STDIN_FILENO, two_words, word};
use test_records::{between, size_of};

// The bytes of a record, which is a test case of the motion call, before its file: the file's length, the plunge's number, and three floats.
const FIXED: usize = 34;

// ---- reading

// Eight bytes as a number, the high byte first.
fn number_at(s: &[u8], at: usize) -> u64
    requires { at ≤ 1000 }
{
    let a = two_words(
        word(byte_in(s, at), byte_in(s, at + 1)),
        word(byte_in(s, at + 2), byte_in(s, at + 3)),
    );
    let b = two_words(
        word(byte_in(s, at + 4), byte_in(s, at + 5)),
        word(byte_in(s, at + 6), byte_in(s, at + 7)),
    );
    (a as u64) * 4294967296 + (b as u64)
}

// Whether bits are a NaN's: all ones in the exponent's field, and some one below it.
fn is_nan(bits: u64) -> bool
    ensures { result ≡ nan_bits binary64 bits }
{
    if bits % 9223372036854775808 / 4503599627370496 == 2047 {
        bits % 4503599627370496 != 0
    } else {
        false
    }
}

// The float with these bits. The language makes no NaN of bits: each of them is 0 divided by 0.
fn float_of(bits: u64) -> f64 {
    if is_nan(bits) {
        0.0 / 0.0
    } else {
        f64::from_bits(bits)
    }
}

fn scale_in(s: &[u8]) -> Scale {
    Scale {
        half_pitch: float_of(number_at(s, 10)),
        column_offset: float_of(number_at(s, 18)),
        row_offset: float_of(number_at(s, 26)),
    }
}

// How many bytes a record takes, its file included.
fn taken(s: &[u8]) -> usize {
    FIXED + size_of(word(byte_in(s, 0), byte_in(s, 1)))
}

// ---- records

fn run_call(file: &[u8], i: usize, scale: Scale) {
    test_motion_io::print_answer(motion::built_in_motions(file, i, scale));
}

// Runs the record at the start of some bytes and gives the bytes it takes; 0 if it is not whole.
fn run_first(s: &[u8]) -> usize {
    let count = taken(s);
    if s.len() < count {
        return 0;
    }
    run_call(
        between(s, FIXED, count),
        number_at(s, 2) as usize,
        scale_in(s),
    );
    count
}

// One record after the other; it ends at one that is not whole.
fn run_records(s: &[u8]) {
    let mut at = 0;
    while at < s.len() {
        let count = run_first(between(s, at, s.len()));
        at = test_records::next(s, at, count);
    }
}

fn main() {
    let mut input = io::large_buffer();
    let n = io::read_full(STDIN_FILENO, &mut input);
    run_records(&input[..n]);
}
