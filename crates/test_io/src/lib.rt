// What the test programs share: numbers out of bytes, parts of buffers, patterns of reliefs, printing.
#![tactic(auto)]

ghost use Rattle.std.specs.Prelude.{◌≤◌, length};
ghost use Rattle.io.specs.Counts.{IsPrefixLen};

use refusal::Refusal;
use scan::byte_in;

// Standard input and standard output.
pub const STDIN_FILENO: i32 = 0;

pub const STDOUT_FILENO: i32 = 1;

// What every output and work buffer holds before a call.
pub const UNTOUCHED: u8 = 170;

// Bytes up to this many are printed whole, of more two sums.
const SHORT: usize = 64;

// ---- numbers

pub fn word(high: u8, low: u8) -> u16 {
    u16::from_be_bytes([high, low])
}

pub fn two_words(high: u16, low: u16) -> u32 {
    (high as u32) * 65536 + (low as u32)
}

// How many bytes of a buffer are its first n: n, or all where it has fewer. With it `&buf[..r]` needs no proof.
pub fn part(buf: &[u8], n: usize) -> usize
    ensures { IsPrefixLen result buf.now }
{
    n.min(buf.len())
}

// ---- patterns of reliefs

// A pattern's number. The bytes of a literal relief come with the record.
pub const LITERAL: u8 = 0;

pub const CONSTANT: u8 = 1;

pub const NOISE: u8 = 2;

pub const COLUMNS: u8 = 3;

pub const DOME: u8 = 4;

pub const TILES: u8 = 5;

// The next state of a linear congruential generator.
fn next_state(state: u16) -> u16 {
    (((state as u32) * 1103 + 12345) % 65536) as u16
}

fn high_byte(state: u16) -> u8 {
    (state / 256) as u8
}

// The column of a place; the place itself where rows have no cells.
fn column_of(i: usize, width: usize) -> usize {
    if width == 0 { i } else { i % width }
}

fn row_of(i: usize, width: usize) -> usize {
    if width == 0 { 0 } else { i / width }
}

// A value in the first 13 columns, 0 elsewhere.
fn column_byte(column: usize, value: u8) -> u8 {
    if column < 13 { value } else { 0 }
}

// The distance of a cell to the nearest side's far edge, 255 at most; 0 below the plate.
fn dome_byte(column: usize, row: usize, width: usize, height: usize) -> u8 {
    let right = width.saturating_sub(column);
    let low = height.saturating_sub(row);
    let near = column.min(row).saturating_add(1);
    right.min(low).min(near).min(255) as u8
}

// Six tiles of a plate of 240 by 240 cells, each 80 wide and 120 high: depths 1, 46, 91 above 76, 121, 1.
fn tile_byte(i: usize) -> u8 {
    ((3 * (i % 240 / 80) + 5 * (i / 28800)) % 11 * 15 + 1) as u8
}

// The byte of a relief at a place, where the noise has a state; 0 past the end of a literal one.
fn relief_byte(
    i: usize,
    state: u16,
    pattern: u8,
    seed: u8,
    width: usize,
    height: usize,
    source: &[u8],
) -> u8 {
    match pattern {
        LITERAL => byte_in(source, i),
        CONSTANT => seed,
        NOISE => high_byte(state),
        COLUMNS => column_byte(column_of(i, width), seed),
        TILES => tile_byte(i),
        _ => dome_byte(column_of(i, width), row_of(i, width), width, height),
    }
}

// A relief: the bytes of source, or a pattern by its number.
pub fn fill_relief(
    buf: &mut [u8],
    pattern: u8,
    seed: u8,
    width: usize,
    height: usize,
    source: &[u8],
) {
    let mut state = seed as u16;
    for (i, byte) in buf.iter_mut().enumerate() {
        state = next_state(state);
        *byte = relief_byte(i, state, pattern, seed, width, height, source);
    }
}

// ---- printing

pub fn print_number(n: u64) {
    io::print_decimal(STDOUT_FILENO, n);
}

pub fn print_text(text: &[u8]) {
    io::write_all(STDOUT_FILENO, text);
}

// A number after a blank.
pub fn print_next(n: u64) {
    print_text(b" ");
    print_number(n);
}

// All bits of a number, as 16 hexadecimal digits after a blank.
pub fn print_bits(n: u64) {
    print_text(b" ");
    io::print_hex(STDOUT_FILENO, n, 16);
}

pub fn print_refusal(refusal: Refusal) {
    printing::print_refusal(STDOUT_FILENO, refusal);
}

// The bytes in hexadecimal, separated by blanks.
fn print_whole(buf: &[u8]) {
    for (i, byte) in buf.iter().enumerate() {
        if 0 < i {
            print_text(b" ");
        }
        io::print_hex(STDOUT_FILENO, u64::from(*byte), 2);
    }
    print_text(b"\n");
}

// A byte times a weight from 1 to 251 that changes with its place; at place 0 the weight is 1.
fn weighted(b: u8, i: usize) -> usize
    ensures { result ≤ 65536 }
{
    usize::from(b) * (i % 251 + 1)
}

// The sum of the bytes, and of the bytes times their weights.
#[derive(Clone, Copy)]
struct Sums {
    plain: usize,
    weighted: usize,
}

fn sums_of(buf: &[u8]) -> Sums
    requires { length buf.now ≤ 1048576 }
{
    let mut plain = 0;
    let mut sum = 0;
    for (i, byte) in buf.iter().enumerate() {
        plain += weighted(*byte, 0);
        sum += weighted(*byte, i);
    }
    Sums {
        plain,
        weighted: sum,
    }
}

// A few bytes whole, of more two sums; nothing of more than 1,048,576.
pub fn print_bytes(buf: &[u8]) {
    if buf.len() <= SHORT {
        print_whole(buf);
        return;
    }
    if buf.len() <= 1048576 {
        let sums = sums_of(buf);
        print_text(b"sums");
        print_next(sums.plain as u64);
        print_next(sums.weighted as u64);
        print_text(b"\n");
    }
}

// Whether the bytes from a place on are as before the call.
pub fn is_kept(buf: &[u8], from: usize) -> bool {
    buf.iter().skip(from).all(|byte| *byte == UNTOUCHED)
}

// Whether both are so.
pub fn both(a: bool, b: bool) -> bool {
    a && b
}

// What was looked at, and whether it is as before.
pub fn print_kept(what: &[u8], kept: bool) {
    print_text(what);
    if kept {
        print_text(b" kept\n");
    } else {
        print_text(b" changed\n");
    }
}

// Whether the bytes of an output from a place on are as before.
pub fn print_rest(out: &[u8], from: usize) {
    print_kept(b"rest", is_kept(out, from));
}

// A listing's answer: the file's bytes, its plunges, and the rungs climbed.
pub fn print_listed(bytes: usize, plunges: usize, rungs: usize) {
    print_text(b"listed");
    print_next(bytes as u64);
    print_next(plunges as u64);
    print_next(rungs as u64);
    print_text(b"\n");
}
