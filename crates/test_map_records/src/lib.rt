// Runs every map call on plates and buffers that records describe, and prints what comes back.
#![tactic(auto)]

use refusal::Verdict;
use residue_scores::Score;
use scan::byte_in;
use test_io::{STDIN_FILENO, part, print_text, word};
use test_records::{CELLS_ROOM, cells_room, size_of};

// The fixed bytes of a record.
const FIXED: usize = 19;

// A test case of the map calls: a call with its arguments, the relief's pattern, and the length of each buffer.
#[derive(Clone, Copy)]
struct Record {
    op: u8,
    kind: u8,
    width: u16,
    height: u16,
    x: u16,
    y: u16,
    z: u8,
    level: u8,
    pattern: u8,
    seed: u8,
    relief: u16,
    output: u16,
    work: u16,
}

// ---- reading

// The record at the start of some bytes; bytes that are missing count as 0. A level is the low byte of x.
fn parse(s: &[u8]) -> Record {
    Record {
        op: byte_in(s, 0),
        kind: byte_in(s, 1),
        width: word(byte_in(s, 2), byte_in(s, 3)),
        height: word(byte_in(s, 4), byte_in(s, 5)),
        x: word(byte_in(s, 6), byte_in(s, 7)),
        y: word(byte_in(s, 8), byte_in(s, 9)),
        z: byte_in(s, 10),
        level: byte_in(s, 7),
        pattern: byte_in(s, 11),
        seed: byte_in(s, 12),
        relief: word(byte_in(s, 13), byte_in(s, 14)),
        output: word(byte_in(s, 15), byte_in(s, 16)),
        work: word(byte_in(s, 17), byte_in(s, 18)),
    }
}

// How many bytes a record takes, its literal relief included.
fn taken(record: Record) -> usize {
    FIXED + test_records::literal(record.pattern, record.relief)
}

// Whether the buffers have as many bytes as a record asks.
fn fits(record: Record) -> bool {
    if CELLS_ROOM < size_of(record.relief) {
        return false;
    }
    if CELLS_ROOM < size_of(record.output) {
        return false;
    }
    size_of(record.work) <= CELLS_ROOM
}

// ---- printing

fn print_call(record: Record) {
    test_io::print_number(record.op as u64);
    test_io::print_next(record.kind as u64);
    test_io::print_next(record.width as u64);
    test_io::print_next(record.height as u64);
    print_text(b" : ");
}

fn print_value(value: u64) {
    print_text(b"value");
    test_io::print_next(value);
    print_text(b"\n");
}

fn print_verdict(verdict: Verdict) {
    match verdict {
        Ok(()) => print_text(b"ok\n"),
        Err(refusal) => test_io::print_refusal(refusal),
    }
}

// After a refusal, whether the work buffers are as before.
fn print_work(verdict: Verdict, a: &[u8], b: &[u8]) {
    match verdict {
        Ok(()) => {}
        Err(_) => {
            let kept = test_io::both(test_io::is_kept(a, 0), test_io::is_kept(b, 0));
            test_io::print_kept(b"work", kept);
        }
    }
}

// ---- calls

fn run_cell(record: Record, relief: &[u8]) {
    let answer = clearance_cell::clearance_of(
        relief,
        record.kind,
        record.width,
        record.height,
        record.z,
        record.x,
        record.y,
    );
    match answer {
        Ok(clearance) => print_value(clearance.0 as u64),
        Err(refusal) => test_io::print_refusal(refusal),
    }
}

fn run_volume(record: Record, relief: &[u8]) {
    let answer = erosion_maps::volume(relief, record.width, record.height);
    match answer {
        Ok(volume) => print_value(volume as u64),
        Err(refusal) => test_io::print_refusal(refusal),
    }
}

// The maps of one level, which take no work buffers.
fn level_call(record: Record, relief: &[u8], out: &mut [u8]) -> Verdict {
    let op = record.op;
    let kind = record.kind;
    let width = record.width;
    let height = record.height;
    match op {
        2 => clearance_maps::clearance_map(relief, kind, width, height, record.level, out),
        3 => clearance_maps::axis_map(relief, kind, width, height, record.level, out),
        _ => clearance_maps::reconstruct(relief, kind, width, height, out),
    }
}

// Makes the call into an output, and prints what comes back.
fn level_into(record: Record, relief: &[u8], out: &mut [u8]) {
    let verdict = level_call(record, relief, out);
    print_verdict(verdict);
    test_io::print_bytes(out);
}

fn run_level(record: Record, relief: &[u8]) {
    let mut out = cells_room();
    let output = part(&out, size_of(record.output));
    level_into(record, relief, &mut out[..output]);
}

fn score_of(op: u8) -> Score {
    if op == 7 { Score::Largest } else { Score::Sum }
}

// The maps of all levels, which take two work buffers.
fn series_call(
    record: Record,
    relief: &[u8],
    out: &mut [u8],
    a: &mut [u8],
    b: &mut [u8],
) -> Verdict {
    let op = record.op;
    let kind = record.kind;
    let width = record.width;
    let height = record.height;
    match op {
        5 => erosion_maps::erosion_map(relief, kind, width, height, record.x, out, a, b),
        6 => erosion_maps::residue_map(relief, kind, width, height, record.x, out, a, b),
        _ => erosion_maps::score_map(score_of(op), relief, kind, width, height, out, a, b),
    }
}

// Makes the call into an output, with work buffers, and prints what comes back.
fn series_into(record: Record, relief: &[u8], out: &mut [u8], a: &mut [u8], b: &mut [u8]) {
    let verdict = series_call(record, relief, out, a, b);
    print_verdict(verdict);
    test_io::print_bytes(out);
    print_work(verdict, a, b);
}

fn run_series(record: Record, relief: &[u8]) {
    let mut out = cells_room();
    let mut a = cells_room();
    let mut b = cells_room();
    let output = part(&out, size_of(record.output));
    let first = part(&a, size_of(record.work));
    let second = part(&b, size_of(record.work));
    series_into(
        record,
        relief,
        &mut out[..output],
        &mut a[..first],
        &mut b[..second],
    );
}

fn run_call(record: Record, relief: &[u8]) {
    print_call(record);
    let op = record.op;
    match op {
        1 => run_cell(record, relief),
        2 => run_level(record, relief),
        3 => run_level(record, relief),
        4 => run_level(record, relief),
        9 => run_volume(record, relief),
        _ => run_series(record, relief),
    }
}

// ---- records

// The call on a relief that is filled as the record says; source has its literal bytes.
fn run_filled(record: Record, source: &[u8], relief: &mut [u8]) {
    let width = size_of(record.width);
    let height = size_of(record.height);
    test_io::fill_relief(relief, record.pattern, record.seed, width, height, source);
    run_call(record, relief);
}

fn run_record(record: Record, source: &[u8]) {
    let mut relief = cells_room();
    let cells = part(&relief, size_of(record.relief));
    run_filled(record, source, &mut relief[..cells]);
}

// Runs the record at the start of some bytes and gives the bytes it takes; 0 if it is not whole or a buffer is too short for it.
fn run_first(s: &[u8]) -> usize {
    let record = parse(s);
    let count = taken(record);
    if s.len() < count {
        return 0;
    }
    if !fits(record) {
        return 0;
    }
    run_record(record, test_records::between(s, FIXED, count));
    count
}

// One record after the other; it ends at one that is not whole or asks for more than a buffer has.
fn run_records(s: &[u8]) {
    let mut at = 0;
    while at < s.len() {
        let count = run_first(test_records::between(s, at, s.len()));
        at = test_records::next(s, at, count);
    }
}

// Runs the records of the standard input.
pub fn run_input() {
    let mut input = io::large_buffer();
    let n = io::read_full(STDIN_FILENO, &mut input);
    run_records(&input[..n]);
}
