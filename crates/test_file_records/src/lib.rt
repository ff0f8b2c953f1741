// Runs the calls on plunge files as records describe them, and prints what comes back.
#![tactic(auto)]

use job_check::check;
use jobs::{draw, list, tidy};
use listing::Extent;
use reading::Job;
use refusal::{Refusal, Verdict};
use scan::byte_in;
use test_io::{
    STDIN_FILENO, both, is_kept, part, print_next, print_refusal, print_rest, print_text, word,
};
use test_records::{CELLS_ROOM, FILE_ROOM, between, cells_room, file_room, size_of};

// The fixed bytes of a record.
const FIXED: usize = 19;

// What a record's op asks for; any other number asks for every call on its file.
const READ: u8 = 1;

const DRAW: u8 = 2;

const LIST: u8 = 3;

const TIDY: u8 = 4;

const CHECK: u8 = 5;

const CHAIN: u8 = 6;

const REPEAT: u8 = 7;

// A test case of the calls on files: a call with its arguments, the relief's pattern, and the length of each buffer. A file
// stands in the record itself.
#[derive(Clone, Copy)]
struct Record {
    op: u8,
    kind: u8,
    width: u16,
    height: u16,
    pattern: u8,
    seed: u8,
    source: u16,
    output: u32,
    a: u16,
    b: u16,
    c: u16,
}

// ---- reading

// The record at the start of some bytes; bytes that are missing count as 0.
fn parse(s: &[u8]) -> Record {
    Record {
        op: byte_in(s, 0),
        kind: byte_in(s, 1),
        width: word(byte_in(s, 2), byte_in(s, 3)),
        height: word(byte_in(s, 4), byte_in(s, 5)),
        pattern: byte_in(s, 6),
        seed: byte_in(s, 7),
        source: word(byte_in(s, 8), byte_in(s, 9)),
        output: test_io::two_words(byte_in(s, 10) as u16, word(byte_in(s, 11), byte_in(s, 12))),
        a: word(byte_in(s, 13), byte_in(s, 14)),
        b: word(byte_in(s, 15), byte_in(s, 16)),
        c: word(byte_in(s, 17), byte_in(s, 18)),
    }
}

// How many bytes a record takes, its literal source included.
fn taken(record: Record) -> usize {
    FIXED + test_records::literal(record.pattern, record.source)
}

// Whether the buffers have as many bytes as a record asks.
fn fits(record: Record) -> bool {
    if CELLS_ROOM < size_of(record.source) {
        return false;
    }
    if FILE_ROOM < record.output as usize {
        return false;
    }
    if CELLS_ROOM < size_of(record.a) {
        return false;
    }
    if CELLS_ROOM < size_of(record.b) {
        return false;
    }
    size_of(record.c) <= CELLS_ROOM
}

// How many cells the plate has.
fn cells_of(record: Record) -> usize {
    (record.height as usize) * (record.width as usize)
}

// Where a byte of a long file stands in the file of one plunge that it repeats.
fn repeated_place(i: usize, size: usize) -> usize {
    if i < 13 {
        return i;
    }
    if i < size {
        if size - i <= 7 {
            return 20 - (size - i);
        }
    }
    6 + (i - 6) % 7
}

// A file whose one plunge is repeated until the file fills the buffer; head and end are the file's own.
fn repeat(buf: &mut [u8], file: &[u8]) {
    let size = buf.len();
    for (i, byte) in buf.iter_mut().enumerate() {
        *byte = byte_in(file, repeated_place(i, size));
    }
}

// ---- printing

fn print_job(job: Job) {
    let head = job.head;
    let kind = head.kind;
    print_text(b"readable");
    print_next(kind.byte() as u64);
    print_next(head.width as u64);
    print_next(head.height as u64);
    print_next(job.plunges as u64);
    print_text(b"\n");
}

// The first n bytes of an output, and whether the others are as before.
fn print_output(out: &[u8], n: usize) {
    let end = part(out, n);
    if 0 < end {
        test_io::print_bytes(&out[..end]);
    }
    print_rest(out, end);
}

// How many bytes of a work buffer are free after a refusal.
fn free_after(refusal: Refusal, cells: usize) -> usize {
    let number = refusal.number;
    match number {
        5 => cells,
        12 => cells,
        _ => 0,
    }
}

// Whether the work bytes from a place on are as before.
fn print_work(a: &[u8], b: &[u8], c: &[u8], from: usize) {
    let kept = both(is_kept(a, from), both(is_kept(b, from), is_kept(c, from)));
    test_io::print_kept(b"work", kept);
}

// An answer of listing or tidying, its file, and the buffers' other bytes; gives the file's length, 0 if there is none.
fn print_list(
    answer: Result<Extent, Refusal>,
    cells: usize,
    out: &[u8],
    a: &[u8],
    b: &[u8],
    c: &[u8],
) -> usize {
    match answer {
        Ok(extent) => {
            test_io::print_listed(extent.bytes, extent.plunges, extent.erosions);
            print_output(out, extent.bytes);
            print_work(a, b, c, cells);
            extent.bytes
        }
        Err(refusal) => {
            print_refusal(refusal);
            print_output(out, 0);
            print_work(a, b, c, free_after(refusal, cells));
            0
        }
    }
}

// ---- calls, each on buffers that no other call has written

fn run_read(file: &[u8]) {
    print_text(b"read : ");
    let answer = reading::read(file);
    match answer {
        Ok(job) => print_job(job),
        Err(refusal) => print_refusal(refusal),
    }
}

// Draws a file into an output, and prints what comes back.
fn draw_into(file: &[u8], cells: usize, out: &mut [u8]) {
    let verdict = draw(file, out);
    match verdict {
        Ok(()) => {
            print_text(b"drawn\n");
            print_output(out, cells);
        }
        Err(refusal) => {
            print_refusal(refusal);
            print_output(out, 0);
        }
    }
}

fn run_draw(record: Record, file: &[u8]) {
    print_text(b"draw : ");
    let mut out = file_room();
    let output = part(&out, record.output as usize);
    draw_into(file, cells_of(record), &mut out[..output]);
}

// Lists a relief into an output, and prints what comes back; gives the length of the file. Listing has two work buffers.
fn list_into(record: Record, relief: &[u8], out: &mut [u8], a: &mut [u8], b: &mut [u8]) -> usize {
    let answer = list(relief, record.kind, record.width, record.height, out, a, b);
    print_list(answer, cells_of(record), out, a, b, b"")
}

// Lists a relief; gives the length of the file, 0 if it was refused.
fn run_list(record: Record, relief: &[u8], out: &mut [u8]) -> usize {
    print_text(b"list : ");
    let mut a = cells_room();
    let mut b = cells_room();
    let first = part(&a, size_of(record.a));
    let second = part(&b, size_of(record.b));
    list_into(record, relief, out, &mut a[..first], &mut b[..second])
}

// Tidies a file into an output, and prints what comes back.
fn tidy_into(file: &[u8], cells: usize, out: &mut [u8], a: &mut [u8], b: &mut [u8], c: &mut [u8]) {
    let answer = tidy(file, out, a, b, c);
    print_list(answer, cells, out, a, b, c);
}

fn run_tidy(record: Record, file: &[u8]) {
    print_text(b"tidy : ");
    let mut out = file_room();
    let mut a = cells_room();
    let mut b = cells_room();
    let mut c = cells_room();
    let output = part(&out, record.output as usize);
    let first = part(&a, size_of(record.a));
    let second = part(&b, size_of(record.b));
    let third = part(&c, size_of(record.c));
    tidy_into(
        file,
        cells_of(record),
        &mut out[..output],
        &mut a[..first],
        &mut b[..second],
        &mut c[..third],
    );
}

// Checks a file with work buffers, and prints what comes back.
fn check_with(file: &[u8], cells: usize, a: &mut [u8], b: &mut [u8], c: &mut [u8]) {
    let verdict = check(file, a, b, c);
    match verdict {
        Ok(()) => {
            print_text(b"tidy\n");
            print_work(a, b, c, cells);
        }
        Err(refusal) => {
            print_refusal(refusal);
            print_work(a, b, c, free_after(refusal, cells));
        }
    }
}

fn run_check(record: Record, file: &[u8]) {
    print_text(b"check : ");
    let mut a = cells_room();
    let mut b = cells_room();
    let mut c = cells_room();
    let first = part(&a, size_of(record.a));
    let second = part(&b, size_of(record.b));
    let third = part(&c, size_of(record.c));
    check_with(
        file,
        cells_of(record),
        &mut a[..first],
        &mut b[..second],
        &mut c[..third],
    );
}

// Every call on one file.
fn run_each(record: Record, file: &[u8]) {
    run_read(file);
    run_draw(record, file);
    run_tidy(record, file);
    run_check(record, file);
}

// One call on a file, or every call.
fn run_file(record: Record, file: &[u8]) {
    let op = record.op;
    match op {
        READ => run_read(file),
        DRAW => run_draw(record, file),
        TIDY => run_tidy(record, file),
        CHECK => run_check(record, file),
        _ => run_each(record, file),
    }
}

// ---- records

// Fills a relief as the record says, where source has its literal bytes, and lists it; a chain then makes every call on the file that came of it.
fn run_filled(record: Record, source: &[u8], relief: &mut [u8], out: &mut [u8]) {
    let width = size_of(record.width);
    let height = size_of(record.height);
    test_io::fill_relief(relief, record.pattern, record.seed, width, height, source);
    let n = run_list(record, relief, out);
    if n == 0 {
        return;
    }
    if record.op == CHAIN {
        run_each(record, between(out, 0, n));
    }
}

fn run_relief(record: Record, source: &[u8]) {
    let mut relief = cells_room();
    let mut out = file_room();
    let cells = part(&relief, size_of(record.source));
    let output = part(&out, record.output as usize);
    run_filled(record, source, &mut relief[..cells], &mut out[..output]);
}

// The calls on a file of one plunge, repeated.
fn run_repeated(record: Record, source: &[u8], file: &mut [u8]) {
    repeat(file, source);
    run_file(record, file);
}

fn run_repeat(record: Record, source: &[u8]) {
    let mut file = file_room();
    let output = part(&file, record.output as usize);
    run_repeated(record, source, &mut file[..output]);
}

// The calls of a record; source has its literal bytes.
fn run_record(record: Record, source: &[u8]) {
    let op = record.op;
    match op {
        LIST => run_relief(record, source),
        CHAIN => run_relief(record, source),
        REPEAT => run_repeat(record, source),
        _ => run_file(record, source),
    }
}

// Runs the record at the start of some bytes and gives the bytes it takes; 0 if it is not whole or a buffer is too short for it.
fn run_first(s: &[u8]) -> usize {
    let record = parse(s);
    let count = taken(record);
    if s.len() < count {
        return 0;
    }
    if !fits(record) {
        return 0;
    }
    run_record(record, between(s, FIXED, count));
    count
}

// One record after the other; it ends at one that is not whole or asks for more than a buffer has.
fn run_records(s: &[u8]) {
    let mut at = 0;
    while at < s.len() {
        let count = run_first(between(s, at, s.len()));
        at = test_records::next(s, at, count);
    }
}

// Runs the records of the standard input.
pub fn run_input() {
    let mut input = io::large_buffer();
    let n = io::read_full(STDIN_FILENO, &mut input);
    run_records(&input[..n]);
}
