// Runs the calls on sink tables, and the motion call by tables of any numbers, on what its input describes, and prints what comes back.
#![tactic(auto)]

use motion_floats::Scale;
use refusal::Verdict;
use scan::byte_in;
use sink::ENTRIES;
use table_field::TABLE_BYTES;
use test_io::{STDIN_FILENO, UNTOUCHED, part, print_refusal, print_text, word};
use test_records::{between, size_of};

// The fixed bytes of a record. Patches of three bytes, then a file, stand behind them.
const FIXED: usize = 12;

// The longest field, and the longest output, that is asked for.
const ROOM: usize = 1280;

// What a record's call asks for; any other number asks for a load and then the motions by the table in force.
const LOAD: u8 = 1;

const WRITE: u8 = 2;

const MOTIONS: u8 = 3;

// A test case: a call, how the field is filled and its length, the output's length, the step of a table that is loaded before (0: none),
// half a pitch, the number of a plunge, how many patches follow, and how many bytes the file has.
#[derive(Clone, Copy)]
struct Record {
    call: u8,
    pattern: u8,
    seed: u8,
    field: u16,
    output: u16,
    before: u8,
    half: u8,
    plunge: u8,
    patches: u8,
    file: u8,
}

// ---- reading

// The record at the start of some bytes; bytes that are missing count as 0.
fn parse(s: &[u8]) -> Record {
    Record {
        call: byte_in(s, 0),
        pattern: byte_in(s, 1),
        seed: byte_in(s, 2),
        field: word(byte_in(s, 3), byte_in(s, 4)),
        output: word(byte_in(s, 5), byte_in(s, 6)),
        before: byte_in(s, 7),
        half: byte_in(s, 8),
        plunge: byte_in(s, 9),
        patches: byte_in(s, 10),
        file: byte_in(s, 11),
    }
}

// Where a record's file begins, and where it ends.
fn file_start(record: Record) -> usize {
    FIXED + 3 * (record.patches as usize)
}

fn file_end(record: Record) -> usize {
    FIXED + 3 * (record.patches as usize) + (record.file as usize)
}

// ---- fields

// Entry i of a table whose entries rise by a step.
fn entry_of(i: u8, step: u8) -> u16 {
    (step as u16) * (i as u16)
}

// Byte i of the content of its field; 0 behind it.
fn content_byte(i: usize, step: u8) -> u8 {
    if 512 <= i {
        return 0;
    }
    let entry = entry_of((i / 2) as u8, step);
    if i % 2 == 0 {
        numbers::first_byte(entry)
    } else {
        numbers::second_byte(entry)
    }
}

// Byte i of the field.
fn field_byte(i: usize, step: u8) -> u8 {
    match i {
        0 => 5,
        1 => 2,
        2 => 0,
        _ => content_byte(i - 3, step),
    }
}

fn fill_steps(field: &mut [u8], step: u8) {
    for (i, byte) in field.iter_mut().enumerate() {
        *byte = field_byte(i, step);
    }
}

// Stores a byte, where the field is so long.
fn store(field: &mut [u8], at: usize, byte: u8) {
    if at < field.len() {
        field[at] = byte;
    }
}

// A patch is a place of two bytes and the byte to put there.
fn patch(field: &mut [u8], patches: &[u8]) {
    for p in patches.chunks_exact(3) {
        store(field, size_of(word(p[0], p[1])), p[2]);
    }
}

// A table that rises by a step, or bytes by a pattern of test_io.
fn fill_base(field: &mut [u8], pattern: u8, seed: u8) {
    if pattern == 0 {
        fill_steps(field, seed);
        return;
    }
    test_io::fill_relief(field, pattern, seed, 1, 1, b"");
}

// The field that a record describes.
fn fill_field(field: &mut [u8], record: Record, patches: &[u8]) {
    fill_base(field, record.pattern, record.seed);
    patch(field, patches);
}

// The numbers of a field's content, whatever they are; bytes that are missing count as 0.
fn table_in(field: &[u8]) -> [u16; ENTRIES] {
    let mut table = [0u16; ENTRIES];
    for (i, entry) in table.iter_mut().enumerate() {
        *entry = word(byte_in(field, 3 + 2 * i), byte_in(field, 4 + 2 * i));
    }
    table
}

// ---- calls

fn print_verdict(done: &[u8], verdict: Verdict) {
    match verdict {
        Ok(()) => print_text(done),
        Err(refusal) => print_refusal(refusal),
    }
}

// The built-in table, or the one of a step, loaded in its place.
fn table_before(step: u8) -> [u16; ENTRIES] {
    let mut table = sink::built_in();
    if step != 0 {
        let mut field = [0u8; TABLE_BYTES];
        fill_steps(&mut field, step);
        print_verdict(b"before: loaded\n", table_field::load(&field, &mut table));
    }
    table
}

// Writes a table and prints the bytes of its field.
fn print_table(table: &[u16; ENTRIES]) {
    let mut out = [UNTOUCHED; TABLE_BYTES];
    let verdict = table_field::write(table, &mut out);
    match verdict {
        Ok(()) => test_io::print_bytes(&out),
        Err(refusal) => print_refusal(refusal),
    }
}

fn run_load(record: Record, field: &[u8]) {
    let mut table = table_before(record.before);
    print_verdict(b"loaded\n", table_field::load(field, &mut table));
    print_table(&table);
}

// Writes a table of any numbers into an output, and prints what comes back.
fn write_into(table: &[u16; ENTRIES], out: &mut [u8]) {
    let verdict = table_field::write(table, out);
    match verdict {
        Ok(()) => {
            let end = part(out, TABLE_BYTES);
            print_text(b"written\n");
            test_io::print_bytes(&out[..end]);
            test_io::print_rest(out, end);
        }
        Err(refusal) => {
            print_refusal(refusal);
            test_io::print_rest(out, 0);
        }
    }
}

fn run_write(record: Record, field: &[u8]) {
    let table = table_in(field);
    let mut out = [UNTOUCHED; ROOM];
    let output = part(&out, size_of(record.output));
    write_into(&table, &mut out[..output]);
}

// The motions of a plunge by a table.
fn print_motions(record: Record, table: &[u16; ENTRIES], file: &[u8]) {
    let scale = Scale {
        half_pitch: record.half as f64,
        column_offset: 0.0,
        row_offset: 0.0,
    };
    test_motion_io::print_answer(motion::plunge_motions(
        table,
        file,
        record.plunge as usize,
        scale,
    ));
}

fn run_motions(record: Record, field: &[u8], file: &[u8]) {
    let table = table_in(field);
    print_motions(record, &table, file);
}

// A load, and the motions by the table in force after it.
fn run_press(record: Record, field: &[u8], file: &[u8]) {
    let mut table = table_before(record.before);
    print_verdict(b"loaded\n", table_field::load(field, &mut table));
    print_motions(record, &table, file);
}

fn run_call(record: Record, field: &[u8], file: &[u8]) {
    let call = record.call;
    match call {
        LOAD => run_load(record, field),
        WRITE => run_write(record, field),
        MOTIONS => run_motions(record, field, file),
        _ => run_press(record, field, file),
    }
}

// ---- records

// Fills the field and makes the call.
fn run_filled(record: Record, field: &mut [u8], patches: &[u8], file: &[u8]) {
    fill_field(field, record, patches);
    run_call(record, field, file);
}

// Runs the record at the start of some bytes and gives the bytes it takes; 0 if it is not whole.
fn run_first(s: &[u8]) -> usize {
    let record = parse(s);
    let start = file_start(record);
    let end = file_end(record);
    if s.len() < end {
        return 0;
    }
    let mut room = [0u8; ROOM];
    let length = part(&room, size_of(record.field));
    run_filled(
        record,
        &mut room[..length],
        between(s, FIXED, start),
        between(s, start, end),
    );
    end
}

// One record after the other; it ends at one that is not whole.
fn run_records(s: &[u8]) {
    let mut at = 0;
    while at < s.len() {
        let count = run_first(between(s, at, s.len()));
        at = test_records::next(s, at, count);
    }
}

fn main() {
    let mut input = io::large_buffer();
    let n = io::read_full(STDIN_FILENO, &mut input);
    run_records(&input[..n]);
}
