// Document 01's blocks to try that are not marked M, and the worked example of `plunges`: makes each call and prints what comes back.
#![tactic(auto)]

ghost use Rattle.std.specs.Prelude.{◌≡◌, length};

use listing::Extent;
use refusal::{Refusal, Verdict};
use test_io::{STDOUT_FILENO, UNTOUCHED, part, print_next, print_refusal, print_rest, print_text};

const SIDE: usize = refusal::LARGEST_SIDE as usize;

// Bytes of a buffer with a byte for each cell, also of a plate with one row too many.
const CELLS: usize = (SIDE + 1) * SIDE;

// Bytes of a buffer that is longer than each file here.
const LONG: usize = 204000;

// Files of up to this many bytes are printed as text; of a longer one two sums.
const TEXT: usize = 16384;

#[derive(Clone, Copy)]
struct Plate {
    kind: u8,
    width: u16,
    height: u16,
}

fn plate_of(kind: u8, width: u16, height: u16) -> Plate {
    Plate {
        kind,
        width,
        height,
    }
}

// The number before, 0 for 0.
fn before(n: usize) -> usize {
    if n == 0 { 0 } else { n - 1 }
}

// ---- printing

fn print_plate(plate: Plate) {
    print_text(b"plate");
    print_next(plate.kind as u64);
    print_next(plate.width as u64);
    print_next(plate.height as u64);
    print_text(b"\n");
}

// A file as `plunges` prints it, a long one by its plate alone; then its bytes, or two sums of them.
fn print_file(plate: Plate, file: &[u8]) {
    if file.len() <= TEXT {
        printing::print_file(STDOUT_FILENO, file);
    } else {
        print_plate(plate);
    }
    test_io::print_bytes(file);
}

// An answer of listing or tidying, and whether the bytes past the file are as before; gives the file's length, 0 if there is none.
fn print_answer(answer: Result<Extent, Refusal>, out: &[u8]) -> usize {
    match answer {
        Ok(extent) => {
            test_io::print_listed(extent.bytes, extent.plunges, extent.erosions);
            print_rest(out, extent.bytes);
            extent.bytes
        }
        Err(refusal) => {
            print_refusal(refusal);
            print_rest(out, 0);
            0
        }
    }
}

// Whether the first n bytes of an output are those of a file; nothing where there are none.
fn print_same(file: &[u8], out: &[u8], n: usize) {
    if n == 0 {
        return;
    }
    let end = part(out, n);
    if check::same(file, &out[..end]) {
        print_text(b"same bytes\n");
    } else {
        print_text(b"other bytes\n");
    }
}

// ---- buffers

fn cells_room() -> [u8; CELLS]
    ensures { 57840 ≡ length result }
{
    [UNTOUCHED; CELLS]
}

fn long_room() -> [u8; LONG]
    ensures { 204000 ≡ length result }
{
    [UNTOUCHED; LONG]
}

// ---- calls, each on buffers that no other call has written

// Lists a relief; gives the file's length, 0 if it was refused.
fn run_list(plate: Plate, relief: &[u8], out: &mut [u8], a: &mut [u8], b: &mut [u8]) -> usize {
    print_text(b"list into");
    print_next(out.len() as u64);
    print_text(b" bytes: ");
    let answer = jobs::list(relief, plate.kind, plate.width, plate.height, out, a, b);
    print_answer(answer, out)
}

// Lists a relief whose file is known, and compares.
fn list_again(
    plate: Plate,
    relief: &[u8],
    file: &[u8],
    out: &mut [u8],
    a: &mut [u8],
    b: &mut [u8],
) {
    let n = run_list(plate, relief, out, a, b);
    print_same(file, out, n);
}

// The same into an output of some length.
fn list_within(plate: Plate, relief: &[u8], file: &[u8], room: usize) {
    let mut out = long_room();
    let mut a = cells_room();
    let mut b = cells_room();
    let end = part(&out, room);
    list_again(plate, relief, file, &mut out[..end], &mut a, &mut b);
}

fn run_tidy(file: &[u8]) {
    let mut out = long_room();
    let mut a = cells_room();
    let mut b = cells_room();
    let mut c = cells_room();
    print_text(b"tidy: ");
    let answer = jobs::tidy(file, &mut out, &mut a, &mut b, &mut c);
    let n = print_answer(answer, &out);
    print_same(file, &out, n);
}

fn run_check(file: &[u8]) {
    let mut a = cells_room();
    let mut b = cells_room();
    let mut c = cells_room();
    print_text(b"check: ");
    let verdict = job_check::check(file, &mut a, &mut b, &mut c);
    match verdict {
        Ok(()) => print_text(b"tidy\n"),
        Err(refusal) => print_refusal(refusal),
    }
}

// ---- blocks

// "An output of exactly 13 + 7·n is enough", one byte less is not; and the file is tidy.
fn run_listed(plate: Plate, relief: &[u8], file: &[u8]) {
    print_file(plate, file);
    list_within(plate, relief, file, file.len());
    list_within(plate, relief, file, before(file.len()));
    run_tidy(file);
    run_check(file);
}

// Lists a relief into a file, then makes every call on that.
fn block_into(plate: Plate, relief: &[u8], file: &mut [u8], a: &mut [u8], b: &mut [u8]) {
    let n = run_list(plate, relief, file, a, b);
    let end = part(file, n);
    run_listed(plate, relief, &file[..end]);
}

fn run_block(plate: Plate, relief: &[u8]) {
    let mut file = long_room();
    let mut a = cells_room();
    let mut b = cells_room();
    block_into(plate, relief, &mut file, &mut a, &mut b);
}

fn run_pattern(plate: Plate, pattern: u8) {
    let mut relief = cells_room();
    test_io::fill_relief(&mut relief, pattern, 1, SIDE, SIDE, b"");
    run_block(plate, &relief);
}

// "240 by 240 is accepted"
fn run_largest(kind: u8) {
    let plate = plate_of(kind, refusal::LARGEST_SIDE, refusal::LARGEST_SIDE);
    print_text(b"block: all depth 1\n");
    run_pattern(plate, test_io::CONSTANT);
    print_text(b"block: six tiles\n");
    run_pattern(plate, test_io::TILES);
    print_text(b"block: dome\n");
    run_pattern(plate, test_io::DOME);
}

// A side of 241 or 0: no byte of a buffer changes.
fn run_sides(plate: Plate) {
    print_text(b"block: sides\n");
    print_plate(plate);
    let relief = cells_room();
    let mut out = cells_room();
    let mut a = cells_room();
    let mut b = cells_room();
    run_list(plate, &relief, &mut out, &mut a, &mut b);
    print_rest(&a, 0);
    print_rest(&b, 0);
}

// "241 or 0 gets 2"
fn run_refused(kind: u8) {
    run_sides(plate_of(kind, 241, 240));
    run_sides(plate_of(kind, 240, 241));
    run_sides(plate_of(kind, 0, 240));
    run_sides(plate_of(kind, 240, 0));
}

// `08 03 03 04 04 04 04 09 04 04 04 04`
fn run_worked() {
    let relief = [4, 4, 4, 4, 9, 4, 4, 4, 4];
    print_text(b"block: worked example\n");
    run_block(plate_of(8, 3, 3), &relief);
}

fn main() {
    run_worked();
    run_largest(4);
    run_largest(8);
    run_refused(4);
    run_refused(8);
}
