// Clearances in two bytes a cell, and drawing back from them, on plates past 240 cells.
#![tactic(auto)]

ghost use Rattle.std.specs.Prelude.{◌≡◌, ◌<◌, length};
ghost use Rattle.geometry.specs.Plate.{area};

use geometry::{Head, Kind};
use test_io::{UNTOUCHED, part, print_text};

// Cells of the largest plate, 520 by 520: its clearances go to 260.
const CELLS: usize = 270400;

// A plate's cells; twice as many can be counted.
fn cells_of(head: Head) -> usize
    ensures { (result ≡ area head) × (result < 4294967296) }
{
    (head.height as usize) * (head.width as usize)
}

// ---- buffers, as every call finds them

fn relief_room() -> [u8; CELLS]
    ensures { 270400 ≡ length result }
{
    [0; CELLS]
}

fn map_room() -> [u8; 2 * CELLS + 1]
    ensures { 540801 ≡ length result }
{
    [UNTOUCHED; 2 * CELLS + 1]
}

fn marks_room() -> [u8; CELLS + 1]
    ensures { 270401 ≡ length result }
{
    [UNTOUCHED; CELLS + 1]
}

fn first_room() -> [u8; 2 * CELLS]
    ensures { 540800 ≡ length result }
{
    [0; 2 * CELLS]
}

// ---- calls

fn print_head(what: &[u8], head: Head) {
    let kind = head.kind;
    print_text(what);
    test_io::print_next(kind.byte() as u64);
    test_io::print_next(head.width as u64);
    test_io::print_next(head.height as u64);
    print_text(b" : ");
}

// Bytes up to a place, and whether those after it are as before.
fn print_map(map: &[u8], to: usize) {
    let end = part(map, to);
    test_io::print_bytes(&map[..end]);
    test_io::print_rest(map, to);
}

// Clearances into a map, where the plate and the buffers fit.
fn clear(head: Head, level: u8, relief: &[u8], map: &mut [u8]) {
    let cells = cells_of(head);
    if head.width == 0 {
        return;
    }
    if 1024 < head.width {
        return;
    }
    if head.height == 0 {
        return;
    }
    if level == 0 {
        return;
    }
    if relief.len() < cells {
        return;
    }
    if map.len() / 2 < cells {
        return;
    }
    wide_transform::put_clearances(head, level, relief, map);
}

// What a map reaches, where the plate and the buffers fit.
fn draw_back(head: Head, map: &[u8], marks: &mut [u8]) {
    let cells = cells_of(head);
    if head.width == 0 {
        return;
    }
    if 1024 < head.width {
        return;
    }
    if head.height == 0 {
        return;
    }
    if map.len() / 2 < cells {
        return;
    }
    if marks.len() < cells {
        return;
    }
    wide_reconstruct::put_reconstruction(head, map, marks);
}

fn print_back(head: Head, map: &[u8]) {
    let mut marks = marks_room();
    draw_back(head, map, &mut marks);
    print_head(b"back", head);
    print_map(&marks, cells_of(head));
}

// Clearances of a pattern at a level, and what they reach.
fn run_clearances(head: Head, pattern: u8, seed: u8, level: u8) {
    let mut relief = relief_room();
    let mut map = map_room();
    test_io::fill_relief(
        &mut relief,
        pattern,
        seed,
        head.width as usize,
        head.height as usize,
        b"",
    );
    clear(head, level, &relief, &mut map);
    print_head(b"clearances", head);
    print_map(&map, 2 * cells_of(head));
    print_back(head, &map);
}

// What a map reaches whose first 13 bytes are a number, and all others 0.
fn run_first(head: Head, number: u8) {
    let mut map = first_room();
    test_io::fill_relief(&mut map, test_io::COLUMNS, number, 2 * CELLS, 1, b"");
    print_back(head, &map);
}

fn plate(kind: Kind, width: u16, height: u16) -> Head {
    Head {
        kind,
        width,
        height,
    }
}

fn run_kind(kind: Kind) {
    run_clearances(plate(kind, 520, 520), test_io::CONSTANT, 1, 1);
    run_clearances(plate(kind, 1000, 41), test_io::NOISE, 7, 1);
    run_clearances(plate(kind, 1024, 20), test_io::NOISE, 9, 2);
    run_clearances(plate(kind, 241, 200), test_io::DOME, 0, 30);
    run_clearances(plate(kind, 1, 1000), test_io::CONSTANT, 3, 3);
    run_clearances(plate(kind, 1000, 1), test_io::CONSTANT, 3, 4);
    run_first(plate(kind, 1000, 41), 1);
    run_first(plate(kind, 300, 300), 1);
    run_first(plate(kind, 300, 300), 0);
}

fn main() {
    run_kind(Kind::Diamond);
    run_kind(Kind::Square);
}
