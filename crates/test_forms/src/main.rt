// What plunges tell of themselves: `covers` of every cell and `inside` of every pair in a small universe, for both kinds.
#![tactic(auto)]

use geometry::{Kind, Plunge, Reach};
use test_io::{print_next, print_text};

// Columns and rows of the universe; its reaches are 0 to 2, its depths 1 and 2.
const SIDE: u16 = 4;

const CELLS: u16 = SIDE * SIDE;

const BALLS: u16 = 3 * CELLS;

const PLUNGES: u16 = 2 * BALLS;

// The plunge of a number: columns change first, then rows, reaches, depths.
fn plunge_of(n: u16) -> Plunge {
    Plunge {
        column: n % SIDE,
        row: n / SIDE % SIDE,
        reach: Reach(n / CELLS % 3),
        depth: (n / BALLS % 2 + 1) as u8,
    }
}

// ---- cells that a plunge covers

fn print_mark(mark: bool) {
    if mark {
        print_text(b"1");
    } else {
        print_text(b".");
    }
}

// A mark for each cell, row after row.
fn print_covered(kind: Kind, plunge: Plunge) {
    for i in 0..CELLS {
        if i % SIDE == 0 {
            print_text(b" ");
        }
        print_mark(plunge.covers(kind, i % SIDE, i / SIDE));
    }
    print_text(b"\n");
}

fn print_balls(kind: Kind) {
    for n in 0..BALLS {
        print_text(b"covers");
        print_covered(kind, plunge_of(n));
    }
}

// ---- plunges that lie inside another

// How many they are, and the sum of their numbers, counted from 1.
#[derive(Clone, Copy)]
struct Tally {
    count: u32,
    sum: u32,
}

fn tally_inside(kind: Kind, other: Plunge) -> Tally {
    let mut count = 0;
    let mut sum = 0;
    for n in 0..PLUNGES {
        if plunge_of(n).inside(kind, other) {
            count += 1;
            sum += (n as u32) + 1;
        }
    }
    Tally { count, sum }
}

fn print_inside(kind: Kind) {
    for n in 0..PLUNGES {
        let tally = tally_inside(kind, plunge_of(n));
        print_text(b"inside");
        print_next(tally.count as u64);
        print_next(tally.sum as u64);
        print_text(b"\n");
    }
}

fn print_kind(kind: Kind) {
    print_text(b"kind");
    print_next(kind.byte() as u64);
    print_text(b"\n");
    print_balls(kind);
    print_inside(kind);
}

fn main() {
    print_kind(Kind::Diamond);
    print_kind(Kind::Square);
}
