// What the test programs of motions share: floats and motions printed to the last bit.
#![tactic(auto)]

use motion_floats::{Motion, Motions};
use refusal::Refusal;
use test_io::print_text;

fn print_float(x: f64) {
    if x == x {
        test_io::print_bits(f64::to_bits(x));
    } else {
        print_text(b" nan");
    }
}

fn print_motion(motion: Motion) {
    match motion {
        Motion::Change(width) => {
            print_text(b"change");
            print_float(width);
        }
        Motion::Stay => print_text(b"stay"),
        Motion::Travel(column, row) => {
            print_text(b"travel");
            print_float(column);
            print_float(row);
        }
        Motion::Sink(depth) => {
            print_text(b"sink");
            print_float(depth);
        }
    }
}

fn print_motions(motions: Motions) {
    let first = motions.first;
    let second = motions.second;
    let third = motions.third;
    print_motion(first);
    print_text(b" ");
    print_motion(second);
    print_text(b" ");
    print_motion(third);
    print_text(b"\n");
}

// The three motions of a plunge, or the refusal, in a line.
pub fn print_answer(answer: Result<Motions, Refusal>) {
    match answer {
        Ok(motions) => print_motions(motions),
        Err(refusal) => test_io::print_refusal(refusal),
    }
}
