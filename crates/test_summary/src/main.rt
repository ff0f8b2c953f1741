// Runs the text of a job's figures on the files that its input holds, and prints it; of an unreadable file the refusal.
#![tactic(auto)]

ghost use Rattle.std.specs.Prelude.{◌≤◌};
ghost use Rattle.reading.specs.Steps.{JobOf};

use reading::Job;
use scan::byte_in;
use test_io::{STDIN_FILENO, UNTOUCHED, is_kept, word};
use test_records::{between, cells_room, size_of};

// The bytes of a record before its file: the lengths of the file and of the page, and the place in the page where the text begins.
const FIXED: usize = 6;

// The longest page that is asked for.
const PAGE: usize = 8192;

fn print_summary(page: &mut [u8], place: usize, file: &[u8], job: Job)
    requires { JobOf file.now job }
{
    let mut a = cells_room();
    let mut b = cells_room();
    let mut c = cells_room();
    let at = test_io::part(page, place);
    let end = job_summary::append_summary(page, at, file, job, &mut a, &mut b, &mut c);
    let before = is_kept(between(page, 0, at), 0);
    test_io::print_text(between(page, at, end));
    test_io::print_kept(b"page", test_io::both(before, is_kept(page, end)));
}

fn run_file(page: &mut [u8], place: usize, file: &[u8]) {
    let answer = reading::read(file);
    match answer {
        Err(r) => {
            test_io::print_refusal(r);
        }
        Ok(job) => {
            print_summary(page, place, file, job);
        }
    }
}

// How many bytes a record's file has.
fn file_size(s: &[u8]) -> usize
    ensures { result ≤ 65535 }
{
    size_of(word(byte_in(s, 0), byte_in(s, 1)))
}

// Runs the record at the start of some bytes and gives the bytes it takes; 0 if it is not whole.
fn run_first(s: &[u8]) -> usize {
    let size = file_size(s);
    if s.len() < FIXED + size {
        return 0;
    }
    let mut room = [UNTOUCHED; PAGE];
    let length = test_io::part(&room, size_of(word(byte_in(s, 2), byte_in(s, 3))));
    let place = size_of(word(byte_in(s, 4), byte_in(s, 5)));
    run_file(&mut room[..length], place, between(s, FIXED, FIXED + size));
    FIXED + size
}

// One record after the other; it ends at one that is not whole.
fn run_records(s: &[u8]) {
    let mut at = 0;
    while at < s.len() {
        let count = run_first(between(s, at, s.len()));
        at = test_records::next(s, at, count);
    }
}

fn main() {
    let mut input = io::large_buffer();
    let n = io::read_full(STDIN_FILENO, &mut input);
    run_records(&input[..n]);
}
