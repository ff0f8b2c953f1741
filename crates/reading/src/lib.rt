// Reading a plunge file: its first fault in reading order, or its head and the number of its plunges.
#![tactic(auto)]

ghost use Rattle.std.specs.Prelude.{◌≡◌, suc, ◌+◌, ◌≤◌, ◌<◌, length, Ok};
ghost use Rattle.refusal.specs.Refusals.{largest_side, first_met};
ghost use Rattle.geometry.specs.declared.Size.TheVariants.{Small, Large};
ghost use Rattle.geometry.specs.Sizes.{size_of};
ghost use Rattle.fields.specs.Fields.{plunge_bytes, place};
ghost use Rattle.reading.specs.Reading.{head_in, plate_trials, head_trials, plunge_trials, fields_from, read_answer, read, nth_plunge, total};
ghost use Rattle.reading.specs.Steps.{step_of, content_step, step_at, plunge_of, plunge_if, Contained, JobOf};

use geometry::{Head, Plunge, Reach, Size};
use refusal::{Refusal, Verdict};

// What a readable file says: its plate, and how many plunges follow.
#[derive(Clone, Copy)]
pub struct Job {
    pub head: Head,
    pub plunges: usize,
}

// What a field after the head tells: a plunge that is right, the right end, or a fault.
#[derive(Clone, Copy)]
pub enum Step {
    Onward,
    Ended,
    Fault(Refusal),
}

// ---- the head

// Refusals 1 and 2 in their order.
fn check_plate(kind: u8, width: u16, height: u16) -> Verdict
    ensures { result ≡ first_met (plate_trials kind width height) }
{
    refusal::check_map(
        kind,
        width,
        height,
        false,
        (height as usize) * (width as usize),
    )
}

// The first refusal of the head's field.
fn check_head(file: &[u8]) -> Verdict
    ensures { result ≡ first_met (head_trials file.now) }
{
    let head = reading_fields::head_opening(Size::Small);
    reading_fields::check_open(file, 0, head, head)?;
    check_plate(file[3], u16::from(file[4]), u16::from(file[5]))
}

// The head of a file whose head's field refuses nothing.
pub fn head_in(file: &[u8]) -> Head
    requires { first_met (head_trials file.now) ≡ Ok tt }
    ensures { result ≡ head_in file.now }
{
    refusal::head_of(file[3], u16::from(file[4]), u16::from(file[5]))
}

// ---- a plunge's field

// A plunge of these numbers, if its reach is one.
fn plunge_of(column: u16, row: u16, reach: u16, depth: u8) -> Option<Plunge>
    ensures { result ≡ plunge_of column row reach depth }
{
    let reach = Reach::read(reach)?;
    Some(Plunge {
        column,
        row,
        reach,
        depth,
    })
}

// The plunge of a small plate's field at a place.
fn small_plunge(file: &[u8], at: usize) -> Option<Plunge>
    requires { at + plunge_bytes Small ≤ length file.now }
    ensures { result ≡ plunge_if Small file.now at }
{
    plunge_of(
        u16::from(file[at + 3]),
        u16::from(file[at + 4]),
        u16::from(file[at + 5]),
        file[at + 6],
    )
}

// That of a large plate's.
fn large_plunge(file: &[u8], at: usize) -> Option<Plunge>
    requires { at + plunge_bytes Large ≤ length file.now }
    ensures { result ≡ plunge_if Large file.now at }
{
    plunge_of(
        numbers::of_bytes(file[at + 3], file[at + 4]),
        numbers::of_bytes(file[at + 5], file[at + 6]),
        numbers::of_bytes(file[at + 7], file[at + 8]),
        file[at + 9],
    )
}

// The plunge of the field at a place.
pub fn plunge_at(size: Size, file: &[u8], at: usize) -> Option<Plunge>
    requires { at + plunge_bytes size ≤ length file.now }
    ensures { result ≡ plunge_if size file.now at }
{
    match size {
        Size::Small => small_plunge(file, at),
        Size::Large => large_plunge(file, at),
    }
}

// Plunge number i of a readable file.
pub fn nth_plunge(file: &[u8], job: Job, i: usize) -> Plunge
    requires { JobOf file.now job × (i < total file.now) }
    ensures { result ≡ nth_plunge file.now i }
{
    let head = job.head;
    plunge_at(head.size(), file, fields::place(head, i)).unwrap()
}

// Refusals 8 and 9 in their order; a reach above the largest leaves every plate.
fn check_plunge(file: &[u8], head: Head, at: usize) -> Verdict
    requires { (at + plunge_bytes (size_of head) ≤ length file.now) × (head.width ≤ largest_side) }
    ensures { result ≡ first_met (plunge_trials head file.now at) }
{
    match plunge_at(head.size(), file, at) {
        Some(q) if q.fits_plate(head) => {
            if q.depth == 0 {
                refusal::refuse(9, at)
            } else {
                Ok(())
            }
        }
        _ => refusal::refuse(8, at),
    }
}

// ---- the file

// What a field tells whose content has this verdict.
fn after(right: Step, verdict: Verdict) -> Step
    ensures { result ≡ step_of right verdict }
{
    match verdict {
        Ok(()) => right,
        Err(r) => Step::Fault(r),
    }
}

// What the content of the field at a place tells, with n plunges before it.
fn content_at(file: &[u8], head: Head, at: usize, n: usize) -> Step
    requires { Contained head file.now at × (head.width ≤ largest_side) }
    ensures { result ≡ content_step head file.now at n }
{
    if reading_fields::opens(file, at, reading_fields::end_opening()) {
        return after(Step::Ended, reading_fields::check_end(file, at, n));
    }
    after(Step::Onward, check_plunge(file, head, at))
}

// What the field with n plunges before it tells.
fn field_at(file: &[u8], head: Head, n: usize) -> Step
    requires { (place head n ≤ length file.now) × (head.width ≤ largest_side) }
    ensures { result ≡ step_at head file.now n }
{
    let at = fields::place(head, n);
    let plunge = reading_fields::plunge_opening(head.size());
    let end = reading_fields::end_opening();
    match reading_fields::check_open(file, at, plunge, end) {
        Ok(()) => content_at(file, head, at, n),
        Err(r) => Step::Fault(r),
    }
}

// What the fields after a right head come to.
fn read_fields(file: &[u8], head: Head) -> Result<Job, Refusal>
    requires { (place head 0 ≤ length file.now) × (head ≡ head_in file.now) × (head.width ≤ largest_side) }
    ensures { result ≡ read_answer (first_met (fields_from (suc (length file.now)) head file.now 0)) file.now }
{
    let mut n: usize = 0;
    loop {
        let step = field_at(file, head, n);
        match step {
            Step::Onward => {
                n += 1;
            }
            Step::Ended => {
                return Ok(Job { head, plunges: n });
            }
            Step::Fault(r) => {
                return Err(r);
            }
        }
    }
}

// The first fault of a file, or what it says.
pub fn read(file: &[u8]) -> Result<Job, Refusal>
    ensures { result ≡ read file.now }
{
    check_head(file)?;
    read_fields(file, head_in(file))
}
