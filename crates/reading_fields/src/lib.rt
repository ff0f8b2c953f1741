// The opening of a field, and the end field: read, with their refusals.
#![tactic(auto)]

ghost use Rattle.std.specs.Prelude.{◌≡◌, [], ◌∷◌, ◌+◌, ◌≤◌, ltb, length};
ghost use Rattle.refusal.specs.Refusals.{trial, first_met};
ghost use Rattle.fields.specs.Fields.{opening, end_bytes};
ghost use Rattle.reading_fields.specs.Openings.{number_at, open_trials, end_trials};
ghost use Rattle.reading_fields.specs.Either.{head_opening, plunge_opening, end_opening, begins, opens_either, size_either};

use geometry::Size;
use refusal::Verdict;

// ---- the opening of a field

// How a field begins: its tag, and the length of its content.
#[derive(Clone, Copy)]
pub struct Opening {
    pub tag: u8,
    pub size: u16,
}

fn opening_of(tag: u8, size: u8) -> Opening
    ensures { result ≡ record { tag = tag; size = size } }
{
    Opening {
        tag,
        size: size as u16,
    }
}

// That of the head, of a plunge's field, and of the end.
pub fn head_opening(size: Size) -> Opening
    ensures { result ≡ head_opening size }
{
    opening_of(fields::head_tag(size), fields::head_size(size))
}

pub fn plunge_opening(size: Size) -> Opening
    ensures { result ≡ plunge_opening size }
{
    opening_of(fields::plunge_tag(size), fields::plunge_size(size))
}

pub fn end_opening() -> Opening
    ensures { result ≡ end_opening }
{
    opening_of(fields::END_TAG, fields::END_SIZE)
}

// Whether a field that begins so stands at a place.
pub fn opens(file: &[u8], at: usize, field: Opening) -> bool
    requires { at + opening ≤ length file.now }
    ensures { result ≡ begins field file.now at }
{
    file[at] == field.tag && numbers::of_bytes(file[at + 1], file[at + 2]) == field.size
}

// Refusal 6 where the bytes left at a place do not hold a content.
fn check_content(left: usize, size: u16, at: usize) -> Verdict
    requires { opening ≤ left }
    ensures { result ≡ first_met (trial (ltb left (opening + size)) 6 at ∷ []) }
{
    if left - fields::OPENING < (size as usize) {
        return refusal::refuse(6, at);
    }
    Ok(())
}

// Refusals 6, 7 and 6 in their order: three bytes, a field that begins in one of two ways, the whole content.
pub fn check_open(file: &[u8], at: usize, first: Opening, second: Opening) -> Verdict
    requires { at ≤ length file.now }
    ensures { result ≡ first_met (open_trials file.now at (opens_either first second file.now at)
        (size_either first second file.now at)) }
{
    let left = file.len() - at;
    if left < fields::OPENING {
        return refusal::refuse(6, at);
    }
    if opens(file, at, first) {
        return check_content(left, first.size, at);
    }
    if opens(file, at, second) {
        return check_content(left, second.size, at);
    }
    refusal::refuse(7, at)
}

// ---- the end field

// The number that the end field at a place holds.
fn number_at(file: &[u8], at: usize) -> usize
    requires { at + end_bytes ≤ length file.now }
    ensures { result ≡ number_at file.now at }
{
    let high = numbers::of_bytes(file[at + 3], file[at + 4]) as usize;
    let low = numbers::of_bytes(file[at + 5], file[at + 6]) as usize;
    65536 * high + low
}

// Refusals 10 and 11 in their order.
pub fn check_end(file: &[u8], at: usize, n: usize) -> Verdict
    requires { at + end_bytes ≤ length file.now }
    ensures { result ≡ first_met (end_trials file.now at n) }
{
    if number_at(file, at) == n {
        let next = at + fields::END_BYTES;
        if next < file.len() {
            return refusal::refuse(11, next);
        }
        return Ok(());
    }
    refusal::refuse(10, at)
}
