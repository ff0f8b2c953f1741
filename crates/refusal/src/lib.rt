// Refusals, and the checks of arguments that every call makes, in document 01's order.
#![tactic(auto)]

ghost use Rattle.std.specs.Prelude.{◌≡◌, [], ◌∷◌};
ghost use Rattle.refusal.specs.Refusals.{is_side, bad_sides, is_erosion_number, head_of, first_met, side_trials, map_trials};

use geometry::{Head, Kind};

// A number of document 01's table, and a place.
#[derive(Clone, Copy)]
pub struct Refusal {
    pub number: u8,
    pub place: usize,
}

// What a call says of its arguments and buffers.
pub type Verdict = Result<(), Refusal>;

// A plate's side is 1 to this.
pub const LARGEST_SIDE: u16 = geometry::SMALL_SIDE;

// The number of an erosion (document 01's rung) or of a residue is 1 to this.
pub const LARGEST_EROSION: u16 = 120;

fn is_side(n: u16) -> bool
    ensures { result ≡ is_side n }
{
    1 <= n && n <= LARGEST_SIDE
}

// Whether a number is one of an erosion or a residue.
pub fn is_erosion_number(n: u16) -> bool
    ensures { result ≡ is_erosion_number n }
{
    1 <= n && n <= LARGEST_EROSION
}

// A refusal, as a verdict.
pub fn refuse(number: u8, place: usize) -> Verdict
    ensures { result ≡ Err (record { number = number; place = place }) }
{
    Err(Refusal { number, place })
}

fn bad_sides(width: u16, height: u16) -> bool
    ensures { result ≡ bad_sides width height }
{
    !is_side(width) || !is_side(height)
}

// Refusals 2, 3 and 4 in their order: the sides, what 3 is about, the shortest buffer.
pub fn check_sides(width: u16, height: u16, wrong: bool, shortest: usize) -> Verdict
    ensures { result ≡ first_met (side_trials width height wrong (shortest ∷ [])) }
{
    if bad_sides(width, height) {
        return refuse(2, 0);
    }
    if wrong {
        return refuse(3, 0);
    }
    if shortest < (height as usize) * (width as usize) {
        return refuse(4, 0);
    }
    Ok(())
}

// Refusals 1, 2, 3 and 4 in their order.
pub fn check_map(kind: u8, width: u16, height: u16, wrong: bool, shortest: usize) -> Verdict
    ensures { result ≡ first_met (map_trials kind width height wrong (shortest ∷ [])) }
{
    if Kind::of_byte(kind).is_none() {
        return refuse(1, 0);
    }
    check_sides(width, height, wrong, shortest)
}

// The plate of a kind's byte and two sides.
pub fn head_of(kind: u8, width: u16, height: u16) -> Head
    ensures { result ≡ head_of kind width height }
{
    Head {
        kind: Kind::of_byte(kind).unwrap_or(Kind::Square),
        width,
        height,
    }
}
