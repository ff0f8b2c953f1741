// The scale, and the motions of one plunge in millimetres, to the last bit.
#![tactic(auto)]

ghost use Rattle.std.specs.Prelude.{◌≡◌, cond};
ghost use Rattle.motion_floats.specs.Floats.{within, scale_in_range, change_width, travel_to, entry_motions};

use geometry::Plunge;

// Millimetres: half the pitch of the cells, and where column 0 and row 0 begin.
#[derive(Clone, Copy)]
pub struct Scale {
    pub half_pitch: f64,
    pub column_offset: f64,
    pub row_offset: f64,
}

// One motion with its millimetres: a new electrode's width, none, a place, a depth.
#[derive(Clone, Copy)]
pub enum Motion {
    Change(f64),
    Stay,
    Travel(f64, f64),
    Sink(f64),
}

// The three motions of a plunge, in their order.
#[derive(Clone, Copy)]
pub struct Motions {
    pub first: Motion,
    pub second: Motion,
    pub third: Motion,
}

// ---- the scale

// Whether a number lies between two, ends included; what is not a number does not.
pub fn is_within(low: f64, high: f64, x: f64) -> bool
    ensures { result ≡ within low high x }
{
    if low <= x { x <= high } else { false }
}

// Whether all three numbers are in their ranges.
pub fn in_range(scale: Scale) -> bool
    ensures { result ≡ scale_in_range scale }
{
    if is_within(0.0625, 4.0, scale.half_pitch) {
        if is_within(0.0, 1000.0, scale.column_offset) {
            is_within(0.0, 1000.0, scale.row_offset)
        } else {
            false
        }
    } else {
        false
    }
}

// ---- one plunge

fn change_width(scale: Scale, reach: u16) -> f64
    ensures { result ≡ change_width scale reach }
{
    let n = 2 * (2 * (reach as u32) + 1);
    (n as f64) * scale.half_pitch
}

// Two roundings: the product's, then the sum's.
fn travel_to(half: f64, offset: f64, cell: u16) -> f64
    ensures { result ≡ travel_to half offset cell }
{
    let n = 2 * (cell as u32) + 1;
    offset + (n as f64) * half
}

fn change_or_stay(scale: Scale, changed: bool, reach: u16) -> Motion
    ensures { result ≡ cond changed (Motion.Change (change_width scale reach)) Motion.Stay }
{
    if changed {
        Motion::Change(change_width(scale, reach))
    } else {
        Motion::Stay
    }
}

// The motions of a plunge, with or without a change before it, by the sink table's entry for its depth.
pub fn motions_of(entry: u16, scale: Scale, changed: bool, q: Plunge) -> Motions
    ensures { result ≡ entry_motions entry scale changed q }
{
    let half = scale.half_pitch;
    let first = change_or_stay(scale, changed, q.reach.0);
    let x = travel_to(half, scale.column_offset, q.column);
    let y = travel_to(half, scale.row_offset, q.row);
    let z = sink::sink_of(q.reach.0, entry);
    Motions {
        first,
        second: Motion::Travel(x, y),
        third: Motion::Sink(z),
    }
}
