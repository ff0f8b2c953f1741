// What a C call is given, as the calls inside take it: numbers of 32 bits, of which one that fits is kept and another becomes one that gets the
// same refusal; and the struct of a scale. include/haruseopda.h is its manual.
#![tactic(auto)]

ghost use Rattle.std.specs.Prelude.{◌≡◌};
ghost use Rattle.c_arguments.specs.Narrow.{narrow_byte, narrow_word, narrow_plate};
ghost use Rattle.c_arguments.specs.Scale.{scale_of};

use motion_floats::Scale;

// ---- numbers of 32 bits

// A kind or a level: 0 is neither.
pub fn narrow_byte(n: u32) -> u8
    ensures { result ≡ narrow_byte n }
{
    if n <= 255 { n as u8 } else { 0 }
}

// A side, a column, a row, the number of an erosion or a residue: 65535 is too large for each.
pub fn narrow_word(n: u32) -> u16
    ensures { result ≡ narrow_word n }
{
    if n <= 65535 { n as u16 } else { 65535 }
}

// What a call is told of its plate, refused or not.
#[derive(Clone, Copy)]
pub struct Plate {
    pub kind: u8,
    pub width: u16,
    pub height: u16,
}

pub fn narrow_plate(kind: u32, width: u32, height: u32) -> Plate
    ensures { result ≡ narrow_plate kind width height }
{
    Plate {
        kind: narrow_byte(kind),
        width: narrow_word(width),
        height: narrow_word(height),
    }
}

// ---- a scale

// Millimetres: half the pitch of the cells, and the offsets of columns and rows.
#[repr(C)]
#[derive(Clone, Copy)]
pub struct HaruScale {
    pub half_pitch: f64,
    pub column_offset: f64,
    pub row_offset: f64,
}

pub fn scale_of(scale: HaruScale) -> Scale
    ensures { result ≡ scale_of scale }
{
    Scale {
        half_pitch: scale.half_pitch,
        column_offset: scale.column_offset,
        row_offset: scale.row_offset,
    }
}
