// The scale, from the first three plain words in decimal.
use crate::Command;
use decimal::DecimalFault;
use motion_floats::Scale;
use tool_io::words;

// The scale of a command that needs none.
pub fn none() -> Scale {
    Scale {
        half_pitch: 0.0,
        column_offset: 0.0,
        row_offset: 0.0,
    }
}

// A text that is no number is not a number to the library too, which refuses it in its turn; none of one that is too long.
fn number_of(text: &[u8]) -> Option<f64> {
    match decimal::number_of(text) {
        Ok(value) => Some(value),
        Err(DecimalFault::NotNumber) => Some(0.0 / 0.0),
        Err(DecimalFault::TooLong) => None,
    }
}

fn given_number(rt: &HostRuntime, which: usize) -> Option<f64> {
    let mut text = io::buffer();
    let n = words::fetch(rt, crate::plain_word(rt, which)?, &mut text).ok()?;
    number_of(&text[..n])
}

// Whether the last of a scale's three words is a number. If it is none, and no input is named, an offset was forgotten.
fn is_number(rt: &HostRuntime) -> bool {
    let Some(number) = crate::plain_word(rt, 2) else {
        return true;
    };
    let mut text = io::buffer();
    match words::fetch(rt, number, &mut text) {
        Ok(n) => !matches!(decimal::number_of(&text[..n]), Err(DecimalFault::NotNumber)),
        Err(_) => true,
    }
}

// Whether a command that no input is named for has its whole scale.
pub fn is_complete(rt: &HostRuntime, command: Command) -> bool {
    !crate::is_motions(command) || is_number(rt)
}

// Half pitch and offsets; a number with too many digits is refused in words.
pub fn given_scale(rt: &HostRuntime) -> Option<Scale> {
    let scale = three_numbers(rt);
    if scale.is_none() {
        tool_io::messages::say(b"jobtool", b"a number of the scale has more than 15 digits");
    }
    scale
}

fn three_numbers(rt: &HostRuntime) -> Option<Scale> {
    Some(Scale {
        half_pitch: given_number(rt, 0)?,
        column_offset: given_number(rt, 1)?,
        row_offset: given_number(rt, 2)?,
    })
}

// The scale that a command is given; a command that takes none has one of zeros.
pub fn scale_of(rt: &HostRuntime, command: Command) -> Option<Scale> {
    if crate::is_motions(command) {
        given_scale(rt)
    } else {
        Some(none())
    }
}
