// Decimal text as the nearest float.
#![tactic(auto)]

ghost use Rattle.std.specs.Prelude.{◌≡◌, ◌^◌, ◌<◌, ◌≤◌, if◌then◌else◌};
ghost use Rattle.std.specs.Float.{binary64};
ghost use Rattle.std.specs.Float.Ieee.{round};
ghost use Rattle.decimal.specs.Decimal.{is_digit, decimal_of, unsigned_of};
ghost use Rattle.decimal.specs.Scan.{Bounded, begun, spoiled, pointed, with_digit, scanned_byte, scanned};

// Why a text gives no float: it is no number, or a number of more than 15 digits.
#[derive(Clone, Copy)]
pub enum DecimalFault {
    NotNumber,
    TooLong,
}

// What was read of a number without its sign: its digits as one number, ten to the power of its places after the point,
// how many digits there were (16 for any more), whether a point came, and whether all is right so far.
#[derive(Clone, Copy)]
pub struct Scan {
    pub digits: u64,
    pub unit: u64,
    pub count: usize,
    pub point: bool,
    pub good: bool,
}

fn is_digit(b: u8) -> bool
    ensures { result ≡ is_digit b }
{
    48 <= b && b <= 57
}

// Ten after the point, one before it.
fn factor(point: bool) -> u64
    ensures { result ≡ (if point then 10 else 1) }
{
    if point { 10 } else { 1 }
}

// One digit more. From the sixteenth on their number is all that is kept.
fn with_digit(s: Scan, digit: u64) -> Scan
    requires { Bounded s × (digit < 10) }
    ensures { result ≡ with_digit s digit }
{
    if s.count < 15 {
        Scan {
            digits: 10 * s.digits + digit,
            unit: s.unit * factor(s.point),
            count: s.count + 1,
            ..s
        }
    } else {
        Scan {
            digits: 0,
            unit: 1,
            count: 16,
            ..s
        }
    }
}

fn spoil(s: Scan) -> Scan
    ensures { result ≡ spoiled s }
{
    Scan { good: false, ..s }
}

// A point: the first is right, a second is not.
fn with_point(s: Scan) -> Scan
    ensures { result ≡ pointed s }
{
    if s.point {
        spoil(s)
    } else {
        Scan { point: true, ..s }
    }
}

// One byte more.
fn step(s: Scan, b: u8) -> Scan
    requires { Bounded s }
    ensures { result ≡ scanned_byte s b }
{
    if is_digit(b) {
        with_digit(s, (b as u64) - 48)
    } else if b == b'.' {
        with_point(s)
    } else {
        spoil(s)
    }
}

fn scan_all(text: &[u8]) -> Scan
    ensures { result ≡ scanned begun text.now }
{
    let mut s = Scan {
        digits: 0,
        unit: 1,
        count: 0,
        point: false,
        good: true,
    };
    for b in text {
        s = step(s, *b);
    }
    s
}

// Both numbers are floats exactly, so only the quotient rounds.
fn quotient(negative: bool, digits: u64, unit: u64) -> f64
    requires { (digits ≤ 10 ^ 15) × (0 < unit) × (unit ≤ 10 ^ 15) }
    ensures { result ≡ round binary64 negative digits unit }
{
    let size = std::num::nearest_u64_to_f64(digits) / std::num::nearest_u64_to_f64(unit);
    if negative { -size } else { size }
}

// A number without its sign.
fn unsigned(text: &[u8], negative: bool) -> Result<f64, DecimalFault>
    ensures { result ≡ unsigned_of negative text.now }
{
    let s = scan_all(text);
    if !s.good || s.count == 0 {
        return Err(DecimalFault::NotNumber);
    }
    if 15 < s.count {
        return Err(DecimalFault::TooLong);
    }
    Ok(quotient(negative, s.digits, s.unit))
}

// An optional '-', then digits with at most one point among them, at least one digit in all, and nothing else.
pub fn number_of(text: &[u8]) -> Result<f64, DecimalFault>
    ensures { result ≡ decimal_of text.now }
{
    match text {
        [b'-', rest @ ..] => unsigned(rest, true),
        _ => unsigned(text, false),
    }
}
