// A float as the shortest decimal text, which read again is that float.
#![tactic(auto)]

ghost use Rattle.std.specs.Prelude.{◌≡◌, cond, ◌+◌, ◌*◌, ◌/◌, ◌%◌, ◌^◌, ◌≤◌, ◌<◌, eqb, leb};
ghost use Rattle.std.specs.Float.Ieee.Nearest.{closest};
ghost use Rattle.decimal_text.specs.Digits.{one, parts_of, most_digits, shortest_digits};
ghost use Rattle.decimal_text.specs.Text.{Put, text_of, hexadecimal, not_number, number_text};
ghost use Rattle.decimal_text.specs.Printing.{is_far, capped, bits_text};

// What follows the point: a number of so many digits.
#[derive(Clone, Copy)]
pub struct Digits {
    pub number: u64,
    pub count: usize,
}

// A float's size, whole + fraction / 2^64, and half the distance to the nearest other float, over 2^64.
#[derive(Clone, Copy)]
pub struct Parts {
    pub whole: u64,
    pub fraction: u64,
    pub half: u64,
}

// The digit of a fraction that comes next, and what is left over, over 2^64.
#[derive(Clone, Copy)]
struct Step {
    digit: u64,
    rest: u64,
}

// A limb has 32 bits.
const LIMB: u64 = 4294967296;

// One half, over 2^64.
const MIDDLE: u64 = 9223372036854775808;

// The number of floats from a power of two to the next, 2^52.
const STEPS: u64 = 4503599627370496;

fn power(n: u64) -> u64
    requires { n < 64 }
    ensures { result ≡ 2 ^ n }
{
    1 << n
}

// Below a power of two the floats stand twice as close.
fn half_gap(unit: u64, below: u64) -> u64
    requires { unit ≤ 2 ^ 29 }
    ensures { result ≡ cond (eqb below 0) unit (2 * unit) }
{
    if below == 0 { unit } else { 2 * unit }
}

// The float with this exponent field and these digits below the leading one, from 2^-10 to below 2^20.
fn parts_of(field: u64, below: u64) -> Parts
    requires { (1013 ≤ field) × (field ≤ 1042) × (below < 2 ^ 52) }
    ensures { result ≡ parts_of field below }
{
    let unit = power(field - 1013);
    let cut = power(1075 - field);
    let size = STEPS + below;
    Parts {
        whole: size / cut,
        fraction: size % cut * (4 * unit),
        half: half_gap(unit, below),
    }
}

// Whether no number of so many digits is within the margin.
fn is_far(rest: u64, margin: u64) -> bool
    requires { 0 < margin }
    ensures { result ≡ is_far rest margin }
{
    margin <= rest && margin <= u64::MAX - rest + 1
}

// Ten times the margin, or where that does not fit the largest number: nothing is as far.
fn wider(margin: u64) -> u64
    ensures { result ≡ capped (10 * margin) }
{
    if margin <= u64::MAX / 10 {
        10 * margin
    } else {
        u64::MAX
    }
}

// Ten times what is left over, limb by limb.
fn next_digit(rest: u64) -> Step
    ensures { (result.digit ≡ 10 * rest / one) × (result.rest ≡ 10 * rest % one) }
{
    let low = 10 * (rest % LIMB);
    let high = 10 * (rest / LIMB) + low / LIMB;
    Step {
        digit: high / LIMB,
        rest: high % LIMB * LIMB + low % LIMB,
    }
}

// The nearer of number and the next one; of two as near, the even one.
fn nearer(number: u64, rest: u64) -> u64
    requires { number < 10 ^ most_digits }
    ensures { result ≡ closest (number * one + rest) one }
{
    if rest < MIDDLE {
        return number;
    }
    if MIDDLE < rest {
        return number + 1;
    }
    number + number % 2
}

// The fewest digits that stand for a fraction over 2^64 to within half, and of those the nearest.
fn digits_of(fraction: u64, half: u64) -> Digits
    requires { 0 < half }
    ensures { result ≡ shortest_digits fraction half }
{
    let mut rest = fraction;
    let mut margin = half;
    let mut number = 0;
    let mut count: usize = 0;
    while is_far(rest, margin) {
        let step = next_digit(rest);
        number = 10 * number + step.digit;
        rest = step.rest;
        margin = wider(margin);
        count += 1;
    }
    Digits {
        number: nearer(number, rest),
        count,
    }
}

// How long the text after a whole number is.
fn tail_length(count: usize) -> usize
    requires { count < 100 }
    ensures { result ≡ cond (eqb count 0) 0 (1 + count) }
{
    if count == 0 { 0 } else { 1 + count }
}

// Whether so many bytes fit at a place.
fn has_room(length: usize, at: usize, bytes: usize) -> bool
    ensures { result ≡ leb (at + bytes) length }
{
    at <= length && bytes <= length - at
}

// Whole number, and after a point the fraction's digits, if there are any.
fn put_parts(whole: u64, d: Digits, out: &mut [u8], at: usize) -> usize
    requires { d.count ≤ most_digits }
    ensures { Put (text_of whole d) out.old out.new at result }
{
    let size = numerals::digit_count(whole);
    let count = d.count;
    let total = size + tail_length(count);
    if !has_room(out.len(), at, total) {
        return at;
    }
    numerals::put_digits(whole, 10, size, out, at);
    if count == 0 {
        return at + size;
    }
    out[at + size] = b'.';
    numerals::put_digits(d.number, 10, count, out, at + size + 1);
    at + total
}

// 0x and 16 hexadecimal digits.
fn put_hexadecimal(bits: u64, out: &mut [u8], at: usize) -> usize
    ensures { Put (hexadecimal bits) out.old out.new at result }
{
    if !has_room(out.len(), at, 18) {
        return at;
    }
    out[at] = b'0';
    out[at + 1] = b'x';
    numerals::put_digits(bits, 16, 16, out, at + 2);
    at + 18
}

fn put_nan(out: &mut [u8], at: usize) -> usize
    ensures { Put not_number out.old out.new at result }
{
    if !has_room(out.len(), at, 3) {
        return at;
    }
    out[at] = b'n';
    out[at + 1] = b'a';
    out[at + 2] = b'n';
    at + 3
}

fn put_bits(bits: u64, out: &mut [u8], at: usize) -> usize
    ensures { Put (bits_text bits) out.old out.new at result }
{
    let field = bits / STEPS;
    if field < 1013 {
        return put_hexadecimal(bits, out, at);
    }
    if 1042 < field {
        return put_hexadecimal(bits, out, at);
    }
    let parts = parts_of(field, bits % STEPS);
    let d = digits_of(parts.fraction, parts.half);
    put_parts(parts.whole, d, out, at)
}

// From 2^-10 to below 2^20: the shortest decimal within half the distance to the nearest other float, which reads back as x.
// Other floats, which the press never asks for: their bits in hexadecimal, or nan. What does not fit is not written.
// Gives the place after the text.
pub fn put_number(x: f64, out: &mut [u8], at: usize) -> usize
    ensures { Put (number_text x) out.old out.new at result }
{
    if x != x {
        return put_nan(out, at);
    }
    put_bits(f64::to_bits(x), out, at)
}
