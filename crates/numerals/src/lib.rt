// Whole numbers as text: digits in a base, and decimal numerals with no zeros in front.
#![tactic(auto)]

ghost use Rattle.std.specs.Prelude.{◌≡◌, ◌+◌, ◌≤◌, ◌<◌, length};
ghost use Rattle.fields.specs.Writing.{spliced};
ghost use Rattle.numerals.specs.Numerals.{digit_byte, digit_text, numeral, Puts};

fn digit_byte(digit: u64) -> u8
    requires { digit < 16 }
    ensures { result ≡ digit_byte digit }
{
    if digit < 10 {
        (48 + digit) as u8
    } else {
        (87 + digit) as u8
    }
}

// The last count digits of a number, zeros before it where it has fewer.
pub fn put_digits(n: u64, base: u64, count: usize, out: &mut [u8], at: usize)
    requires { (2 ≤ base) × (base ≤ 16) × (at + count ≤ length out.old) }
    ensures { out.new ≡ spliced out.old at (digit_text base count n) }
{
    let mut left = n;
    for i in (0..count).rev() {
        out[at + i] = digit_byte(left % base);
        left /= base;
    }
}

// How many decimal digits a number has: 1 for 0.
pub fn digit_count(n: u64) -> usize
    ensures { result ≡ length (numeral n) }
{
    let mut count: usize = 1;
    let mut rest = n;
    while 10 <= rest {
        rest = rest / 10;
        count += 1;
    }
    count
}

// A number in decimal, at a place; gives the place behind it.
pub fn put_numeral(n: u64, out: &mut [u8], at: usize) -> usize
    requires { at + length (numeral n) ≤ length out.old }
    ensures { Puts out.old at (numeral n) out.new result }
{
    let count = digit_count(n);
    put_digits(n, 10, count, out, at);
    at + count
}
