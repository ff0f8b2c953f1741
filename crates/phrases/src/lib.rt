// Texts in a page, one behind the other: bytes, whole numbers, names. What has no room is cut at the page's end.
#![tactic(auto)]

ghost use Rattle.std.specs.Prelude.{◌≡◌, ◌+◌, ◌≤◌, length};
ghost use Rattle.io.specs.Counts.{IsPrefixLen};
ghost use Rattle.numerals.specs.Numerals.{numeral, Puts};
ghost use Rattle.phrases.specs.Phrases.{Appends, phrase, is_plain, shown_byte, shown_name};

// Bytes at a place; gives the place behind them.
pub fn put_bytes(page: &mut [u8], at: usize, bytes: &[u8]) -> usize
    requires { at + length bytes.now ≤ length page.old }
    ensures { Puts page.old at bytes.now page.new result }
{
    let end = at + bytes.len();
    page[at..end].copy_from_slice(bytes);
    end
}

// Bytes behind what the page holds, as far as there is room; gives the place behind them.
pub fn append(page: &mut [u8], at: usize, bytes: &[u8]) -> usize
    requires { at ≤ length page.old }
    ensures { Appends page.old at bytes.now page.new result × IsPrefixLen result page.new }
{
    let n = bytes.len().min(page.len() - at);
    put_bytes(page, at, &bytes[..n])
}

// A number in decimal.
pub fn append_number(page: &mut [u8], at: usize, n: u64) -> usize
    requires { at ≤ length page.old }
    ensures { Appends page.old at (numeral n) page.new result × IsPrefixLen result page.new }
{
    let mut digits = [0u8; 20];
    let used = numerals::put_numeral(n, &mut digits, 0);
    append(page, at, &digits[..used])
}

// A number between two texts.
pub fn append_phrase(page: &mut [u8], at: usize, before: &[u8], n: u64, after: &[u8]) -> usize
    requires { at ≤ length page.old }
    ensures { Appends page.old at (phrase before.now n after.now) page.new result × IsPrefixLen result page.new }
{
    let a = append(page, at, before);
    let b = append_number(page, a, n);
    append(page, b, after)
}

// Whether a terminal shows a byte as a character of its own.
fn is_plain(byte: u8) -> bool
    ensures { result ≡ is_plain byte }
{
    32 <= byte && byte != 127 && byte != 92
}

// An octal digit.
fn octal(digit: u8) -> u8
    requires { digit ≤ 7 }
    ensures { result ≡ 48 + digit }
{
    48 + digit
}

// A byte of a name: itself, or a backslash and three octal digits.
fn append_byte(page: &mut [u8], at: usize, byte: u8) -> usize
    requires { at ≤ length page.old }
    ensures { Appends page.old at (shown_byte byte) page.new result × IsPrefixLen result page.new }
{
    if is_plain(byte) {
        return append(page, at, &[byte]);
    }
    append(
        page,
        at,
        &[92, octal(byte / 64), octal(byte / 8 % 8), octal(byte % 8)],
    )
}

// A name as it is shown.
pub fn append_name(page: &mut [u8], at: usize, name: &[u8]) -> usize
    requires { at ≤ length page.old }
    ensures { Appends page.old at (shown_name name.now) page.new result × IsPrefixLen result page.new }
{
    let mut end = at;
    for byte in name {
        end = append_byte(page, end, *byte);
    }
    end
}
