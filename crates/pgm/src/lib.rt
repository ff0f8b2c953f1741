// PGM pictures, a byte for each sample. Nothing is asked of a file: it is read, or its first fault is named.
#![tactic(auto)]

ghost use Rattle.std.specs.Prelude.{◌≡◌, true, ◌+◌, ◌-◌, ◌*◌, ◌≤◌, min, length};
ghost use Rattle.decimal.specs.Decimal.{is_digit};
ghost use Rattle.pgm.specs.Pgm.{is_white, ends_comment, in_gap, in_comment, largest_number, gap_end, number_at, number_after, opens, header_in, area, count_within, first_fault, in_range, number_trials, numbers_trials, header_trials, raster_trials, sample_trials, picture_of, picture_answer};
ghost use Rattle.pgm.specs.Steps.{first_of, Sized};

// A number of the header.
#[derive(Clone, Copy)]
pub enum Quantity {
    Width,
    Height,
    Maxval,
}

// What is wrong with a file, and at which byte.
#[derive(Clone, Copy)]
pub enum PictureFault {
    // It does not begin with P5.
    NotPgm,
    // No whitespace where some must be.
    NoSpace(usize),
    // No digit where a number must be.
    NoNumber(Quantity, usize),
    // A number out of its range.
    OutOfRange(Quantity, usize, u32),
    // How many samples there are, and how many are needed.
    Short(usize, usize),
    // A sample above the largest value, and that value.
    BadSample(usize, u8, u32),
}

// A picture in a file: its sides, and the place of its first sample.
#[derive(Clone, Copy)]
pub struct Picture {
    pub width: u16,
    pub height: u16,
    pub at: usize,
}

// A number in the header: its first digit's place, its value, the place behind its digits. With no digits both places are one.
#[derive(Clone, Copy)]
pub struct Number {
    pub at: usize,
    pub value: u32,
    pub end: usize,
}

#[derive(Clone, Copy)]
pub struct Header {
    pub width: Number,
    pub height: Number,
    pub maxval: Number,
}

pub const LARGEST_SIDE: u32 = refusal::LARGEST_SIDE as u32;

// Samples of 8 bits.
pub const LARGEST_SAMPLE: u32 = 255;

// Any larger number counts as this.
pub const LARGEST_NUMBER: u32 = 65536;

// ---- bytes

fn is_digit(b: u8) -> bool
    ensures { result ≡ is_digit b }
{
    if 48 <= b { b <= 57 } else { false }
}

// Blank, TAB, LF, VT, FF, CR.
fn is_white(b: u8) -> bool
    ensures { result ≡ is_white b }
{
    if b == 32 {
        return true;
    }
    if 9 <= b { b <= 13 } else { false }
}

fn ends_comment(b: u8) -> bool
    ensures { result ≡ ends_comment b }
{
    if b == 10 { true } else { b == 13 }
}

// Whether a byte is whitespace or of a comment.
fn in_gap(comment: bool, b: u8) -> bool
    ensures { result ≡ in_gap comment b }
{
    if comment {
        return true;
    }
    if is_white(b) { true } else { b == 35 }
}

// Whether a comment goes on behind a byte.
fn in_comment(comment: bool, b: u8) -> bool
    ensures { result ≡ in_comment comment b }
{
    if comment { !ends_comment(b) } else { b == 35 }
}

// ---- numbers

// The place behind whitespace and comments.
fn gap_end(file: &[u8], from: usize) -> usize
    ensures { result ≡ gap_end file.now from }
{
    let mut comment = false;
    for i in from..file.len() {
        let b = file[i];
        if !in_gap(comment, b) {
            return i;
        }
        comment = in_comment(comment, b);
    }
    from.max(file.len())
}

// One digit more.
fn with_digit(n: u32, b: u8) -> u32
    requires { (n ≤ largest_number) × (is_digit b ≡ true) }
    ensures { result ≡ min (10 * n + (b - 48)) largest_number }
{
    let more = 10 * n + ((b - 48) as u32);
    if more < LARGEST_NUMBER {
        more
    } else {
        LARGEST_NUMBER
    }
}

fn number_at(file: &[u8], at: usize) -> Number
    ensures { result ≡ number_at file.now at }
{
    let mut value: u32 = 0;
    for end in at..file.len() {
        let b = file[end];
        if !is_digit(b) {
            return Number { at, value, end };
        }
        value = with_digit(value, b);
    }
    let end = at.max(file.len());
    Number { at, value, end }
}

fn number_after(file: &[u8], from: usize) -> Number
    ensures { result ≡ number_after file.now from }
{
    number_at(file, gap_end(file, from))
}

fn header_of(file: &[u8]) -> Header
    ensures { result ≡ header_in file.now }
{
    let width = number_after(file, 2);
    let height = number_after(file, width.end);
    let maxval = number_after(file, height.end);
    Header {
        width,
        height,
        maxval,
    }
}

// ---- checks

fn in_range(most: u32, n: u32) -> bool
    ensures { result ≡ in_range most n }
{
    1 <= n && n <= most
}

fn check_number(n: Number, quantity: Quantity, most: u32) -> Result<(), PictureFault>
    ensures { result ≡ first_fault (number_trials quantity most n) }
{
    if n.end == n.at {
        return Err(PictureFault::NoNumber(quantity, n.at));
    }
    if in_range(most, n.value) {
        return Ok(());
    }
    Err(PictureFault::OutOfRange(quantity, n.at, n.value))
}

fn opens(file: &[u8]) -> bool
    ensures { result ≡ opens file.now }
{
    scan::byte_in(file, 0) == b'P' && scan::byte_in(file, 1) == b'5'
}

fn check_numbers(header: Header) -> Result<(), PictureFault>
    ensures { result ≡ first_fault (numbers_trials header) }
{
    check_number(header.width, Quantity::Width, LARGEST_SIDE)?;
    check_number(header.height, Quantity::Height, LARGEST_SIDE)?;
    check_number(header.maxval, Quantity::Maxval, LARGEST_SAMPLE)
}

fn check_header(file: &[u8], header: Header) -> Result<(), PictureFault>
    ensures { result ≡ first_fault (header_trials file.now header) }
{
    if !opens(file) {
        return Err(PictureFault::NotPgm);
    }
    if header.width.at == 2 {
        return Err(PictureFault::NoSpace(2));
    }
    check_numbers(header)
}

fn area(header: Header) -> usize
    ensures { result ≡ area header }
{
    (header.height.value as usize) * (header.width.value as usize)
}

// How many samples come before the first above the largest value.
fn count_within(samples: &[u8], most: u32) -> usize
    ensures { result ≡ count_within most samples.now }
{
    for (i, s) in samples.iter().enumerate() {
        if most < *s as u32 {
            return i;
        }
    }
    samples.len()
}

// The samples, from a place in the file on.
fn check_raster(file: &[u8], first: usize, needed: usize, most: u32) -> Result<(), PictureFault>
    requires { first ≤ length file.now }
    ensures { result ≡ first_fault (raster_trials file.now first needed most) }
{
    let left = file.len() - first;
    if left < needed {
        return Err(PictureFault::Short(left, needed));
    }
    let n = count_within(&file[first..first + needed], most);
    if n < needed {
        return Err(PictureFault::BadSample(first + n, file[first + n], most));
    }
    Ok(())
}

fn check_samples(file: &[u8], header: Header) -> Result<(), PictureFault>
    ensures { result ≡ first_fault (sample_trials file.now header) }
{
    let end = header.maxval.end;
    if file.len() <= end || !is_white(file[end]) {
        return Err(PictureFault::NoSpace(end));
    }
    check_raster(file, end + 1, area(header), header.maxval.value)
}

// ---- pictures

fn picture_of(header: Header) -> Picture
    requires { Sized header }
    ensures { result ≡ picture_of header }
{
    Picture {
        width: header.width.value as u16,
        height: header.height.value as u16,
        at: header.maxval.end + 1,
    }
}

// The picture of a file, or its first fault.
pub fn read_picture(file: &[u8]) -> Result<Picture, PictureFault>
    ensures { result ≡ picture_answer file.now }
{
    let header = header_of(file);
    check_header(file, header)?;
    check_samples(file, header)?;
    Ok(picture_of(header))
}
