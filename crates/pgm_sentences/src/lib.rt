// A sentence for each fault of a picture, behind what a page holds.
#![tactic(auto)]

ghost use Rattle.std.specs.Prelude.{[], ◌++◌, ◌≤◌, length};
ghost use Rattle.io.specs.Counts.{IsPrefixLen};
ghost use Rattle.phrases.specs.Phrases.{Appends, ascii, phrase};
ghost use Rattle.pgm_sentences.specs.Texts.{quantity_name, place_text, found_text, range_text, out_text, short_text, sample_text, fault_text};

use pgm::{LARGEST_NUMBER, LARGEST_SAMPLE, LARGEST_SIDE, PictureFault, Quantity};

fn append_quantity(page: &mut [u8], at: usize, quantity: Quantity) -> usize
    requires { at ≤ length page.old }
    ensures { Appends page.old at (quantity_name quantity) page.new result × IsPrefixLen result page.new }
{
    match quantity {
        Quantity::Width => phrases::append(page, at, b"width"),
        Quantity::Height => phrases::append(page, at, b"height"),
        Quantity::Maxval => phrases::append(page, at, b"largest value"),
    }
}

fn append_place(page: &mut [u8], at: usize, quantity: Quantity, place: usize) -> usize
    requires { at ≤ length page.old }
    ensures { Appends page.old at (place_text quantity place) page.new result × IsPrefixLen result page.new }
{
    let a = append_quantity(page, at, quantity);
    let b = phrases::append(page, a, b" at byte ");
    phrases::append_number(page, b, place as u64)
}

fn append_found(page: &mut [u8], at: usize, n: u32) -> usize
    requires { at ≤ length page.old }
    ensures { Appends page.old at (found_text n) page.new result × IsPrefixLen result page.new }
{
    if n < LARGEST_NUMBER {
        return phrases::append_number(page, at, n as u64);
    }
    phrases::append_phrase(page, at, b"above ", (LARGEST_NUMBER - 1) as u64, b"")
}

fn append_limit(page: &mut [u8], at: usize, text: &[u8], most: u32) -> usize
    requires { at ≤ length page.old }
    ensures { Appends page.old at (phrase text.now most []) page.new result × IsPrefixLen result page.new }
{
    phrases::append_phrase(page, at, text, most as u64, b"")
}

fn append_range(page: &mut [u8], at: usize, quantity: Quantity) -> usize
    requires { at ≤ length page.old }
    ensures { Appends page.old at (range_text quantity) page.new result × IsPrefixLen result page.new }
{
    match quantity {
        Quantity::Width => append_limit(page, at, b": sides are 1 to ", LARGEST_SIDE),
        Quantity::Height => append_limit(page, at, b": sides are 1 to ", LARGEST_SIDE),
        Quantity::Maxval => append_limit(
            page,
            at,
            b": samples of 8 bits have 1 to ",
            LARGEST_SAMPLE,
        ),
    }
}

fn append_out_of_range(
    page: &mut [u8],
    at: usize,
    quantity: Quantity,
    place: usize,
    n: u32,
) -> usize
    requires { at ≤ length page.old }
    ensures { Appends page.old at (out_text quantity place n) page.new result × IsPrefixLen result page.new }
{
    let a = phrases::append(page, at, b"the ");
    let b = append_place(page, a, quantity, place);
    let c = phrases::append(page, b, b" is ");
    let d = append_found(page, c, n);
    append_range(page, d, quantity)
}

fn append_short(page: &mut [u8], at: usize, found: usize, needed: usize) -> usize
    requires { at ≤ length page.old }
    ensures { Appends page.old at (short_text found needed) page.new result × IsPrefixLen result page.new }
{
    let a = phrases::append_phrase(page, at, b"the picture has ", found as u64, b" samples, ");
    let b = phrases::append_number(page, a, needed as u64);
    phrases::append(page, b, b" are needed")
}

fn append_sample(page: &mut [u8], at: usize, place: usize, found: u8, most: u32) -> usize
    requires { at ≤ length page.old }
    ensures { Appends page.old at (sample_text place found most) page.new result × IsPrefixLen result page.new }
{
    let a = phrases::append_phrase(page, at, b"the sample at byte ", place as u64, b" is ");
    let b = phrases::append_phrase(page, a, b"", found as u64, b": the largest value is ");
    phrases::append_number(page, b, most as u64)
}

fn append_missing(page: &mut [u8], at: usize, quantity: Quantity, place: usize) -> usize
    requires { at ≤ length page.old }
    ensures { Appends page.old at (ascii "no PGM picture: no " ++ place_text quantity place) page.new result × IsPrefixLen result page.new }
{
    let a = phrases::append(page, at, b"no PGM picture: no ");
    append_place(page, a, quantity, place)
}

// What is wrong with a file, in a sentence behind what a page holds, as far as there is room; gives the place behind it.
pub fn append_fault(page: &mut [u8], at: usize, fault: PictureFault) -> usize
    requires { at ≤ length page.old }
    ensures { Appends page.old at (fault_text fault) page.new result × IsPrefixLen result page.new }
{
    match fault {
        PictureFault::NotPgm => phrases::append(
            page,
            at,
            b"no PGM picture: it does not begin with P5",
        ),
        PictureFault::NoSpace(place) => phrases::append_phrase(
            page,
            at,
            b"no PGM picture: no whitespace at byte ",
            place as u64,
            b"",
        ),
        PictureFault::NoNumber(quantity, place) => append_missing(page, at, quantity, place),
        PictureFault::OutOfRange(quantity, place, n) => append_out_of_range(
            page, at, quantity, place, n,
        ),
        PictureFault::Short(found, needed) => append_short(page, at, found, needed),
        PictureFault::BadSample(place, found, most) => append_sample(page, at, place, found, most),
    }
}
