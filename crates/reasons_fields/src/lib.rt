// What is wrong with a field of a job file, or with its end, and where: a sentence for each fault, put into pages.
#![tactic(auto)]

ghost use Rattle.std.specs.Prelude.{◌≡◌, ◌≤◌, length};
ghost use Rattle.io.specs.Counts.{IsPrefixLen};
ghost use Rattle.reading_fields.specs.Openings.{length_at, number_at};
ghost use Rattle.phrases.specs.Phrases.{Appends};
ghost use Rattle.reasons_fields.specs.Fields.{plunge_number, ends_reason, field_reason, plunge_reason, count_reason, surplus_reason, untidy_reason};

use geometry::Size;

// The number of the plunge whose field holds a byte, in a file of a small plate.
fn plunge_number(place: usize) -> u64
    ensures { result ≡ plunge_number place }
{
    let start = fields::head_bytes(Size::Small);
    if place < start {
        return 0;
    }
    ((place - start) / fields::plunge_bytes(Size::Small)) as u64
}

// Refusal 6: where the file ends.
pub fn append_ends(page: &mut [u8], at: usize, file: &[u8], place: usize) -> usize
    requires { at ≤ length page.old }
    ensures { Appends page.old at (ends_reason file.now place) page.new result × IsPrefixLen result page.new }
{
    if place == file.len() {
        return phrases::append_phrase(
            page,
            at,
            b"the file ends at byte ",
            place as u64,
            b" without an end field",
        );
    }
    phrases::append_phrase(
        page,
        at,
        b"the file ends inside the field at byte ",
        place as u64,
        b"",
    )
}

// The length that a field at a place tells, high byte first.
fn length_at(file: &[u8], place: usize) -> u64
    ensures { result ≡ length_at file.now place }
{
    256 * reasons_parts::byte_behind(file, place, 1) + reasons_parts::byte_behind(file, place, 2)
}

// Refusal 7: the tag and the length of the field at a place.
pub fn append_field(page: &mut [u8], at: usize, file: &[u8], place: usize) -> usize
    requires { at ≤ length page.old }
    ensures { Appends page.old at (field_reason file.now place) page.new result × IsPrefixLen result page.new }
{
    let a = phrases::append_phrase(page, at, b"the field at byte ", place as u64, b" has tag ");
    let b = phrases::append_phrase(
        page,
        a,
        b"",
        reasons_parts::byte_behind(file, place, 0),
        b" and length ",
    );
    phrases::append_phrase(
        page,
        b,
        b"",
        length_at(file, place),
        b", which is not allowed there",
    )
}

// Refusals 8 and 9: which plunge, and its fault.
pub fn append_plunge(page: &mut [u8], at: usize, place: usize, fault: &[u8]) -> usize
    requires { at ≤ length page.old }
    ensures { Appends page.old at (plunge_reason place fault.now) page.new result × IsPrefixLen result page.new }
{
    let next = phrases::append_phrase(
        page,
        at,
        b"plunge number ",
        plunge_number(place),
        b" at byte ",
    );
    phrases::append_phrase(page, next, b"", place as u64, fault)
}

// The number that an end field at a place tells, high byte first.
fn number_at(file: &[u8], place: usize) -> u64
    ensures { result ≡ number_at file.now place }
{
    let high = 256 * reasons_parts::byte_behind(file, place, 3)
        + reasons_parts::byte_behind(file, place, 4);
    let low = 256 * reasons_parts::byte_behind(file, place, 5)
        + reasons_parts::byte_behind(file, place, 6);
    65536 * high + low
}

// Refusal 10: the number that the end field tells, and how many plunges there are.
pub fn append_count(page: &mut [u8], at: usize, file: &[u8], place: usize) -> usize
    requires { at ≤ length page.old }
    ensures { Appends page.old at (count_reason file.now place) page.new result × IsPrefixLen result page.new }
{
    let a = phrases::append_phrase(page, at, b"the end field at byte ", place as u64, b" says ");
    let b = phrases::append_phrase(
        page,
        a,
        b"",
        number_at(file, place),
        b" plunges, the file has ",
    );
    phrases::append_phrase(page, b, b"", plunge_number(place), b"")
}

// Refusal 11: where the surplus begins.
pub fn append_surplus(page: &mut [u8], at: usize, place: usize) -> usize
    requires { at ≤ length page.old }
    ensures { Appends page.old at (surplus_reason place) page.new result × IsPrefixLen result page.new }
{
    phrases::append_phrase(
        page,
        at,
        b"the file goes on behind its end field, from byte ",
        place as u64,
        b" on",
    )
}

// Refusal 12: the first byte unlike the tidied file.
pub fn append_untidy(page: &mut [u8], at: usize, place: usize) -> usize
    requires { at ≤ length page.old }
    ensures { Appends page.old at (untidy_reason place) page.new result × IsPrefixLen result page.new }
{
    phrases::append_phrase(
        page,
        at,
        b"not tidy: the tidied file is unlike this one from byte ",
        place as u64,
        b" on",
    )
}
