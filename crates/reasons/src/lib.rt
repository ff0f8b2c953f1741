// What jobtool says behind the line of a refusal: what is wrong with a scan, a job file or a scale, and where; put into pages.
#![tactic(auto)]

ghost use Rattle.std.specs.Prelude.{◌≡◌, ◌-◌, ◌≤◌, length};
ghost use Rattle.io.specs.Counts.{IsPrefixLen};
ghost use Rattle.phrases.specs.Phrases.{Appends};
ghost use Rattle.reasons.specs.Reasons.{depths_reason, scan_fault, job_fault, of_scan, of_job, of_scale, opening_text};

use motion_floats::Scale;
use refusal::Refusal;

// ---- a scan

// How many depths a scan has.
fn depth_count(scan: &[u8]) -> u64
    ensures { result ≡ length scan.now - 3 }
{
    if scan.len() < 3 {
        return 0;
    }
    (scan.len() - 3) as u64
}

// Refusal 4: how many depths there are, and how many are needed.
fn append_depths(page: &mut [u8], at: usize, scan: &[u8]) -> usize
    requires { at ≤ length page.old }
    ensures { Appends page.old at (depths_reason scan.now) page.new result × IsPrefixLen result page.new }
{
    let next = phrases::append_phrase(page, at, b"the scan has ", depth_count(scan), b" depths, ");
    let cells = reasons_parts::byte_behind(scan, 0, 2) * reasons_parts::byte_behind(scan, 0, 1);
    phrases::append_phrase(page, next, b"", cells, b" are needed")
}

// The sentence of a scan's refusal.
fn append_scan_fault(page: &mut [u8], at: usize, scan: &[u8], refusal: Refusal) -> usize
    requires { at ≤ length page.old }
    ensures { Appends page.old at (scan_fault scan.now refusal.number refusal.place)
        page.new result × IsPrefixLen result page.new }
{
    let number = refusal.number;
    match number {
        1 => reasons_parts::append_kind(page, at, reasons_parts::byte_behind(scan, 0, 0)),
        2 => reasons_parts::append_sides(
            page,
            at,
            reasons_parts::byte_behind(scan, 0, 1),
            reasons_parts::byte_behind(scan, 0, 2),
        ),
        4 => append_depths(page, at, scan),
        _ => reasons_parts::append_long(page, at, refusal.place),
    }
}

// ---- a job file

// The sentence of a job file's refusal.
fn append_job_fault(page: &mut [u8], at: usize, file: &[u8], refusal: Refusal) -> usize
    requires { at ≤ length page.old }
    ensures { Appends page.old at (job_fault file.now refusal.number refusal.place)
        page.new result × IsPrefixLen result page.new }
{
    let number = refusal.number;
    let place = refusal.place;
    match number {
        1 => reasons_parts::append_kind(page, at, reasons_parts::byte_behind(file, 0, 3)),
        2 => reasons_parts::append_sides(
            page,
            at,
            reasons_parts::byte_behind(file, 0, 4),
            reasons_parts::byte_behind(file, 0, 5),
        ),
        6 => reasons_fields::append_ends(page, at, file, place),
        7 => reasons_fields::append_field(page, at, file, place),
        8 => reasons_fields::append_plunge(page, at, place, b": its ball leaves the plate"),
        9 => reasons_fields::append_plunge(page, at, place, b": its depth is 0"),
        10 => reasons_fields::append_count(page, at, file, place),
        11 => reasons_fields::append_surplus(page, at, place),
        12 => reasons_fields::append_untidy(page, at, place),
        _ => reasons_parts::append_long(page, at, place),
    }
}

// ---- another sort of file than the command takes

// Why a scan is refused.
pub fn append_of_scan(page: &mut [u8], at: usize, scan: &[u8], refusal: Refusal) -> usize
    requires { at ≤ length page.old }
    ensures { Appends page.old at (of_scan scan.now refusal) page.new result × IsPrefixLen result page.new }
{
    if scan.len() == 0 {
        return phrases::append(page, at, b"it is empty");
    }
    if reasons_parts::begins_as_job(scan) {
        return phrases::append(
            page,
            at,
            b"this looks like a job file: jobtool draw makes a scan of one",
        );
    }
    if reasons_parts::begins_as_picture(scan) {
        return phrases::append(
            page,
            at,
            b"this looks like a picture: jobtool scan makes a scan of one",
        );
    }
    append_scan_fault(page, at, scan, refusal)
}

// Why a job file is refused.
pub fn append_of_job(page: &mut [u8], at: usize, file: &[u8], refusal: Refusal) -> usize
    requires { at ≤ length page.old }
    ensures { Appends page.old at (of_job file.now refusal) page.new result × IsPrefixLen result page.new }
{
    if file.len() == 0 {
        return phrases::append(page, at, b"it is empty");
    }
    if reasons_parts::begins_as_scan(file) {
        return phrases::append(
            page,
            at,
            b"this looks like a scan: jobtool list makes a job file of one",
        );
    }
    if reasons_parts::begins_as_picture(file) {
        return phrases::append(
            page,
            at,
            b"this looks like a picture: jobtool scan makes a scan of one",
        );
    }
    append_job_fault(page, at, file, refusal)
}

// Which number of a scale is out of its range.
pub fn append_of_scale(page: &mut [u8], at: usize, scale: Scale) -> usize
    requires { at ≤ length page.old }
    ensures { Appends page.old at (of_scale scale) page.new result × IsPrefixLen result page.new }
{
    if motion_floats::is_within(0.0625, 4.0, scale.half_pitch) {
        if motion_floats::is_within(0.0, 1000.0, scale.column_offset) {
            return phrases::append(page, at, b"the row offset is not a number from 0 to 1000");
        }
        return phrases::append(
            page,
            at,
            b"the column offset is not a number from 0 to 1000",
        );
    }
    phrases::append(page, at, b"the half pitch is not a number from 0.0625 to 4")
}

// ---- a refusal's first line

// Document 01's line, and behind it what the sentence is about.
pub fn put_opening(page: &mut [u8], refusal: Refusal, about: &[u8]) -> usize
    requires { 64 ≤ length page.old }
    ensures { Appends page.old 0 (opening_text refusal about.now) page.new result × IsPrefixLen result page.new }
{
    let line = text_lines::put_refusal(page, refusal);
    let named = phrases::append(page, line, about);
    phrases::append(page, named, b": ")
}
