// What jobtool tells of a sink table: its entries, a line for each depth, or what is wrong with it; put into pages.
#![tactic(auto)]

ghost use Rattle.std.specs.Prelude.{◌≡◌, ◌+◌, ◌-◌, ◌/◌, ◌≤◌, length};
ghost use Rattle.io.specs.Counts.{IsPrefixLen};
ghost use Rattle.fields.specs.Fields.{opening};
ghost use Rattle.reading_fields.specs.Openings.{pair_at};
ghost use Rattle.phrases.specs.Phrases.{Appends};
ghost use Rattle.table_text.specs.Text.{table_line, table_text};
ghost use Rattle.table_text.specs.Reasons.{cut_reason, other_reason, rule_reason, table_fault, of_table};

use refusal::Refusal;
use sink::ENTRIES;

// ---- a table

// The line of a depth.
fn append_entry(page: &mut [u8], at: usize, depth: usize, entry: u16) -> usize
    requires { at ≤ length page.old }
    ensures { Appends page.old at (table_line depth entry) page.new result × IsPrefixLen result page.new }
{
    let single = sink::plunge_sink(0, entry);
    let a = phrases::append_phrase(page, at, b"depth ", depth as u64, b": ");
    let b = phrases::append_phrase(page, a, b"", entry as u64, b" micrometres, ");
    phrases::append_phrase(page, b, b"", single as u64, b" at reach 0\n")
}

// The lines of all depths.
pub fn append_table(page: &mut [u8], at: usize, table: &[u16; ENTRIES]) -> usize
    requires { at ≤ length page.old }
    ensures { Appends page.old at (table_text table.now) page.new result × IsPrefixLen result page.new }
{
    let mut end = at;
    for (depth, entry) in table.iter().enumerate() {
        end = append_entry(page, end, depth, *entry);
    }
    end
}

// ---- a refused table

// Refusal 6: how many bytes there are.
fn append_cut(page: &mut [u8], at: usize, file: &[u8]) -> usize
    requires { at ≤ length page.old }
    ensures { Appends page.old at (cut_reason file.now) page.new result × IsPrefixLen result page.new }
{
    let next = phrases::append_phrase(
        page,
        at,
        b"a sink table has ",
        table_field::TABLE_BYTES as u64,
        b" bytes, this file has ",
    );
    phrases::append_number(page, next, file.len() as u64)
}

// Two bytes behind a place as a number, high byte first.
fn pair_behind(file: &[u8], place: usize, i: usize) -> u64
    requires { i ≤ 1 }
    ensures { result ≡ pair_at file.now (place + i) (place + i + 1) }
{
    256 * reasons_parts::byte_behind(file, place, i)
        + reasons_parts::byte_behind(file, place, i + 1)
}

// Refusal 7: the tag and the length.
fn append_other(page: &mut [u8], at: usize, file: &[u8]) -> usize
    requires { at ≤ length page.old }
    ensures { Appends page.old at (other_reason file.now) page.new result × IsPrefixLen result page.new }
{
    let tag = reasons_parts::byte_behind(file, 0, 0);
    let size = pair_behind(file, 0, 1);
    let a = phrases::append_phrase(page, at, b"the field has tag ", tag, b" and length ");
    let b = phrases::append_phrase(page, a, b"", size, b", a sink table has ");
    let c = phrases::append_phrase(page, b, b"", table_field::TABLE_TAG as u64, b" and ");
    phrases::append_number(page, c, table_field::TABLE_SIZE as u64)
}

// The number of the entry that begins at a place.
fn entry_number(place: usize) -> u64
    ensures { result ≡ (place - opening) / 2 }
{
    if place < fields::OPENING {
        return 0;
    }
    ((place - fields::OPENING) / 2) as u64
}

// Refusal 15: the entry, and the rule.
fn append_rule(page: &mut [u8], at: usize, file: &[u8], place: usize) -> usize
    requires { at ≤ length page.old }
    ensures { Appends page.old at (rule_reason file.now place) page.new result × IsPrefixLen result page.new }
{
    let number = entry_number(place);
    let entry = pair_behind(file, place, 0);
    let a = phrases::append_phrase(page, at, b"entry ", number, b" at byte ");
    let b = phrases::append_phrase(page, a, b"", place as u64, b" is ");
    let c = phrases::append_phrase(
        page,
        b,
        b"",
        entry,
        b": entry 0 must be 0, each larger than the one before, none above ",
    );
    phrases::append_number(page, c, sink::LARGEST_ENTRY as u64)
}

// The sentence of a refusal.
fn append_fault(page: &mut [u8], at: usize, file: &[u8], refusal: Refusal) -> usize
    requires { at ≤ length page.old }
    ensures { Appends page.old at (table_fault file.now refusal.number refusal.place)
        page.new result × IsPrefixLen result page.new }
{
    let number = refusal.number;
    let place = refusal.place;
    match number {
        6 => append_cut(page, at, file),
        7 => append_other(page, at, file),
        11 => phrases::append_phrase(
            page,
            at,
            b"the file goes on behind the sink table, from byte ",
            place as u64,
            b" on",
        ),
        _ => append_rule(page, at, file, place),
    }
}

// Why a sink table is refused.
pub fn append_of_table(page: &mut [u8], at: usize, file: &[u8], refusal: Refusal) -> usize
    requires { at ≤ length page.old }
    ensures { Appends page.old at (of_table file.now refusal) page.new result × IsPrefixLen result page.new }
{
    if file.len() == 0 {
        return phrases::append(page, at, b"it is empty");
    }
    if reasons_parts::begins_as_job(file) {
        return phrases::append(page, at, b"this looks like a job file, not a sink table");
    }
    if reasons_parts::begins_as_picture(file) {
        return phrases::append(page, at, b"this looks like a picture, not a sink table");
    }
    if reasons_parts::begins_as_scan(file) {
        return phrases::append(page, at, b"this looks like a scan, not a sink table");
    }
    append_fault(page, at, file, refusal)
}
