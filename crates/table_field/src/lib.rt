// A shop's sink table as a field: loaded in place of the table in force, and written.
#![tactic(auto)]

ghost use Rattle.std.specs.Prelude.{◌≡◌, ◌≤◌, length, Ok};
ghost use Rattle.refusal.specs.Refusals.{first_met, Answered};
ghost use Rattle.fields.specs.Fields.{opening};
ghost use Rattle.fields.specs.Writing.{spliced};
ghost use Rattle.sink.specs.Sink.{table_entries};
ghost use Rattle.table_field.specs.Tables.{table_bytes, entry_place, entries_in, entry_bytes, table_field, field_trials, rule_trials, write_verdict, Loaded};

use reading_fields::Opening;
use refusal::Verdict;
use sink::ENTRIES;

// The field's tag, the length of its content, the bytes of the whole field.
pub const TABLE_TAG: u8 = 5;

pub const TABLE_SIZE: u16 = 512;

pub const TABLE_BYTES: usize = fields::OPENING + (TABLE_SIZE as usize);

// Where entry number i begins.
fn entry_place(i: usize) -> usize
    requires { i ≤ table_entries }
    ensures { result ≡ entry_place i }
{
    fields::OPENING + 2 * i
}

// ---- the rule

// Refusal 15 for the first entry that breaks the rule.
pub fn check_rule(table: &[u16; ENTRIES]) -> Verdict
    ensures { result ≡ first_met (rule_trials table.now) }
{
    for i in 0..ENTRIES {
        if sink::breaks_rule(table, i) {
            let place = entry_place(i);
            return refusal::refuse(15, place);
        }
    }
    Ok(())
}

// ---- loading

// Refusals 6, 7, 6 and 11 in their order: three bytes, tag and length, the whole content, nothing behind it.
fn check_field(field: &[u8]) -> Verdict
    ensures { result ≡ first_met (field_trials field.now) }
{
    let table = Opening {
        tag: TABLE_TAG,
        size: TABLE_SIZE,
    };
    reading_fields::check_open(field, 0, table, table)?;
    if TABLE_BYTES < field.len() {
        return refusal::refuse(11, TABLE_BYTES);
    }
    Ok(())
}

// The entries of a field that is whole.
fn read_entries(field: &[u8], entries: &mut [u16; ENTRIES])
    requires { (table_bytes ≤ length field.now) × (length entries.old ≡ table_entries) }
    ensures { entries.new ≡ entries_in field.now }
{
    for (i, entry) in entries.iter_mut().enumerate() {
        let at = entry_place(i);
        let high = field[at];
        let low = field[at + 1];
        *entry = numbers::of_bytes(high, low);
    }
}

// Loads the entries of a field that is whole, if none breaks the rule.
fn load_entries(field: &[u8], table: &mut [u16; ENTRIES]) -> Verdict
    requires { first_met (field_trials field.now) ≡ Ok tt }
    ensures { Loaded field.now table.old table.new result }
{
    let mut entries = [0u16; ENTRIES];
    read_entries(field, &mut entries);
    check_rule(&entries)?;
    *table = entries;
    Ok(())
}

// Loads a table from a field of any bytes. Refusals 6, 7, 11, 15; a refused load keeps the table in force.
pub fn load(field: &[u8], table: &mut [u16; ENTRIES]) -> Verdict
    ensures { Loaded field.now table.old table.new result }
{
    check_field(field)?;
    load_entries(field, table)
}

// ---- writing

// The bytes of all entries, behind the opening.
fn put_entries(table: &[u16; ENTRIES], out: &mut [u8])
    requires { table_bytes ≤ length out.old }
    ensures { out.new ≡ spliced out.old opening (entry_bytes table.now) }
{
    for (i, entry) in table.iter().enumerate() {
        let at = entry_place(i);
        out[at] = numbers::first_byte(*entry);
        out[at + 1] = numbers::second_byte(*entry);
    }
}

// The field of a table, into an output that has room for it.
fn put_field(table: &[u16; ENTRIES], out: &mut [u8])
    requires { table_bytes ≤ length out.old }
    ensures { out.new ≡ spliced out.old 0 (table_field table.now) }
{
    out[0] = TABLE_TAG;
    out[1] = numbers::first_byte(TABLE_SIZE);
    out[2] = numbers::second_byte(TABLE_SIZE);
    put_entries(table, out);
}

// Writes a table as a field. Refusal 15 where a load would refuse it, then 5; bytes past the field stay.
pub fn write(table: &[u16; ENTRIES], out: &mut [u8]) -> Verdict
    ensures { Answered (write_verdict table.now out.old) (table_field table.now)
        out.old out.new result }
{
    check_rule(table)?;
    if out.len() < TABLE_BYTES {
        return refusal::refuse(5, TABLE_BYTES);
    }
    put_field(table, out);
    Ok(())
}
