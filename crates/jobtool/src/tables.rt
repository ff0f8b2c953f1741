// The sink table in force: the built-in one, or the one that a word names.
ghost use Rattle.std.specs.Prelude.{◌≤◌, IfErr};

use tool_words::Command;

// Says why a table is refused; `from` names it. Gives the status.
fn say_refused(from: &[u8], field: &[u8], refusal: refusal::Refusal) -> u32
    ensures { result ≤ 2 }
{
    let scale = tool_words::scales::none();
    crate::refusals::say_refusal(from, Command::Table, scale, field, refusal)
}

// The table that a word names, read into a lent buffer; where there is none, what is wrong was said, and the status is given.
fn load_named(
    rt: &HostRuntime,
    word: Option<usize>,
    input: &mut [u8],
) -> Result<[u16; sink::ENTRIES], u32>
    ensures { IfErr result (λ status. status ≤ 2) }
{
    let mut from = io::large_buffer();
    let n = tool_io::names::label(rt, &mut from, word, b"standard input");
    let Some(bytes) = tool_io::input::read_input(rt, word, &from[..n], input) else {
        return Err(2);
    };
    let mut table = sink::built_in();
    match table_field::load(&input[..bytes], &mut table) {
        Ok(()) => Ok(table),
        Err(refusal) => Err(say_refused(&from[..n], &input[..bytes], refusal)),
    }
}

// The table that a word names; without a word the built-in one.
pub fn given_table(
    rt: &HostRuntime,
    word: Option<usize>,
    input: &mut [u8],
) -> Result<[u16; sink::ENTRIES], u32>
    ensures { IfErr result (λ status. status ≤ 2) }
{
    if word.is_none() {
        return Ok(sink::built_in());
    }
    load_named(rt, word, input)
}
