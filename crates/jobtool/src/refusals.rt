// Refusals on standard error: document 01's line, then a sentence.
ghost use Rattle.std.specs.Prelude.{◌≤◌, length};
ghost use Rattle.io.specs.Counts.{IsPrefixLen};

use crate::STDERR;
use motion_floats::Scale;
use pgm::PictureFault;
use refusal::Refusal;
use tool_words::Command;

// Why no picture is made of a file: a job file, or else a scan.
fn append_picture(page: &mut [u8], at: usize, input: &[u8], refusal: Refusal) -> usize
    requires { at ≤ length page.old }
    ensures { IsPrefixLen result page.new }
{
    if reasons_parts::begins_as_job(input) {
        return reasons::append_of_job(page, at, input, refusal);
    }
    reasons::append_of_scan(page, at, input, refusal)
}

// Why a command refuses a file.
fn append_reason(
    page: &mut [u8],
    at: usize,
    command: Command,
    scale: Scale,
    input: &[u8],
    refusal: Refusal,
) -> usize
    requires { at ≤ length page.old }
    ensures { IsPrefixLen result page.new }
{
    if refusal.number == 13 {
        return reasons::append_of_scale(page, at, scale);
    }
    match command {
        Command::List => reasons::append_of_scan(page, at, input, refusal),
        Command::Draw => reasons::append_of_job(page, at, input, refusal),
        Command::Tidy => reasons::append_of_job(page, at, input, refusal),
        Command::Check => reasons::append_of_job(page, at, input, refusal),
        Command::Show => reasons::append_of_job(page, at, input, refusal),
        Command::Info => reasons::append_of_job(page, at, input, refusal),
        Command::Same => reasons::append_of_job(page, at, input, refusal),
        Command::Motions => reasons::append_of_job(page, at, input, refusal),
        Command::Table => table_text::append_of_table(page, at, input, refusal),
        Command::Scan => reasons::append_of_scan(page, at, input, refusal),
        Command::Picture => append_picture(page, at, input, refusal),
        Command::Help => phrases::append(page, at, b""),
        Command::Version => phrases::append(page, at, b""),
        Command::Unknown => phrases::append(page, at, b""),
    }
}

// Says a refusal and why; `from` names the input. Gives the status 1.
pub fn say_refusal(
    from: &[u8],
    command: Command,
    scale: Scale,
    input: &[u8],
    refusal: Refusal,
) -> u32
    ensures { result ≤ 2 }
{
    let mut page = io::large_buffer();
    let used = reasons::put_opening(&mut page, refusal, from);
    let told = append_reason(&mut page, used, command, scale, input, refusal);
    let end = phrases::append(&mut page, told, b"\n");
    io::write_all(STDERR, &page[..end]);
    1
}

// Says what is wrong with a picture. Gives the status 1.
pub fn say_fault(from: &[u8], fault: PictureFault) -> u32
    ensures { result ≤ 2 }
{
    let mut page = io::large_buffer();
    let named = phrases::append(&mut page, 0, from);
    let used = phrases::append(&mut page, named, b": ");
    let told = pgm_sentences::append_fault(&mut page, used, fault);
    let end = phrases::append(&mut page, told, b"\n");
    io::write_all(STDERR, &page[..end]);
    1
}
