// What a command makes of its input: bytes, a text, or a refusal.
#![tactic(auto)]

ghost use Rattle.std.specs.Prelude.{◌≡◌, ◌≤◌, length};
ghost use Rattle.reading.specs.Steps.{JobOf};
ghost use Rattle.tool_answers.specs.Faults.{fault_of};
ghost use Rattle.tool_answers.specs.declared.Fault.TheVariants.{Refused};

use listing::Extent;
use motion_floats::Scale;
use pgm::PictureFault;
use pgm_copies::CopyFault;
use reading::Job;
use refusal::Refusal;
use tool_words::Command;

// What a command made: an answer of so many bytes, or a list's file.
#[derive(Clone, Copy)]
pub enum Output {
    Done(usize),
    Listed(Extent),
}

// Why it made nothing: a refusal, or what is wrong with a picture.
#[derive(Clone, Copy)]
pub enum Fault {
    Refused(Refusal),
    Faulty(PictureFault),
}

impl From<Refusal> for Fault {
    ghost from_gives = { λ refusal r. r ≡ Refused refusal };

    fn from(refusal: Refusal) -> Fault {
        Fault::Refused(refusal)
    }
}

impl From<CopyFault> for Fault {
    ghost from_gives = { λ fault r. r ≡ fault_of fault };

    fn from(fault: CopyFault) -> Fault {
        match fault {
            CopyFault::NoRoom(needed) => Fault::Refused(Refusal {
                number: 5,
                place: needed,
            }),
            CopyFault::TooFew => Fault::Refused(TOO_SHORT),
            CopyFault::Unread(fault) => Fault::Faulty(fault),
        }
    }
}

// The cells of the largest plate.
const CELLS: usize = (refusal::LARGEST_SIDE as usize) * (refusal::LARGEST_SIDE as usize);

// What is said of a work buffer that cannot hold the largest plate.
const TOO_SHORT: Refusal = Refusal {
    number: 4,
    place: 0,
};

// The start of a scan.
fn put_start(out: &mut [u8], kind: u8, width: u8, height: u8)
    requires { 3 ≤ length out.old }
{
    out[0] = kind;
    out[1] = width;
    out[2] = height;
}

fn scan_length(width: u8, height: u8) -> usize {
    3 + (height as usize) * (width as usize)
}

// The relief of a file as a scan: kind, width, height, depths.
fn draw(file: &[u8], out: &mut [u8]) -> Result<Output, Fault> {
    if out.len() < 3 {
        return Ok(Output::Done(0));
    }
    jobs::draw(file, &mut out[3..])?;
    let width = scan::byte_in(file, 4);
    let height = scan::byte_in(file, 5);
    put_start(out, scan::byte_in(file, 3), width, height);
    Ok(Output::Done(scan_length(width, height)))
}

fn show(file: &[u8]) -> Result<Output, Fault> {
    reading::read(file)?;
    Ok(Output::Done(0))
}

// The refusals of plunge 0's motions, whatever the sink table, but that an empty list has none.
fn motions(file: &[u8], scale: Scale) -> Result<Output, Fault> {
    match motion::built_in_motions(file, 0, scale) {
        Err(refusal) if refusal.number != 14 => Err(Fault::Refused(refusal)),
        _ => Ok(Output::Done(0)),
    }
}

// A sink table as text.
fn show_table(field: &[u8], out: &mut [u8]) -> Result<Output, Fault> {
    let mut table = sink::built_in();
    table_field::load(field, &mut table)?;
    Ok(Output::Done(table_text::append_table(out, 0, &table)))
}

// The figures of a file that was read, as text.
fn summarize(
    file: &[u8],
    job: Job,
    out: &mut [u8],
    a: &mut [u8],
    b: &mut [u8],
    c: &mut [u8],
) -> Result<Output, Fault>
    requires { JobOf file.now job }
{
    if a.len() < CELLS || b.len() < CELLS || c.len() < CELLS {
        return Err(Fault::Refused(TOO_SHORT));
    }
    let n = job_summary::append_summary(out, 0, file, job, a, b, c);
    Ok(Output::Done(n))
}

fn info(
    file: &[u8],
    out: &mut [u8],
    a: &mut [u8],
    b: &mut [u8],
    c: &mut [u8],
) -> Result<Output, Fault> {
    let job = reading::read(file)?;
    summarize(file, job, out, a, b, c)
}

// ---- pictures

// A scan as a picture, after the scan's own refusals.
fn picture_of_scan(scan: &[u8], out: &mut [u8]) -> Result<Output, Fault> {
    let width = scan::byte_in(scan, 1) as u16;
    let height = scan::byte_in(scan, 2) as u16;
    let depths = scan::depths(scan);
    refusal::check_map(scan::byte_in(scan, 0), width, height, false, depths.len())?;
    Ok(Output::Done(pgm_copies::put_picture(width, height, depths, out)?))
}

// What a job file draws, as a picture.
fn picture_of_job(file: &[u8], out: &mut [u8], c: &mut [u8]) -> Result<Output, Fault> {
    jobs::draw(file, c)?;
    let width = scan::byte_in(file, 4) as u16;
    let height = scan::byte_in(file, 5) as u16;
    Ok(Output::Done(pgm_copies::put_picture(width, height, c, out)?))
}

fn picture(input: &[u8], out: &mut [u8], c: &mut [u8]) -> Result<Output, Fault> {
    if reasons_parts::begins_as_job(input) {
        return picture_of_job(input, out, c);
    }
    picture_of_scan(input, out)
}

// What a command makes of a file; some texts are made while they are printed.
pub fn outcome_of(
    command: Command,
    scale: Scale,
    kind: u8,
    input: &[u8],
    out: &mut [u8],
    a: &mut [u8],
    b: &mut [u8],
    c: &mut [u8],
) -> Result<Output, Fault> {
    match command {
        Command::List => Ok(Output::Listed(scan_listing::list_scan(input, out, a, b)?)),
        Command::Draw => draw(input, out),
        Command::Tidy => Ok(Output::Listed(jobs::tidy(input, out, a, b, c)?)),
        Command::Check => {
            job_check::check(input, a, b, c)?;
            Ok(Output::Done(0))
        }
        Command::Motions => motions(input, scale),
        Command::Table => show_table(input, out),
        Command::Show => show(input),
        Command::Info => info(input, out, a, b, c),
        Command::Same => Ok(Output::Done(0)),
        Command::Scan => Ok(Output::Done(pgm_copies::put_scan(input, kind, out)?)),
        Command::Picture => picture(input, out, c),
        Command::Help => Ok(Output::Done(0)),
        Command::Version => Ok(Output::Done(0)),
        Command::Unknown => Ok(Output::Done(0)),
    }
}
