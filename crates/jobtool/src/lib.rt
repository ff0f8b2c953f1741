// The shop's tool over job files. The program lends it memory and the system, and hands its status on.
#![tactic(auto)]

mod help;
mod moves;
mod refusals;
mod tables;

ghost use Rattle.std.specs.Prelude.{◌≤◌};

use comparison::Comparison;
use listing::Extent;
use motion_floats::Scale;
use tool_answers::{Fault, Output};
use tool_words::Command;

// Standard output and standard error.
const STDOUT: i32 = 1;

const STDERR: i32 = 2;

// What is asked: a command, its scale, the sink table in force, the kind of a scan that is made, whether the rungs climbed are told, which plain
// word is the first input, and whether what is told is headed by its input's name.
#[derive(Clone, Copy)]
struct Request {
    command: Command,
    scale: Scale,
    table: [u16; sink::ENTRIES],
    kind: u8,
    rungs: bool,
    first: usize,
    headed: bool,
}

// The worse of two statuses.
fn worse(a: u32, b: u32) -> u32
    requires { (a ≤ 2) × (b ≤ 2) }
    ensures { result ≤ 2 }
{
    if a < b { b } else { a }
}

// ---- one input

fn print_bytes(fd: i32, out: &[u8], n: usize) -> bool {
    if out.len() < n {
        return false;
    }
    io::write_all(fd, &out[..n])
}

// The input's name, before what is told of it.
fn print_heading(rt: &HostRuntime, fd: i32, word: Option<usize>, after: &[u8]) -> bool {
    let mut page = io::large_buffer();
    let n = tool_io::names::heading(rt, &mut page, word, after);
    io::write_all(fd, &page[..n])
}

fn print_headed(rt: &HostRuntime, fd: i32, request: Request, word: Option<usize>) -> bool {
    if !request.headed {
        return true;
    }
    let command = request.command;
    match command {
        Command::Check => print_heading(rt, fd, word, b": "),
        Command::Show => print_heading(rt, fd, word, b":\n"),
        Command::Info => print_heading(rt, fd, word, b":\n"),
        Command::Motions => true,
        Command::Table => true,
        Command::List => true,
        Command::Draw => true,
        Command::Tidy => true,
        Command::Same => true,
        Command::Scan => true,
        Command::Picture => true,
        Command::Help => true,
        Command::Version => true,
        Command::Unknown => true,
    }
}

fn print_answer(fd: i32, request: Request, input: &[u8], out: &[u8], n: usize) -> bool {
    let command = request.command;
    let scale = request.scale;
    let table = request.table;
    match command {
        Command::Check => printing::print_tidy(fd),
        Command::Show => printing::print_file(fd, input),
        Command::Motions => moves::print_motions(fd, &table, input, scale),
        Command::Table => print_bytes(fd, out, n),
        Command::List => print_bytes(fd, out, n),
        Command::Draw => print_bytes(fd, out, n),
        Command::Tidy => print_bytes(fd, out, n),
        Command::Scan => print_bytes(fd, out, n),
        Command::Picture => print_bytes(fd, out, n),
        Command::Info => print_bytes(fd, out, n),
        Command::Same => true,
        Command::Help => true,
        Command::Version => true,
        Command::Unknown => true,
    }
}

// Writes an answer; says why where it cannot be written.
fn deliver(
    rt: &HostRuntime,
    fd: i32,
    about: &[u8],
    request: Request,
    word: Option<usize>,
    input: &[u8],
    out: &[u8],
    n: usize,
) -> u32
    ensures { result ≤ 2 }
{
    if !print_headed(rt, fd, request, word) {
        tool_io::messages::fail_last(rt, about);
        return 2;
    }
    if print_answer(fd, request, input, out, n) {
        return 0;
    }
    tool_io::messages::fail_last(rt, about);
    2
}

// The rungs climbed, on standard error: the answer's own bytes are a job file.
fn say_rungs(request: Request, extent: Extent) {
    if !request.rungs {
        return;
    }
    let mut page = io::buffer();
    let n = job_summary::append_rungs(&mut page, 0, extent.erosions as u64);
    io::write_all(STDERR, &page[..n]);
}

// Writes a list's file, and tells of it what is asked.
fn deliver_list(
    rt: &HostRuntime,
    fd: i32,
    about: &[u8],
    request: Request,
    word: Option<usize>,
    input: &[u8],
    out: &[u8],
    extent: Extent,
) -> u32
    ensures { result ≤ 2 }
{
    let status = deliver(rt, fd, about, request, word, input, out, extent.bytes);
    if status == 0 {
        say_rungs(request, extent);
    }
    status
}

// An input that was read: its answer goes to fd, or its refusal is said.
fn answer(
    rt: &HostRuntime,
    fd: i32,
    about: &[u8],
    request: Request,
    word: Option<usize>,
    from: &[u8],
    input: &[u8],
    out: &mut [u8],
    a: &mut [u8],
    b: &mut [u8],
    c: &mut [u8],
) -> u32
    ensures { result ≤ 2 }
{
    let command = request.command;
    let scale = request.scale;
    let outcome = tool_answers::outcome_of(command, scale, request.kind, input, out, a, b, c);
    match outcome {
        Ok(Output::Done(n)) => deliver(rt, fd, about, request, word, input, out, n),
        Ok(Output::Listed(extent)) => deliver_list(
            rt, fd, about, request, word, input, out, extent,
        ),
        Err(Fault::Refused(refusal)) => refusals::say_refusal(from, command, scale, input, refusal),
        Err(Fault::Faulty(fault)) => refusals::say_fault(from, fault),
    }
}

// Reads the input with a number and answers.
fn answer_input(
    rt: &HostRuntime,
    fd: i32,
    about: &[u8],
    request: Request,
    word: Option<usize>,
    input: &mut [u8],
    out: &mut [u8],
    a: &mut [u8],
    b: &mut [u8],
    c: &mut [u8],
) -> u32
    ensures { result ≤ 2 }
{
    let mut from = io::large_buffer();
    let n = tool_io::names::label(rt, &mut from, word, b"standard input");
    let Some(bytes) = tool_io::input::read_input(rt, word, &from[..n], input) else {
        return 2;
    };
    answer(
        rt,
        fd,
        about,
        request,
        word,
        &from[..n],
        &input[..bytes],
        out,
        a,
        b,
        c,
    )
}

// ---- all inputs

// Answers each input in its turn; the status is the worst of theirs.
fn answer_all(
    rt: &HostRuntime,
    fd: i32,
    about: &[u8],
    request: Request,
    input: &mut [u8],
    out: &mut [u8],
    a: &mut [u8],
    b: &mut [u8],
    c: &mut [u8],
) -> u32
    ensures { result ≤ 2 }
{
    let count = tool_io::words::count(rt);
    let first = tool_words::plain_word(rt, request.first);
    let mut status = answer_input(rt, fd, about, request, first, input, out, a, b, c);
    for which in request.first..count {
        let word = tool_words::plain_word(rt, which + 1);
        if word.is_none() {
            return status;
        }
        let next = answer_input(rt, fd, about, request, word, input, out, a, b, c);
        status = worse(status, next);
    }
    status
}

// ---- two inputs

// Writes what two files have in common; 0 where they cut the same relief, else 1.
fn deliver_comparison(
    rt: &HostRuntime,
    fd: i32,
    about: &[u8],
    first: &[u8],
    second: &[u8],
    compared: Comparison,
) -> u32
    ensures { result ≤ 2 }
{
    let mut page = [0u8; 256];
    let n = comparison_text::append_line(&mut page, 0, first, second, compared);
    if !io::write_all(fd, &page[..n]) {
        tool_io::messages::fail_last(rt, about);
        return 2;
    }
    status_of(compared)
}

fn status_of(compared: Comparison) -> u32
    ensures { result ≤ 2 }
{
    match compared {
        Comparison::Same => 0,
        Comparison::OtherKind => 1,
        Comparison::OtherSize => 1,
        Comparison::OtherCell(_) => 1,
        Comparison::FirstRefused(_) => 2,
        Comparison::SecondRefused(_) => 2,
    }
}

// A refused file cannot be compared: the status is 2, since 1 says that they differ.
fn compare_files(
    rt: &HostRuntime,
    fd: i32,
    about: &[u8],
    first: &[u8],
    second: &[u8],
    one: &[u8],
    other: &[u8],
    a: &mut [u8],
    b: &mut [u8],
) -> u32
    ensures { result ≤ 2 }
{
    let compared = comparison::compare(first, second, a, b);
    let scale = tool_words::scales::none();
    match compared {
        Comparison::FirstRefused(refusal) => {
            refusals::say_refusal(one, Command::Same, scale, first, refusal);
            2
        }
        Comparison::SecondRefused(refusal) => {
            refusals::say_refusal(other, Command::Same, scale, second, refusal);
            2
        }
        _ => deliver_comparison(rt, fd, about, first, second, compared),
    }
}

// Reads the second input and compares it with the first; `one` names that.
fn compare_second(
    rt: &HostRuntime,
    fd: i32,
    about: &[u8],
    first: &[u8],
    one: &[u8],
    out: &mut [u8],
    a: &mut [u8],
    b: &mut [u8],
) -> u32
    ensures { result ≤ 2 }
{
    let word = tool_words::plain_word(rt, 1);
    let mut other = io::large_buffer();
    let n = tool_io::names::label(rt, &mut other, word, b"standard input");
    let Some(bytes) = tool_io::input::read_input(rt, word, &other[..n], out) else {
        return 2;
    };
    compare_files(rt, fd, about, first, &out[..bytes], one, &other[..n], a, b)
}

// Reads two inputs and compares them.
fn compare_inputs(
    rt: &HostRuntime,
    fd: i32,
    about: &[u8],
    input: &mut [u8],
    out: &mut [u8],
    a: &mut [u8],
    b: &mut [u8],
) -> u32
    ensures { result ≤ 2 }
{
    let word = tool_words::plain_word(rt, 0);
    let mut one = io::large_buffer();
    let n = tool_io::names::label(rt, &mut one, word, b"standard input");
    let Some(bytes) = tool_io::input::read_input(rt, word, &one[..n], input) else {
        return 2;
    };
    compare_second(rt, fd, about, &input[..bytes], &one[..n], out, a, b)
}

// ---- the output

// The whole answer to fd; `about` names the output in messages.
fn produce(
    rt: &HostRuntime,
    fd: i32,
    about: &[u8],
    request: Request,
    input: &mut [u8],
    out: &mut [u8],
    a: &mut [u8],
    b: &mut [u8],
    c: &mut [u8],
) -> u32
    ensures { result ≤ 2 }
{
    let command = request.command;
    if tool_words::is_same(command) {
        return compare_inputs(rt, fd, about, input, out, a, b);
    }
    answer_all(rt, fd, about, request, input, out, a, b, c)
}

// The status by which an output is kept or not: that two files differ is an answer too.
fn kept_by(command: Command, status: u32) -> u32
    requires { status ≤ 2 }
    ensures { result ≤ 2 }
{
    if status == 1 {
        if tool_words::is_same(command) {
            return 0;
        }
    }
    status
}

// Opens the output that a word names, answers, and ends the output.
fn run_to(
    rt: &HostRuntime,
    word: Option<usize>,
    request: Request,
    input: &mut [u8],
    out: &mut [u8],
    a: &mut [u8],
    b: &mut [u8],
    c: &mut [u8],
) -> u32
    ensures { result ≤ 2 }
{
    let mut about = io::large_buffer();
    let l = tool_io::names::label(rt, &mut about, word, b"standard output");
    let mut name = io::buffer();
    let mut part = io::buffer();
    let opened = tool_io::output::open(rt, word, &mut name, &mut part, &about[..l]);
    if opened.fd < 0 {
        return 2;
    }
    let status = produce(rt, opened.fd, &about[..l], request, input, out, a, b, c);
    let n = opened.name;
    let m = opened.part;
    let command = request.command;
    let ended = tool_io::output::close(
        rt,
        opened,
        kept_by(command, status),
        &name[..n],
        &part[..m],
        &about[..l],
    );
    worse(status, ended)
}

// ---- the tool

// Carries out a command: its words are looked at before anything is read.
fn run(
    rt: &HostRuntime,
    command: Command,
    input: &mut [u8],
    out: &mut [u8],
    a: &mut [u8],
    b: &mut [u8],
    c: &mut [u8],
) -> u32
    ensures { result ≤ 2 }
{
    let options = tool_words::given_options(rt);
    if !tool_words::fits(rt, command, options) {
        return help::usage();
    }
    let Some(scale) = tool_words::scales::scale_of(rt, command) else {
        return 2;
    };
    let Some(kind) = tool_words::given_kind(rt, options) else {
        return help::usage();
    };
    let table = match tables::given_table(rt, options.table, input) {
        Ok(table) => table,
        Err(status) => return status,
    };
    let first = tool_words::first_input(command);
    let headed = tool_words::plain_word(rt, 1).is_some();
    let request = Request {
        command,
        scale,
        table,
        kind,
        rungs: options.rungs.is_some(),
        first,
        headed,
    };
    run_to(rt, options.output, request, input, out, a, b, c)
}

// The program: buffers for an input and an answer, and three with a byte for each cell; their bytes are free. Gives the status: 0 done,
// 1 refused, 2 trouble or wrong use. What is wrong stands on standard error.
pub fn jobtool(
    rt: &HostRuntime,
    input: &mut [u8],
    out: &mut [u8],
    a: &mut [u8],
    b: &mut [u8],
    c: &mut [u8],
) -> u32
    ensures { result ≤ 2 }
{
    let command = tool_words::given_command(rt);
    match command {
        Command::Help => help::print_help(rt),
        Command::Version => help::print_version(rt),
        Command::Unknown => help::usage(),
        _ => run(rt, command, input, out, a, b, c),
    }
}
