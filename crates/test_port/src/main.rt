// Drives the press port by what its input describes, and prints what comes back: inputs one by one, inputs at every
// status, long runs, and traces.
#![tactic(auto)]

ghost use Rattle.std.specs.Prelude.{◌≤◌};

use port::{Input, Port, PortAnswer};
use refusal::Verdict;
use scan::byte_in;
use test_io::{STDIN_FILENO, UNTOUCHED, print_next, print_text, two_words, word};
use test_records::between;

// The fixed bytes of a record. The inputs that are tried one by one, or a trace, stand behind them.
const FIXED: usize = 26;

// The bytes of such an input: whether it is an event, the byte written to or the event's number, and the value.
const INPUT: usize = 10;

// How many values a byte has.
const VALUES: usize = 256;

// What a record asks for; any other number asks for a run of full turns.
const STEPS: u8 = 1;

const WRITES: u8 = 2;

const EVENTS: u8 = 3;

const RANDOM: u8 = 4;

const TRACE: u8 = 5;

// The longest output of a trace, and how many of its bytes are printed to a line.
const ROOM: usize = 512;

const LINE: usize = 32;

// A test case: what it asks for, whether a fresh port is taken (0) or the bytes given, the first index or event or a
// seed or an output's length, how many indices, events, inputs or bytes of a trace there are, and how many inputs of a
// run lie between bytes that are printed.
#[derive(Clone, Copy)]
struct Record {
    call: u8,
    given: u8,
    port: Port,
    number: u64,
    count: u32,
    every: u32,
}

// ---- reading

// Four bytes as a number, the high byte first; bytes that are missing count as 0.
fn number_at(s: &[u8], at: usize) -> u32
    requires { at ≤ 1000 }
{
    two_words(
        word(byte_in(s, at), byte_in(s, at + 1)),
        word(byte_in(s, at + 2), byte_in(s, at + 3)),
    )
}

// Eight bytes as a number.
fn long_at(s: &[u8], at: usize) -> u64
    requires { at ≤ 900 }
{
    (number_at(s, at) as u64) * 4294967296 + (number_at(s, at + 4) as u64)
}

// The port that holds eight bytes.
fn port_at(s: &[u8], at: usize) -> Port
    requires { at ≤ 1000 }
{
    Port {
        bytes: [
            byte_in(s, at),
            byte_in(s, at + 1),
            byte_in(s, at + 2),
            byte_in(s, at + 3),
            byte_in(s, at + 4),
            byte_in(s, at + 5),
            byte_in(s, at + 6),
            byte_in(s, at + 7),
        ],
    }
}

fn parse(s: &[u8]) -> Record {
    Record {
        call: byte_in(s, 0),
        given: byte_in(s, 1),
        port: port_at(s, 2),
        number: long_at(s, 10),
        count: number_at(s, 18),
        every: number_at(s, 22),
    }
}

// The lower half of a number of eight bytes.
fn low_half(n: u64) -> u32 {
    (n % 4294967296) as u32
}

fn input_in(s: &[u8]) -> Input {
    let number = long_at(s, 1);
    if byte_in(s, 0) == 0 {
        Input::Write(number as usize, byte_in(s, 9))
    } else {
        Input::Event(low_half(number))
    }
}

// The port that a record begins with.
fn first_port(record: Record) -> Port {
    if record.given == 0 {
        port::fresh()
    } else {
        record.port
    }
}

// How many bytes a record has behind its fixed ones.
fn listed(record: Record) -> usize
    ensures { result ≤ 42949672950 }
{
    let call = record.call;
    match call {
        STEPS => INPUT * (record.count as usize),
        TRACE => record.count as usize,
        _ => 0,
    }
}

// ---- sums

// A sum with a number more; the order of the numbers counts.
fn mixed(sum: u32, n: u32) -> u32 {
    (((sum as u64) * 16777619 + (n as u64)) % 4294967291) as u32
}

// The first four bytes of a port as a number, and the last four.
fn first_half(port: Port) -> u32 {
    let bytes = port.bytes;
    two_words(word(bytes[0], bytes[1]), word(bytes[2], bytes[3]))
}

fn second_half(port: Port) -> u32 {
    let bytes = port.bytes;
    two_words(word(bytes[4], bytes[5]), word(bytes[6], bytes[7]))
}

// A refusal's number and its place in one number, 0 of what is accepted.
fn verdict_number(verdict: Verdict) -> u32 {
    match verdict {
        Ok(()) => 0,
        Err(refusal) => { two_words((refusal.place % 65536) as u16, refusal.number as u16) }
    }
}

// A sum with an answer more: what is said, and all eight bytes.
fn with_answer(sum: u32, answer: PortAnswer) -> u32 {
    let port = answer.port;
    let verdict = answer.verdict;
    mixed(
        mixed(mixed(sum, verdict_number(verdict)), first_half(port)),
        second_half(port),
    )
}

fn is_same(a: Port, b: Port) -> bool {
    a.bytes == b.bytes
}

fn is_accepted(verdict: Verdict) -> bool {
    verdict.is_ok()
}

fn one_more(n: u32) -> u32 {
    n.wrapping_add(1)
}

// ---- printing

fn print_port(port: Port) {
    let bytes = port.bytes;
    test_io::print_bytes(&bytes);
}

fn print_verdict(verdict: Verdict) {
    match verdict {
        Ok(()) => print_text(b"accepted\n"),
        Err(refusal) => test_io::print_refusal(refusal),
    }
}

// A word, and a number after it.
fn print_named(name: &[u8], n: u32) {
    print_text(name);
    print_next(n as u64);
}

// ---- inputs one by one

// Takes an input, prints the answer, and gives the port after it.
fn stepped(port: Port, input: Input) -> Port {
    let answer = port::step(port, input);
    let after = answer.port;
    let verdict = answer.verdict;
    print_verdict(verdict);
    print_port(after);
    after
}

// Takes the inputs that stand in some bytes; what is left of them is no input.
fn run_steps(first: Port, s: &[u8]) {
    let mut port = first;
    print_port(port);
    for input in s.chunks_exact(INPUT) {
        port = stepped(port, input_in(input));
    }
}

// ---- inputs at every status

// How many inputs were accepted, and refused with each number; how many refusals changed a byte; a sum of all answers.
#[derive(Clone, Copy)]
struct Tally {
    accepted: u32,
    refused_16: u32,
    refused_17: u32,
    changed: u32,
    sum: u32,
}

fn with_refusal(tally: Tally, number: u8, kept: bool) -> Tally {
    let mut out = tally;
    if number == 16 {
        out.refused_16 = one_more(tally.refused_16);
    }
    if number == 17 {
        out.refused_17 = one_more(tally.refused_17);
    }
    if !kept {
        out.changed = one_more(tally.changed);
    }
    out
}

fn tallied(tally: Tally, before: Port, answer: PortAnswer) -> Tally {
    let port = answer.port;
    let verdict = answer.verdict;
    let mut out = tally;
    out.sum = with_answer(tally.sum, answer);
    match verdict {
        Ok(()) => {
            out.accepted = one_more(tally.accepted);
            out
        }
        Err(refusal) => with_refusal(out, refusal.number, is_same(before, port)),
    }
}

fn print_tally(tally: Tally) {
    print_named(b"accepted", tally.accepted);
    print_named(b", 16", tally.refused_16);
    print_named(b", 17", tally.refused_17);
    print_named(b", changed", tally.changed);
    print_named(b", sum", tally.sum);
    print_text(b"\n");
}

fn status_of(port: Port) -> u32 {
    let bytes = port.bytes;
    bytes[0] as u32
}

// The port with another status.
fn with_status(port: Port, status: u8) -> Port {
    let mut bytes = port.bytes;
    bytes[0] = status;
    Port { bytes }
}

// Prints an accepted input and the statuses before and after it.
fn print_accepted(before: Port, name: &[u8], number: u64, answer: PortAnswer) {
    let after = answer.port;
    let verdict = answer.verdict;
    if is_accepted(verdict) {
        print_named(b"status", status_of(before));
        print_text(name);
        print_next(number);
        print_named(b":", status_of(after));
        print_text(b"\n");
    }
}

// Every value written to a byte.
fn write_values(tally: Tally, port: Port, index: usize) -> Tally {
    let mut out = tally;
    for value in 0..VALUES {
        let answer = port::write(port, index, numbers::low_byte(value));
        print_accepted(port, b", write", value as u64, answer);
        out = tallied(out, port, answer);
    }
    out
}

// Every status, and every value written to a byte.
fn write_statuses(tally: Tally, port: Port, index: usize) -> Tally {
    let mut out = tally;
    for status in 0..VALUES {
        out = write_values(out, with_status(port, numbers::low_byte(status)), index);
    }
    out
}

// Every status, and an event.
fn event_statuses(tally: Tally, port: Port, number: u32) -> Tally {
    let mut out = tally;
    for status in 0..VALUES {
        let before = with_status(port, numbers::low_byte(status));
        let answer = port::event(before, number);
        print_accepted(before, b", event", number as u64, answer);
        out = tallied(out, before, answer);
    }
    out
}

fn no_answers() -> Tally {
    Tally {
        accepted: 0,
        refused_16: 0,
        refused_17: 0,
        changed: 0,
        sum: 0,
    }
}

// Indices one after the other, each at every status with every value.
fn run_writes(port: Port, first: u64, count: u32) {
    for i in 0..count {
        let index = first.wrapping_add(i as u64);
        print_text(b"byte");
        print_next(index);
        print_text(b"\n");
        print_tally(write_statuses(no_answers(), port, index as usize));
    }
}

// Events one after the other, each at every status; one tally for all.
fn run_events(port: Port, first: u64, count: u32) {
    let mut tally = no_answers();
    print_text(b"events from");
    print_next(first);
    print_text(b"\n");
    for i in 0..count {
        let number = low_half(first.wrapping_add(i as u64));
        tally = event_statuses(tally, port, number);
    }
    print_tally(tally);
}

// ---- long runs

// A run so far: the port, the generator's state, how many events "done" were accepted, and the sum of all answers.
#[derive(Clone, Copy)]
struct Run {
    port: Port,
    state: u32,
    done: u32,
    sum: u32,
}

// The next state of a linear congruential generator.
fn next_state(state: u32) -> u32 {
    (((state as u64) * 1664525 + 1013904223) % 4294967296) as u32
}

// An index, small ones most often; others are what a cut to fewer bits would make right.
fn some_index(n: u32) -> usize {
    match n {
        12 => 257,
        13 => 4294967298,
        14 => 9223372036854775809,
        15 => 18446744073709551615,
        _ => n as usize,
    }
}

fn some_event(n: u32) -> u32 {
    match n {
        12 => 257,
        13 => 65537,
        14 => 2147483649,
        15 => 4294967295,
        _ => n,
    }
}

// Any write or any event, of 16 sorts.
fn odd_input(sort: u32, value: u8) -> Input {
    if value % 4 == 0 {
        return Input::Event(some_event(sort));
    }
    if value % 4 == 1 {
        return Input::Write(port::COMMAND, value / 4);
    }
    Input::Write(some_index(sort), value)
}

// The input of a state, by its four highest bits: mostly what turns a status.
fn some_input(state: u32) -> Input {
    match state / 268435456 {
        0 | 1 | 2 | 3 => Input::Write(port::COMMAND, port::START),
        4 | 5 | 6 | 7 => Input::Event(port::DONE_EVENT),
        8 => Input::Event(port::FAULT_EVENT),
        9 | 10 | 11 | 12 => Input::Write(port::COMMAND, port::ACKNOWLEDGE),
        13 => Input::Write(port::COMMAND, port::CLEAR),
        _ => odd_input(state / 65536 % 16, (state / 1048576 % 256) as u8),
    }
}

// Full turns: a plunge is started, done, and the interrupt seen.
fn turn_input(i: u32) -> Input {
    match i % 3 {
        0 => Input::Write(port::COMMAND, port::START),
        1 => Input::Event(port::DONE_EVENT),
        _ => Input::Write(port::COMMAND, port::ACKNOWLEDGE),
    }
}

fn is_done(input: Input) -> bool {
    match input {
        Input::Write(_, _) => false,
        Input::Event(number) => number == port::DONE_EVENT,
    }
}

fn advanced(run: Run, input: Input) -> Run {
    let before = run.port;
    let answer = port::step(before, input);
    let after = answer.port;
    let verdict = answer.verdict;
    let counts = test_io::both(is_done(input), is_accepted(verdict));
    Run {
        port: after,
        state: next_state(run.state),
        done: if counts { one_more(run.done) } else { run.done },
        sum: with_answer(run.sum, answer),
    }
}

fn print_run(run: Run) {
    let port = run.port;
    print_named(b"done", run.done);
    print_named(b", sum", run.sum);
    print_text(b": ");
    print_port(port);
}

// Whether the bytes are printed after so many inputs.
fn is_due(inputs: u32, every: u32) -> bool {
    every != 0 && inputs % every == 0
}

fn run_inputs(first: Run, random: bool, count: u32, every: u32) {
    let mut run = first;
    for i in 0..count {
        if is_due(i, every) {
            print_run(run);
        }
        let input = if random {
            some_input(run.state)
        } else {
            turn_input(i)
        };
        run = advanced(run, input);
    }
    print_run(run);
}

fn run_long(record: Record, port: Port) {
    let first = Run {
        port,
        state: low_half(record.number),
        done: 0,
        sum: 0,
    };
    run_inputs(first, record.call == RANDOM, record.count, record.every);
}

// ---- traces

// Every byte of an output, some to a line.
fn print_lines(out: &[u8]) {
    for line in out.chunks(LINE) {
        test_io::print_bytes(line);
    }
}

// Runs a port over a trace, and prints the answer, the port after it and the whole output.
fn run_into(port: Port, trace: &[u8], out: &mut [u8]) {
    let answer = port_run::run(port, trace, out);
    let after = answer.port;
    let verdict = answer.verdict;
    print_verdict(verdict);
    print_port(after);
    print_lines(out);
}

// The same with an output of so many untouched bytes.
fn run_trace(port: Port, trace: &[u8], length: u64) {
    let mut out = [UNTOUCHED; ROOM];
    let end = test_io::part(&out, length as usize);
    run_into(port, trace, &mut out[..end]);
}

// ---- records

fn run_call(record: Record, inputs: &[u8]) {
    let port = first_port(record);
    let call = record.call;
    match call {
        STEPS => run_steps(port, inputs),
        WRITES => run_writes(port, record.number, record.count),
        EVENTS => run_events(port, record.number, record.count),
        TRACE => run_trace(port, inputs, record.number),
        _ => run_long(record, port),
    }
}

// Runs the record at the start of some bytes and gives the bytes it takes; 0 if it is not whole.
fn run_first(s: &[u8]) -> usize {
    let record = parse(s);
    let end = FIXED + listed(record);
    if s.len() < end {
        return 0;
    }
    run_call(record, between(s, FIXED, end));
    end
}

// One record after the other; it ends at one that is not whole.
fn run_records(s: &[u8]) {
    let mut at = 0;
    while at < s.len() {
        let count = run_first(between(s, at, s.len()));
        at = test_records::next(s, at, count);
    }
}

fn main() {
    let mut input = io::large_buffer();
    let n = io::read_full(STDIN_FILENO, &mut input);
    run_records(&input[..n]);
}
