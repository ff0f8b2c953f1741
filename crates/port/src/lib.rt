// The press port: eight bytes that the press maker reads, changed by the host's writes and the press's events.
#![tactic(auto)]

ghost use Rattle.std.specs.Prelude.{◌≡◌, ◌+◌, ◌<◌, min, Err, Ok};
ghost use Rattle.port.specs.Machine.{port_bytes, command_byte, largest_count, fresh, status, count, with_byte, with_count};
ghost use Rattle.port.specs.Machine.{commands, events, turned, written, happened, step};
ghost use Rattle.port.specs.Turning.{turning};

use refusal::Verdict;

// ---- the eight bytes

// Where each byte stands. The plunges done have two, high byte first.
pub const STATUS: usize = 0;

pub const COMMAND: usize = 1;

pub const COLUMN: usize = 2;

pub const ROW: usize = 3;

pub const REACH: usize = 4;

pub const DEPTH: usize = 5;

pub const DONE_HIGH: usize = 6;

pub const DONE_LOW: usize = 7;

// How many there are.
pub const BYTES: usize = 8;

// A port: any eight bytes are one.
#[repr(C)]
#[derive(Clone, Copy)]
pub struct Port {
    pub bytes: [u8; BYTES],
}

// A port as it is at start.
pub fn fresh() -> Port
    ensures { result ≡ fresh }
{
    Port {
        bytes: [READY, 0, 0, 0, 0, 0, 0, 0],
    }
}

// ---- statuses, commands and events

// The bits of a status.
pub const READY: u8 = 1;

pub const BUSY: u8 = 2;

pub const FAULT: u8 = 4;

pub const INTERRUPT: u8 = 128;

// The statuses after an event, which the host has not seen yet.
pub const DONE: u8 = INTERRUPT + READY;

pub const FAILED: u8 = INTERRUPT + FAULT;

// The commands: sink the plunge, the interrupt was seen, the fault was mended.
pub const START: u8 = 1;

pub const ACKNOWLEDGE: u8 = 2;

pub const CLEAR: u8 = 3;

// The events of the press.
pub const DONE_EVENT: u32 = 1;

pub const FAULT_EVENT: u32 = 2;

// The count of plunges done stops here.
pub const LARGEST_COUNT: u16 = 65535;

// What reaches a port: the host writes a value to a byte, or an event of the press comes.
#[derive(Clone, Copy)]
pub enum Input {
    Write(usize, u8),
    Event(u32),
}

// The port after an input, and what was said of it.
#[derive(Clone, Copy)]
pub struct PortAnswer {
    pub port: Port,
    pub verdict: Verdict,
}

// The status that a command turns a status into; one that it does not turn stays.
fn after_command(status: u8, command: u8) -> u8
    ensures { result ≡ turned commands status command }
{
    match (command, status) {
        (START, READY) => BUSY,
        (ACKNOWLEDGE, DONE) => READY,
        (ACKNOWLEDGE, FAILED) => FAULT,
        (CLEAR, FAULT) => READY,
        _ => status,
    }
}

// The same for an event.
fn after_event(status: u8, event: u32) -> u8
    ensures { result ≡ turned events status event }
{
    match (event, status) {
        (DONE_EVENT, BUSY) => DONE,
        (FAULT_EVENT, BUSY) => FAILED,
        _ => status,
    }
}

// ---- a step

// The port with another byte at an index.
fn with_byte(port: Port, index: usize, value: u8) -> Port
    requires { index < port_bytes }
    ensures { result ≡ with_byte index value port }
{
    let mut bytes = port.bytes;
    bytes[index] = value;
    Port { bytes }
}

fn status(port: Port) -> u8
    ensures { result ≡ status port }
{
    let bytes = port.bytes;
    bytes[STATUS]
}

fn count(port: Port) -> u16
    ensures { result ≡ count port }
{
    let bytes = port.bytes;
    numbers::of_bytes(bytes[DONE_HIGH], bytes[DONE_LOW])
}

// The port with one plunge more done, up to the largest count.
fn counted(port: Port) -> Port
    ensures { result ≡ with_count (min largest_count (count port + 1)) port }
{
    let after = count(port).saturating_add(1);
    let first = with_byte(port, DONE_HIGH, numbers::first_byte(after));
    with_byte(first, DONE_LOW, numbers::second_byte(after))
}

fn accepted(port: Port) -> PortAnswer
    ensures { result ≡ record { port = port; verdict = (Ok tt) } }
{
    PortAnswer {
        port,
        verdict: Ok(()),
    }
}

fn refused(port: Port, number: u8) -> PortAnswer
    ensures { result ≡ record { port = port; verdict = Err (record { number = number; place = 0 }) } }
{
    PortAnswer {
        port,
        verdict: refusal::refuse(number, 0),
    }
}

// A turn of a port's status, with the other bytes of the new port; a status that stays is refused.
fn turn(old: Port, after: u8, new: Port) -> PortAnswer
    ensures { result ≡ turning old after new }
{
    if after == status(old) {
        return refused(old, 17);
    }
    accepted(with_byte(new, STATUS, after))
}

// A write to byte 1: a command.
fn command(port: Port, value: u8) -> PortAnswer
    ensures { result ≡ written port command_byte value }
{
    let commanded = with_byte(port, COMMAND, value);
    turn(port, after_command(status(port), value), commanded)
}

// A write of the host. Refusals 16 and 17; either leaves all bytes.
pub fn write(port: Port, index: usize, value: u8) -> PortAnswer
    ensures { result ≡ written port index value }
{
    if index == STATUS || DONE_HIGH <= index {
        return refused(port, 16);
    }
    if index == COMMAND {
        return command(port, value);
    }
    if status(port) == READY {
        return accepted(with_byte(port, index, value));
    }
    refused(port, 17)
}

// An event of the press. Refusal 17; it leaves all bytes.
pub fn event(port: Port, number: u32) -> PortAnswer
    ensures { result ≡ happened port number }
{
    let after = after_event(status(port), number);
    if number == DONE_EVENT {
        return turn(port, after, counted(port));
    }
    turn(port, after, port)
}

// One step: a write or an event.
pub fn step(port: Port, input: Input) -> PortAnswer
    ensures { result ≡ step port input }
{
    match input {
        Input::Write(index, value) => write(port, index, value),
        Input::Event(number) => event(port, number),
    }
}
