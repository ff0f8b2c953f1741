// A run of the press port over a list of writes and events, given as bytes, in one call.
#![tactic(auto)]

ghost use Rattle.std.specs.Prelude.{◌≡◌, ◌+◌, ◌*◌, ◌≤◌, length};
ghost use Rattle.refusal.specs.Refusals.{first_met};
ghost use Rattle.port_run.specs.Traces.{trace_step, input_of, input_at, number_of, run_trials, TraceRun};
ghost use Rattle.port_run.specs.Inputs.{InputThere, InputRun, Roomy, InputsRun};

use port::{Input, Port, PortAnswer};
use refusal::Verdict;

// The bytes of an input in a trace: who, what, value.
pub const TRACE_STEP: usize = 3;

// Who 0 is the host, any other the press.
pub const HOST: u8 = 0;

// The number of an accepted input; a refused one has its refusal's.
pub const ACCEPTED: u8 = 0;

// The input that three bytes say.
fn input_of(who: u8, what: u8, value: u8) -> Input
    ensures { result ≡ input_of who what value }
{
    if who == HOST {
        return Input::Write(what as usize, value);
    }
    Input::Event(what as u32)
}

// Input number k of a trace.
fn input_at(trace: &[u8], k: usize) -> Input
    requires { trace_step * k + trace_step ≤ length trace.now }
    ensures { result ≡ input_at trace.now k }
{
    let at = TRACE_STEP * k;
    let who = trace[at];
    let what = trace[at + 1];
    let value = trace[at + 2];
    input_of(who, what, value)
}

// The byte for an answer.
fn number_of(verdict: Verdict) -> u8
    ensures { result ≡ number_of verdict }
{
    match verdict {
        Ok(()) => ACCEPTED,
        Err(r) => r.number,
    }
}

// Refusals 6 and 5 in their order, of the lengths of a trace and an output.
fn check_run(bytes: usize, room: usize) -> Verdict
    ensures { result ≡ first_met (run_trials bytes room) }
{
    let count = bytes / TRACE_STEP;
    if bytes % TRACE_STEP != 0 {
        return refusal::refuse(6, TRACE_STEP * count);
    }
    if room < count {
        return refusal::refuse(5, count);
    }
    Ok(())
}

// Runs input number k of a trace: the port after it, and the byte of its answer at place k. The other bytes stay.
fn run_input(port: Port, trace: &[u8], k: usize, numbers: &mut [u8]) -> Port
    requires { InputThere trace.now k numbers.old }
    ensures { InputRun port trace.now k numbers.old numbers.new result }
{
    let input = input_at(trace, k);
    let answer = port::step(port, input);
    let verdict = answer.verdict;
    let next = answer.port;
    numbers[k] = number_of(verdict);
    next
}

// Runs every whole input of a trace: the port after the last, and a byte for each answer. The bytes behind them stay.
fn run_inputs(port: Port, trace: &[u8], numbers: &mut [u8]) -> Port
    requires { Roomy trace.now numbers.old }
    ensures { InputsRun port trace.now numbers.old numbers.new result }
{
    let count = trace.len() / TRACE_STEP;
    let mut after = port;
    for k in 0..count {
        after = run_input(after, trace, k, numbers);
    }
    after
}

// Runs a port over a trace: the port after it, and a byte for each answer. Refusals 6 and 5; either leaves port and output.
pub fn run(port: Port, trace: &[u8], numbers: &mut [u8]) -> PortAnswer
    ensures { TraceRun port trace.now numbers.old numbers.new result }
{
    let verdict = check_run(trace.len(), numbers.len());
    match verdict {
        Err(r) => PortAnswer {
            port,
            verdict: Err(r),
        },
        Ok(()) => {
            let after = run_inputs(port, trace, numbers);
            PortAnswer {
                port: after,
                verdict: Ok(()),
            }
        }
    }
}
