// The structs of numbers that the C calls give back, and the answers of the calls inside told in them. include/haruseopda.h is their manual.
#![tactic(auto)]

ghost use Rattle.std.specs.Prelude.{◌≡◌};
ghost use Rattle.c_answers.specs.Told.{of_verdict, of_cell, of_volume};
ghost use Rattle.c_answers.specs.Jobs.{of_read, of_list, of_motion, of_three, of_motions};
ghost use Rattle.c_answers.specs.Ports.{of_port};

use geometry::Clearance;
use listing::Extent;
use motion_floats::{Motion, Motions};
use port::{Port, PortAnswer};
use reading::Job;
use refusal::{Refusal, Verdict};

// ---- maps

// A refusal's number with its place, or 0 and a value.
#[repr(C)]
#[derive(Clone, Copy)]
pub struct HaruAnswer {
    pub number: u32,
    pub value: u32,
    pub place: usize,
}

pub fn of_verdict(verdict: Verdict) -> HaruAnswer
    ensures { result ≡ of_verdict verdict }
{
    match verdict {
        Ok(()) => HaruAnswer {
            number: 0,
            value: 0,
            place: 0,
        },
        Err(r) => HaruAnswer {
            number: r.number as u32,
            value: 0,
            place: r.place,
        },
    }
}

pub fn of_cell(answer: Result<Clearance, Refusal>) -> HaruAnswer
    ensures { result ≡ of_cell answer }
{
    match answer {
        Ok(clearance) => HaruAnswer {
            number: 0,
            value: clearance.0 as u32,
            place: 0,
        },
        Err(r) => HaruAnswer {
            number: r.number as u32,
            value: 0,
            place: r.place,
        },
    }
}

pub fn of_volume(answer: Result<u32, Refusal>) -> HaruAnswer
    ensures { result ≡ of_volume answer }
{
    match answer {
        Ok(volume) => HaruAnswer {
            number: 0,
            value: volume,
            place: 0,
        },
        Err(r) => HaruAnswer {
            number: r.number as u32,
            value: 0,
            place: r.place,
        },
    }
}

// ---- job files

// What a readable file says, or a refusal's number and place.
#[repr(C)]
#[derive(Clone, Copy)]
pub struct HaruJob {
    pub number: u32,
    pub kind: u32,
    pub width: u32,
    pub height: u32,
    pub place: usize,
    pub plunges: usize,
}

// How long an answer's file is, how many plunges it has and how many rungs were climbed, or a refusal's number and place.
#[repr(C)]
#[derive(Clone, Copy)]
pub struct HaruListAnswer {
    pub number: u32,
    pub place: usize,
    pub bytes: usize,
    pub plunges: usize,
    pub rungs: usize,
}

pub fn of_read(answer: Result<Job, Refusal>) -> HaruJob
    ensures { result ≡ of_read answer }
{
    match answer {
        Ok(job) => {
            let head = job.head;
            let kind = head.kind;
            HaruJob {
                number: 0,
                kind: kind.byte() as u32,
                width: head.width as u32,
                height: head.height as u32,
                place: 0,
                plunges: job.plunges,
            }
        }
        Err(r) => HaruJob {
            number: r.number as u32,
            kind: 0,
            width: 0,
            height: 0,
            place: r.place,
            plunges: 0,
        },
    }
}

pub fn of_list(answer: Result<Extent, Refusal>) -> HaruListAnswer
    ensures { result ≡ of_list answer }
{
    match answer {
        Ok(extent) => HaruListAnswer {
            number: 0,
            place: 0,
            bytes: extent.bytes,
            plunges: extent.plunges,
            rungs: extent.erosions,
        },
        Err(r) => HaruListAnswer {
            number: r.number as u32,
            place: r.place,
            bytes: 0,
            plunges: 0,
            rungs: 0,
        },
    }
}

// ---- press motions

// The three motions of a plunge, or a refusal's number and place; width is 0 for a stay.
#[repr(C)]
#[derive(Clone, Copy)]
pub struct HaruMotions {
    pub number: u32,
    pub changed: u32,
    pub place: usize,
    pub width: f64,
    pub x: f64,
    pub y: f64,
    pub sink: f64,
}

// Millimetres that no refusal goes with.
fn moved(changed: u32, width: f64, x: f64, y: f64, sink: f64) -> HaruMotions
    ensures { result ≡ record { number = 0; changed = changed; place = 0; width = width; x = x; y = y; sink = sink } }
{
    HaruMotions {
        number: 0,
        changed,
        place: 0,
        width,
        x,
        y,
        sink,
    }
}

// The millimetres of a motion in their places; a stay and the places that it does not fill have 0.
pub fn of_motion(motion: Motion) -> HaruMotions
    ensures { result ≡ of_motion motion }
{
    match motion {
        Motion::Change(width) => moved(1, width, 0.0, 0.0, 0.0),
        Motion::Stay => moved(0, 0.0, 0.0, 0.0, 0.0),
        Motion::Travel(x, y) => moved(0, 0.0, x, y, 0.0),
        Motion::Sink(sink) => moved(0, 0.0, 0.0, 0.0, sink),
    }
}

// The three motions together.
pub fn of_three(motions: Motions) -> HaruMotions
    ensures { result ≡ of_three motions }
{
    let first = motions.first;
    let second = motions.second;
    let third = motions.third;
    let change = of_motion(first);
    let travel = of_motion(second);
    let sink = of_motion(third);
    moved(change.changed, change.width, travel.x, travel.y, sink.sink)
}

pub fn of_motions(answer: Result<Motions, Refusal>) -> HaruMotions
    ensures { result ≡ of_motions answer }
{
    match answer {
        Ok(motions) => of_three(motions),
        Err(r) => HaruMotions {
            number: r.number as u32,
            changed: 0,
            place: r.place,
            width: 0.0,
            x: 0.0,
            y: 0.0,
            sink: 0.0,
        },
    }
}

// ---- the press port

// A port after a call, with a refusal's number and place.
#[repr(C)]
#[derive(Clone, Copy)]
pub struct HaruPortAnswer {
    pub number: u32,
    pub place: usize,
    pub port: Port,
}

pub fn of_port(answer: PortAnswer) -> HaruPortAnswer
    ensures { result ≡ of_port answer }
{
    let port = answer.port;
    let verdict = answer.verdict;
    let told = of_verdict(verdict);
    HaruPortAnswer {
        number: told.number,
        place: told.place,
        port,
    }
}
