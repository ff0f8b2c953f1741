// The listing of a relief, sent run by run in its order: written to an output, compared with a file, or staged.
#![tactic(auto)]

ghost use Rattle.std.specs.Prelude.{◌≡◌, ◌+◌, ◌*◌, ◌≤◌, ◌<◌, length, get_or, drop};
ghost use Rattle.theory.specs.Listing.{listing};
ghost use Rattle.geometry.specs.Lists.{common};
ghost use Rattle.refusal.specs.Refusals.{largest_side, largest_erosion};
ghost use Rattle.fields.specs.Fields.{plunge_bytes, place, plunge_field, plunge_fields};
ghost use Rattle.fields.specs.Fits.{PlungeFits};
ghost use Rattle.fields.specs.Lengths.{IsLength};
ghost use Rattle.fields.specs.Writing.{spliced};
ghost use Rattle.residue_marks.specs.Marks.{mark_places};
ghost use Rattle.climb.specs.Climbs.{plunge_of, found_plunges, FoundMarks};
ghost use Rattle.listing_pass.specs.Sent.{Compared, Staged, Sent, Room};
ghost use Rattle.listing_plunges.specs.Listable.{Listable, ListingSent};
ghost use Rattle.listing_plunges.specs.Runs.{PlaceOf, Bounded, NotedAt, noted_plunge, ToSend};

use climb::Found;
use geometry::{Head, Plunge, Size};
use listing_pass::{Pass, Progress};

// What is done with the plunges of a run, and the size of their fields.
#[derive(Clone, Copy)]
pub struct Sending {
    pub pass: Pass,
    pub size: Size,
}

// Where a listing was sent to, and how many erosions its climb took if it was sent to its end.
#[derive(Clone, Copy)]
pub struct SentListing {
    pub progress: Progress,
    pub erosions: usize,
}

// The plunge of a run's place: place n is column n % width of row n / width of its region.
fn plunge_at(found: Found, n: usize, depth: u8) -> Plunge
    requires { PlaceOf found n }
    ensures { (result ≡ plunge_of found n depth) × (result.column < largest_side) × (result.row < largest_side) }
{
    let region = found.region;
    let reach = found.reach;
    let width = region.head.width as u32;
    let place = n as u32;
    let column = ((place % width) as u16) + (region.column as u16);
    let row = ((place / width) as u16) + (region.row as u16);
    Plunge {
        column,
        row,
        reach,
        depth,
    }
}

// The plunge of a noted place of a run.
fn noted_plunge(
    found: Found,
    marks: &[u8; residue_marks::MARK_PLACES],
    noted: &[u16; residue_marks::MARK_PLACES],
    j: usize,
) -> Plunge
    requires { NotedAt found marks.now noted.now j }
    ensures { (result ≡ noted_plunge found marks.now (get_or noted.now j 0)) × Bounded result }
{
    let i = noted[j] as usize;
    plunge_at(found, found.places.start + i, marks[i])
}

// Writes the fields of a run's plunges from a place on, once their places are noted in an array. Returns the place behind them.
fn put_marks(
    size: Size,
    found: Found,
    marks: &[u8; residue_marks::MARK_PLACES],
    noted: &mut [u16; residue_marks::MARK_PLACES],
    out: &mut [u8],
    at: usize,
) -> usize
    requires { FoundMarks found marks.now × (at + length (plunge_fields size (found_plunges found marks.now)) ≤ length out.old)
        × (length noted.old ≡ mark_places) }
    ensures { (result ≡ at + length (plunge_fields size (found_plunges found marks.now)))
        × (out.new ≡ spliced out.old at (plunge_fields size (found_plunges found marks.now)))
        × (length noted.new ≡ mark_places) }
{
    let count = residue_marks::note_marks(marks, found.places.number, noted);
    let mut place = at;
    for j in 0..count {
        let q = noted_plunge(found, marks, noted, j);
        fields::put_plunge(size, out, place, q);
        place += fields::plunge_bytes(size);
    }
    place
}

// How many bytes the fields of a run's plunges have.
fn field_bytes(size: Size, found: Found, marks: &[u8; residue_marks::MARK_PLACES]) -> usize
    requires { FoundMarks found marks.now }
    ensures { result ≡ length (plunge_fields size (found_plunges found marks.now)) }
{
    fields::plunge_bytes(size) * residue_marks::count_marks(marks, found.places.number)
}

// How many bytes of a plunge's field stand in a file from a place on.
fn compare_plunge(size: Size, q: Plunge, file: &[u8], at: usize) -> usize
    requires { IsLength (at + plunge_bytes size) × PlungeFits size q }
    ensures { result ≡ common (drop at file.now) (plunge_field size q) }
{
    let mut field = [0u8; fields::PLUNGE_ROOM];
    fields::put_plunge(size, &mut field, 0, q);
    listing_pass::common_run(file, at, &field[..fields::plunge_bytes(size)])
}

// Compares the fields of a run's plunges with a file from a place on, once their places are noted in an array.
fn compare_marks(
    size: Size,
    found: Found,
    marks: &[u8; residue_marks::MARK_PLACES],
    noted: &mut [u16; residue_marks::MARK_PLACES],
    file: &[u8],
    at: usize,
) -> Progress
    requires { FoundMarks found marks.now × IsLength (at + plunge_bytes size * mark_places) × (length noted.old ≡ mark_places) }
    ensures { Compared file.now at (plunge_fields size (found_plunges found marks.now)) result
        × (length noted.new ≡ mark_places) }
{
    let count = residue_marks::note_marks(marks, found.places.number, noted);
    let mut place = at;
    for j in 0..count {
        let q = noted_plunge(found, marks, noted, j);
        let n = compare_plunge(size, q, file, place);
        place += n;
        if n < fields::plunge_bytes(size) {
            return Progress {
                at: place,
                like: false,
            };
        }
    }
    Progress {
        at: place,
        like: true,
    }
}

// Writes the fields of a run's plunges from a place on if an output has room for them. Returns the place behind them.
fn stage_marks(
    size: Size,
    found: Found,
    marks: &[u8; residue_marks::MARK_PLACES],
    noted: &mut [u16; residue_marks::MARK_PLACES],
    out: &mut [u8],
    at: usize,
) -> usize
    requires { FoundMarks found marks.now × IsLength (at + plunge_bytes size * mark_places) × (length noted.old ≡ mark_places) }
    ensures { (result ≡ at + length (plunge_fields size (found_plunges found marks.now)))
        × Staged out.old at (plunge_fields size (found_plunges found marks.now)) out.new
        × (length noted.new ≡ mark_places) }
{
    let end = at + field_bytes(size, found, marks);
    if end <= out.len() {
        return put_marks(size, found, marks, noted, out, at);
    }
    end
}

// Sends the plunges of a run at a place: their fields are written, compared or staged there.
fn send_run(
    sending: Sending,
    found: Found,
    marks: &[u8; residue_marks::MARK_PLACES],
    noted: &mut [u16; residue_marks::MARK_PLACES],
    file: &[u8],
    out: &mut [u8],
    at: usize,
) -> Progress
    requires { ToSend sending found marks.now at out.old × (length noted.old ≡ mark_places) }
    ensures { Sent sending.pass file.now at (plunge_fields sending.size (found_plunges found marks.now))
        out.old out.new result
        × (length noted.new ≡ mark_places) }
{
    if found.deepest == 0 {
        return Progress { at, like: true };
    }
    let size = sending.size;
    let pass = sending.pass;
    match pass {
        Pass::Write => Progress {
            at: put_marks(size, found, marks, noted, out, at),
            like: true,
        },
        Pass::Compare => compare_marks(size, found, marks, noted, file, at),
        Pass::Stage => Progress {
            at: stage_marks(size, found, marks, noted, out, at),
            like: true,
        },
    }
}

// Sends the whole listing of a relief from behind the head on: run after run, or to the first byte that is unlike.
pub fn send_listing(
    head: Head,
    pass: Pass,
    relief: &[u8],
    file: &[u8],
    out: &mut [u8],
    a: &mut [u8],
    b: &mut [u8],
) -> SentListing
    requires { Listable head relief.now a.old b.old
        × Room pass (place head (length (listing head largest_erosion relief.now))) out.old }
    ensures { ListingSent pass head relief.now file.now out.old out.new a.old a.new
        b.old b.new result }
{
    let mut marks = [0u8; residue_marks::MARK_PLACES];
    let mut noted = [0u16; residue_marks::MARK_PLACES];
    let sending = Sending {
        pass,
        size: head.size(),
    };
    let mut place = fields::place(head, 0);
    let mut climb = climb::begin(head, relief, a, b);
    while climb.stand.more {
        let step = climb::next(climb, a, b, &mut marks);
        let sent = send_run(sending, step.found, &marks, &mut noted, file, out, place);
        if !sent.like {
            return SentListing {
                progress: sent,
                erosions: 0,
            };
        }
        place = sent.at;
        let next = step.next;
        climb = next;
    }
    let progress = Progress {
        at: place,
        like: true,
    };
    SentListing {
        progress,
        erosions: climb::erosions_taken(climb),
    }
}
