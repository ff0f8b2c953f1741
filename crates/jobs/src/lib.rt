// Calls on plunge files: drawing, listing, tidying. Each tries its arguments and buffers first, in document 01's order.
#![tactic(auto)]

ghost use Rattle.std.specs.Prelude.{◌≡◌, min};
ghost use Rattle.geometry.specs.Plate.{area};
ghost use Rattle.jobs.specs.Calls.{Drawn, ListCall, TidyCall};

use geometry::Head;
use listing::Extent;
use refusal::{Refusal, Verdict};

// How many cells a plate has.
pub fn cells_of(head: Head) -> usize
    ensures { result ≡ area head }
{
    (head.height as usize) * (head.width as usize)
}

// The refusal of a short relief or work buffer.
pub fn too_short() -> Refusal
    ensures { result ≡ record { number = 4; place = 0 } }
{
    Refusal {
        number: 4,
        place: 0,
    }
}

pub fn shortest(a: usize, b: usize, c: usize) -> usize
    ensures { result ≡ min (min a b) c }
{
    a.min(b).min(c)
}

// The relief that a file draws, into out. The file's refusals, then 4.
pub fn draw(file: &[u8], out: &mut [u8]) -> Verdict
    ensures { Drawn file.now out.old out.new result }
{
    let job = reading::read(file)?;
    let head = job.head;
    if out.len() < cells_of(head) {
        return Err(too_short());
    }
    drawing::draw_into(head, file, job.plunges, out);
    Ok(())
}

// The list of a relief, as a file. Refusals 1, 2, 4 and 5.
pub fn list(
    relief: &[u8],
    kind: u8,
    width: u16,
    height: u16,
    out: &mut [u8],
    a: &mut [u8],
    b: &mut [u8],
) -> Result<Extent, Refusal>
    ensures { ListCall relief.now kind width height out.old out.new a.old a.new
        b.old b.new result }
{
    let room = shortest(relief.len(), a.len(), b.len());
    refusal::check_map(kind, width, height, false, room)?;
    let head = refusal::head_of(kind, width, height);
    listing::list_into(head, relief, out, a, b)
}

// The canonical form of a file: drawn into c, then listed. The file's refusals, then 4 and 5.
pub fn tidy(
    file: &[u8],
    out: &mut [u8],
    a: &mut [u8],
    b: &mut [u8],
    c: &mut [u8],
) -> Result<Extent, Refusal>
    ensures { TidyCall file.now out.old out.new a.old a.new b.old
        b.new c.old c.new result }
{
    let job = reading::read(file)?;
    let head = job.head;
    let room = shortest(a.len(), b.len(), c.len());
    if room < cells_of(head) {
        return Err(too_short());
    }
    drawing::draw_into(head, file, job.plunges, c);
    listing::list_into(head, c, out, a, b)
}
