// The listing of a relief as a whole plunge file.
#![tactic(auto)]

ghost use Rattle.std.specs.Prelude.{◌≡◌};
ghost use Rattle.theory.specs.Listing.{listing};
ghost use Rattle.refusal.specs.Refusals.{largest_erosion};
ghost use Rattle.buffers.specs.Fill.{PlateOnly};
ghost use Rattle.geometry.specs.Sizes.{size_of};
ghost use Rattle.fields.specs.Fields.{place, plunge_fields};
ghost use Rattle.listing_plunges.specs.Listable.{Listable};
ghost use Rattle.fields.specs.Writing.{spliced};
ghost use Rattle.listing.specs.Staging.{Puttable, ListedInto};

use geometry::Head;
use listing_pass::Pass;
use refusal::Refusal;

// How long a list's file is, how many plunges it has, and how many erosions its relief took until it was bare: the rungs climbed.
#[derive(Clone, Copy)]
pub struct Extent {
    pub bytes: usize,
    pub plunges: usize,
    pub erosions: usize,
}

// The bytes of a file that the first pass can keep: the plunges of a longer one are found again by a second pass.
pub const STAGE: usize = 32768;

// Writes the plunges of a relief's listing to an output behind the head: those that were kept, else by another pass.
fn put_plunges(
    head: Head,
    relief: &[u8],
    kept: &[u8; STAGE],
    end: usize,
    out: &mut [u8],
    a: &mut [u8],
    b: &mut [u8],
)
    requires { Puttable head relief.now kept.now end out.old a.old b.old }
    ensures { (out.new ≡ spliced out.old (place head 0) (plunge_fields (size_of head) (listing head largest_erosion relief.now)))
        × PlateOnly head a.old a.new × PlateOnly head b.old b.new }
{
    if end <= STAGE {
        let start = fields::place(head, 0);
        out[start..end].copy_from_slice(&kept[start..end]);
        return;
    }
    listing_plunges::send_listing(head, Pass::Write, relief, relief, out, a, b);
}

// Writes the file of a relief's listing to an output. The plunges are counted first, and kept if they are few: an output that is too short
// is refused untouched.
pub fn list_into(
    head: Head,
    relief: &[u8],
    out: &mut [u8],
    a: &mut [u8],
    b: &mut [u8],
) -> Result<Extent, Refusal>
    requires { Listable head relief.now a.old b.old }
    ensures { ListedInto head relief.now out.old out.new result
        × PlateOnly head a.old a.new × PlateOnly head b.old b.new }
{
    let mut kept = [0u8; STAGE];
    let counted = listing_plunges::send_listing(head, Pass::Stage, relief, relief, &mut kept, a, b);
    let end = counted.progress.at;
    let plunges = (end - fields::place(head, 0)) / fields::plunge_bytes(head.size());
    let bytes = end + fields::END_BYTES;
    if out.len() < bytes {
        return Err(Refusal {
            number: 5,
            place: bytes,
        });
    }
    fields::put_head(out, head);
    put_plunges(head, relief, &kept, end, out, a, b);
    fields::put_end(out, end, plunges);
    Ok(Extent {
        bytes,
        plunges,
        erosions: counted.erosions,
    })
}
