// Maps of all levels at once, as calls: erosions, residues, scores, and the volume.
#![tactic(auto)]

ghost use Rattle.std.specs.Prelude.{◌≡◌, false, ◌≤◌, min, length, take};
ghost use Rattle.geometry.specs.Lists.{sum};
ghost use Rattle.erosion_series.specs.Pairs.{MapBuffers, MapFilled};
ghost use Rattle.erosion_maps.specs.Maps.{largest_area, wrong_number, asked_map, AskedMap};
ghost use Rattle.erosion_maps.specs.Calls.{ErosionMap, ResidueMap, ScoreMap, volume_of};

use geometry::Head;
use refusal::{Refusal, Verdict};
use residue_scores::Score;

// The shortest of a call's four buffers.
fn shortest(relief: usize, out: usize, a: usize, b: usize) -> usize
    ensures { result ≡ min (min (min relief out) a) b }
{
    relief.min(out).min(a).min(b)
}

// Which map of a relief is asked for.
#[derive(Clone, Copy)]
enum Asked {
    Erosion(u16),
    Residue(u16),
    Scored(Score),
}

// Whether the map has a number that no erosion has.
fn is_wrong(asked: Asked) -> bool
    ensures { result ≡ wrong_number asked }
{
    match asked {
        Asked::Erosion(number) | Asked::Residue(number) => !refusal::is_erosion_number(number),
        Asked::Scored(_score) => false,
    }
}

// The map that is asked for, into the output.
fn fill(asked: Asked, head: Head, relief: &[u8], out: &mut [u8], a: &mut [u8], b: &mut [u8])
    requires { (wrong_number asked ≡ false) × MapBuffers head relief.now out.old a.old b.old }
    ensures { MapFilled head (asked_map asked head relief.now) out.old out.new
        a.old a.new b.old b.new }
{
    match asked {
        Asked::Erosion(number) => {
            erosion_series::erosion_fill(head, relief, number as usize, out, a, b);
        }
        Asked::Residue(number) => {
            erosion_series::residue_fill(head, relief, number as usize, out, a, b);
        }
        Asked::Scored(score) => {
            erosion_series::score_fill(head, score, relief, out, a, b);
        }
    }
}

// Tries the arguments in their order, and fills the map if none is refused.
fn answer(
    asked: Asked,
    relief: &[u8],
    kind: u8,
    width: u16,
    height: u16,
    out: &mut [u8],
    a: &mut [u8],
    b: &mut [u8],
) -> Verdict
    ensures { AskedMap asked relief.now kind width height out.old out.new
        a.old a.new b.old b.new result }
{
    let wrong = is_wrong(asked);
    let room = shortest(relief.len(), out.len(), a.len(), b.len());
    refusal::check_map(kind, width, height, wrong, room)?;
    fill(
        asked,
        refusal::head_of(kind, width, height),
        relief,
        out,
        a,
        b,
    );
    Ok(())
}

// Erosion `number` of a relief (rung), 1 to 120: at each cell the lowest depth within that distance. Refusals 1, 2, 3 and 4.
pub fn erosion_map(
    relief: &[u8],
    kind: u8,
    width: u16,
    height: u16,
    number: u16,
    out: &mut [u8],
    a: &mut [u8],
    b: &mut [u8],
) -> Verdict
    ensures { ErosionMap relief.now kind width height number out.old out.new
        a.old a.new b.old b.new result }
{
    answer(
        Asked::Erosion(number),
        relief,
        kind,
        width,
        height,
        out,
        a,
        b,
    )
}

// Residue `number` of a relief, 1 to 120. Refusals 1, 2, 3 and 4.
pub fn residue_map(
    relief: &[u8],
    kind: u8,
    width: u16,
    height: u16,
    number: u16,
    out: &mut [u8],
    a: &mut [u8],
    b: &mut [u8],
) -> Verdict
    ensures { ResidueMap relief.now kind width height number out.old out.new
        a.old a.new b.old b.new result }
{
    answer(
        Asked::Residue(number),
        relief,
        kind,
        width,
        height,
        out,
        a,
        b,
    )
}

// A score of each cell: its largest residue, or the sum of its residues. Refusals 1, 2 and 4.
pub fn score_map(
    score: Score,
    relief: &[u8],
    kind: u8,
    width: u16,
    height: u16,
    out: &mut [u8],
    a: &mut [u8],
    b: &mut [u8],
) -> Verdict
    ensures { ScoreMap score relief.now kind width height out.old out.new
        a.old a.new b.old b.new result }
{
    answer(Asked::Scored(score), relief, kind, width, height, out, a, b)
}

// The sum of the first bytes of a relief.
fn depth_sum(relief: &[u8], count: usize) -> u32
    requires { (count ≤ length relief.now) × (count ≤ largest_area) }
    ensures { result ≡ sum (take count relief.now) }
{
    let mut total: u32 = 0;
    for depth in &relief[..count] {
        total += *depth as u32;
    }
    total
}

// The sum of all depths of a plate. Refusals 2 and 4.
pub fn volume(relief: &[u8], width: u16, height: u16) -> Result<u32, Refusal>
    ensures { result ≡ volume_of relief.now width height }
{
    refusal::check_sides(width, height, false, relief.len())?;
    Ok(depth_sum(relief, (height as usize) * (width as usize)))
}
