// A series of erosions in two buffers, turn by turn, and the maps that it fills: an erosion, a residue, a score.
#![tactic(auto)]

ghost use Rattle.std.specs.Prelude.{◌%◌, ◌≤◌, ◌<◌};
ghost use Rattle.theory.specs.Erosion.{erosion, residue};
ghost use Rattle.refusal.specs.Refusals.{largest_erosion};
ghost use Rattle.erosion_step.specs.Steps.{step_numbers};
ghost use Rattle.residue_scores.specs.Scores.{score_of};
ghost use Rattle.erosion_series.specs.Pairs.{PairToStep, PairToScore, SeriesBuffers, MapBuffers, PairStep, PairScore, ErodedTo, MapFilled};

use geometry::Head;
use residue_scores::Score;

// The next erosion of the pair, into the buffer that has the one before.
pub fn step_pair(head: Head, k: usize, a: &mut [u8], b: &mut [u8]) -> u8
    requires { PairToStep head k a.old b.old }
    ensures { PairStep head k a.old b.old a.new b.new result }
{
    if k % 2 == 0 {
        return erosion_step::erode_step(head, k, a, b);
    }
    erosion_step::erode_step(head, k, b, a)
}

// From a copy of the relief on, to a number or to an erosion that is 0 everywhere; how many steps were made.
fn erode_to(head: Head, relief: &[u8], number: usize, a: &mut [u8], b: &mut [u8]) -> usize
    requires { (number < step_numbers) × SeriesBuffers head relief.now a.old b.old }
    ensures { ErodedTo head relief.now number a.old b.old
        a.new b.new result }
{
    let cells = (head.height as usize) * (head.width as usize);
    buffers::copy_run(relief, a, cells);
    for k in 0..number {
        let top = step_pair(head, k, a, b);
        if top == 0 {
            return k + 1;
        }
    }
    number
}

// Residue k of the pair's erosions k - 1 and k, joined to a score.
pub fn residue_pair(head: Head, score: Score, k: usize, a: &[u8], b: &[u8], out: &mut [u8])
    requires { PairToScore head k a.now b.now out.old }
    ensures { PairScore head score k a.now b.now
        out.old out.new }
{
    if k % 2 == 0 {
        residue_scores::residue_step(head, score, k, b, a, out);
        return;
    }
    residue_scores::residue_step(head, score, k, a, b, out);
}

// Erosion `number` of a relief, as a map.
pub fn erosion_fill(
    head: Head,
    relief: &[u8],
    number: usize,
    out: &mut [u8],
    a: &mut [u8],
    b: &mut [u8],
)
    requires { (number < step_numbers) × MapBuffers head relief.now out.old a.old b.old }
    ensures { MapFilled head (erosion head relief.now number) out.old out.new
        a.old a.new b.old b.new }
{
    let cells = (head.height as usize) * (head.width as usize);
    let k = erode_to(head, relief, number, a, b);
    if k % 2 == 0 {
        buffers::copy_run(a, out, cells);
        return;
    }
    buffers::copy_run(b, out, cells);
}

// Residue `number` of a relief, as a map: after an empty erosion it is 0.
pub fn residue_fill(
    head: Head,
    relief: &[u8],
    number: usize,
    out: &mut [u8],
    a: &mut [u8],
    b: &mut [u8],
)
    requires { (1 ≤ number) × (number < step_numbers) × MapBuffers head relief.now out.old a.old b.old }
    ensures { MapFilled head (residue head relief.now number) out.old out.new
        a.old a.new b.old b.new }
{
    let cells = (head.height as usize) * (head.width as usize);
    let k = erode_to(head, relief, number, a, b);
    buffers::zero_run(out, 0, cells);
    if k == number {
        residue_pair(head, Score::Largest, k, a, b, out);
    }
}

// A score over residues 1 to the largest erosion, each joined as the series reaches it.
pub fn score_fill(
    head: Head,
    score: Score,
    relief: &[u8],
    out: &mut [u8],
    a: &mut [u8],
    b: &mut [u8],
)
    requires { MapBuffers head relief.now out.old a.old b.old }
    ensures { MapFilled head (score_of score head largest_erosion relief.now) out.old out.new
        a.old a.new b.old b.new }
{
    let cells = (head.height as usize) * (head.width as usize);
    let last = refusal::LARGEST_EROSION as usize;
    buffers::zero_run(out, 0, cells);
    buffers::copy_run(relief, a, cells);
    for k in 0..last {
        let top = step_pair(head, k, a, b);
        residue_pair(head, score, k + 1, a, b, out);
        if top == 0 {
            return;
        }
    }
}
