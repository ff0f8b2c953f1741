// Maps of one level, as calls: clearance, medial axis, reconstruction. Each tries its arguments first and writes only if it accepts them.
#![tactic(auto)]

ghost use Rattle.clearance_maps.specs.Calls.{ClearanceMap, AxisMap, Reconstruction};

use refusal::Verdict;
use row_arrays::Seeds;
use row_filter::Leaf;

// The clearance of every cell at a level.
pub fn clearance_map(
    relief: &[u8],
    kind: u8,
    width: u16,
    height: u16,
    level: u8,
    out: &mut [u8],
) -> Verdict
    ensures { ClearanceMap relief.now kind width height level out.old out.new result }
{
    let shortest = relief.len().min(out.len());
    refusal::check_map(kind, width, height, level == 0, shortest)?;
    distance_transform::transform(
        refusal::head_of(kind, width, height),
        Seeds::Walls(level),
        relief,
        out,
    );
    Ok(())
}

// The medial axis of a level, with its clearances.
pub fn axis_map(
    relief: &[u8],
    kind: u8,
    width: u16,
    height: u16,
    level: u8,
    out: &mut [u8],
) -> Verdict
    ensures { AxisMap relief.now kind width height level out.old out.new result }
{
    clearance_map(relief, kind, width, height, level, out)?;
    window_filter::filter_map(refusal::head_of(kind, width, height), Leaf::Axis, 0, out);
    Ok(())
}

// What a map of clearances reaches: 1 where some cell's number exceeds its distance, else 0.
pub fn reconstruct(map: &[u8], kind: u8, width: u16, height: u16, out: &mut [u8]) -> Verdict
    ensures { Reconstruction map.now kind width height out.old out.new result }
{
    let shortest = map.len().min(out.len());
    refusal::check_map(kind, width, height, false, shortest)?;
    distance_transform::transform(
        refusal::head_of(kind, width, height),
        Seeds::Numbers,
        map,
        out,
    );
    Ok(())
}
