// One erosion step (document 01's next rung) from one buffer to another: the first of any map, and the later ones, inside the border.
#![tactic(auto)]

ghost use Rattle.std.specs.Prelude.{◌*◌, ◌≤◌, length};
ghost use Rattle.geometry.specs.Plate.{area};
ghost use Rattle.buffers.specs.Runs.{Interior};
ghost use Rattle.erosion_step.specs.Steps.{StepBuffers, InsideBuffers, Eroded, SidesZeroed, Stepped};

use geometry::{Head, Kind};

// The lowest of each cell's nine bytes, in the places from one up to another; a number no lower than any written.
fn erode_run(kind: Kind, src: &[u8], dst: &mut [u8], width: usize, from: usize, to: usize) -> u8
    requires { Interior width from to src.now × (to ≤ length dst.old) }
    ensures { Eroded kind src.now width from to dst.old dst.new result }
{
    let mut top = 0u8;
    for n in from..to {
        let v = window::window_min(kind, window::window_in(src, width, n));
        dst[n] = v;
        top = top.max(v);
    }
    top
}

// 0 at the first and the last place of each row; all other bytes stay.
fn zero_columns(width: usize, height: usize, dst: &mut [u8])
    requires { (1 ≤ width) × (height * width ≤ length dst.old) }
    ensures { SidesZeroed width height height dst.old dst.new }
{
    for y in 0..height {
        dst[y * width] = 0;
        dst[y * width + width - 1] = 0;
    }
}

// The first erosion of a map with cells inside its border: one run for all rows, which reads across the sides, then 0 at the sides.
fn erode_inside(head: Head, src: &[u8], dst: &mut [u8]) -> u8
    requires { InsideBuffers head src.now dst.old }
    ensures { Stepped head src.now dst.old dst.new result }
{
    let kind = head.kind;
    let width = head.width as usize;
    let height = head.height as usize;
    let from = width + 1;
    let to = height * width - width - 1;
    buffers::zero_run(dst, 0, from);
    let top = erode_run(kind, src, dst, width, from, to);
    buffers::zero_run(dst, to, height * width);
    zero_columns(width, height, dst);
    top
}

// The first erosion of any map; all 0 where no cell lies inside the border.
fn erode_first(head: Head, src: &[u8], dst: &mut [u8]) -> u8
    requires { (area head ≤ length src.now) × (area head ≤ length dst.old) }
    ensures { Stepped head src.now dst.old dst.new result }
{
    let width = head.width as usize;
    let height = head.height as usize;
    if width > 2 && height > 2 {
        return erode_inside(head, src, dst);
    }
    buffers::zero_run(dst, 0, height * width);
    0
}

// The next erosion of a map that is 0 within k of the border, into a buffer that is 0 within k - 1 of it: one run for all rows.
fn erode_next(head: Head, k: usize, src: &[u8], dst: &mut [u8]) -> u8
    requires { (1 ≤ k) × StepBuffers head k src.now dst.old }
    ensures { Stepped head src.now dst.old dst.new result }
{
    let kind = head.kind;
    let width = head.width as usize;
    let height = head.height as usize;
    if height < 2 * k + 3 {
        buffers::zero_run(dst, 0, height * width);
        return 0;
    }
    buffers::zero_run(dst, (k - 1) * width, (k + 1) * width);
    buffers::zero_run(dst, (height - k - 1) * width, (height - k + 1) * width);
    erode_run(
        kind,
        src,
        dst,
        width,
        (k + 1) * width,
        (height - k - 1) * width,
    )
}

// Erosion k + 1 from erosion k; a number no lower than any of its own.
pub fn erode_step(head: Head, k: usize, src: &[u8], dst: &mut [u8]) -> u8
    requires { StepBuffers head k src.now dst.old }
    ensures { Stepped head src.now dst.old dst.new result }
{
    if k == 0 {
        return erode_first(head, src, dst);
    }
    erode_next(head, k, src, dst)
}
