// Filling and copying stretches of a buffer.
#![tactic(auto)]

ghost use Rattle.std.specs.Prelude.{◌≤◌, length, get_or};
ghost use Rattle.buffers.specs.Fill.{Filled};

// Zeros from one place up to another.
pub fn zero_run(dst: &mut [u8], from: usize, to: usize)
    requires { (from ≤ to) × (to ≤ length dst.old) }
    ensures { Filled (λ n. 0) from to dst.old dst.new }
{
    dst[from..to].fill(0);
}

// The bytes of a buffer up to a place, to the start of another.
pub fn copy_run(src: &[u8], dst: &mut [u8], to: usize)
    requires { (to ≤ length src.now) × (to ≤ length dst.old) }
    ensures { Filled (λ n. get_or src.now n 0) 0 to dst.old dst.new }
{
    dst[..to].copy_from_slice(&src[..to]);
}
