// A scan as the program `plunges` reads it: kind, width and height, a byte each, then the depths.
#![tactic(auto)]

ghost use Rattle.std.specs.Prelude.{◌≡◌};
ghost use Rattle.scan.specs.Scan.{byte_in, depths};

// The byte at a place, of a scan or of other input; "a missing one counts as 0".
pub fn byte_in(scan: &[u8], i: usize) -> u8
    ensures { result ≡ byte_in scan.now i }
{
    if i < scan.len() { scan[i] } else { 0 }
}

// What follows kind, width and height.
pub fn depths(scan: &[u8]) -> &[u8]
    ensures { result.now ≡ depths scan.now }
{
    if scan.len() < 3 {
        &scan[scan.len()..]
    } else {
        &scan[3..]
    }
}
