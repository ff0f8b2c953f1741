// The list of a scan's relief.
#![tactic(auto)]

ghost use Rattle.jobs.specs.Calls.{ListCall};
ghost use Rattle.scan.specs.Scan.{byte_in, depths};

use listing::Extent;
use refusal::Refusal;

// The list of a scan's relief, as a file. Refusals 1, 2, 4 and 5.
pub fn list_scan(scan: &[u8], out: &mut [u8], a: &mut [u8], b: &mut [u8]) -> Result<Extent, Refusal>
    ensures { ListCall (depths scan.now) (byte_in scan.now 0) (byte_in scan.now 1)
        (byte_in scan.now 2) out.old out.new a.old a.new b.old b.new result }
{
    let kind = scan::byte_in(scan, 0);
    let width = scan::byte_in(scan, 1);
    let height = scan::byte_in(scan, 2);
    jobs::list(
        scan::depths(scan),
        kind,
        width as u16,
        height as u16,
        out,
        a,
        b,
    )
}
