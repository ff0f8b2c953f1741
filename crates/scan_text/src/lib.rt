// The whole work of the program `plunges`: a scan comes in, a text goes out, on slices alone.
#![tactic(auto)]

ghost use Rattle.std.specs.Prelude.{◌≡◌, ◌≤◌, length};
ghost use Rattle.io.specs.Counts.{IsPrefixLen};
ghost use Rattle.numerals.specs.Numerals.{Puts};
ghost use Rattle.text_lines.specs.Text.{list_text};
ghost use Rattle.scan_text.specs.Program.{file_buffer, most_cells, text_room, plate_in, plunges_of, plunges_text};
ghost use Rattle.scan_text.specs.Listed.{ListedFile};

use reading::Job;

const SIDE: usize = refusal::LARGEST_SIDE as usize;

// The cells of the largest plate.
const CELLS: usize = SIDE * SIDE;

// Kind, width, height, and a depth for each cell of the largest plate; what follows changes nothing.
pub const SCAN: usize = 3 + CELLS;

// "Its file buffer is 65,536 bytes."
const FILE: usize = 65536;

// Room for the text of any scan: a line for each plunge that the file buffer has room for, and two more.
pub const TEXT: usize = text::LINE * 9362;

fn file_buffer() -> [u8; FILE]
    ensures { file_buffer ≡ length result }
{
    [0; FILE]
}

fn cells() -> [u8; CELLS]
    ensures { most_cells ≡ length result }
{
    [0; CELLS]
}

// A buffer for the text of any scan.
pub fn text_buffer() -> [u8; TEXT]
    ensures { text_room ≡ length result }
{
    [0; TEXT]
}

// The text of a scan's list, from the file that was listed.
fn put_list(text: &mut [u8], scan: &[u8], file: &[u8], plunges: usize) -> usize
    requires { ListedFile scan.now file.now plunges × (text_room ≤ length text.old) }
    ensures { Puts text.old 0 (list_text (plate_in scan.now) (plunges_of scan.now)) text.new result × IsPrefixLen
        result text.new }
{
    let kind = scan::byte_in(scan, 0);
    let width = scan::byte_in(scan, 1);
    let height = scan::byte_in(scan, 2);
    let head = refusal::head_of(kind, width as u16, height as u16);
    let job = Job { head, plunges };
    let page = text::put_page(text, file, job, 0);
    page.used
}

// What the program `plunges` writes for a scan; gives its length.
pub fn put_text(text: &mut [u8], scan: &[u8]) -> usize
    requires { text_room ≤ length text.old }
    ensures { Puts text.old 0 (plunges_text scan.now) text.new result × IsPrefixLen result text.new }
{
    let mut file = file_buffer();
    let mut a = cells();
    let mut b = cells();
    let answer = scan_listing::list_scan(scan, &mut file, &mut a, &mut b);
    match answer {
        Err(refusal) => text_lines::put_refusal(text, refusal),
        Ok(extent) => {
            let bytes = extent.bytes;
            put_list(text, scan, &file[..bytes], extent.plunges)
        }
    }
}
