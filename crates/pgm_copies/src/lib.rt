// A picture as a scan, and depths as a picture, at the start of a buffer; where something is wrong the buffer stays as it was.
#![tactic(auto)]

ghost use Rattle.std.specs.Prelude.{◌≡◌, ◌≤◌, length};
ghost use Rattle.io.specs.Counts.{IsPrefixLen};
ghost use Rattle.phrases.specs.Phrases.{Appends};
ghost use Rattle.pgm_copies.specs.Copies.{scan_of, copy_answer, copied, header_text, scan_answer, scan_written, file_answer, file_written, Copies};
ghost use Rattle.pgm.specs.Steps.{Lies};
ghost use Rattle.pgm_copies.specs.declared.CopyFault.TheVariants.{Unread};

use pgm::{Picture, PictureFault};

// Why nothing was copied: the number of bytes needed where the buffer is shorter, too few depths, or a picture's fault. Copying gives the number of
// bytes written, or this.
#[derive(Clone, Copy)]
pub enum CopyFault {
    NoRoom(usize),
    TooFew,
    Unread(PictureFault),
}

impl From<PictureFault> for CopyFault {
    ghost from_gives = { λ fault r. r ≡ Unread fault };

    fn from(fault: PictureFault) -> CopyFault {
        CopyFault::Unread(fault)
    }
}

// ---- pictures and scans

// The scan of a picture at the start of a buffer.
fn copy_scan(file: &[u8], kind: u8, picture: Picture, out: &mut [u8]) -> Result<usize, CopyFault>
    requires { Lies file.now picture }
    ensures { Copies (copy_answer (scan_of file.now kind picture) out.old)
        (copied (scan_of file.now kind picture) out.old) out.new result }
{
    let cells = (picture.height as usize) * (picture.width as usize);
    let needed = 3 + cells;
    if out.len() < needed {
        return Err(CopyFault::NoRoom(needed));
    }
    let at = picture.at;
    let head = [kind, picture.width as u8, picture.height as u8];
    let end = phrases::append(out, 0, &head);
    phrases::append(out, end, &file[at..at + cells]);
    Ok(needed)
}

// A picture's file as a scan, at the start of a buffer. Where the file has a fault or the buffer is too short, it stays as it was.
pub fn put_scan(file: &[u8], kind: u8, out: &mut [u8]) -> Result<usize, CopyFault>
    ensures { Copies (scan_answer file.now kind out.old) (scan_written file.now kind out.old)
        out.new result }
{
    let picture = pgm::read_picture(file)?;
    copy_scan(file, kind, picture, out)
}

fn header_length(width: u16, height: u16) -> usize
    ensures { result ≡ length (header_text width height) }
{
    9 + numerals::digit_count(width as u64) + numerals::digit_count(height as u64)
}

fn append_header(page: &mut [u8], at: usize, width: u16, height: u16) -> usize
    requires { at ≤ length page.old }
    ensures { Appends page.old at (header_text width height) page.new result × IsPrefixLen result page.new }
{
    let a = phrases::append_phrase(page, at, b"P5\n", width as u64, b" ");
    let b = phrases::append_number(page, a, height as u64);
    phrases::append(page, b, b"\n255\n")
}

// Depths as a picture's file, at the start of a buffer. Where there are too few or the buffer is too short, it stays as it was.
pub fn put_picture(
    width: u16,
    height: u16,
    depths: &[u8],
    out: &mut [u8],
) -> Result<usize, CopyFault>
    ensures { Copies (file_answer width height depths.now out.old)
        (file_written width height depths.now out.old) out.new result }
{
    let cells = (height as usize) * (width as usize);
    if depths.len() < cells {
        return Err(CopyFault::TooFew);
    }
    let needed = header_length(width, height) + cells;
    if out.len() < needed {
        return Err(CopyFault::NoRoom(needed));
    }
    let end = append_header(out, 0, width, height);
    phrases::append(out, end, &depths[..cells]);
    Ok(needed)
}
