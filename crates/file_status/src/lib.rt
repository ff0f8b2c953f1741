// What a file name stands for, asked of the system: a file's kind, permissions and owner, where a link leads, whether it may be
// written. No contract can say what the system answers: test_file_status shows it at work. Which names are handed over is proved.
#![tactic(auto)]

ghost use Rattle.std.specs.Prelude.{◌≡◌, ◌≤◌, true, false};
ghost use Rattle.io.specs.Counts.{IsPrefixLen};
ghost use Rattle.file_status.specs.Names.{is_path, IsStatus};

pub mod path;

use path::is_path;
use std::fs;
use std::fs::{File, OpenOptions};
use std::io::{Error, ErrorKind};
use std::os::unix::fs::MetadataExt;
use std::path::PathBuf;

// The bits of C's st_mode that are a file's kind, and the kinds.
pub const KIND: u32 = 0o170000;

pub const REGULAR: u32 = 0o100000;

pub const FOLDER: u32 = 0o040000;

pub const DEVICE: u32 = 0o020000;

pub const PIPE: u32 = 0o010000;

// C's EILSEQ: a name that is no UTF-8, which is how std takes names.
const NO_TEXT: i32 = 84;

// What the system says of a file: its kind and permissions (C's st_mode; `mode & KIND` is the kind), its owner and its group.
#[derive(Clone, Copy)]
pub struct FileStatus {
    pub mode: u32,
    pub owner: u32,
    pub group: u32,
}

// A name as std takes it: text. Of one that is none no file can be asked for.
pub fn text_of(name: &[u8]) -> Result<&str, Error> {
    std::str::from_utf8(name).map_err(|_| Error::from_raw_os_error(NO_TEXT))
}

// What the system says of a name, links followed, or why it says nothing.
pub fn find(rt: &HostRuntime, name: &[u8]) -> Result<FileStatus, Error> {
    let seen = fs::metadata(rt, text_of(name)?)?;
    Ok(FileStatus {
        mode: seen.mode(),
        owner: seen.uid(),
        group: seen.gid(),
    })
}

// The same, where it does not matter why a file is not found. A name that is no path is not found either.
pub fn status_of(rt: &HostRuntime, name: &[u8]) -> Option<FileStatus>
    ensures { IsStatus name.now result }
{
    if !is_path(name) {
        return None;
    }
    find(rt, name).ok()
}

// ---- links

// As much of a text as fits.
fn put_start(target: &mut [u8], text: &[u8]) -> usize
    ensures { IsPrefixLen result target.new }
{
    let n = text.len().min(target.len());
    target[..n].copy_from_slice(&text[..n]);
    n
}

fn target_of(rt: &HostRuntime, name: &[u8]) -> Result<PathBuf, Error> {
    fs::read_link(rt, text_of(name)?)
}

// Puts where a link leads at the start of target, as much as fits, and gives how many bytes these are: 0 where the name is no link, or
// cannot be read, as where the link leads to a name that is no UTF-8. Where target is full, the rest may be missing.
pub fn link_target(rt: &HostRuntime, name: &[u8], target: &mut [u8]) -> usize
    ensures { IsPrefixLen result target.new × (is_path name.now ≡ false → result ≡ 0) }
{
    if !is_path(name) {
        return 0;
    }
    match target_of(rt, name) {
        Ok(link) => put_start(target, link.as_str().as_bytes()),
        Err(_) => 0,
    }
}

// Whether a name is that of a link itself.
pub fn is_link(rt: &HostRuntime, name: &[u8]) -> bool {
    match text_of(name) {
        Ok(text) => match fs::symlink_metadata(rt, text) {
            Ok(seen) => seen.is_symlink(),
            Err(_) => false,
        },
        Err(_) => false,
    }
}

// ---- writing

// How a file is opened to see whether it may be written. A pipe that is opened for both does not wait for a reader.
fn open_for_writing(rt: &HostRuntime, text: &str, is_pipe: bool) -> Result<File, Error> {
    let mut options = OpenOptions::new();
    options.write(true);
    options.read(is_pipe);
    options.open(rt, text)
}

// Whether the process may write the file: it is opened for writing, and closed as it was. If not, why. A program that is running may not
// be written, but its file may be replaced.
pub fn try_writing(rt: &HostRuntime, name: &[u8]) -> Result<(), Error> {
    let text = text_of(name)?;
    let is_pipe = status_of(rt, name).is_some_and(|status| status.mode & KIND == PIPE);
    match open_for_writing(rt, text, is_pipe) {
        Ok(_) => Ok(()),
        Err(error) => match error.kind() {
            ErrorKind::ExecutableFileBusy => Ok(()),
            _ => Err(error),
        },
    }
}

// The same, where it does not matter why it may not be written.
pub fn is_writable(rt: &HostRuntime, name: &[u8]) -> bool
    ensures { is_path name.now ≡ false → result ≡ false }
{
    is_path(name) && try_writing(rt, name).is_ok()
}
