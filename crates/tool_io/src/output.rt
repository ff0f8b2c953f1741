// An output: standard output, a device or a pipe written in place, or a file that takes its place when it is whole.
ghost use Rattle.std.specs.Prelude.{◌≡◌, ◌≤◌};
ghost use Rattle.io.specs.Counts.{IsPrefixLen};

use crate::messages::fail;
use crate::words;
use file_status::{FileStatus, text_of};
use std::fs;
use std::fs::{File, OpenOptions, Permissions};
use std::io::{Error, ErrorKind};
use std::os::fd::AsRawFd;
use std::os::unix::fs::{PermissionsExt, fchown};

// Standard output.
const STDOUT: i32 = 1;

// C's EILSEQ: a link that leads to a name that is no UTF-8, which is how std takes names.
const NO_TEXT: i32 = 84;

// How an output is ended: not at all, closed, or put in its place.
#[derive(Clone, Copy)]
pub enum Sort {
    Standard,
    InPlace,
    Beside,
}

// An output that is open (or not: fd is then -1, and the reason was said): its descriptor, the file if it is not standard output,
// the lengths of its name and of the new file's.
#[derive(Drop)]
pub struct Output {
    pub fd: i32,
    pub file: Option<File>,
    pub sort: Sort,
    pub name: usize,
    pub part: usize,
}

// Whether a file is there that is no regular one: it is written in place.
fn is_special(status: Option<FileStatus>) -> bool {
    status.is_some_and(|seen| seen.mode & file_status::KIND != file_status::REGULAR)
}

// Whether a file may be replaced: it is missing, or a regular one that may be written. If not, the reason was said.
fn is_replaceable(rt: &HostRuntime, name: &[u8], status: Option<FileStatus>, about: &[u8]) -> bool {
    if status.is_some() {
        match file_status::try_writing(rt, name) {
            Ok(()) => return true,
            Err(error) => {
                fail(rt, about, &error);
                return false;
            }
        }
    }
    true
}

// A file that is new under its name.
fn create(rt: &HostRuntime, name: &[u8]) -> Result<File, Error> {
    let text = text_of(name)?;
    let mut options = OpenOptions::new();
    options.write(true);
    options.create_new(true);
    options.open(rt, text)
}

// A new file, or why there is none, and the length of its name.
#[derive(Drop)]
struct Part {
    file: Result<File, Error>,
    length: usize,
}

// One new name.
fn create_one(rt: &HostRuntime, name: &[u8], part: &mut [u8]) -> Part
    ensures { IsPrefixLen result.length part.new }
{
    let length = crate::names::new_name(rt, part, name);
    let file = create(rt, &part[..length]);
    Part { file, length }
}

// Whether a name was taken already, so that another is worth a try.
fn is_taken(file: &Result<File, Error>) -> bool {
    match file {
        Ok(_) => false,
        Err(error) => match error.kind() {
            ErrorKind::AlreadyExists => true,
            _ => false,
        },
    }
}

// Nine names are tried at most; there is no file where none could be had.
fn create_beside(rt: &HostRuntime, name: &[u8], part: &mut [u8]) -> Part
    ensures { IsPrefixLen result.length part.new }
{
    let mut made = create_one(rt, name, part);
    for _ in 0..8 {
        if !is_taken(&made.file) {
            return made;
        }
        made = create_one(rt, name, part);
    }
    made
}

// A new file gets the permissions and, where the system allows it, the owner of the one that it replaces.
fn take_after(file: &File, before: Option<FileStatus>) -> Result<(), Error> {
    let Some(status) = before else {
        return Ok(());
    };
    let _ = fchown(file, Some(status.owner), Some(status.group));
    file.set_permissions(Permissions::from_mode(status.mode & 0o7777))
}

// All of a file reaches the device, and the file is closed.
fn keep(file: File) -> Result<(), Error> {
    file.sync_all()
}

// A file, or the folder of that name.
fn sync(rt: &HostRuntime, folder: &[u8]) -> Result<(), Error> {
    open_folder(rt, folder)?.sync_all()
}

fn open_folder(rt: &HostRuntime, folder: &[u8]) -> Result<File, Error> {
    if folder.is_empty() {
        return File::open(rt, ".");
    }
    File::open(rt, text_of(folder)?)
}

// The folder's entry too, as far as the system allows it: some file systems cannot.
fn keep_folder(rt: &HostRuntime, name: &[u8]) {
    let folder = crate::names::folder_length(name);
    let _ = sync(rt, &name[..folder]);
}

fn remove(rt: &HostRuntime, part: &[u8]) {
    if let Ok(text) = text_of(part) {
        let _ = fs::remove_file(rt, text);
    }
}

fn rename(rt: &HostRuntime, part: &[u8], name: &[u8]) -> Result<(), Error> {
    fs::rename(rt, text_of(part)?, text_of(name)?)
}

// Says why a new file could not take its place, and removes it.
fn fail_part(rt: &HostRuntime, part: &[u8], about: &[u8], error: &Error) -> bool {
    fail(rt, about, error);
    remove(rt, part);
    false
}

// Puts a new file in the place of another. Gives whether it stands there; if not, the reason was said and nothing is left of it.
fn replace(rt: &HostRuntime, file: File, part: &[u8], name: &[u8], about: &[u8]) -> bool {
    if let Err(error) = keep(file) {
        return fail_part(rt, part, about, &error);
    }
    if let Err(error) = rename(rt, part, name) {
        return fail_part(rt, part, about, &error);
    }
    keep_folder(rt, name);
    true
}

// ---- opened and ended

// An output that could not be had; the reason was said.
fn none() -> Output
    ensures { result.name ≡ 0 × result.part ≡ 0 }
{
    Output {
        fd: -1,
        file: None,
        sort: Sort::Standard,
        name: 0,
        part: 0,
    }
}

// An output in a file.
fn in_file(file: File, sort: Sort, name: usize, part: usize) -> Output
    ensures { result.name ≡ name × result.part ≡ part }
{
    let fd = file.as_raw_fd();
    Output {
        fd,
        file: Some(file),
        sort,
        name,
        part,
    }
}

fn overwrite(rt: &HostRuntime, name: &[u8]) -> Result<File, Error> {
    File::create(rt, text_of(name)?)
}

// A device or a pipe.
fn open_in_place(rt: &HostRuntime, name: &[u8], about: &[u8]) -> Output
    ensures { result.name ≡ 0 × result.part ≡ 0 }
{
    match overwrite(rt, name) {
        Ok(file) => in_file(file, Sort::InPlace, 0, 0),
        Err(error) => {
            fail(rt, about, &error);
            none()
        }
    }
}

// A new file beside the one that it is to replace.
fn open_beside(
    rt: &HostRuntime,
    name: &[u8],
    before: Option<FileStatus>,
    part: &mut [u8],
    about: &[u8],
) -> Output
    ensures { IsPrefixLen result.part part.new }
{
    let Part { file, length } = create_beside(rt, name, part);
    match file {
        Ok(file) => match take_after(&file, before) {
            Ok(()) => in_file(file, Sort::Beside, 0, length),
            Err(error) => {
                fail_part(rt, &part[..length], about, &error);
                none()
            }
        },
        Err(error) => {
            fail(rt, about, &error);
            none()
        }
    }
}

// The file of a name, links followed.
fn open_name(
    rt: &HostRuntime,
    name: &[u8],
    before: Option<FileStatus>,
    part: &mut [u8],
    about: &[u8],
) -> Output
    ensures { IsPrefixLen result.part part.new }
{
    if file_status::is_link(rt, name) {
        fail(rt, about, &Error::from_raw_os_error(NO_TEXT));
        return none();
    }
    if !is_replaceable(rt, name, before, about) {
        return none();
    }
    open_beside(rt, name, before, part, about)
}

// What stands under a name, if anything, or why that cannot be seen.
fn seen(rt: &HostRuntime, name: &[u8]) -> Result<Option<FileStatus>, Error> {
    match file_status::find(rt, name) {
        Ok(status) => Ok(Some(status)),
        Err(error) => match error.kind() {
            ErrorKind::NotFound => Ok(None),
            _ => Err(error),
        },
    }
}

// The file of a name that is a regular one or missing.
fn open_regular(
    rt: &HostRuntime,
    name: &mut [u8],
    n: usize,
    before: Option<FileStatus>,
    part: &mut [u8],
    about: &[u8],
) -> Output
    requires { IsPrefixLen n name.old }
    ensures { IsPrefixLen result.name name.new × IsPrefixLen result.part part.new }
{
    let m = crate::names::follow_links(rt, name, n);
    let opened = open_name(rt, &name[..m], before, part, about);
    let Output {
        fd,
        file,
        sort,
        name: _,
        part: length,
    } = opened;
    Output {
        fd,
        file,
        sort,
        name: m,
        part: length,
    }
}

// The file that a word names.
fn open_word(
    rt: &HostRuntime,
    number: usize,
    name: &mut [u8],
    part: &mut [u8],
    about: &[u8],
) -> Output
    ensures { IsPrefixLen result.name name.new × IsPrefixLen result.part part.new }
{
    let n = match words::fetch(rt, number, name) {
        Ok(n) => n,
        Err(fault) => {
            fail(rt, about, &words::error_of(fault));
            return none();
        }
    };
    match seen(rt, &name[..n]) {
        Ok(before) => {
            if is_special(before) {
                return open_in_place(rt, &name[..n], about);
            }
            open_regular(rt, name, n, before, part, about)
        }
        Err(error) => {
            fail(rt, about, &error);
            none()
        }
    }
}

// The output that a word names, or standard output where there is no such word or it is "-". `about` begins messages.
pub fn open(
    rt: &HostRuntime,
    word: Option<usize>,
    name: &mut [u8],
    part: &mut [u8],
    about: &[u8],
) -> Output
    ensures { IsPrefixLen result.name name.new × IsPrefixLen result.part part.new }
{
    if let Some(number) = crate::names::named(rt, word) {
        return open_word(rt, number, name, part, about);
    }
    Output {
        fd: STDOUT,
        file: None,
        sort: Sort::Standard,
        name: 0,
        part: 0,
    }
}

// A new file takes its place if all was done, and is removed if not.
fn close_beside(
    rt: &HostRuntime,
    file: File,
    status: u32,
    name: &[u8],
    part: &[u8],
    about: &[u8],
) -> u32
    requires { status ≤ 2 }
    ensures { result ≤ 2 }
{
    if status != 0 {
        discard(rt, file, part);
        return status;
    }
    if replace(rt, file, part, name, about) {
        return 0;
    }
    2
}

// A file that is not to stay.
fn discard(rt: &HostRuntime, file: File, part: &[u8]) {
    drop(file);
    remove(rt, part);
}

// Ends an output after the work with this status; gives the status of both. Standard output stays open.
pub fn close(
    rt: &HostRuntime,
    output: Output,
    status: u32,
    name: &[u8],
    part: &[u8],
    about: &[u8],
) -> u32
    requires { status ≤ 2 }
    ensures { result ≤ 2 }
{
    let Output {
        fd: _,
        file,
        sort,
        name: _,
        part: _,
    } = output;
    match file {
        None => status,
        Some(file) => match sort {
            Sort::Beside => close_beside(rt, file, status, name, part, about),
            Sort::InPlace => status,
            Sort::Standard => status,
        },
    }
}
