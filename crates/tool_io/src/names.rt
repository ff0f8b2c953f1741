// Names of files: as words give them, as messages show them, links followed, a name for a new file beside another.
ghost use Rattle.std.specs.Prelude.{◌≡◌, ◌≤◌, ◌<◌, length, IfSome, Some};
ghost use Rattle.io.specs.Counts.{IsPrefixLen};

use crate::words::fetch;
use std::env::FillError;
use std::random::RandomSource;

// The number of a word that is there and is not "-", which stands for standard input or output.
pub fn named(rt: &HostRuntime, word: Option<usize>) -> Option<usize>
    ensures { IfSome result (λ number. word ≡ Some number) }
{
    let number = word?;
    let mut text = [0u8; 2];
    let n = fetch(rt, number, &mut text).unwrap_or(0);
    if check::same(&text[..n], b"-") {
        None
    } else {
        Some(number)
    }
}

// A name as it is shown; of one that is too long for the system the beginning.
fn append_shown(rt: &HostRuntime, page: &mut [u8], at: usize, number: usize) -> usize
    requires { at ≤ length page.old }
    ensures { IsPrefixLen result page.new }
{
    let mut name = io::buffer();
    match fetch(rt, number, &mut name) {
        Ok(n) => phrases::append_name(page, at, &name[..n]),
        Err(FillError::NotPresent) => at,
        Err(FillError::TooLong) => {
            let mut begin = [0u8; 64];
            let _ = fetch(rt, number, &mut begin);
            let begun = phrases::append_name(page, at, &begin);
            phrases::append(page, begun, b"...")
        }
    }
}

// A file's name and what follows it, before what is told of that file; gives its length.
pub fn heading(rt: &HostRuntime, page: &mut [u8], word: Option<usize>, after: &[u8]) -> usize
    ensures { IsPrefixLen result page.new }
{
    let shown = match named(rt, word) {
        Some(number) => append_shown(rt, page, 0, number),
        None => phrases::append(page, 0, b"standard input"),
    };
    phrases::append(page, shown, after)
}

// What messages about a file begin with: the program, and the name, or `standard` where there is none. Gives its length.
pub fn label(rt: &HostRuntime, page: &mut [u8], word: Option<usize>, standard: &[u8]) -> usize
    ensures { IsPrefixLen result page.new }
{
    let at = phrases::append(page, 0, b"jobtool: ");
    match named(rt, word) {
        Some(number) => append_shown(rt, page, at, number),
        None => phrases::append(page, at, standard),
    }
}

// How much of a name is its folder, the last slash included.
pub fn folder_length(name: &[u8]) -> usize
    ensures { IsPrefixLen result name.now }
{
    match name.iter().rposition(|b| *b == b'/') {
        Some(i) => i + 1,
        None => 0,
    }
}

fn is_absolute(name: &[u8]) -> bool {
    name.starts_with(b"/")
}

// A link's name becomes the one that it leads to.
fn redirect(name: &mut [u8], n: usize, link: &[u8]) -> usize
    requires { IsPrefixLen n name.old }
    ensures { IsPrefixLen result name.new }
{
    if is_absolute(link) {
        return phrases::append(name, 0, link);
    }
    let folder = folder_length(&name[..n]);
    phrases::append(name, folder, link)
}

// Follows one link; 0 where the name is none.
fn follow_link(rt: &HostRuntime, name: &mut [u8], n: usize) -> usize
    requires { IsPrefixLen n name.old }
    ensures { IsPrefixLen result name.new }
{
    let mut link = io::buffer();
    let m = file_status::link_target(rt, &name[..n], &mut link);
    if m == 0 {
        return 0;
    }
    redirect(name, n, &link[..m])
}

// Follows links, 40 at most, as the system does. A name that outgrows the buffer fills it, and is then refused as too long.
pub fn follow_links(rt: &HostRuntime, name: &mut [u8], n: usize) -> usize
    requires { IsPrefixLen n name.old }
    ensures { IsPrefixLen result name.new }
{
    let mut used = n;
    for _ in 0..40 {
        let next = follow_link(rt, name, used);
        if next == 0 {
            return used;
        }
        used = next;
    }
    used
}

// A number that no other program is likely to take: 32 random bits.
fn random_number(rt: &HostRuntime) -> u64 {
    let mut bytes = [0u8; 4];
    let _ = rt.fill_bytes(&mut bytes);
    u64::from(u32::from_be_bytes(bytes))
}

// A name for a new file in the folder of another; gives its length.
pub fn new_name(rt: &HostRuntime, page: &mut [u8], beside: &[u8]) -> usize
    ensures { IsPrefixLen result page.new }
{
    let folder = folder_length(beside);
    let at = phrases::append(page, 0, &beside[..folder]);
    phrases::append_phrase(page, at, b"jobtool-", random_number(rt), b".part")
}
