// Asks for names whose answers are the same on every Linux system, and prints what file_status says of them.
#![tactic(auto)]

use file_status::{DEVICE, FOLDER, KIND, REGULAR, is_writable, link_target, status_of};

// Standard output.
const STDOUT: i32 = 1;

fn say(text: &[u8]) {
    io::write_all(STDOUT, text);
}

// The kind of a file, by its mode.
fn say_kind(mode: u32) {
    let kind = mode & KIND;
    if kind == REGULAR {
        say(b"regular");
    } else if kind == FOLDER {
        say(b"folder");
    } else if kind == DEVICE {
        say(b"device");
    } else {
        say(b"other");
    }
}

// A line: what the caller calls the name, and what it stands for.
fn show_kind(rt: &HostRuntime, label: &[u8], name: &[u8]) {
    say(label);
    say(b": ");
    match status_of(rt, name) {
        Some(status) => say_kind(status.mode),
        None => say(b"none"),
    }
    say(b"\n");
}

// A line: where a link leads.
fn show_link(rt: &HostRuntime, name: &[u8]) {
    let mut target = [0u8; 64];
    let n = link_target(rt, name, &mut target);
    say(name);
    if n == 0 {
        say(b": no link\n");
    } else {
        say(b" leads to ");
        say(&target[..n]);
        say(b"\n");
    }
}

// A line: whether a file may be written.
fn show_writable(rt: &HostRuntime, name: &[u8]) {
    say(name);
    if is_writable(rt, name) {
        say(b": writable\n");
    } else {
        say(b": not writable\n");
    }
}

fn main(rt: HostRuntime) {
    show_kind(&rt, b"plain.txt", b"plain.txt");
    show_kind(&rt, b".", b".");
    show_kind(&rt, b"/dev/null", b"/dev/null");
    show_kind(&rt, b"missing", b"missing");
    show_kind(&rt, b"plain.txt/below", b"plain.txt/below");
    show_kind(&rt, b"no name", b"");
    show_kind(&rt, b"a link to a file", b"/proc/mounts");
    // C would read the first byte, the folder
    show_kind(&rt, b"a name with a 0 in it", &[b'.', 0]);
    // the folder, and slashes behind it: the longest name that C takes, and one byte more
    let mut name = [b'/'; 4096];
    name[0] = b'.';
    show_kind(&rt, b"a name of 4095 bytes", &name[..4095]);
    show_kind(&rt, b"a name of 4096 bytes", &name);
    show_link(&rt, b"/proc/mounts");
    show_link(&rt, b"plain.txt");
    show_link(&rt, b"missing");
    show_writable(&rt, b"/dev/null");
    show_writable(&rt, b"missing");
}
