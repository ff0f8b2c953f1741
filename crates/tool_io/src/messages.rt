// Messages on standard error: what they are about, a colon, words.
use std::io::Error;

// Standard error.
const STDERR: i32 = 2;

// One line.
pub fn say(about: &[u8], words: &[u8]) {
    let mut page = io::large_buffer();
    let a = phrases::append(&mut page, 0, about);
    let b = phrases::append(&mut page, a, b": ");
    let c = phrases::append(&mut page, b, words);
    let d = phrases::append(&mut page, c, b"\n");
    io::write_all(STDERR, &page[..d]);
}

// One line with a number in it.
pub fn say_number(about: &[u8], before: &[u8], n: u64, after: &[u8]) {
    let mut words = [0u8; 256];
    let used = phrases::append_phrase(&mut words, 0, before, n, after);
    say(about, &words[..used]);
}

// The system's words for an error, without its number.
fn without_number(text: &str) -> &str {
    match text.split_once(" (os error ") {
        Some((words, _)) => words,
        None => text,
    }
}

// One line: what failed, and why.
pub fn fail(rt: &HostRuntime, about: &[u8], error: &Error) {
    match format!(in rt.alloc(); "{error}") {
        Ok(text) => say(about, without_number(text.as_str()).as_bytes()),
        Err(_) => say(about, b"Cannot allocate memory"),
    }
}

// The same of the call that was made last, where its answer is only that it failed.
pub fn fail_last(rt: &HostRuntime, about: &[u8]) {
    let error = std_io::io::last_error();
    fail(rt, about, &error);
}
