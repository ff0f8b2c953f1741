// Texts to a file descriptor: the line of a refusal, and the text of a job file, page by page.
#![tactic(auto)]

ghost use Rattle.reading.specs.Steps.{JobOf};

use reading::Job;
use refusal::Refusal;

// The line of a refusal; gives whether all of it was written.
pub fn print_refusal(fd: i32, refusal: Refusal) -> bool {
    let mut line = [0u8; 64];
    let used = text_lines::put_refusal(&mut line, refusal);
    io::write_all(fd, &line[..used])
}

// The line of a tidy file.
pub fn print_tidy(fd: i32) -> bool {
    let mut line = [0u8; 64];
    let used = text_lines::put_tidy(&mut line);
    io::write_all(fd, &line[..used])
}

// The text of a readable file: each page goes on where the one before ended.
fn print_job(fd: i32, file: &[u8], job: Job) -> bool
    requires { JobOf file.now job }
{
    let plunges = job.plunges;
    let mut page = io::large_buffer();
    let mut next = 0;
    while next <= plunges + 1 {
        let filled = text::put_page(&mut page, file, job, next);
        let used = filled.used;
        if !io::write_all(fd, &page[..used]) {
            return false;
        }
        next = filled.next;
    }
    true
}

// The text of a file; gives whether it is readable and all of it was written.
pub fn print_file(fd: i32, file: &[u8]) -> bool {
    let answer = reading::read(file);
    match answer {
        Ok(job) => print_job(fd, file, job),
        Err(_) => false,
    }
}
