// Press motions to a file descriptor, page by page.
ghost use Rattle.reading.specs.Steps.{JobOf};

use motion_floats::Scale;
use reading::Job;

// The motions of a readable file's plunges: each page goes on where the one before ended.
fn print_job(fd: i32, table: &[u16; sink::ENTRIES], file: &[u8], job: Job, scale: Scale) -> bool
    requires { JobOf file.now job }
{
    let plunges = job.plunges;
    let mut page = io::large_buffer();
    let mut next = 0;
    while next < plunges {
        let filled = motion_text::put_page(&mut page, table, file, job, scale, next);
        let used = filled.used;
        if !io::write_all(fd, &page[..used]) {
            return false;
        }
        next = filled.next;
    }
    true
}

// The motions of a file by a sink table; gives whether it is readable and all of them were written.
pub fn print_motions(fd: i32, table: &[u16; sink::ENTRIES], file: &[u8], scale: Scale) -> bool {
    let answer = reading::read(file);
    match answer {
        Ok(job) => print_job(fd, table, file, job, scale),
        Err(_) => false,
    }
}
