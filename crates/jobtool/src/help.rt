// What jobtool says of itself.
ghost use Rattle.std.specs.Prelude.{◌≤◌};

use crate::{STDERR, STDOUT};

// The status behind a text that was to go to standard output: 0, or 2 where it could not be written, which is said.
fn printed(rt: &HostRuntime, ok: bool) -> u32
    ensures { result ≤ 2 }
{
    if ok {
        return 0;
    }
    tool_io::messages::fail_last(rt, b"jobtool: standard output");
    2
}

// A wrong use: one line on standard error.
pub fn usage() -> u32
    ensures { result ≤ 2 }
{
    io::write_all(
        STDERR,
        b"usage: jobtool COMMAND [WORDS] [-o OUT]; jobtool --help tells the commands\n",
    );
    2
}

pub fn print_version(rt: &HostRuntime) -> u32
    ensures { result ≤ 2 }
{
    printed(rt, io::write_all(STDOUT, b"jobtool of Haruseopda 0.2\n"))
}

// A line for each command, and an example.
pub fn print_help(rt: &HostRuntime) -> u32
    ensures { result ≤ 2 }
{
    if !io::write_all(
        STDOUT,
        b"jobtool: plunge lists of a sinking press, as job files\n\n",
    ) {
        return printed(rt, false);
    }
    if !print_commands() {
        return printed(rt, false);
    }
    printed(rt, print_rest())
}

fn print_commands() -> bool {
    if !io::write_all(
        STDOUT,
        b"  jobtool list [SCAN]         a scan's list of plunges, as a job file\n  jobtool draw [JOB]          the relief that a job file cuts, as a scan\n  jobtool tidy [JOB]          the canonical form of a job file\n",
    ) {
        return false;
    }
    if !io::write_all(
        STDOUT,
        b"  jobtool check [JOB...]      whether job files are tidy\n  jobtool show [JOB...]       job files as text\n  jobtool info [JOB...]       what a planner asks: electrodes, changes, travel, volume\n",
    ) {
        return false;
    }
    io::write_all(
        STDOUT,
        b"  jobtool same JOB JOB        whether two job files cut the same relief\n  jobtool motions HALF_PITCH COLUMN_OFFSET ROW_OFFSET [JOB]\n                              the press motions, in millimetres; --table FILE: by a shop's own sink table\n  jobtool table [FILE]        a sink table, checked, as text\n",
    )
}

fn print_rest() -> bool {
    if !io::write_all(
        STDOUT,
        b"  jobtool scan [PICTURE]      a PGM picture as a scan; --kind 4 for diamonds (8 otherwise)\n  jobtool picture [FILE]      a scan, or what a job file cuts, as a PGM picture\n\nWithout a name, or with -, it reads standard input; with -o OUT the answer goes to that file.\nWith --rungs list and tidy also tell, on standard error, how many rungs were climbed.\n",
    ) {
        return false;
    }
    io::write_all(
        STDOUT,
        b"Status: 0 done, 1 refused (not tidy, not the same), 2 trouble or wrong use.\n\nexample: jobtool list coin.scan -o coin.job && jobtool show coin.job\n",
    )
}
