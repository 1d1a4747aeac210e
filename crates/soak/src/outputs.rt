// The lines that the program writes.
use std::io::{ErrorKind, Result};

// the number of standard error
const ERRORS: i32 = 2;

// Says whether somebody may still read, after a write: any other failure than that of a pipe that nobody reads any more is passed over.
fn is_heard(written: Result<()>) -> bool {
    !written.is_err_and(|error| error.kind() == ErrorKind::BrokenPipe)
}

// "A line 'soak CALLS CHECKSUM' gives the number of calls in decimal and h in 16 hexadecimal digits, capitals." Each part is written by
// itself, also behind one that was not taken. Says whether somebody may still read.
pub(crate) fn write_line(rt: HostRuntime, calls: u64, sum: u64) -> bool {
    is_heard(print!(rt; "soak "))
        && is_heard(print!(rt; "{calls}"))
        && is_heard(print!(rt; " "))
        && is_heard(print!(rt; "{sum:016X}"))
        && is_heard(print!(rt; "\n"))
}

pub(crate) fn write_usage() {
    io::write_all(ERRORS, b"usage: soak CALLS [SEED [EVERY]]\n");
}
