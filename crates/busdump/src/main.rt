// busdump FILE..: prints the log of whole messages of each record file (02 a). Thin over `monitor`: arguments, files, bytes out.
// Refusals: 8 of a file, 3, 4, 5, 6 of a record, in the line that closes the file and in words on standard error, as is what cannot be opened or read.
#![tactic(auto)]

mod complaints;
mod dumps;
mod options;
mod outputs;
mod readers;
mod runs;
mod tallies;

use complaints::{PROGRAM, show_usage};
use options::{Unread, read_call};
use runs::dump_files;
use status::Status;

// Does what the arguments from a place on ask, and gives how that ended.
fn run(rt: HostRuntime, first: usize) -> Status {
    match read_call(rt, first) {
        Ok(options) => dump_files(rt, options),
        Err(Unread::Help) => show_usage(rt, true),
        Err(Unread::NoFile) => show_usage(rt, false),
        Err(Unread::Wrong) => Status::Usage,
    }
}

fn main(rt: HostRuntime) {
    status::run(rt, &PROGRAM, |first| run(rt, first));
}
