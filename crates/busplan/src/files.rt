// The file that `-o` asks for: the schedule with the first frames that hold, as a plan that the program reads again (02 j; docs/LINES.md). It is
// never one that exists. Refusals: none; what cannot be made or written is said on standard error.
use crate::complaints::PROGRAM;
use lines::{
    Block, Sink, Target, complain, failure_of, hold_errors, make_named, number_of, remark,
};
use schedule::{Frames, Schedule};
use std::fs::File;
use std::os::fd::AsRawFd;
use texts::put_plan;

// Writes what waits for the file, and where not all of it is on the disk gives the system's number for why, as the sentence will have it.
fn close(sink: Sink, block: &Block, file: &File) -> Result<(), i32> {
    let after = sink.flush(block);
    if after.failure.is_some() {
        return Err(failure_of(file));
    }
    file.sync_all().map_err(number_of)
}

// Makes the file of a schedule, and says whether it is whole. One that is not stays.
pub(crate) fn save(
    rt: HostRuntime,
    name: &[u8],
    schedule: Schedule,
    firsts: &Frames,
    capacities: &Frames,
) -> bool {
    // a plan was read and a line was written, so that only standard error's number can be free
    hold_errors(rt);
    let file = match make_named(rt, name) {
        Ok(made) => made,
        Err(why) => {
            complain(&PROGRAM, name, why);
            return false;
        }
    };
    let mut block = io::large_buffer();
    let sink = Sink::to(Target::Made(file.as_raw_fd()));
    let planned = put_plan(sink, &mut block, schedule, firsts, capacities);
    match close(planned, &block, &file) {
        Ok(()) => true,
        Err(why) => {
            complain(&PROGRAM, name, why);
            remark(&PROGRAM, name, b": not whole");
            false
        }
    }
}
