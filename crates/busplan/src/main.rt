// busplan [-v] [-o OUT] FILE: checks a schedule of messages, or proposes the first frames where one is missing (02 j). Thin over `schedule`
// and `plans`: arguments, lines out, and a file where one is asked for. Refusals: 15, in the line that closes the lines. Whatever is not accepted,
// and what cannot be opened, read, made or written, is said on standard error.
#![tactic(auto)]

mod arguments;
mod complaints;
mod explanations;
mod files;
mod flaws;
mod outputs;
mod readers;
mod runs;
mod trials;

use arguments::{NoPlan, Options, read_call};
use complaints::{PROGRAM, show_usage};
use lines::NAME_BYTES;
use runs::Job;
use status::{Status, ask, is_name};

// Checks or proposes the schedule of the file that the arguments name.
fn plan_named(rt: HostRuntime, options: Options) -> Status {
    let mut name = [0u8; NAME_BYTES];
    let asked = ask(rt, options.at, &mut name);
    if !is_name(&PROGRAM, b"FILE", asked) {
        return Status::Usage;
    }
    let mut out = [0u8; NAME_BYTES];
    let named = match options.out {
        Some(place) => ask(rt, place, &mut out).unwrap_or(0),
        None => 0,
    };
    let job = Job {
        name: &name[..asked.unwrap_or(0)],
        out: if named > 0 { Some(&out[..named]) } else { None },
        in_words: options.in_words,
    };
    Status::of(job.plan(rt))
}

// Does what the arguments from a place on ask, and gives how that ended.
fn run(rt: HostRuntime, first: usize) -> Status {
    match read_call(rt, first) {
        Ok(options) => plan_named(rt, options),
        Err(NoPlan::Help) => show_usage(rt, true),
        Err(NoPlan::Unclear) => show_usage(rt, false),
        Err(NoPlan::Wrong) => Status::Usage,
    }
}

fn main(rt: HostRuntime) {
    status::run(rt, &PROGRAM, |first| run(rt, first));
}
