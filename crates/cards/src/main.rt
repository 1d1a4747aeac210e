// cards: reads a bench script on standard input and writes one line for each call to standard output (docs/BENCH.md; 01 Bench cards).
// Thin over `terminal`, `verdict` and `records`: here are only lines, numbers and places. Any bytes may come in. What is no call, and what
// cannot be read or written, is said on standard error.
#![tactic(auto)]

mod benches;
mod buffers;
mod calls;
mod complaints;
mod gatherings;
mod outputs;
mod parts;
mod reasons;
mod replies;
mod scripts;
mod tables;
mod terminals;
mod usages;
mod verdicts;

use benches::Bench;
use complaints::{PROGRAM, show_usage};
use lines::{Source, complain};
use scripts::{Failed, Script};
use status::{Status, asks_help, count_arguments};

// Reads one block and runs its lines. Says whether there may be more.
fn read_block(rt: HostRuntime, script: &mut Script, bench: &mut Bench) -> Result<bool, Failed> {
    let mut block = io::large_buffer();
    match Source::Input(rt.stdin()).read(&mut block) {
        Ok(0) => Ok(false),
        Ok(count) => {
            script.run_block(&block[..count], bench)?;
            Ok(true)
        }
        Err(why) => {
            complain(&PROGRAM, b"standard input", why);
            Err(Failed)
        }
    }
}

// Plays the script to its end. A proved loop has to end, and nothing says that the input does: it has more turns than any run uses up. A
// line that a failure cut is none.
fn play_all(rt: HostRuntime, script: &mut Script, bench: &mut Bench) -> Result<Status, Failed> {
    for _ in 0..u64::MAX {
        if !read_block(rt, script, bench)? {
            break;
        }
    }
    script.end(bench)
}

// Plays the script on a fresh bench.
fn play(rt: HostRuntime) -> Status {
    let mut script = Script::start(rt);
    let mut bench = Bench::start();
    match play_all(rt, &mut script, &mut bench) {
        Ok(status) => status,
        Err(Failed) => Status::Failed,
    }
}

// Does what the arguments from a place on ask, and gives how that ended.
fn act(rt: HostRuntime, first: usize) -> Status {
    if count_arguments(rt) <= first {
        return play(rt);
    }
    show_usage(rt, asks_help(rt, first))
}

fn main(rt: HostRuntime) {
    status::run(rt, &PROGRAM, |first| act(rt, first));
}
