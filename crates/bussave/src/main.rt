// bussave DAMAGED CLEAN: saves what is whole of a damaged record file (02 c). It lists each run of bytes that it skips on standard output
// and writes the kept records to CLEAN, a file that it makes. Thin over `salvage`: arguments, files, bytes out.
// Refusals: none; any bytes are taken. What cannot be opened, read, made or written is said on standard error.
#![tactic(auto)]

mod complaints;
mod runs;
mod savings;
mod strays;

use complaints::{PROGRAM, show_usage};
use lines::{NAME_BYTES, is_dash, remark};
use runs::{Names, save};
use status::{Status, ask, asks_help, count_arguments, is_at, is_name, is_option};
use std::num::wrapping_add_usize;

// Says whether an argument may be a name where no `--` stands before it. Where it may not, standard error says so.
fn is_plain(text: &[u8]) -> bool {
    if is_option(text) {
        remark(
            &PROGRAM,
            text,
            b" is no option; a file of that name goes behind --",
        );
        return false;
    }
    true
}

// Saves the file that the argument at a place names to the one that the next names.
fn save_named(rt: HostRuntime, first: usize, behind: bool) -> Status {
    let mut damaged = [0u8; NAME_BYTES];
    let from = ask(rt, first, &mut damaged);
    if !is_name(&PROGRAM, b"DAMAGED", from) {
        return Status::Usage;
    }
    let mut clean = [0u8; NAME_BYTES];
    let to = ask(rt, wrapping_add_usize(first, 1), &mut clean);
    if !is_name(&PROGRAM, b"CLEAN", to) {
        return Status::Usage;
    }
    let names = Names {
        damaged: &damaged[..from.unwrap_or(0)],
        clean: &clean[..to.unwrap_or(0)],
    };
    if !behind && !(is_plain(names.damaged) && is_plain(names.clean)) {
        return Status::Usage;
    }
    if is_dash(names.clean) {
        remark(
            &PROGRAM,
            b"CLEAN",
            b" cannot be -: the lines go to standard output, so the clean file needs a name",
        );
        return Status::Usage;
    }
    save(rt, names)
}

// Does what the arguments from a place on ask, and gives how that ended.
fn run(rt: HostRuntime, first: usize) -> Status {
    if asks_help(rt, first) {
        return show_usage(rt, true);
    }
    let behind = is_at(rt, first, b"--");
    let names = if behind {
        wrapping_add_usize(first, 1)
    } else {
        first
    };
    if count_arguments(rt) != wrapping_add_usize(names, 2) {
        return show_usage(rt, false);
    }
    save_named(rt, names, behind)
}

fn main(rt: HostRuntime) {
    status::run(rt, &PROGRAM, |first| run(rt, first));
}
