// soak: makes calls of the stream that bench/soak.h defines, hands them to the proved terminal, and writes a checksum over every outcome.
// soak CALLS [SEED [EVERY]]: a line "soak CALLS CHECKSUM" every so many calls and at the end, the same that bench/soak.c writes of plain C.
#![tactic(auto)]

mod arguments;
mod benches;
mod calls;
mod commands;
mod counts;
mod draws;
mod hosts;
mod messages;
mod outputs;
mod refusals;
mod setups;
mod strays;
mod streams;
mod sums;
mod sweeps;
mod tables;

use arguments::{Asked, read_arguments};
use benches::Bench;
use outputs::{write_line, write_usage};
use streams::Stream;
use tables::Tables;

// What goes from call to call.
#[derive(Clone, Copy)]
struct Progress {
    stream: Stream,
    bench: Bench,
}

// Makes the call of that number. Keeping the loop out of it keeps what a call does out of the loop's invariant.
fn turn(progress: Progress, number: u64, seed: &mut u64, tables: &mut Tables) -> Progress {
    let made = progress.stream.next(seed);
    let played = progress.bench.play(made.call, tables);
    Progress {
        stream: made.stream,
        bench: played.look(number, tables),
    }
}

// Writes the line after the call of that number, where one is due. Says whether somebody may still read.
fn report(rt: HostRuntime, number: u64, asked: Asked, sum: u64) -> bool {
    if number.is_multiple_of(asked.every) | (number == asked.calls) {
        return write_line(rt, number, sum);
    }
    true
}

// Makes the calls that are asked for.
fn run(rt: HostRuntime, asked: Asked) {
    let mut seed = asked.seed;
    let mut tables = Tables::start(&mut seed);
    let mut progress = Progress {
        stream: Stream::start(),
        bench: Bench::start(),
    };
    for number in 1..=asked.calls {
        progress = turn(progress, number, &mut seed, &mut tables);
        if !report(rt, number, asked, progress.bench.sum) {
            return;
        }
    }
}

fn main(rt: HostRuntime) {
    match read_arguments(rt) {
        Some(asked) => run(rt, asked),
        None => write_usage(),
    }
}
