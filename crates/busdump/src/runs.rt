// One run of the program: the files opened, listed and closed, one after the other (02 a). Every file is opened to read alone, so that one
// which gets the number of a closed standard error takes none of what is said. Refusals: as the closing line of a file says them.
use crate::complaints::{PROGRAM, explain_beginning, explain_record};
use crate::dumps::Dump;
use crate::options::Options;
use crate::outputs::put_title;
use crate::readers::{Reader, Unbegun, open};
use crate::tallies::{Tally, byte_of};
use lines::{Block, NAME_BYTES, Sink, Target, between, complain, is_dash, open_named, remark};
use records::{BUS_A, BUS_B};
use status::{Status, ask, count_arguments};
use std::fs::File;
use std::io::Seek;
use texts::put_log_refused;
use words::Refusal;

// Where the next file's lines go: in an Err where not all of this one was read and listed, which was said.
type Closed = Result<Sink, Sink>;

// Says why a file has no log, and closes it by its name.
fn give_up(listed: Sink, listing: &mut Block, name: &[u8], why: &[u8]) -> Closed {
    remark(&PROGRAM, name, why);
    Err(listed.end_in_error(listing, &PROGRAM, name))
}

// Says what failed, by the system's number for it, and closes the file by its name.
fn fail(listed: Sink, listing: &mut Block, name: &[u8], why: i32) -> Closed {
    Err(listed.fail(listing, &PROGRAM, name, why))
}

// Closes a file that was refused as a whole, and that begins with so many bytes of the chunk.
fn end_refused(
    listed: Sink,
    listing: &mut Block,
    name: &[u8],
    refusal: Refusal,
    chunk: &Block,
    count: usize,
) -> Closed {
    let ended = put_log_refused(listed, listing, refusal.number(), 0, 0, 0);
    let told = ended.flush_told(listing, &PROGRAM);
    explain_beginning(name, refusal, between(chunk, 0, count));
    Err(told)
}

// Closes a file on which its readings did not agree.
const CHANGED: &[u8] = b": it changed while it was read, and these lines are not its log";

impl Dump<'_> {
    // Closes a log that was read up to its end, or up to a record that is refused.
    fn close_read(&mut self, name: &[u8]) -> Closed {
        let refusal = self.refusal();
        let records = self.records();
        let listed = self.tally.close(refusal, records);
        if let Some(refusal) = refusal {
            explain_record(name, refusal, records, byte_of(records));
            return Err(listed);
        }
        match listed.failure {
            None => Ok(listed),
            Some(_) => Err(listed),
        }
    }

    // Closes a log, whatever stopped it.
    fn close(&mut self, name: &[u8]) -> Closed {
        let listed = self.tally.listed;
        if let Some(why) = listed.failure {
            complain(&PROGRAM, b"standard output", why);
            return Err(listed);
        }
        if let Some(why) = self.failure() {
            return fail(listed, self.tally.block, name, why);
        }
        if !self.is_agreed() {
            return give_up(listed, self.tally.block, name, CHANGED);
        }
        self.close_read(name)
    }
}

// Lists the log of a file that is open twice.
fn dump_both(
    input: &File,
    again: &File,
    listed: Sink,
    listing: &mut Block,
    name: &[u8],
    options: Options,
) -> Closed {
    let mut ahead = io::large_buffer();
    let mut behind = io::large_buffer();
    let first = match open(input, &mut ahead) {
        Ok(window) => window,
        Err(Unbegun::Refused(refusal, count)) => {
            return end_refused(listed, listing, name, refusal, &ahead, count);
        }
        Err(Unbegun::Failed(why)) => return fail(listed, listing, name, why),
    };
    let second = match open(again, &mut behind) {
        Ok(window) => window,
        Err(Unbegun::Refused(_, _)) => {
            return give_up(listed, listing, name, b": it changed while it was read");
        }
        Err(Unbegun::Failed(why)) => return fail(listed, listing, name, why),
    };
    let mut dump = Dump::on(
        Reader::start(input, &mut ahead, first, BUS_A),
        Reader::start(again, &mut behind, second, BUS_B),
        Tally::start(options.wanted(), options.in_words, listed, listing),
    );
    dump.list_all();
    dump.close(name)
}

// Lists the log of a file that is open once. A pipe has no place to go back to: what it brings comes once.
fn dump_open(
    rt: HostRuntime,
    input: &File,
    listed: Sink,
    listing: &mut Block,
    name: &[u8],
    options: Options,
) -> Closed {
    let mut place = input;
    if place.stream_position().is_err() {
        return give_up(
            listed,
            listing,
            name,
            b": cannot be read twice, as a log needs it: copy it to a file first",
        );
    }
    match open_named(rt, name) {
        Ok(again) => dump_both(input, &again, listed, listing, name, options),
        Err(why) => fail(listed, listing, name, why),
    }
}

// Lists the log of a file. The first line goes out before it is opened: where standard output is closed, the file would take its number. Nothing waits before it
// and it fits the block, so that only the flush can fail.
fn dump_file(
    rt: HostRuntime,
    sink: Sink,
    listing: &mut Block,
    name: &[u8],
    options: Options,
) -> Closed {
    let titled = put_title(rt, sink, listing, options.begin, options.end, name);
    let listed = titled.flush_told(listing, &PROGRAM);
    if listed.failure.is_some() {
        return Err(listed);
    }
    if is_dash(name) {
        return give_up(
            listed,
            listing,
            name,
            b": standard input cannot be read twice, as a log needs it: give the name of a file",
        );
    }
    match open_named(rt, name) {
        Ok(input) => dump_open(rt, &input, listed, listing, name, options),
        Err(why) => fail(listed, listing, name, why),
    }
}

// Lists the log of the file that an argument names.
fn dump_argument(
    rt: HostRuntime,
    sink: Sink,
    listing: &mut Block,
    place: usize,
    options: Options,
) -> Closed {
    let mut name = [0u8; NAME_BYTES];
    let length = ask(rt, place, &mut name).unwrap_or(0);
    dump_file(rt, sink, listing, &name[..length], options)
}

// Lists the logs of all files, and gives whether all went well. Where standard output fails, nothing could be shown of those behind.
pub(crate) fn dump_files(rt: HostRuntime, options: Options) -> Status {
    let mut listing = io::large_buffer();
    let mut sink = Sink::to(Target::Output(rt.stdout()));
    let mut status = Status::Good;
    for place in options.first..count_arguments(rt) {
        if sink.failure.is_some() {
            break;
        }
        let closed = dump_argument(rt, sink, &mut listing, place, options);
        status = Status::of(closed.is_ok()).after(status);
        sink = match closed {
            Ok(listed) | Err(listed) => listed,
        };
    }
    status
}
