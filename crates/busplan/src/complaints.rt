// The program's name, with which all begins that it says on standard error, its sentences, where something is and what is wrong with
// it, and the usage. Refusals: none.
use crate::flaws::put_flaw;
use lines::{Block, Sink, Target, begin_complaint};
use plans::{BadLine, Fault};
use schedule::Message;
use status::Status;

pub(crate) const PROGRAM: [u8; 7] = *b"busplan";

// Writes what the program does and how it is called, where that was asked for or it was called wrongly.
pub(crate) fn show_usage(rt: HostRuntime, asked: bool) -> Status {
    status::show_usage(
        rt,
        &PROGRAM,
        b"busplan - check a schedule of messages over 64 minor frames, or propose the first frames of one
usage: bus plan [-v] [-o OUT] [--] FILE      FILE: - is standard input
  -v      add its command words and its period to the line of each message
  -o OUT  write the accepted schedule to OUT, a file that does not exist yet, in the form of FILE
FILE is text. Parts of a line stand apart by spaces, # begins a comment, words are hexadecimal, numbers decimal:
  capacity TICKS                  the capacity of all 64 frames; a later line wins
  capacity FRAME TICKS            the capacity of one, 0 to 63
  message C1 [C2] PERIOD [FIRST]  its command words, every how many frames, the first of these
Where a message has no FIRST, those of all are proposed. The last line is '# accepted' where the schedule holds, and only then.
Exit status through bus: 0 all is well, 1 not, 2 called wrongly. Without bus: --status-fd N, in front of all, writes that digit to descriptor N.
example: bus plan season.plan >season.lines && echo it holds
",
        asked,
    )
}

// Each sentence is a function of its own: what they share is how they begin and end.

// Begins a sentence of a file: "busplan: NAME".
fn begin(name: &[u8]) -> Sink {
    begin_complaint(&PROGRAM, name);
    Sink::to(Target::Errors)
}

// Begins a sentence of a message: "busplan: NAME: message 4 on line 7".
fn begin_message(block: &mut Block, name: &[u8], number: u64, line: u64) -> Sink {
    begin(name)
        .put_number(block, b": message ", number)
        .put_number(block, b" on line ", line)
}

// Ends a sentence, and writes it.
fn end(sink: Sink, block: &mut Block, text: &[u8]) {
    sink.put_text(block, text).put(block, b'\n').flush(block);
}

// Gives what is wrong with a line, in words.
fn text_of(fault: Fault) -> &'static [u8] {
    match fault {
        Fault::Unknown => b": it begins neither with capacity nor with message",
        Fault::NoSign => {
            b": it has a control byte; parts stand apart by spaces alone, no tab and no carriage return"
        }
        Fault::TooLong => b": it is longer than any line of a plan",
        Fault::CapacityParts => b": capacity wants TICKS, or FRAME TICKS",
        Fault::MessageParts => b": message wants C1 [C2] PERIOD [FIRST]",
        Fault::Command => b": a command word has four hexadecimal digits",
        Fault::Number => b": a number has 1 to 20 decimal digits and is below 2^64",
        Fault::Frame => b": a frame is 0 to 63",
    }
}

// Says what is wrong with a line: "busplan: NAME: line 3: a frame is 0 to 63".
pub(crate) fn complain_of_line(name: &[u8], bad: BadLine) {
    let mut block = io::large_buffer();
    let begun = begin(name).put_number(&mut block, b": line ", bad.line);
    end(begun, &mut block, text_of(bad.fault));
}

// Says why a message is refused.
pub(crate) fn complain_of_flaw(name: &[u8], number: u64, line: u64, message: Message) {
    let mut block = io::large_buffer();
    let begun = begin_message(&mut block, name, number, line);
    let flawed = put_flaw(begun, &mut block, message);
    end(flawed, &mut block, b" (refusal 15)");
}

// Says that a message is one too many.
pub(crate) fn complain_of_count(name: &[u8], number: u64, line: u64) {
    let mut block = io::large_buffer();
    let begun = begin_message(&mut block, name, number, line);
    end(
        begun,
        &mut block,
        b": a schedule has at most 64 messages (refusal 15)",
    );
}

// Says that the first frame of a message is rejected.
pub(crate) fn complain_of_first(name: &[u8], number: u64, line: u64, first: u64, period: u64) {
    let mut block = io::large_buffer();
    let placed = begin_message(&mut block, name, number, line)
        .put_number(&mut block, b": its first frame ", first)
        .put_number(&mut block, b" is not below its period ", period);
    end(placed, &mut block, b"");
}

// Says that a frame is rejected.
pub(crate) fn complain_of_frame(name: &[u8], frame: u64, load: u64, capacity: u64) {
    let mut block = io::large_buffer();
    let loaded = begin(name)
        .put_number(&mut block, b": frame ", frame)
        .put_number(&mut block, b": its load of ", load)
        .put_number(&mut block, b" ticks is above its capacity of ", capacity);
    end(loaded, &mut block, b"");
}

// Says that a message has no place, even alone.
pub(crate) fn complain_of_place(name: &[u8], number: u64, line: u64, load: u64) {
    let mut block = io::large_buffer();
    let loaded = begin_message(&mut block, name, number, line).put_number(
        &mut block,
        b": wherever it begins, one of its frames has less capacity than its load of ",
        load,
    );
    end(loaded, &mut block, b" ticks, so there is no schedule");
}

// Says that the frames together have no room for the messages.
pub(crate) fn complain_of_room(name: &[u8], load: u64, capacity: u64) {
    let mut block = io::large_buffer();
    let summed = begin(name)
        .put_number(&mut block, b": the messages load the 64 frames with ", load)
        .put_number(
            &mut block,
            b" ticks, and their capacities add up to ",
            capacity,
        );
    end(summed, &mut block, b", so there is no schedule");
}

// Says that the planner gave up, which tells nothing for certain.
pub(crate) fn complain_of_planner(name: &[u8]) {
    let mut block = io::large_buffer();
    let begun = begin(name);
    end(
        begun,
        &mut block,
        b": the planner found no schedule; there may be one all the same",
    );
}

// Puts how many first frames were given and not kept, where there were some.
fn put_given(sink: Sink, block: &mut Block, given: u64) -> Sink {
    if given == 0 {
        return sink;
    }
    let counted = sink.put_number(block, b"; ", given);
    if given == 1 {
        return counted.put_text(block, b" that was given was not kept");
    }
    counted.put_text(block, b" that were given were not kept")
}

// Says that the first frames are the planner's: "busplan: NAME: first frames proposed for 4 messages; 3 that were given were not kept".
pub(crate) fn say_proposed(name: &[u8], count: u64, given: u64) {
    let mut block = io::large_buffer();
    let mut told = begin(name)
        .put_number(&mut block, b": first frames proposed for ", count)
        .put_text(&mut block, b" message");
    if count != 1 {
        told = told.put(&mut block, b's');
    }
    let all = put_given(told, &mut block, given);
    end(all, &mut block, b"");
}
