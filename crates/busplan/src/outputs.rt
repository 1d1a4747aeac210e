// The lines that the program writes (02 j; docs/LINES.md). Each function that writes says whether standard output took it; where it did not, standard error has said why.
// Refusals: none.
use crate::complaints::PROGRAM;
use lines::{Block, Sink, Target};
use schedule::{FRAMES, Frames, Schedule};
use texts::{Closing, put_closing, put_frame, put_slot};

// Writes the lines that wait. They fit the block, so that no write was tried before.
fn is_flushed(listed: Sink, block: &Block) -> bool {
    listed.flush_told(block, &PROGRAM).failure.is_none()
}

// Writes the line that says how it ended.
pub(crate) fn write_closing(rt: HostRuntime, closing: Closing) -> bool {
    let mut block = io::large_buffer();
    let listed = put_closing(Sink::to(Target::Output(rt.stdout())), &mut block, closing);
    is_flushed(listed, &block)
}

// Writes a line that ends in a name: "# error NAME".
pub(crate) fn write_named(rt: HostRuntime, begin: &[u8], name: &[u8]) -> bool {
    let mut block = io::large_buffer();
    let listed = Sink::to(Target::Output(rt.stdout())).put_named(&mut block, begin, name);
    is_flushed(listed, &block)
}

// Puts a line for each message, with its command words and its period where they are asked for.
fn put_slots(
    sink: Sink,
    block: &mut Block,
    in_words: bool,
    schedule: Schedule,
    firsts: &Frames,
) -> Sink {
    let count = schedule.count;
    let mut after = sink;
    for (number, (message, first)) in (0..count).zip(schedule.messages.iter().zip(firsts)) {
        after = put_slot(after, block, in_words, number, *message, *first);
    }
    after
}

// Puts a line for each frame.
fn put_frames(sink: Sink, block: &mut Block, loads: &Frames, capacities: &Frames) -> Sink {
    let mut after = sink;
    for (frame, (load, capacity)) in loads.iter().zip(capacities).enumerate() {
        after = put_frame(after, block, frame as u64, *load, *capacity);
    }
    after
}

// Writes all messages, then all frames.
pub(crate) fn write_schedule(
    rt: HostRuntime,
    in_words: bool,
    schedule: Schedule,
    firsts: &Frames,
    capacities: &Frames,
) -> bool {
    let mut block = io::large_buffer();
    let mut loads = [0u64; FRAMES];
    schedule.loads(firsts, &mut loads);
    let sink = Sink::to(Target::Output(rt.stdout()));
    let listed = put_slots(sink, &mut block, in_words, schedule, firsts);
    let framed = put_frames(listed, &mut block, &loads, capacities);
    is_flushed(framed, &block)
}
