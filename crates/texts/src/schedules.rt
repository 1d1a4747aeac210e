// The lines of a schedule: its messages, its frames, and how the check ended (02 j; docs/LINES.md). Meaning: specs/Schedules.antt. Refusals: none.
// Each `put_` asks for room, spells and ends its line in three statements: a type for each line and a trait over them would be longer.
ghost use Rattle.std.specs.Prelude.{◌≡◌, ◌+◌, ◌≤◌};
ghost use Rattle.lines.specs.Sinks.{Goes, block_bytes};
ghost use Rattle.lines.specs.Spells.{Spelled, place_after_line, block_after_line};
ghost use Rattle.texts.specs.Entries.{line_of};
ghost use Rattle.texts.specs.Schedules.{brief_text, words_text, planned_text, slot_text, frame_text, closing_text};

use crate::entries::spell_pair;
use lines::{Block, LINE_MOST, Sink, spell_byte, spell_number, spell_text, spell_word};
use schedule::Message;

// How the reading, the check or the planner ended.
#[derive(Clone, Copy)]
pub enum Closing {
    Accepted,
    RejectedFrame(u64),
    RejectedMessage(u64),
    // by that number: any is put, as of a log (`put_log_refused`)
    Refused(u8),
    NoSchedule,
    BadLine(u64),
}

// Spells a message of a schedule by its number.
fn spell_brief(block: &mut Block, at: usize, number: u64, message: Message, first: u64) -> usize
    requires { at + 81 ≤ block_bytes }
    ensures text { Spelled block.old at (brief_text number message first) block.new result }
    ensures most { result ≤ at + 81 }
{
    let numbered = spell_number(block, at, b"message ", number);
    let placed = spell_number(block, numbered, b" first=", first);
    spell_number(block, placed, b" load=", message.load())
}

// Spells one command word, or two with a byte between them.
pub(crate) fn spell_words(block: &mut Block, at: usize, between: u8, message: Message) -> usize
    requires { at + 9 ≤ block_bytes }
    ensures text { Spelled block.old at (words_text between message) block.new result }
    ensures most { result ≤ at + 9 }
{
    if message.commands == 1 {
        return spell_word(block, at, message.first.0);
    }
    spell_pair(block, at, message.first.0, between, message.second.0)
}

// Spells the command words and the period of a message.
fn spell_planned(block: &mut Block, at: usize, message: Message) -> usize
    requires { at + 42 ≤ block_bytes }
    ensures text { Spelled block.old at (planned_text message) block.new result }
    ensures most { result ≤ at + 42 }
{
    let begun = spell_text(block, at, b" cmd=");
    let commanded = spell_words(block, begun, b',', message);
    spell_number(block, commanded, b" period=", message.period)
}

// Spells a message of a schedule, with its command words and its period where they are asked for.
fn spell_slot(
    block: &mut Block,
    at: usize,
    added: bool,
    number: u64,
    message: Message,
    first: u64,
) -> usize
    requires { at + 123 ≤ block_bytes }
    ensures text { Spelled block.old at (slot_text added number message first) block.new result }
    ensures most { result ≤ at + 123 }
{
    let told = spell_brief(block, at, number, message, first);
    if added {
        return spell_planned(block, told, message);
    }
    told
}

// Gives the sink with the line of a message more; `added` says whether its command words and its period are asked for.
// Tables: block holds the line where it waits, and is else as before. Refusals: none; `failure` says whether a write has failed.
pub fn put_slot(
    sink: Sink,
    block: &mut Block,
    added: bool,
    number: u64,
    message: Message,
    first: u64,
) -> Sink
    ensures place { result.at ≡ place_after_line sink.at (line_of (slot_text added number message first)) }
    ensures block { block.new ≡ block_after_line block.old sink.at (line_of (slot_text added number message first)) }
    ensures goes { Goes sink result }
{
    let mut next = sink.with_room(block, LINE_MOST);
    let told = spell_slot(block, next.at, added, number, message, first);
    next.at = spell_byte(block, told, b'\n');
    next
}

// Spells a frame.
fn spell_frame(block: &mut Block, at: usize, number: u64, load: u64, capacity: u64) -> usize
    requires { at + 82 ≤ block_bytes }
    ensures text { Spelled block.old at (frame_text number load capacity) block.new result }
    ensures most { result ≤ at + 82 }
{
    let numbered = spell_number(block, at, b"frame ", number);
    let loaded = spell_number(block, numbered, b" load=", load);
    spell_number(block, loaded, b" capacity=", capacity)
}

// Gives the sink with the line of a frame more.
// Tables: block holds the line where it waits, and is else as before. Refusals: none; `failure` says whether a write has failed.
pub fn put_frame(sink: Sink, block: &mut Block, number: u64, load: u64, capacity: u64) -> Sink
    ensures place { result.at ≡ place_after_line sink.at (line_of (frame_text number load capacity)) }
    ensures block { block.new ≡ block_after_line block.old sink.at (line_of (frame_text number load capacity)) }
    ensures goes { Goes sink result }
{
    let mut next = sink.with_room(block, LINE_MOST);
    let told = spell_frame(block, next.at, number, load, capacity);
    next.at = spell_byte(block, told, b'\n');
    next
}

// Spells how it ended.
fn spell_closing(block: &mut Block, at: usize, closing: Closing) -> usize
    requires { at + 39 ≤ block_bytes }
    ensures text { Spelled block.old at (closing_text closing) block.new result }
    ensures most { result ≤ at + 39 }
{
    match closing {
        Closing::Accepted => spell_text(block, at, b"# accepted"),
        Closing::RejectedFrame(frame) => spell_number(block, at, b"# rejected frame=", frame),
        Closing::RejectedMessage(number) => {
            spell_number(block, at, b"# rejected message=", number)
        }
        Closing::Refused(number) => spell_number(block, at, b"# refused ", u64::from(number)),
        Closing::NoSchedule => spell_text(block, at, b"# none"),
        Closing::BadLine(line) => spell_number(block, at, b"# error line=", line),
    }
}

// Gives the sink with the line more that says how it ended.
// Tables: block holds the line where it waits, and is else as before. Refusals: none; `failure` says whether a write has failed.
pub fn put_closing(sink: Sink, block: &mut Block, closing: Closing) -> Sink
    ensures place { result.at ≡ place_after_line sink.at (line_of (closing_text closing)) }
    ensures block { block.new ≡ block_after_line block.old sink.at (line_of (closing_text closing)) }
    ensures goes { Goes sink result }
{
    let mut next = sink.with_room(block, LINE_MOST);
    let told = spell_closing(block, next.at, closing);
    next.at = spell_byte(block, told, b'\n');
    next
}
