// The text of a schedule that was accepted, as `-o OUT` writes it (02 j; docs/LINES.md): it is read again as the same schedule (plans' `plan_read_back`). Meaning: plans'
// specs/Texts.antt. Refusals: none.
ghost use Rattle.std.specs.Prelude.{◌≡◌, [], ◌∷◌, ◌+◌, ◌≤◌, get_or, length};
ghost use Rattle.schedule.specs.Frames.{placed_of};
ghost use Rattle.schedule.specs.Messages.{messages_in};
ghost use Rattle.lines.specs.Sinks.{Goes, block_bytes, put_at, decimal_text};
ghost use Rattle.lines.specs.Spells.{Spelled, room_at};
ghost use Rattle.plans.specs.Entries.{capacity_text};
ghost use Rattle.plans.specs.Texts.{line_text, are_all, capacity_lines, capacities_text, message_parts, message_lines, plan_text};
ghost use Rattle.texts.specs.Schedules.{plan_most};

use crate::schedules::spell_words;
use lines::{Block, Sink, spell_byte, spell_number, spell_text};
use schedule::{Frames, Message, Schedule};

// The most bytes of a plan, with room to spare: 64 lines of capacities and 64 of messages.
const PLAN_MOST: usize = 8192;

// Says whether all frames have the capacity of the first.
fn is_even(capacities: &Frames) -> bool
    ensures answer { result ≡ are_all (get_or capacities.now 0 0) capacities.now }
{
    let first = capacities[0];
    capacities.iter().all(|ticks| *ticks == first)
}

// Spells the capacity of all frames.
fn spell_capacity(block: &mut Block, at: usize, ticks: u64) -> usize
    requires { at + 30 ≤ block_bytes }
    ensures text { Spelled block.old at (line_text (capacity_text ∷ decimal_text ticks ∷ [])) block.new result }
    ensures most { result ≤ at + 30 }
{
    let told = spell_number(block, at, b"capacity ", ticks);
    spell_byte(block, told, b'\n')
}

// Spells the capacity of one frame.
fn spell_capacity_of(block: &mut Block, at: usize, frame: u64, ticks: u64) -> usize
    requires { at + 51 ≤ block_bytes }
    ensures text { Spelled block.old at (line_text (capacity_text ∷ decimal_text frame ∷ decimal_text ticks ∷ [])) block.new result }
    ensures most { result ≤ at + 51 }
{
    let placed = spell_number(block, at, b"capacity ", frame);
    let told = spell_number(block, placed, b" ", ticks);
    spell_byte(block, told, b'\n')
}

// Spells a line for the capacity of each frame.
fn spell_each_capacity(block: &mut Block, at: usize, capacities: &Frames) -> usize
    requires { at + 3264 ≤ block_bytes }
    ensures text { Spelled block.old at (capacity_lines 0 capacities.now) block.new result }
    ensures most { result ≤ at + 3264 }
{
    let mut place = spell_text(block, at, b"");
    for (frame, ticks) in capacities.iter().enumerate() {
        place = spell_capacity_of(block, place, frame as u64, *ticks);
    }
    place
}

// Spells the capacities, in one line where they are all the same.
fn spell_capacities(block: &mut Block, at: usize, capacities: &Frames) -> usize
    requires { at + 3264 ≤ block_bytes }
    ensures text { Spelled block.old at (capacities_text capacities.now) block.new result }
    ensures most { result ≤ at + 3264 }
{
    if is_even(capacities) {
        return spell_capacity(block, at, capacities[0]);
    }
    spell_each_capacity(block, at, capacities)
}

// Spells a message with its first frame.
fn spell_placed(block: &mut Block, at: usize, message: Message, first: u64) -> usize
    requires { at + 60 ≤ block_bytes }
    ensures text { Spelled block.old at (line_text (message_parts message first)) block.new result }
    ensures most { result ≤ at + 60 }
{
    let begun = spell_text(block, at, b"message ");
    let commanded = spell_words(block, begun, b' ', message);
    let timed = spell_number(block, commanded, b" ", message.period);
    let told = spell_number(block, timed, b" ", first);
    spell_byte(block, told, b'\n')
}

// Spells a line for each message.
fn spell_messages(block: &mut Block, at: usize, schedule: Schedule, firsts: &Frames) -> usize
    requires { at + 3840 ≤ block_bytes }
    ensures text { Spelled block.old at (message_lines (placed_of (messages_in schedule) firsts.now)) block.new result }
    ensures most { result ≤ at + 3840 }
{
    let mut place = spell_text(block, at, b"");
    for (i, message) in schedule.messages.iter().enumerate() {
        if schedule.count <= i as u64 {
            return place;
        }
        place = spell_placed(block, place, *message, firsts[i]);
    }
    place
}

// Spells the capacities, then the messages.
fn spell_plan(
    block: &mut Block,
    at: usize,
    schedule: Schedule,
    firsts: &Frames,
    capacities: &Frames,
) -> usize
    requires { at + 7104 ≤ block_bytes }
    ensures text { Spelled block.old at (plan_text schedule firsts.now capacities.now) block.new result }
{
    let begun = spell_capacities(block, at, capacities);
    spell_messages(block, begun, schedule, firsts)
}

// Gives the sink with the text of a schedule more: its capacities and its messages with their first frames, as a plan is read.
// Tables: block holds the text where it waits, and is else as before; firsts and capacities are only read. Refusals: none; `failure` says whether a write has failed.
pub fn put_plan(
    sink: Sink,
    block: &mut Block,
    schedule: Schedule,
    firsts: &Frames,
    capacities: &Frames,
) -> Sink
    ensures place { result.at ≡ room_at sink.at plan_most + length (plan_text schedule firsts.now capacities.now) }
    ensures block { block.new ≡ put_at block.old (room_at sink.at plan_most) (plan_text schedule firsts.now capacities.now) }
    ensures goes { Goes sink result }
{
    let mut next = sink.with_room(block, PLAN_MOST);
    next.at = spell_plan(block, next.at, schedule, firsts, capacities);
    next
}
