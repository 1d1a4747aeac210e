// What a line of a plan says (docs/LINES.md, busplan FILE). Meaning: specs/Entries.antt. Refusals: none; a period or a command word that 02 j refuses is
// read as any other.
ghost use Rattle.std.specs.Prelude.{◌≡◌, drop};
ghost use Rattle.plans.specs.Parts.{parts_of};
ghost use Rattle.plans.specs.Entries.{word_of, is_command, capacities_of, capacity_of, placed_of, message_with, single_of, pair_of, message_entry, capacity_entry, parts_entry};

use crate::parts::{part, parts_behind};
use lines::{is_same, read_decimal, read_hexadecimal};
use schedule::{FRAMES, Message};
use words::CommandWord;

const COMMAND_DIGITS: usize = 4;

// What is wrong with a line.
#[derive(Clone, Copy, Debug, PartialEq, Eq)]
pub enum Fault {
    Unknown,
    NoSign,
    TooLong,
    CapacityParts,
    MessageParts,
    Command,
    Number,
    Frame,
}

// What a line says: the capacity of all frames or of one, or a message with its first frame or without.
#[derive(Clone, Copy)]
pub(crate) enum Entry {
    Capacities(u64),
    Capacity(u64, u64),
    Placed(Message, u64),
    Unplaced(Message),
}

// Gives the command word of a number that four digits spell: the rest of a division by 2^16 is the number.
fn word_of(number: u64) -> CommandWord
    ensures word { result ≡ word_of number }
{
    CommandWord((number % 65536) as u16)
}

// Says whether a text is a command word.
#[tactic(auto, unfolding(crate::specs::Entries::is_command, crate::specs::Entries::is_number))]
fn is_command(text: &[u8]) -> bool
    ensures answer { result ≡ is_command text.now }
{
    read_hexadecimal(text, COMMAND_DIGITS).is_some()
}

// "capacity TICKS"
#[tactic(auto, unfolding(crate::specs::Entries::capacities_of))]
fn capacities_of(ticks: &[u8]) -> Result<Entry, Fault>
    ensures entry { result ≡ capacities_of ticks.now }
{
    let number = read_decimal(ticks).ok_or(Fault::Number)?;
    Ok(Entry::Capacities(number))
}

// "capacity FRAME TICKS"
#[tactic(auto, unfolding(crate::specs::Entries::capacity_of))]
fn capacity_of(frame: &[u8], ticks: &[u8]) -> Result<Entry, Fault>
    ensures entry { result ≡ capacity_of frame.now ticks.now }
{
    let place = read_decimal(frame).ok_or(Fault::Number)?;
    if place >= FRAMES as u64 {
        return Err(Fault::Frame);
    }
    let number = read_decimal(ticks).ok_or(Fault::Number)?;
    Ok(Entry::Capacity(place, number))
}

// Gives a message with its first frame, where the line has one.
#[tactic(auto, unfolding(crate::specs::Entries::placed_of))]
fn placed(message: Message, frame: &[u8]) -> Result<Entry, Fault>
    ensures entry { result ≡ placed_of message frame.now }
{
    if frame.is_empty() {
        return Ok(Entry::Unplaced(message));
    }
    let place = read_decimal(frame).ok_or(Fault::Number)?;
    Ok(Entry::Placed(message, place))
}

// Gives a message with its period, and with its first frame where the line has one. How many commands it has is a number, as in a message, which takes any; period and
// frame are two parts of the line, as in the definitions.
#[tactic(auto, unfolding(crate::specs::Entries::message_with))]
fn message_with(
    commands: u8,
    first: CommandWord,
    second: CommandWord,
    period: &[u8],
    frame: &[u8],
) -> Result<Entry, Fault>
    ensures entry { result ≡ message_with commands first second period.now frame.now }
{
    let frames = read_decimal(period).ok_or(Fault::Number)?;
    let message = Message {
        commands,
        first,
        second,
        period: frames,
    };
    placed(message, frame)
}

// "message C1 PERIOD [FIRST]". Of one command the second word is not read.
#[tactic(auto, unfolding(crate::specs::Entries::single_of))]
fn single_of(command: &[u8], period: &[u8], frame: &[u8]) -> Result<Entry, Fault>
    ensures entry { result ≡ single_of command.now period.now frame.now }
{
    let number = read_hexadecimal(command, COMMAND_DIGITS).ok_or(Fault::Command)?;
    let word = word_of(number);
    message_with(1, word, word, period, frame)
}

// "message C1 C2 PERIOD [FIRST]"
#[tactic(auto, unfolding(crate::specs::Entries::pair_of))]
fn pair_of(first: &[u8], second: &[u8], period: &[u8], frame: &[u8]) -> Result<Entry, Fault>
    ensures entry { result ≡ pair_of first.now second.now period.now frame.now }
{
    let number = read_hexadecimal(first, COMMAND_DIGITS).ok_or(Fault::Command)?;
    let other = read_hexadecimal(second, COMMAND_DIGITS).ok_or(Fault::Command)?;
    message_with(2, word_of(number), word_of(other), period, frame)
}

// Gives what a line says that begins with "message". Of three parts behind it the second is a command word where it has the form of one.
fn read_message(line: &[u8]) -> Result<Entry, Fault>
    ensures entry { result ≡ message_entry (drop 1 (parts_of line.now)) }
{
    let first = part(line, 1);
    let second = part(line, 2);
    let third = part(line, 3);
    match parts_behind(line) {
        2 => single_of(first, second, third),
        3 => {
            if is_command(second) {
                return pair_of(first, second, third, part(line, 4));
            }
            single_of(first, second, third)
        }
        4 => pair_of(first, second, third, part(line, 4)),
        _ => Err(Fault::MessageParts),
    }
}

// Gives what a line says that begins with "capacity".
fn read_capacity(line: &[u8]) -> Result<Entry, Fault>
    ensures entry { result ≡ capacity_entry (drop 1 (parts_of line.now)) }
{
    match parts_behind(line) {
        1 => capacities_of(part(line, 1)),
        2 => capacity_of(part(line, 1), part(line, 2)),
        _ => Err(Fault::CapacityParts),
    }
}

// Gives what a line says whose parts stand apart by one space each, or None where it says nothing. Its name is compared by `is_same`, which promises the test of the
// definition.
pub(crate) fn read_entry(line: &[u8]) -> Result<Option<Entry>, Fault>
    ensures entry { result ≡ parts_entry (parts_of line.now) }
{
    if line.is_empty() {
        return Ok(None);
    }
    let name = part(line, 0);
    if is_same(name, b"message") {
        return Ok(Some(read_message(line)?));
    }
    if is_same(name, b"capacity") {
        return Ok(Some(read_capacity(line)?));
    }
    Err(Fault::Unknown)
}
