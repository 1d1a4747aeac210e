// The line of an entry (02 a and i; docs/LINES.md): "Each entry has bus, time, command words, statuses .., numbers of valid data words and of records, the gap before the first
// status, and the verdict". Meaning: specs/Entries.antt. Inner leaves, each with the most bytes that it takes. Refusals: none.
ghost use Rattle.std.specs.Prelude.{◌+◌, ◌≤◌, ◌∷◌, ◌++◌, Some, length};
ghost use Rattle.lines.specs.Sinks.{block_bytes, word_text};
ghost use Rattle.lines.specs.Spells.{Spelled};
ghost use Rattle.texts.specs.Entries.{bus_text, begin_text, commands_text, statuses_text, gap_text, verdict_name, outcome_text, counts_text, message_text, single_text};
ghost use Rattle.texts.specs.Entries.{address_text, direction_text, kind_text, fields_text, all_fields_text};

use lines::{Block, spell_byte, spell_decimal, spell_number, spell_text, spell_word};
use monitor::{Commands, Gap, Message, Statuses};
use records::{BUS_A, WordRecord};
use verdict::Verdict;
use words::{CommandWord, Moment};

// Spells a bus: any number is taken, and what is not A is B.
fn spell_bus(block: &mut Block, at: usize, bus: u8) -> usize
    requires { at + 2 ≤ block_bytes }
    ensures text { Spelled block.old at (bus_text bus) block.new result }
    ensures most { result ≤ at + 2 }
{
    if bus == BUS_A {
        return spell_text(block, at, b" A");
    }
    spell_text(block, at, b" B")
}

// Spells with what every line of an entry begins: "1000 A".
fn spell_begin(block: &mut Block, at: usize, time: Moment, bus: u8) -> usize
    requires { at + 22 ≤ block_bytes }
    ensures text { Spelled block.old at (begin_text time.0 bus) block.new result }
    ensures most { result ≤ at + 22 }
{
    let timed = spell_decimal(block, at, time.0);
    spell_bus(block, timed, bus)
}

// Spells two words, a byte between them.
pub(crate) fn spell_pair(
    block: &mut Block,
    at: usize,
    first: u16,
    between: u8,
    second: u16,
) -> usize
    requires { at + 9 ≤ block_bytes }
    ensures text { Spelled block.old at (word_text first ++ (between ∷ word_text second)) block.new result }
    ensures most { result ≤ at + 9 }
{
    let begun = spell_word(block, at, first);
    let parted = spell_byte(block, begun, between);
    spell_word(block, parted, second)
}

fn spell_commands(block: &mut Block, at: usize, commands: Commands) -> usize
    requires { at + 9 ≤ block_bytes }
    ensures text { Spelled block.old at (commands_text commands) block.new result }
    ensures most { result ≤ at + 9 }
{
    match commands {
        Commands::One(first) => spell_word(block, at, first.0),
        Commands::Two(first, second) => spell_pair(block, at, first.0, b',', second.0),
    }
}

fn spell_statuses(block: &mut Block, at: usize, statuses: Statuses) -> usize
    requires { at + 13 ≤ block_bytes }
    ensures text { Spelled block.old at (statuses_text statuses) block.new result }
    ensures most { result ≤ at + 13 }
{
    match statuses {
        Statuses::None => spell_text(block, at, b" st=-"),
        Statuses::One(first) => {
            let begun = spell_text(block, at, b" st=");
            spell_word(block, begun, first.0)
        }
        Statuses::Two(first, second) => {
            let begun = spell_text(block, at, b" st=");
            spell_pair(block, begun, first.0, b',', second.0)
        }
    }
}

// Spells the gap: a status that overlaps the word before it has one below 0.
fn spell_gap(block: &mut Block, at: usize, gap: Option<Gap>) -> usize
    requires { at + 26 ≤ block_bytes }
    ensures text { Spelled block.old at (gap_text gap) block.new result }
    ensures most { result ≤ at + 26 }
{
    match gap {
        None => spell_text(block, at, b" gap=-"),
        Some(Gap::Apart(ticks)) => spell_number(block, at, b" gap=", ticks.0),
        Some(Gap::Overlap(ticks)) => spell_number(block, at, b" gap=-", ticks.0),
    }
}

// Spells the name of a verdict. Each is a text of its own length here: one that a method of the verdict gave would be copied by a length that is not known.
#[tactic(auto, unfolding(crate::specs::Entries::verdict_name))]
fn spell_name(block: &mut Block, at: usize, verdict: Verdict) -> usize
    requires { at + 12 ≤ block_bytes }
    ensures text { Spelled block.old at (verdict_name verdict) block.new result }
    ensures most { result ≤ at + 12 }
{
    match verdict {
        Verdict::Good => spell_text(block, at, b" good"),
        Verdict::NoResponse => spell_text(block, at, b" no-response"),
        Verdict::Waiting => spell_text(block, at, b" waiting"),
        Verdict::Early => spell_text(block, at, b" early"),
        Verdict::Late => spell_text(block, at, b" late"),
        Verdict::NotValid => spell_text(block, at, b" invalid"),
        Verdict::WrongSync => spell_text(block, at, b" sync"),
        Verdict::WrongAddress => spell_text(block, at, b" address"),
        Verdict::MessageError => spell_text(block, at, b" error"),
        Verdict::Busy => spell_text(block, at, b" busy"),
        Verdict::Separated => spell_text(block, at, b" spacing"),
        Verdict::LeftOver => spell_text(block, at, b" left-over"),
        Verdict::Overlapping => spell_text(block, at, b" overlap"),
        Verdict::Unnamed(_) => spell_text(block, at, b" unnamed"),
    }
}

// Spells the number and the name of a verdict.
fn spell_verdict(block: &mut Block, at: usize, verdict: Verdict) -> usize
    requires { at + 41 ≤ block_bytes }
    ensures text { Spelled block.old at (outcome_text (Some verdict)) block.new result }
    ensures most { result ≤ at + 41 }
{
    let number = u64::from(verdict.number());
    let numbered = spell_number(block, at, b" verdict=", number);
    spell_name(block, numbered, verdict)
}

fn spell_outcome(block: &mut Block, at: usize, outcome: Option<Verdict>) -> usize
    requires { at + 41 ≤ block_bytes }
    ensures text { Spelled block.old at (outcome_text outcome) block.new result }
    ensures most { result ≤ at + 41 }
{
    match outcome {
        None => spell_text(block, at, b" verdict=- none"),
        Some(verdict) => spell_verdict(block, at, verdict),
    }
}

// Spells how many data words and how many records there are.
fn spell_counts(block: &mut Block, at: usize, words: u64, records: u64) -> usize
    requires { at + 51 ≤ block_bytes }
    ensures text { Spelled block.old at (counts_text words records) block.new result }
    ensures most { result ≤ at + 51 }
{
    let filled = spell_number(block, at, b" data=", words);
    spell_number(block, filled, b" rec=", records)
}

// Spells a message.
pub(crate) fn spell_message(block: &mut Block, at: usize, message: Message) -> usize
    requires { at + 171 ≤ block_bytes }
    ensures text { Spelled block.old at (message_text message) block.new result }
    ensures most { result ≤ at + 171 }
{
    let begun = spell_begin(block, at, message.time, message.bus);
    let named = spell_text(block, begun, b" msg cmd=");
    let commanded = spell_commands(block, named, message.commands);
    let answered = spell_statuses(block, commanded, message.statuses);
    let counted = spell_counts(block, answered, message.words, message.records);
    let spaced = spell_gap(block, counted, message.gap);
    spell_outcome(block, spaced, message.outcome)
}

// Spells a record outside any message.
pub(crate) fn spell_single(block: &mut Block, at: usize, heard: WordRecord) -> usize
    requires { at + 122 ≤ block_bytes }
    ensures text { Spelled block.old at (single_text heard) block.new result }
    ensures most { result ≤ at + 122 }
{
    let begun = spell_begin(block, at, heard.time, heard.bus);
    let synced = spell_number(block, begun, b" one sync=", heard.sync as u64);
    let judged = spell_number(block, synced, b" faults=", heard.faults as u64);
    let named = spell_text(block, judged, b" word=");
    let worded = spell_word(block, named, heard.word);
    spell_number(block, worded, b" parity=", heard.parity as u64)
}

// Spells to whom a command goes: "rt5", or "all" for a broadcast.
fn spell_address(block: &mut Block, at: usize, command: CommandWord) -> usize
    requires { at + 22 ≤ block_bytes }
    ensures text { Spelled block.old at (address_text command.0) block.new result }
    ensures most { result ≤ at + 22 }
{
    if command.is_broadcast() {
        return spell_text(block, at, b"all");
    }
    spell_number(block, at, b"rt", command.address() as u64)
}

fn spell_direction(block: &mut Block, at: usize, command: CommandWord) -> usize
    requires { at + 9 ≤ block_bytes }
    ensures text { Spelled block.old at (direction_text command.0) block.new result }
    ensures most { result ≤ at + 9 }
{
    if command.is_transmit() {
        return spell_text(block, at, b",transmit");
    }
    spell_text(block, at, b",receive")
}

// Spells a mode code, or a subaddress and a count.
fn spell_kind(block: &mut Block, at: usize, command: CommandWord) -> usize
    requires { at + 49 ≤ block_bytes }
    ensures text { Spelled block.old at (kind_text command.0) block.new result }
    ensures most { result ≤ at + 49 }
{
    if command.is_mode() {
        return spell_number(block, at, b",mode,code", command.count() as u64);
    }
    let placed = spell_number(block, at, b",sa", command.subaddress() as u64);
    spell_number(block, placed, b",count", command.words() as u64)
}

// Spells the fields of a command word: "rt5,receive,sa2,count2", or "rt5,transmit,mode,code2" of a mode command.
fn spell_fields(block: &mut Block, at: usize, text: &[u8], command: CommandWord) -> usize
    requires { at + (length text.now + 80) ≤ block_bytes }
    ensures text { Spelled block.old at (fields_text text.now command.0) block.new result }
    ensures most { result ≤ at + (length text.now + 80) }
{
    let begun = spell_text(block, at, text);
    let addressed = spell_address(block, begun, command);
    let directed = spell_direction(block, addressed, command);
    spell_kind(block, directed, command)
}

// Spells the fields of a message's command words.
pub(crate) fn spell_all_fields(block: &mut Block, at: usize, commands: Commands) -> usize
    requires { at + 168 ≤ block_bytes }
    ensures text { Spelled block.old at (all_fields_text commands) block.new result }
    ensures most { result ≤ at + 168 }
{
    match commands {
        Commands::One(first) => spell_fields(block, at, b" c1=", first),
        Commands::Two(first, second) => {
            let begun = spell_fields(block, at, b" c1=", first);
            spell_fields(block, begun, b" c2=", second)
        }
    }
}
