// The line of an entry put into a sink: room is asked once, then the text is spelled in its place, and the line's end. Meaning: specs/Entries.antt. Refusals: none.
ghost use Rattle.std.specs.Prelude.{◌≡◌, ◌+◌, ◌≤◌, length};
ghost use Rattle.lines.specs.Sinks.{Goes, block_bytes, place_after, block_after};
ghost use Rattle.lines.specs.Spells.{Spelled};
ghost use Rattle.monitor.specs.declared.entries.Entry.TheVariants as entry;
ghost use Rattle.texts.specs.Entries.{entry_text, line_of};

use crate::entries::{spell_all_fields, spell_message, spell_single};
use crate::flaws::spell_bad;
use lines::{Block, Sink, between, spell_byte};
use monitor::{Entry, Message};
use records::WordRecord;

// the last place behind which the longest line of an entry, of 340 bytes, has room
const LAST_PLACE: usize = 65196;

// Spells a message, with its command words' fields where they are asked for.
fn spell_message_with(block: &mut Block, at: usize, message: Message, added: bool) -> usize
    requires { at + 339 ≤ block_bytes }
    ensures text { Spelled block.old at (entry_text added (entry.Message message)) block.new result }
    ensures most { result ≤ at + 339 }
{
    let told = spell_message(block, at, message);
    if added {
        return spell_all_fields(block, told, message.commands);
    }
    told
}

// Spells a record outside any message, with why its word is bad where that is asked for.
fn spell_single_with(block: &mut Block, at: usize, heard: WordRecord, added: bool) -> usize
    requires { at + 156 ≤ block_bytes }
    ensures text { Spelled block.old at (entry_text added (entry.Single heard)) block.new result }
    ensures most { result ≤ at + 156 }
{
    let told = spell_single(block, at, heard);
    if added {
        return spell_bad(block, told, heard);
    }
    told
}

// Spells an entry.
fn spell_entry(block: &mut Block, at: usize, entry: Entry, added: bool) -> usize
    requires { at + 339 ≤ block_bytes }
    ensures text { Spelled block.old at (entry_text added entry) block.new result }
    ensures most { result ≤ at + 339 }
{
    match entry {
        Entry::Message(message) => spell_message_with(block, at, message, added),
        Entry::Single(heard) => spell_single_with(block, at, heard, added),
    }
}

// Spells the line of an entry, with its end.
fn spell_line(block: &mut Block, at: usize, entry: Entry, added: bool) -> usize
    requires { at + 340 ≤ block_bytes }
    ensures text { Spelled block.old at (line_of (entry_text added entry)) block.new result }
    ensures most { result ≤ at + 340 }
{
    let told = spell_entry(block, at, entry, added);
    spell_byte(block, told, b'\n')
}

// Puts the line of an entry that the block may have no room for: it is spelled apart, and put as any text.
fn put_apart(sink: Sink, block: &mut Block, entry: Entry, added: bool) -> Sink
    ensures place { result.at ≡ place_after sink.at (length (line_of (entry_text added entry))) }
    ensures block { block.new ≡ block_after block.old sink.at (line_of (entry_text added entry)) }
    ensures goes { Goes sink result }
{
    let mut line = io::large_buffer();
    let end = spell_line(&mut line, 0, entry, added);
    sink.put_text(block, between(&line, 0, end))
}

// Gives the sink with the line of an entry more; `added` says whether the fields of its command words, or what is bad in its word, are asked for. Where the block has room for
// the longest line, it is spelled in its place.
// Tables: block holds the line where it waits, and is else as before. Refusals: none; `failure` says whether a write has failed.
pub fn put_entry(sink: Sink, block: &mut Block, entry: Entry, added: bool) -> Sink
    ensures place { result.at ≡ place_after sink.at (length (line_of (entry_text added entry))) }
    ensures block { block.new ≡ block_after block.old sink.at (line_of (entry_text added entry)) }
    ensures goes { Goes sink result }
{
    if sink.at > LAST_PLACE {
        return put_apart(sink, block, entry, added);
    }
    let mut next = sink;
    next.at = spell_line(block, sink.at, entry, added);
    next
}
