// The lines that close a log, and those of a saving: what was skipped, and how it ended (02 a, c; docs/LINES.md). Meaning: specs/Logs.antt, specs/Saves.antt. Refusals: none.
// Each `put_` asks for room, spells and ends its line in three statements: a type for each line and a trait over them would be longer.
ghost use Rattle.std.specs.Prelude.{◌≡◌, ◌+◌, ◌≤◌};
ghost use Rattle.lines.specs.Sinks.{Goes, block_bytes};
ghost use Rattle.lines.specs.Spells.{Spelled, place_after_line, block_after_line};
ghost use Rattle.texts.specs.Entries.{line_of};
ghost use Rattle.texts.specs.Logs.{log_end_text, log_refused_text};
ghost use Rattle.texts.specs.Saves.{run_line, first_text, save_end_text};

use lines::{Block, LINE_MOST, Sink, spell_byte, spell_number, spell_text};
use salvage::{First, Run, Totals};

// Spells how many entries and records a log has.
fn spell_log_end(block: &mut Block, at: usize, entries: u64, records: u64) -> usize
    requires { at + 63 ≤ block_bytes }
    ensures text { Spelled block.old at (log_end_text entries records) block.new result }
    ensures most { result ≤ at + 63 }
{
    let counted = spell_number(block, at, b"# end entries=", entries);
    spell_number(block, counted, b" records=", records)
}

// Gives the sink with the line more that closes a log which was read to its end.
// Tables: block holds the line where it waits, and is else as before. Refusals: none; `failure` says whether a write has failed.
pub fn put_log_end(sink: Sink, block: &mut Block, entries: u64, records: u64) -> Sink
    ensures place { result.at ≡ place_after_line sink.at (line_of (log_end_text entries records)) }
    ensures block { block.new ≡ block_after_line block.old sink.at (line_of (log_end_text entries records)) }
    ensures goes { Goes sink result }
{
    let mut next = sink.with_room(block, LINE_MOST);
    let told = spell_log_end(block, next.at, entries, records);
    next.at = spell_byte(block, told, b'\n');
    next
}

// Spells what was refused, and where. Any number of a refusal is taken: a type would take fewer.
fn spell_refused(
    block: &mut Block,
    at: usize,
    refusal: u8,
    place: u64,
    byte: u64,
    entries: u64,
) -> usize
    requires { at + 113 ≤ block_bytes }
    ensures text { Spelled block.old at (log_refused_text refusal place byte entries) block.new result }
    ensures most { result ≤ at + 113 }
{
    let refused = spell_number(block, at, b"# refused ", u64::from(refusal));
    let counted = spell_number(block, refused, b" record=", place);
    let found = spell_number(block, counted, b" byte=", byte);
    spell_number(block, found, b" entries=", entries)
}

// Gives the sink with the line more that closes a log at a record that is refused.
// Tables: block holds the line where it waits, and is else as before. Refusals: none; `failure` says whether a write has failed.
pub fn put_log_refused(
    sink: Sink,
    block: &mut Block,
    refusal: u8,
    place: u64,
    byte: u64,
    entries: u64,
) -> Sink
    ensures place { result.at ≡ place_after_line sink.at (line_of (log_refused_text refusal place byte entries)) }
    ensures block { block.new ≡ block_after_line block.old sink.at (line_of (log_refused_text refusal place byte entries)) }
    ensures goes { Goes sink result }
{
    let mut next = sink.with_room(block, LINE_MOST);
    let told = spell_refused(block, next.at, refusal, place, byte, entries);
    next.at = spell_byte(block, told, b'\n');
    next
}

// Spells a run with its line end, or nothing of one that has no byte: any run is taken.
fn spell_run(block: &mut Block, at: usize, run: Run) -> usize
    requires { at + 59 ≤ block_bytes }
    ensures text { Spelled block.old at (run_line run) block.new result }
{
    if run.length == 0 {
        return spell_text(block, at, b"");
    }
    let placed = spell_number(block, at, b"skip byte=", run.place);
    let told = spell_number(block, placed, b" length=", run.length);
    spell_byte(block, told, b'\n')
}

// Gives the sink with the line of a run of skipped bytes more; one that has no byte has none.
// Tables: block holds the line where it waits, and is else as before. Refusals: none; `failure` says whether a write has failed.
pub fn put_run(sink: Sink, block: &mut Block, run: Run) -> Sink
    ensures place { result.at ≡ place_after_line sink.at (run_line run) }
    ensures block { block.new ≡ block_after_line block.old sink.at (run_line run) }
    ensures goes { Goes sink result }
{
    let mut next = sink.with_room(block, LINE_MOST);
    next.at = spell_run(block, next.at, run);
    next
}

// Spells what the first byte was: "An empty file gives .. the first byte listed as changed."
fn spell_first(block: &mut Block, at: usize, first: First) -> usize
    requires { at + 7 ≤ block_bytes }
    ensures text { Spelled block.old at (first_text first) block.new result }
    ensures most { result ≤ at + 7 }
{
    if first.is_changed() {
        return spell_text(block, at, b"changed");
    }
    spell_text(block, at, b"kept")
}

// Spells how a saving ended.
fn spell_save_end(block: &mut Block, at: usize, totals: Totals) -> usize
    requires { at + 105 ≤ block_bytes }
    ensures text { Spelled block.old at (save_end_text totals) block.new result }
    ensures most { result ≤ at + 105 }
{
    let begun = spell_text(block, at, b"# end first=");
    let judged = spell_first(block, begun, totals.first);
    let kept = spell_number(block, judged, b" records=", totals.records);
    let skipped = spell_number(block, kept, b" skipped=", totals.skipped);
    spell_number(block, skipped, b" bytes=", totals.bytes)
}

// Gives the sink with the line more that closes a saving.
// Tables: block holds the line where it waits, and is else as before. Refusals: none; `failure` says whether a write has failed.
pub fn put_save_end(sink: Sink, block: &mut Block, totals: Totals) -> Sink
    ensures place { result.at ≡ place_after_line sink.at (line_of (save_end_text totals)) }
    ensures block { block.new ≡ block_after_line block.old sink.at (line_of (save_end_text totals)) }
    ensures goes { Goes sink result }
{
    let mut next = sink.with_room(block, LINE_MOST);
    let told = spell_save_end(block, next.at, totals);
    next.at = spell_byte(block, told, b'\n');
    next
}
