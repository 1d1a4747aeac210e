// What is bad in a word outside any message (02 a; docs/LINES.md, `-v`): "A word is valid if its sync is one of the two shapes, no receiver fault is marked and parity is odd." Meaning:
// specs/Entries.antt. Inner leaves. Refusals: none.
ghost use Rattle.std.specs.Prelude.{◌≡◌, ◌+◌, ◌≤◌, length};
ghost use Rattle.lines.specs.Sinks.{block_bytes};
ghost use Rattle.lines.specs.Spells.{Spelled};
ghost use Rattle.texts.specs.Entries.{flaw_mark, flaw_text, flaws_text, bad_text};

use lines::{Block, spell_byte, spell_text};
use records::WordRecord;
use words::parity_bit;

// Gives what stands before a flaw: behind others, or the first.
fn mark(more: bool) -> u8
    ensures byte { result ≡ flaw_mark more }
{
    if more { b',' } else { b'=' }
}

// Spells one thing that is bad, where it is.
fn spell_flaw(block: &mut Block, at: usize, more: bool, bad: bool, name: &[u8]) -> usize
    requires { at + (length name.now + 1) ≤ block_bytes }
    ensures text { Spelled block.old at (flaw_text more bad name.now) block.new result }
    ensures most { result ≤ at + (length name.now + 1) }
{
    if !bad {
        return spell_text(block, at, b"");
    }
    let marked = spell_byte(block, at, mark(more));
    spell_text(block, marked, name)
}

// Spells all that is bad of four things that may be, or a dash.
fn spell_flaws(
    block: &mut Block,
    at: usize,
    parity: bool,
    manchester: bool,
    bits: bool,
    sync: bool,
) -> usize
    requires { at + 34 ≤ block_bytes }
    ensures text { Spelled block.old at (flaws_text parity manchester bits sync) block.new result }
    ensures most { result ≤ at + 34 }
{
    let two = parity | manchester;
    let three = two | bits;
    let begun = spell_text(block, at, b" bad");
    let first = spell_flaw(block, begun, false, parity, b"parity");
    let second = spell_flaw(block, first, parity, manchester, b"manchester");
    let third = spell_flaw(block, second, two, bits, b"bits");
    let fourth = spell_flaw(block, third, three, sync, b"sync");
    spell_flaw(block, fourth, false, !(three | sync), b"-")
}

// Spells why a word is not valid: of a record any numbers are taken, as records has them.
pub(crate) fn spell_bad(block: &mut Block, at: usize, heard: WordRecord) -> usize
    requires { at + 34 ≤ block_bytes }
    ensures text { Spelled block.old at (bad_text heard) block.new result }
    ensures most { result ≤ at + 34 }
{
    let faults = heard.faults;
    spell_flaws(
        block,
        at,
        heard.parity != parity_bit(heard.word),
        (faults == 1) | (faults == 3),
        (faults == 2) | (faults == 3),
        heard.sync == 2,
    )
}
