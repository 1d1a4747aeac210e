// What the programs write and read as text. The writer of their output, in blocks (01 Bench cards; 02 c): bytes wait in a block that the caller lends, and go
// out where it is full; a line's texts, words and numbers spelled in their place. No byte is lost in silence; a write that fails is kept in mind, and nothing is written after it. The reader of decimal and hexadecimal numbers, the
// parts of a line, the names of files, and what is said on standard error. Meaning: specs/Sinks.antt, specs/Spells.antt, specs/Numbers.antt, specs/Parts.antt, specs/Names.antt. Refusals: none.
#![tactic(auto)]

mod complaints;
mod files;
mod names;
mod numbers;
mod parts;
mod sinks;
mod spells;

pub use complaints::{begin_complaint, complain, hold_errors, remark};
pub use files::{Source, failure_of, make_named, number_of, open_named};
pub use names::{NAME_BYTES, is_dash, is_same};
pub use numbers::{read_decimal, read_digit, read_hexadecimal};
pub use parts::{between, part_end};
pub use sinks::{Block, Sink, Target};
pub use spells::{LINE_MOST, spell_byte, spell_decimal, spell_number, spell_text, spell_word};
