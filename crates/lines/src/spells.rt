// Texts, words and numbers spelled into a block from a place on: each gives the place behind it (02 a, c, j). Nobody asks for room here: who puts a line has asked once for
// the whole of it, which each `requires` says. Block and place are two, since a part of a line is spelled into a block that is lent from part to part. Meaning: specs/Spells.antt. Refusals: none.
ghost use Rattle.std.specs.Prelude.{◌≡◌, [], ◌∷◌, ◌+◌, ◌%◌, ◌≤◌, ◌<◌, length};
ghost use Rattle.io.specs.Digits.{last_digits, IsDigitCount};
ghost use Rattle.lines.specs.Sinks.{block_bytes, put_at, digit_of, word_text, decimal_text};
ghost use Rattle.lines.specs.Spells.{number_text, Spelled};

use crate::sinks::Block;

// The most bytes of a line, with room to spare.
pub const LINE_MOST: usize = 512;

// the most digits of a number below 2^64
const DIGITS_MOST: usize = 20;

// Spells a text.
// Tables: block holds it from the place on, and is else as before; text is only read. Refusals: none.
pub fn spell_text(block: &mut Block, at: usize, text: &[u8]) -> usize
    requires { at + length text.now ≤ block_bytes }
    ensures text { Spelled block.old at text.now block.new result }
{
    block[at..at + text.len()].copy_from_slice(text);
    at + text.len()
}

// Spells one byte. It is no text of one: that would be copied as any other, and lines are spelled byte by byte in many places.
// Tables: block holds it at the place, and is else as before. Refusals: none.
pub fn spell_byte(block: &mut Block, at: usize, byte: u8) -> usize
    requires { at + 1 ≤ block_bytes }
    ensures text { Spelled block.old at (byte ∷ []) block.new result }
{
    block[at] = byte;
    at + 1
}

// Gives the lowest four bits of a word as a digit: "hexadecimal is written in capitals". `char::from_digit` gives small letters.
fn digit(word: u16) -> u8
    ensures digit { result ≡ digit_of (word % 16) }
{
    let low = (word % 16) as u8;
    if low < 10 { b'0' + low } else { b'7' + low }
}

// Gives a word as four hexadecimal capitals. A formatter would ask for each byte's room again.
pub(crate) fn word_digits(word: u16) -> [u8; 4]
    ensures digits { result ≡ word_text word }
{
    [
        digit(word >> 12),
        digit(word >> 8),
        digit(word >> 4),
        digit(word),
    ]
}

// Spells a word as four hexadecimal capitals.
// Tables: block holds them from the place on, and is else as before. Refusals: none.
pub fn spell_word(block: &mut Block, at: usize, word: u16) -> usize
    requires { at + 4 ≤ block_bytes }
    ensures text { Spelled block.old at (word_text word) block.new result }
{
    let digits = word_digits(word);
    spell_text(block, at, &digits)
}

// Gives how many decimal digits a number has, 1 to 20: `ilog10` would divide.
fn count_digits(number: u64) -> usize
    ensures count { IsDigitCount 10 1 number result }
    ensures most { result ≤ 20 }
{
    let mut power: u64 = 10;
    for count in 1..19 {
        if number < power {
            return count;
        }
        power *= 10;
    }
    if number < power {
        return 19;
    }
    DIGITS_MOST
}

// Spells the last so many decimal digits of a number, from the last two on: two a step, since a division is what takes time. An index counts down, since of the chunks
// that `rchunks_exact_mut` lends a proof knows no byte afterwards.
fn spell_digits(block: &mut [u8], at: usize, number: u64, count: usize)
    requires { at + count ≤ length block.old }
    ensures block { block.new ≡ put_at block.old at (last_digits 10 count number) }
{
    let mut left = number;
    let mut i = count;
    while i > 1 {
        i -= 2;
        block[at + i + 1] = b'0' + (left % 100 % 10) as u8;
        block[at + i] = b'0' + (left % 100 / 10) as u8;
        left /= 100;
    }
    if i == 1 {
        block[at] = b'0' + (left % 10) as u8;
    }
}

// Spells a number in decimal.
// Tables: block holds its digits from the place on, and is else as before. Refusals: none.
pub fn spell_decimal(block: &mut Block, at: usize, number: u64) -> usize
    requires { at + 20 ≤ block_bytes }
    ensures text { Spelled block.old at (decimal_text number) block.new result }
    ensures most { result ≤ at + 20 }
{
    let count = count_digits(number);
    spell_digits(block, at, number, count);
    at + count
}

// Spells a text, then a number in decimal.
// Tables: block holds both from the place on, and is else as before; text is only read. Refusals: none.
pub fn spell_number(block: &mut Block, at: usize, text: &[u8], number: u64) -> usize
    requires { at + (length text.now + 20) ≤ block_bytes }
    ensures text { Spelled block.old at (number_text text.now number) block.new result }
    ensures most { result ≤ at + (length text.now + 20) }
{
    let placed = spell_text(block, at, text);
    spell_decimal(block, placed, number)
}
