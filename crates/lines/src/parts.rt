// The parts of a line, which stand apart by spaces (01 Bench cards; 02 j). Any bytes are taken. Meaning: specs/Parts.antt. Refusals: none.
ghost use Rattle.std.specs.Prelude.{◌≡◌};
ghost use Rattle.lines.specs.Parts.{between_of, part_end};

// Gives the bytes from a start to an end, none where these are no places of the text.
// Tables: text is only read. Refusals: none.
pub fn between(text: &[u8], start: usize, end: usize) -> &[u8]
    ensures bytes { result.now ≡ between_of text.now start end }
{
    text.get(start..end).unwrap_or(&[])
}

// Gives where a part ends that begins at a start: at the next space, or with the text.
// Tables: text is only read. Refusals: none.
pub fn part_end(text: &[u8], start: usize) -> usize
    ensures place { result ≡ part_end text.now start }
{
    let from = start.min(text.len());
    let rest = &text[from..];
    from + rest
        .iter()
        .position(|byte| *byte == b' ')
        .unwrap_or(rest.len())
}
