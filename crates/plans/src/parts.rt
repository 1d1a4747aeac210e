// The parts of a line, which stand apart by one space each, since a line is gathered so. Meaning: specs/Parts.antt. Refusals: none.
ghost use Rattle.std.specs.Prelude.{◌≡◌, [], slice_index_or};
ghost use Rattle.plans.specs.Parts.{parts_behind, parts_of};

// Gives how many parts a line has behind its first.
#[tactic(auto, using(crate::proofs::Splits::behind_counts))]
pub(crate) fn parts_behind(line: &[u8]) -> usize
    ensures count { result ≡ parts_behind line.now }
{
    line.iter().filter(|byte| **byte == b' ').count()
}

// Gives the part that has so many before it, no bytes where there is none.
pub(crate) fn part(line: &[u8], before: usize) -> &[u8]
    ensures bytes { result.now ≡ slice_index_or (parts_of line.now) before [] }
{
    line.split(|byte| *byte == b' ').nth(before).unwrap_or(&[])
}
