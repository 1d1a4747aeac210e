// Moments, lengths of time, gaps and spacing (01 Time and words; distances also of The terminal and Controller verdicts). Meaning:
// specs/Words.antt. Refusals: none. "A moment and a length of time must not be mixable by mistake": two types.
ghost use Rattle.std.specs.Prelude.{◌≡◌, [], ◌∷◌};
ghost use Rattle.words.specs.Words.{on_clock, plus_of, since_of, gap_of, is_spaced, spacing_of, is_back_to_back};
ghost use Rattle.words.specs.Words.{word_ticks, parity_middle, back_to_back_gap, spacing_least, spacing_most, due_distance, no_response_distance};

// A moment, in "ticks of 0.1 microsecond". "A word's time is the zero crossing in the middle of its sync."
#[derive(Clone, Copy, Debug, PartialEq, Eq, PartialOrd, Ord)]
pub struct Moment(pub u64);

// A length of time, in the same ticks. A moment minus a moment is ticks, a moment plus ticks a moment; nothing else mixes.
#[derive(Clone, Copy, Debug, PartialEq, Eq, PartialOrd, Ord)]
pub struct Ticks(pub u64);

impl Ticks {
    // "A word lasts 200 ticks"
    pub const WORD: Ticks = Ticks(200);
    // "the middle of its parity bit is 180 ticks after its time"
    pub const PARITY_MIDDLE: Ticks = Ticks(180);
    // "back-to-back words have a gap of 20"
    pub const BACK_TO_BACK_GAP: Ticks = Ticks(20);
    // "195 to 205 after the one before", both ends good
    pub const SPACING_LEAST: Ticks = Ticks(195);

    pub const SPACING_MOST: Ticks = Ticks(205);
    // "the last word's time plus 260, a gap of 80 (8.0 microseconds ..)"
    pub const DUE_DISTANCE: Ticks = Ticks(260);
    // "no response if Q is at least 320 past the last word .."
    pub const NO_RESPONSE_DISTANCE: Ticks = Ticks(320);
}

// Gives the constants above. Nothing calls it: its promise holds each to the definition that contracts cite, which a constant can not.
fn list_distances() -> [u64; 7]
    ensures all { result ≡ word_ticks ∷ parity_middle ∷ back_to_back_gap ∷ spacing_least ∷ spacing_most ∷ due_distance ∷ no_response_distance ∷ [] }
{
    [
        Ticks::WORD.0,
        Ticks::PARITY_MIDDLE.0,
        Ticks::BACK_TO_BACK_GAP.0,
        Ticks::SPACING_LEAST.0,
        Ticks::SPACING_MOST.0,
        Ticks::DUE_DISTANCE.0,
        Ticks::NO_RESPONSE_DISTANCE.0,
    ]
}

impl Moment {
    // "0 to 2^48 - 1": the first moment that is past the clock
    pub const END: Moment = Moment(0x1_0000_0000_0000);

    // Says whether the moment is on the clock.
    // Tables: none. Refusals: none.
    pub fn on_clock(self) -> bool
        ensures answer { result ≡ on_clock self.0 }
    {
        self < Self::END
    }

    // Gives the moment that many ticks later, or the last that 64 bits hold.
    // Tables: none. Refusals: none.
    pub fn plus(self, ticks: Ticks) -> Moment
        ensures later { result.0 ≡ plus_of self.0 ticks.0 }
    {
        Moment(self.0.saturating_add(ticks.0))
    }

    // Gives the ticks from an earlier moment to this one, 0 where that one is later.
    // Tables: none. Refusals: none.
    pub fn since(self, before: Moment) -> Ticks
        ensures distance { result.0 ≡ since_of before.0 self.0 }
    {
        Ticks(self.0.saturating_sub(before.0))
    }
}

// Gives the gap between two words, from the middle of the first one's parity bit to the second; 0 where that is not later.
// Tables: none. Refusals: none.
pub fn gap(before: Moment, after: Moment) -> Ticks
    ensures distance { result.0 ≡ gap_of before.0 after.0 }
{
    after.since(before.plus(Ticks::PARITY_MIDDLE))
}

// How a word stands to the one before it, with the distance (02 i).
#[derive(Clone, Copy, Debug, PartialEq, Eq)]
pub enum Spacing {
    // "overlapping (below 195)"
    Overlapping(Ticks),
    // "back to back"
    BackToBack(Ticks),
    // "separated (above 205)"
    Separated(Ticks),
}

impl Spacing {
    // Says whether the two words are back to back.
    fn is_back_to_back(self) -> bool
        ensures answer { result ≡ is_back_to_back self }
    {
        matches!(self, Spacing::BackToBack(_))
    }
}

// Gives how a word stands to the one before it, and how many ticks after it comes: 0 where it is not later, which overlaps. Every spacing test of the
// card asks this one, or promises `is_spaced`: that it answers back to back.
// Tables: none. Refusals: none.
pub fn spacing_between(before: Moment, after: Moment) -> Spacing
    ensures spacing { result ≡ spacing_of before.0 after.0 }
{
    let distance = after.since(before);
    if distance < Ticks::SPACING_LEAST {
        return Spacing::Overlapping(distance);
    }
    if distance <= Ticks::SPACING_MOST {
        return Spacing::BackToBack(distance);
    }
    Spacing::Separated(distance)
}

// Says whether a word is 195 to 205 ticks after the one before, for those who ask no more.
// Tables: none. Refusals: none.
pub fn is_spaced(before: Moment, after: Moment) -> bool
    ensures answer { result ≡ is_spaced before.0 after.0 }
{
    spacing_between(before, after).is_back_to_back()
}
