// Fields of a 16-bit word, by shifts and masks, once for any place and width (01 Time and words). Meaning: specs/Words.antt.
// Inner leaves: no user calls them. Refusals: none.
ghost use Rattle.std.specs.Prelude.{◌≡◌, ◌+◌, ◌-◌, ◌^◌, ◌≤◌, ◌<◌};
ghost use Rattle.words.specs.Words.{field_of, placed_of};

// Gives the mask of that many low bits.
fn mask(width: u16) -> u16
    requires { width < 16 }
    ensures mask { result ≡ 2 ^ width - 1 }
{
    (1 << width) - 1
}

// Gives the field of that width whose lowest bit stands at that place.
pub(crate) fn field(word: u16, place: u16, width: u16) -> u16
    requires { (place < 16) × (width < 16) }
    ensures field { result ≡ field_of place width word }
{
    (word >> place) & mask(width)
}

// Gives the word that holds the low bits of the value, so many as the width, in that field, and 0 elsewhere.
pub(crate) fn placed(value: u16, place: u16, width: u16) -> u16
    requires { (place < 16) × (width < 16) × (width + place ≤ 16) }
    ensures word { result ≡ placed_of place width value }
{
    (value & mask(width)) << place
}
