// Parity, and the validity of a word (01 Time and words; the syncs of Word records on file). Meaning: specs/Words.antt. Refusals: none.
ghost use Rattle.std.specs.Prelude.{◌≡◌};
ghost use Rattle.words.specs.Words.{is_odd, parity_of, is_valid};

// "sync (1: 0 command/status, 1 data, 2 neither)"
pub const COMMAND_SYNC: u8 = 0;

pub const DATA_SYNC: u8 = 1;

// Says whether the count of ones among the 16 bits, with the parity bit added, is odd. Every parity test of the card asks this one.
fn is_odd(word: u16, parity: u8) -> bool
    ensures answer { result ≡ is_odd word parity }
{
    let ones = u16::count_ones(word) + parity as u32;
    ones & 1 == 1
}

// Gives the parity bit that makes the count of ones among all 17 odd.
// Tables: none. Refusals: none.
pub fn parity_bit(word: u16) -> u8
    ensures bit { result ≡ parity_of word }
{
    u8::from(!is_odd(word, 0))
}

// Says whether a word is valid; any number may be handed over, so none is an enum.
// Tables: none. Refusals: none.
pub fn is_valid(sync: u8, faults: u8, word: u16, parity: u8) -> bool
    ensures answer { result ≡ is_valid sync faults word parity }
{
    ((sync == COMMAND_SYNC) | (sync == DATA_SYNC))
        & (faults == 0)
        & (parity < 2)
        & is_odd(word, parity)
}
