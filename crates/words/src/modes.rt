// The table of mode codes, as data, and what it says of a command (01 Mode codes). Meaning: specs/Modes.antt. Refusals: none.
ghost use Rattle.std.specs.Prelude.{◌≡◌};
ghost use Rattle.words.specs.Modes.{listing_of, is_allowed};

use crate::commands::CommandWord;

// The column "data word", where it says that there is one.
#[derive(Clone, Copy, Debug, PartialEq, Eq)]
pub enum ModeWord {
    Sent,
    Received,
}

// What the table says of a T/R bit and a code that it lists: "All else is reserved."
#[derive(Clone, Copy, Debug, PartialEq, Eq)]
pub struct Listing {
    pub broadcast: bool,
    pub word: Option<ModeWord>,
}

// The table by T/R bit and code: T/R 0 with the codes 0 to 15 and 16 to 31, then T/R 1. '.' is reserved; 'n' and 'b' have no data word,
// 's' has one sent, 'r' one received; 'b' and 'r' may be broadcast. Letters, so that it can be held against 01's table.
const ROWS: [u8; 64] = *b"\
................\
.r..rr..........\
nbnbbbbbb.......\
s.ss............";

// Gives what the table says of the T/R bit and the code of a mode command, none where they are reserved.
// Tables: none. Refusals: none.
pub fn look_up(command: CommandWord) -> Option<Listing>
    ensures listing { result ≡ listing_of command.0 }
{
    let (broadcast, word) = match ROWS[(command.transmit() * 32 + command.count()) as usize] {
        b'n' => (false, None),
        b'b' => (true, None),
        b's' => (false, Some(ModeWord::Sent)),
        b'r' => (true, Some(ModeWord::Received)),
        _ => return None,
    };
    Some(Listing { broadcast, word })
}

// Says whether the table allows the mode command: it is listed and, where it goes to 31, listed for broadcast. So are 20 and 21. A match, since
// `is_some_and` promises an equivalence and no equation.
// Tables: none. Refusals: none.
pub fn is_allowed(command: CommandWord) -> bool
    ensures answer { result ≡ is_allowed command.0 }
{
    match look_up(command) {
        None => false,
        Some(listing) => listing.broadcast | !command.is_broadcast(),
    }
}
