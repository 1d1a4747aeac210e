// Set-up (01 The terminal: "Set up with an own address 0 to 30 and two tables of 32 masks"). Meaning: specs/Events.antt.
// Refusals: 1, 2.
ghost use Rattle.std.specs.Prelude.{◌≡◌, length};
ghost use Rattle.terminal.specs.Events.{set_up_refusal, set_up_of};

use crate::states::{Setup, Terminal};
use words::{CommandWord, Refusal};

// "an own address 0 to 30 and two tables of 32 masks"
const LAST_ADDRESS: u16 = 30;

const MASKS: usize = 32;

// A set-up that was refused: why, and a terminal that can never answer.
#[derive(Clone, Copy)]
pub struct RefusedSetUp {
    pub terminal: Terminal,
    pub refusal: Refusal,
}

// Gives the refusal of a set-up that lends mask tables of these lengths, or none.
fn set_up_refusal(address: u16, receive: usize, transmit: usize) -> Option<Refusal>
    ensures refusal { result ≡ set_up_refusal address receive transmit }
{
    if (receive != MASKS) | (transmit != MASKS) {
        return Some(Refusal::TableSize);
    }
    if address > LAST_ADDRESS {
        return Some(Refusal::OwnAddress);
    }
    None
}

// Gives a copy of a table of masks.
fn masks(table: &[u32]) -> [u32; 32]
    requires { length table.now ≡ 32 }
    ensures masks { result ≡ table.now }
{
    let mut copy = [0u32; 32];
    let mut i = 0;
    while i < MASKS {
        copy[i] = table[i];
        i += 1;
    }
    copy
}

// Gives the fresh terminal of the address and the masks, or with the refusal the fresh terminal of address 31 with nothing legal: every own command of
// that one is a broadcast, and it never answers.
// Tables: both are only read. Refusals: 1, a table is not 32 masks; 2, own address above 30.
pub fn set_up(address: u16, receive: &[u32], transmit: &[u32]) -> Result<Terminal, RefusedSetUp>
    ensures setup { result ≡ set_up_of address receive.now transmit.now }
{
    if let Some(refusal) = set_up_refusal(address, receive.len(), transmit.len()) {
        let setup = Setup::build(CommandWord::BROADCAST, [0; 32], [0; 32]);
        let terminal = Terminal::fresh(setup);
        return Err(RefusedSetUp { terminal, refusal });
    }
    let received = masks(receive);
    let transmitted = masks(transmit);
    let setup = Setup::build(address, received, transmitted);
    Ok(Terminal::fresh(setup))
}
