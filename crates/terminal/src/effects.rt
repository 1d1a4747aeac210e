// What a settled mode command does (01 The terminal: "Effects come after the answer is composed"). Meaning: specs/Effects.antt. Inner functions:
// settling calls them. Refusals: none.
ghost use Rattle.std.specs.Prelude.{◌≡◌};
ghost use Rattle.terminal.specs.Commands.{is_legal};
ghost use Rattle.terminal.specs.Settling.{other_bus};
ghost use Rattle.terminal.specs.Effects.{effect_of, held_after};
ghost use Rattle.terminal.specs.Works.{last_awaited};

use crate::commands::{
    INHIBIT, INHIBIT_OVERRIDE, RESET, SELF_TEST, SHUTDOWN, SHUTDOWN_OVERRIDE, SYNCHRONIZE,
    SYNCHRONIZE_WITH_DATA,
};
use crate::states::{Held, Message, Own, Terminal};
use crate::tables::STAGED_WORDS;
use records::{BUS_A, BUS_B};
use words::StatusWord;

// Gives the other bus. Numbers and no enum: the host may ask of any, and a record may have any until it is refused.
pub(crate) fn other_bus(bus: u8) -> u8
    ensures bus { result ≡ other_bus bus }
{
    if bus == BUS_A { BUS_B } else { BUS_A }
}

impl Held {
    // Gives what is held after a legal mode command of that code, on that bus, with that data word.
    fn effect(self, own: Own, code: u16, bus: u8, word: u16) -> Held
        ensures held { result ≡ effect_of own self code bus word }
    {
        match code {
            SYNCHRONIZE => self.with_sync_word(0),
            SELF_TEST => self.with_selftest(true),
            SHUTDOWN => self.with_shut(other_bus(bus), true),
            SHUTDOWN_OVERRIDE => self.with_shut(other_bus(bus), false),
            INHIBIT => self.with_inhibit(true),
            INHIBIT_OVERRIDE => self.with_inhibit(false),
            RESET => Held::fresh(own),
            SYNCHRONIZE_WITH_DATA => self.with_sync_word(word),
            _ => self,
        }
    }
}

impl Message {
    // Gives the last data word that the command awaits, of a mode command its only one; 0 where it awaits none. Asked of its number and not of place
    // 0, it leaves the staged words one piece to copy.
    fn last_awaited(self) -> u16
        ensures word { result ≡ last_awaited self }
    {
        let command = self.command;
        let count = command.awaited() as usize;
        if (1 <= count) & (count <= STAGED_WORDS) {
            self.words[count - 1]
        } else {
            0
        }
    }
}

impl Terminal {
    // Gives what is held once the message is settled with that status.
    pub(crate) fn held_after(self, status: StatusWord, legal: bool) -> Held
        requires { legal ≡ is_legal self.setup self.message.command.0 }
        ensures held { result ≡ held_after self status.0 }
    {
        let own = self.setup.own;
        let message = self.message;
        let command = message.command;
        let word = message.last_awaited();
        let stored = self.held.with_status(status);
        if legal & command.is_mode() {
            return stored.effect(own, command.count(), message.bus, word);
        }
        stored
    }
}
