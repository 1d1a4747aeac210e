// Host calls, host reads and the next moment (01 The terminal). Meaning: specs/Events.antt, specs/States.antt. Refusals: none.
ghost use Rattle.std.specs.Prelude.{◌≡◌};
ghost use Rattle.terminal.specs.Settling.{is_shut};
ghost use Rattle.terminal.specs.States.{with_service, with_busy, with_subsystem, with_terminal_fault, with_vector_word, with_bit_word, with_host, spacing_in, moment_in};
ghost use Rattle.terminal.specs.Events.{selftest_cleared, restarted_of};

use crate::states::{Held, Message, SpacingFault, Terminal};
use crate::tables::is_shut;
use words::{CommandWord, Moment, StatusWord};

impl Terminal {
    // Gives the terminal with the host's service request flag on or off.
    // Tables: none. Refusals: none.
    pub fn set_service(self, on: bool) -> Terminal
        ensures terminal { result ≡ with_host self (with_service self.host on) }
    {
        let mut next = self;
        next.host.service = on;
        next
    }

    // Gives the terminal with the host's busy flag on or off.
    // Tables: none. Refusals: none.
    pub fn set_busy(self, on: bool) -> Terminal
        ensures terminal { result ≡ with_host self (with_busy self.host on) }
    {
        let mut next = self;
        next.host.busy = on;
        next
    }

    // Gives the terminal with the host's subsystem flag on or off.
    // Tables: none. Refusals: none.
    pub fn set_subsystem(self, on: bool) -> Terminal
        ensures terminal { result ≡ with_host self (with_subsystem self.host on) }
    {
        let mut next = self;
        next.host.subsystem = on;
        next
    }

    // Gives the terminal with the host's terminal fault flag on or off.
    // Tables: none. Refusals: none.
    pub fn set_terminal_fault(self, on: bool) -> Terminal
        ensures terminal { result ≡ with_host self (with_terminal_fault self.host on) }
    {
        let mut next = self;
        next.host.defect = on;
        next
    }

    // Gives the terminal with another vector word.
    // Tables: none. Refusals: none.
    pub fn set_vector_word(self, word: u16) -> Terminal
        ensures terminal { result ≡ with_host self (with_vector_word self.host word) }
    {
        let mut next = self;
        next.host.vectorword = word;
        next
    }

    // Gives the terminal with another BIT word.
    // Tables: none. Refusals: none.
    pub fn set_bit_word(self, word: u16) -> Terminal
        ensures terminal { result ≡ with_host self (with_bit_word self.host word) }
    {
        let mut next = self;
        next.host.bitword = word;
        next
    }

    // Gives the terminal with no self-test request.
    // Tables: none. Refusals: none.
    pub fn clear_selftest(self) -> Terminal
        ensures terminal { result ≡ selftest_cleared self }
    {
        let mut next = self;
        next.held.selftest = false;
        next
    }

    // Gives the terminal fresh, with the host's flags and words and the last event's time; a message or sending has ended.
    // Tables: none. Refusals: none.
    pub fn restart(self) -> Terminal
        ensures terminal { result ≡ restarted_of self }
    {
        let held = Held::fresh(self.setup.own);
        let message = Message::none();
        let mut after = self;
        after.held = held;
        after.message = message;
        after.sending = None;
        after.next = None;
        after
    }

    // Gives the stored status.
    // Tables: none. Refusals: none.
    pub fn status(self) -> StatusWord
        ensures status { result ≡ self.held.status }
    {
        self.held.status
    }

    // Gives the last command.
    // Tables: none. Refusals: none.
    pub fn last_command(self) -> CommandWord
        ensures command { result ≡ self.held.command }
    {
        self.held.command
    }

    // Gives the sync word.
    // Tables: none. Refusals: none.
    pub fn sync_word(self) -> u16
        ensures word { result ≡ self.held.syncword }
    {
        self.held.syncword
    }

    // Says whether the self-test request is set.
    // Tables: none. Refusals: none.
    pub fn wants_selftest(self) -> bool
        ensures answer { result ≡ self.held.selftest }
    {
        self.held.selftest
    }

    // Says whether the terminal flag is inhibited.
    // Tables: none. Refusals: none.
    pub fn is_inhibited(self) -> bool
        ensures answer { result ≡ self.held.inhibit }
    {
        self.held.inhibit
    }

    // Says whether the transmitter of the bus is shut down; a bus past the two has none.
    // Tables: none. Refusals: none.
    pub fn is_shut_down(self, bus: u8) -> bool
        ensures answer { result ≡ is_shut self.held bus }
    {
        let shut = self.held.shut;
        is_shut(shut, bus)
    }

    // Gives the kind of the last spacing fault, or none.
    // Tables: none. Refusals: none.
    pub fn last_spacing_fault(self) -> Option<SpacingFault>
        ensures kind { result ≡ spacing_in self.held }
    {
        if self.held.overlapping {
            return Some(SpacingFault::Overlapping);
        }
        if self.held.separated {
            return Some(SpacingFault::Separated);
        }
        None
    }

    // Gives the next moment at which time alone matters, or none, as it is kept: after any calls that of the message (`kept_moment` of `history`). It may differ after
    // every event that is not refused and after a restart.
    // Tables: none. Refusals: none.
    pub fn next_moment(self) -> Option<Moment>
        ensures next { result ≡ moment_in self }
    {
        self.next
    }
}
