// The calls at the terminal: word, mark, setup and those of the host.
use crate::benches::{Bench, Problem};
use crate::calls::Setting;
use crate::replies::Reply;
use crate::tables::{LENT_MASKS_MOST, LENT_WORDS_MOST, Table};
use terminal::{Event, Happened, Setup, Terminal};

// "every mask": one for each subaddress
pub(crate) const MASKS: usize = 32;

// "At the start: a terminal of address 5 with every mask FFFFFFFF, fresh"
pub(crate) fn first_terminal() -> Terminal {
    Terminal::fresh(Setup::build(5, [0xFFFF_FFFF; 32], [0xFFFF_FFFF; 32]))
}

// Hands an event to a terminal with so many words of the tables as are lent. soak does that on a bench of its own: one for both would be a
// library of four lines.
fn hand(terminal: Terminal, event: Event, receive: &mut Table, transmit: &Table) -> Happened {
    let into = receive.lent.min(LENT_WORDS_MOST);
    let from = transmit.lent.min(LENT_WORDS_MOST);
    terminal.event(event, &mut receive.words[..into], &transmit.words[..from])
}

impl Bench {
    // word, mark
    pub(crate) fn happen(&mut self, event: Event) -> Result<Reply, Problem> {
        // read before the tables are lent
        let terminal = self.terminal;
        let happened = hand(terminal, event, &mut self.receive, &self.transmit);
        if let Some(refusal) = happened.refusal {
            return Err(Problem::Refused(refusal));
        }
        self.terminal = happened.terminal;
        Ok(Reply::Happened {
            answer: happened.answer,
            cut: happened.cut,
        })
    }

    // setup A, setup A R T. One that is refused leaves the terminal as it was.
    pub(crate) fn set_up(
        &mut self,
        address: u16,
        receive: usize,
        transmit: usize,
    ) -> Result<Reply, Problem> {
        let made = terminal::set_up(
            address,
            &self.receive.masks[..receive.min(LENT_MASKS_MOST)],
            &self.transmit.masks[..transmit.min(LENT_MASKS_MOST)],
        );
        match made {
            Ok(terminal) => {
                self.terminal = terminal;
                Ok(Reply::AT_TERMINAL)
            }
            Err(refused) => Err(Problem::Refused(refused.refusal)),
        }
    }

    // service, busy, subsystem, fault, vector, bit, selftest, restart
    pub(crate) fn set(&mut self, setting: Setting) -> Reply {
        let terminal = self.terminal;
        self.terminal = match setting {
            Setting::Service(on) => terminal.set_service(on),
            Setting::Busy(on) => terminal.set_busy(on),
            Setting::Subsystem(on) => terminal.set_subsystem(on),
            Setting::Fault(on) => terminal.set_terminal_fault(on),
            Setting::Vector(word) => terminal.set_vector_word(word),
            Setting::Bit(word) => terminal.set_bit_word(word),
            Setting::ClearSelftest => terminal.clear_selftest(),
            Setting::Restart => terminal.restart(),
        };
        Reply::AT_TERMINAL
    }
}
