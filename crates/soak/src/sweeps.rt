// The fixed part of the stream (bench/soak.h, FIXED PART): each word once as a command to a fresh terminal of address 5, no draws.
use crate::calls::{Call, SettingUp, lend_whole, right_record};
use crate::counts::awaited;
use terminal::Event;
use words::{CommandWord, Moment};

// Where the part stands: its word c, and how many of that word's calls are made.
#[derive(Clone, Copy)]
pub(crate) struct Sweep {
    word: u16,
    step: u16,
}

// A call, and the sweep after it: None once all words are through.
#[derive(Clone, Copy)]
pub(crate) struct Swept {
    pub(crate) call: Call,
    pub(crate) sweep: Option<Sweep>,
}

impl Sweep {
    pub(crate) fn start() -> Sweep {
        Sweep { word: 0, step: 0 }
    }

    // "n = awaited(c) if the address of c is 5 or 31, else 0."
    fn words(self) -> u16 {
        let command = CommandWord(self.word);
        if (command.address() == 5) | command.is_broadcast() {
            return awaited(command);
        }
        0
    }

    // Gives the call, and the sweep with one call more made of this word.
    fn stepped(self, call: Call) -> Swept {
        let step = self.step.wrapping_add(1);
        let sweep = Some(Sweep { step, ..self });
        Swept { call, sweep }
    }

    // Gives the call, and the sweep at the next word.
    fn passed(self, call: Call) -> Swept {
        let word = self.word.checked_add(1);
        let sweep = word.map(|word| Sweep { word, step: 0 });
        Swept { call, sweep }
    }

    // "a set-up of address 5, 32 and 32 masks, all FFFFFFFFh"
    fn set_up(self) -> Swept {
        self.stepped(Call::SetUp(SettingUp {
            address: 5,
            receive: 32,
            transmit: 32,
            masks: 0,
        }))
    }

    // "a record of time 1000, bus 0, sync 0, word c"
    fn command(self) -> Swept {
        let heard = right_record(1000, 0, 0, self.word);
        self.stepped(lend_whole(Event::Word(heard)))
    }

    // "for k from 1 to n a record of time 1000 + 200k, bus 0, sync 1, word (c + 257k) mod 65536; a mark of time 1260 + 200n"
    fn data(self, k: u16) -> Swept {
        let words = self.words();
        if k > words {
            let end = Moment(1260 + 200 * u64::from(words));
            return self.passed(lend_whole(Event::Mark(end)));
        }
        let time = 1000 + 200 * u64::from(k);
        let word = self.word.wrapping_add(k.wrapping_mul(257));
        let heard = right_record(time, 0, 1, word);
        self.stepped(lend_whole(Event::Word(heard)))
    }

    pub(crate) fn next(self) -> Swept {
        match self.step {
            0 => self.set_up(),
            1 => self.command(),
            step => self.data(step - 1),
        }
    }
}
