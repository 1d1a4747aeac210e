// The bench: the terminal under the stream's calls, and the checksum over what they give.
use crate::calls::{Call, Lending, SettingUp};
use crate::draws::mixed_mask;
use crate::sums::{START, add_answer, add_byte, add_state};
use crate::tables::Tables;
use std::array;
use terminal::{RefusedSetUp, Setup, Terminal};
use words::Refusal;

// how many masks of a table a set-up can be lent
const MASKS: usize = 64;

#[derive(Clone, Copy)]
pub(crate) struct Bench {
    pub(crate) terminal: Terminal,
    pub(crate) sum: u64,
}

// Gives 64 masks: "With m = 0 every mask is FFFFFFFFh; else receive mask i is the low 32 bits of mix(m + i) OR its high 32 bits".
fn make_masks(m: u64, from: u64) -> [u32; MASKS] {
    if m == 0 {
        return [u32::MAX; MASKS];
    }
    let start = m.wrapping_add(from);
    array::from_fn(|i| mixed_mask(start.wrapping_add(i as u64)))
}

// Sets up with as many masks of the tables as the call says.
fn set_up(call: SettingUp) -> Result<Terminal, RefusedSetUp> {
    let receive = make_masks(call.masks, 0);
    let transmit = make_masks(call.masks, 64);
    let received = call.receive.min(MASKS);
    let transmitted = call.transmit.min(MASKS);
    terminal::set_up(call.address, &receive[..received], &transmit[..transmitted])
}

impl Bench {
    // "The first call is a set-up that is accepted, so the terminal before it does not matter."
    pub(crate) fn start() -> Bench {
        let setup = Setup::build(0, [0; 32], [0; 32]);
        Bench {
            terminal: Terminal::fresh(setup),
            sum: START,
        }
    }

    // 1 and 3: the refusal, "0 for none and for every host call", and what the terminal says of itself.
    fn outcome(self, refusal: Option<Refusal>) -> Bench {
        let refused = add_byte(self.sum, refusal.map_or(0, Refusal::number));
        Bench {
            sum: add_state(refused, self.terminal),
            ..self
        }
    }

    // After a host call: no refusal.
    fn hosted(self, terminal: Terminal) -> Bench {
        Bench { terminal, ..self }.outcome(None)
    }

    fn set_up(self, call: SettingUp) -> Bench {
        match set_up(call) {
            Ok(terminal) => self.hosted(terminal),
            Err(refused) => self.outcome(Some(refused.refusal)),
        }
    }

    fn happen(self, call: Lending, tables: &mut Tables) -> Bench {
        let happened = tables.lend(self.terminal, call);
        if happened.refusal.is_some() {
            return self.outcome(happened.refusal);
        }
        let answered = add_answer(add_byte(self.sum, 0), happened.answer, happened.cut);
        let told = add_state(answered, happened.terminal);
        let sum = if happened.answer.is_some() {
            tables.add_received(told)
        } else {
            told
        };
        Bench {
            terminal: happened.terminal,
            sum,
        }
    }

    fn send(self, place: usize, word: u16, tables: &mut Tables) -> Bench {
        tables.send(place, word);
        self.outcome(None)
    }

    // Makes the call, and adds its outcome to the sum. A match on the calls: what each takes is in the call, and the stream knows no other kinds.
    pub(crate) fn play(self, call: Call, tables: &mut Tables) -> Bench {
        let terminal = self.terminal;
        match call {
            Call::SetUp(made) => self.set_up(made),
            Call::Happen(lending) => self.happen(lending, tables),
            Call::Service(on) => self.hosted(terminal.set_service(on)),
            Call::Busy(on) => self.hosted(terminal.set_busy(on)),
            Call::Subsystem(on) => self.hosted(terminal.set_subsystem(on)),
            Call::Fault(on) => self.hosted(terminal.set_terminal_fault(on)),
            Call::Vector(word) => self.hosted(terminal.set_vector_word(word)),
            Call::Bit(word) => self.hosted(terminal.set_bit_word(word)),
            Call::ClearSelftest => self.hosted(terminal.clear_selftest()),
            Call::Send { place, word } => self.send(place, word, tables),
            Call::Restart => self.hosted(terminal.restart()),
        }
    }

    // Adds what changed in the receive table, after the call of that number where it is a multiple of 1,024.
    pub(crate) fn look(self, number: u64, tables: &mut Tables) -> Bench {
        if !number.is_multiple_of(1024) {
            return self;
        }
        Bench {
            sum: tables.add_received(self.sum),
            ..self
        }
    }
}
