// H, the host calls of the mixed part (bench/soak.h). What is drawn and in which order is fixed there.
use crate::calls::Call;
use crate::draws::{draw, draw_word, one_in};
use crate::streams::Stream;

impl Stream {
    // "the host writes the transmit table at place 32 * (subaddress of command) + draw(32), word draw(65536)"
    fn send(self, seed: &mut u64) -> Call {
        let at = 32 * usize::from(self.command.subaddress());
        let place = at + draw(seed, 32) as usize;
        let word = draw_word(seed);
        Call::Send { place, word }
    }

    // "H, host."
    pub(crate) fn host(self, seed: &mut u64) -> Call {
        match draw(seed, 12) {
            0 => Call::Service(one_in(seed, 3)),
            1 => Call::Busy(one_in(seed, 3)),
            2 => Call::Subsystem(one_in(seed, 3)),
            3 => Call::Fault(one_in(seed, 3)),
            4 => Call::Vector(draw_word(seed)),
            5 => Call::Bit(draw_word(seed)),
            6 => Call::ClearSelftest,
            _ => self.send(seed),
        }
    }
}
