// W and M, the records and marks of the mixed part that no plan foresees (bench/soak.h). What is drawn and in which order is fixed there.
use crate::calls::{addressed, right_record, turn_parity};
use crate::draws::{draw, draw_step, draw_word, one_in};
use crate::streams::{Made, Stream};
use records::WordRecord;

// "if one in 4, the wrong parity; if one in 4, faults = draw(4)"
fn may_harm(seed: &mut u64, heard: WordRecord) -> WordRecord {
    let mut next = heard;
    if one_in(seed, 4) {
        next = turn_parity(heard);
    }
    if one_in(seed, 4) {
        next.faults = draw(seed, 4) as u8;
    }
    next
}

impl Stream {
    // "word = draw(65536); if one in 4, word = address * 2048 + word mod 2048"
    fn stray_word(self, seed: &mut u64) -> u16 {
        let word = draw_word(seed);
        if one_in(seed, 4) {
            return addressed(self.address, word);
        }
        word
    }

    // "W, stray record."
    pub(crate) fn stray_record(self, seed: &mut u64) -> Made {
        let time = self.now.wrapping_add(draw_step(seed));
        let bus = draw(seed, 2) as u8;
        let sync = draw(seed, 3) as u8;
        let word = self.stray_word(seed);
        let heard = may_harm(seed, right_record(time, bus, sync, word));
        self.hear(heard)
    }

    // "M, stray mark."
    pub(crate) fn stray_mark(self, seed: &mut u64) -> Made {
        if one_in(seed, 2) {
            return self.mark(self.now.wrapping_add(draw_step(seed)));
        }
        self.mark(self.after(draw_step(seed)))
    }
}
