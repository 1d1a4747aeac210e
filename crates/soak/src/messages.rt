// G, how the mixed part goes on with a message (bench/soak.h), by its stage. What is drawn and in which order is fixed there.
use crate::calls::addressed;
use crate::draws::{draw, draw_step, draw_word, one_in};
use crate::streams::{Made, Stage, Stream};
use words::CommandWord;

// "d = draw(64); gap = 194, 206, 400 for d = 0, 1, 2, else 195 + draw(11)"
fn draw_gap(seed: &mut u64) -> u64 {
    match draw(seed, 64) {
        0 => 194,
        1 => 206,
        2 => 400,
        _ => 195 + draw(seed, 11),
    }
}

// "if one in 4, gap = 345 + draw(11), else gap = STEP[draw(16)]": the first so that a first data word comes near its limit
fn draw_wait(seed: &mut u64) -> u64 {
    if one_in(seed, 4) {
        return 345 + draw(seed, 11);
    }
    draw_step(seed)
}

// Gives the second command of a message between terminals: "by draw(16): 0: T/R turns, 1: the lowest bit turns, 2: subaddress = 0".
fn second_word(seed: &mut u64, partner: u16, count: u16) -> u16 {
    let subaddress = 1 + draw(seed, 30) as u16;
    let word = CommandWord::build(partner, 1, subaddress, count).0;
    match draw(seed, 16) {
        0 => CommandWord::build(partner, 0, subaddress, count).0,
        1 => word ^ 1,
        2 => CommandWord::build(partner, 1, 0, count).0,
        _ => word,
    }
}

impl Stream {
    // "stage status; the call: P(time, bus, 0, word)"
    fn second(self, seed: &mut u64, time: u64) -> Made {
        let partner = draw(seed, 31) as u16;
        let word = second_word(seed, partner, self.command.count());
        let stream = Stream {
            partner,
            stage: Stage::Status,
            ..self
        };
        stream.plan(seed, time, self.bus, 0, word)
    }

    // "left = left - 1, if it is 0 now stage full; the call: P(time, bus, 1, draw(65536))"
    fn data(self, seed: &mut u64, time: u64) -> Made {
        let left = self.left.wrapping_sub(1);
        let stage = if left == 0 { Stage::Full } else { self.stage };
        let word = draw_word(seed);
        Stream {
            left,
            stage,
            ..self
        }
        .plan(seed, time, self.bus, 1, word)
    }

    // Says whether a second command may follow here: "If first is 1, command has T/R 0 and is no mode command".
    fn may_pledge(self) -> bool {
        self.first & !self.command.is_transmit() & !self.command.is_mode()
    }

    fn on_data(self, seed: &mut u64) -> Made {
        let time = self.after(draw_gap(seed));
        let stream = Stream {
            first: false,
            from: time,
            ..self
        };
        if self.may_pledge() && one_in(seed, 4) {
            return stream.second(seed, time);
        }
        stream.data(seed, time)
    }

    fn on_status(self, seed: &mut u64) -> Made {
        let time = self.after(draw_wait(seed));
        let word = addressed(self.partner, draw(seed, 2048) as u16);
        let turned = if one_in(seed, 16) { 0x0800 } else { 0 };
        let stream = Stream {
            from: time,
            stage: Stage::Data,
            ..self
        };
        stream.plan(seed, time, self.bus, 0, word ^ turned)
    }

    // Gives a record where nothing more is awaited: "sync = draw(2), word = draw(65536)".
    fn one_more(self, seed: &mut u64) -> Made {
        let time = self.after(draw_step(seed));
        let sync = draw(seed, 2) as u8;
        let word = draw_word(seed);
        self.plan(seed, time, self.bus, sync, word)
    }

    // Gives the mark that ends the message, that long after it.
    fn end(self, ticks: u64) -> Made {
        let time = self.after(ticks);
        let stream = Stream {
            stage: Stage::Idle,
            ..self
        };
        stream.mark(time)
    }

    fn on_full(self, seed: &mut u64) -> Made {
        match draw(seed, 8) {
            0 => self.mark(self.after(259)),
            1..=4 => self.end(260),
            5 => self.end(260 + draw(seed, 400)),
            6 => self.one_more(seed),
            _ => self.new_command(seed),
        }
    }

    // "G, going on."
    pub(crate) fn go_on(self, seed: &mut u64) -> Made {
        match self.stage {
            Stage::Idle => self.new_command(seed),
            Stage::Data => self.on_data(seed),
            Stage::Status => self.on_status(seed),
            Stage::Full => self.on_full(seed),
        }
    }
}
