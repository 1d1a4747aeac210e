// S, the set-ups of the mixed part (bench/soak.h). What is drawn and in which order is fixed there.
use crate::calls::{Call, SettingUp};
use crate::draws::{draw, next};
use crate::streams::{Made, Stage, Stream};
use words::{CommandWord, Moment};

// the masks of a right set-up
const MASKS: usize = 32;

// Gives a, which was drawn low: "If e is 0 or 1, a = 31 + draw(300). .. If e is 12 or more, a = 5." e stays the number that is drawn: what it asks
// for overlaps, so that kinds with names would say these ranges once more.
fn choose_address(seed: &mut u64, e: u64, low: u16) -> u16 {
    match e {
        0..=1 => 31 + draw(seed, 300) as u16,
        2..=11 => low,
        _ => 5,
    }
}

// Gives draw(65) where the size is to be drawn.
fn choose_size(seed: &mut u64, is_drawn: bool) -> usize {
    if is_drawn {
        draw(seed, 65) as usize
    } else {
        MASKS
    }
}

// "b = draw(8); now = END - 30000 for b = 0, 0 for b = 1, else draw(100000)".
fn choose_start(seed: &mut u64) -> u64 {
    match draw(seed, 8) {
        0 => Moment::END.0 - 30000,
        1 => 0,
        _ => draw(seed, 100000),
    }
}

impl Stream {
    // "The first call is S with e = 15 and no draw for e."
    fn choose_kind(self, seed: &mut u64) -> u64 {
        if self.started { draw(seed, 16) } else { 15 }
    }

    // Gives the stream after a set-up that is accepted.
    fn set_anew(self, seed: &mut u64, address: u16) -> Stream {
        let now = choose_start(seed);
        Stream {
            address,
            bus: 0,
            command: CommandWord(0),
            stage: Stage::Idle,
            now,
            from: now,
            ..self
        }
    }

    // "S, set-up."
    pub(crate) fn set_up(self, seed: &mut u64) -> Made {
        let drawn = next(seed);
        let e = self.choose_kind(seed);
        let low = draw(seed, 31) as u16;
        let address = choose_address(seed, e, low);
        let receive = choose_size(seed, matches!(e, 1 | 2));
        let transmit = choose_size(seed, matches!(e, 1 | 3));
        let masks = if e >= 8 { 0 } else { drawn };
        let call = Call::SetUp(SettingUp {
            address,
            receive,
            transmit,
            masks,
        });
        let started = Stream {
            started: true,
            ..self
        };
        let is_right = (receive == MASKS) & (transmit == MASKS) & (address <= 30);
        let stream = if is_right {
            started.set_anew(seed, address)
        } else {
            started
        };
        Made { call, stream }
    }
}
