// R, the events of the mixed part that are to be refused (bench/soak.h). They change no variable of the stream. What is drawn and in which order is fixed
// there.
use crate::calls::{Call, Lending, addressed, right_record};
use crate::draws::{draw, draw_from};
use crate::streams::Stream;
use records::WordRecord;
use terminal::Event;
use words::Moment;

// "SIZE[4]"
const SIZES: [usize; 4] = [0, 1023, 1025, 2048];

// What is to be wrong with an event: by the bits of x a table's size, "x AND 1", a field, "x AND 2", and the time, "x AND 4".
#[derive(Clone, Copy)]
struct Wrong {
    size: bool,
    field: bool,
    time: bool,
}

// "time = END * 2^draw(16)"
fn past_clock(seed: &mut u64) -> Moment {
    Moment(Moment::END.0 << draw(seed, 16))
}

// Gives the record with one field out of range: "1: bus = 2 + draw(254); ..".
fn spoil_field(seed: &mut u64, heard: WordRecord) -> WordRecord {
    match draw(seed, 5) {
        0 => WordRecord {
            time: past_clock(seed),
            ..heard
        },
        1 => WordRecord {
            bus: 2 + draw(seed, 254) as u8,
            ..heard
        },
        2 => WordRecord {
            sync: 3 + draw(seed, 253) as u8,
            ..heard
        },
        3 => WordRecord {
            faults: 4 + draw(seed, 252) as u8,
            ..heard
        },
        _ => WordRecord {
            parity: 2 + draw(seed, 254) as u8,
            ..heard
        },
    }
}

impl Wrong {
    // "x = 1 + draw(7)"
    fn choose(seed: &mut u64) -> Wrong {
        let x = 1 + draw(seed, 7);
        Wrong {
            size: x & 1 != 0,
            field: x & 2 != 0,
            time: x & 4 != 0,
        }
    }

    // "If x AND 1: the receive table if draw(2) = 0, else the transmit table, is lent with SIZE[draw(4)] words".
    fn lend(self, seed: &mut u64, event: Event) -> Lending {
        let whole = Lending::whole(event);
        if !self.size {
            return whole;
        }
        if draw(seed, 2) == 0 {
            let receive = draw_from(seed, &SIZES);
            return Lending { receive, ..whole };
        }
        let transmit = draw_from(seed, &SIZES);
        Lending { transmit, ..whole }
    }

    // Gives the mark of that time, or one past the clock.
    fn mark(self, seed: &mut u64, time: u64) -> Event {
        if self.field {
            return Event::Mark(past_clock(seed));
        }
        Event::Mark(Moment(time))
    }
}

impl Stream {
    // "time = now + draw(300). If x AND 4, time = now - (the lesser of now and 1 + draw(300))."
    fn time_to_refuse(self, seed: &mut u64, wrong: Wrong) -> u64 {
        let time = self.now.wrapping_add(draw(seed, 300));
        if !wrong.time {
            return time;
        }
        self.now.saturating_sub(1 + draw(seed, 300))
    }

    // Gives the record of that time, or one with a field out of range.
    fn record_to_refuse(self, seed: &mut u64, wrong: Wrong, time: u64) -> Event {
        let bus = draw(seed, 2) as u8;
        let word = addressed(self.address, draw(seed, 2048) as u16);
        let heard = right_record(time, bus, 0, word);
        if wrong.field {
            return Event::Word(spoil_field(seed, heard));
        }
        Event::Word(heard)
    }

    // "R, to be refused."
    pub(crate) fn to_refuse(self, seed: &mut u64) -> Call {
        let wrong = Wrong::choose(seed);
        let time = self.time_to_refuse(seed, wrong);
        let event = if draw(seed, 2) == 0 {
            wrong.mark(seed, time)
        } else {
            self.record_to_refuse(seed, wrong, time)
        };
        Call::Happen(wrong.lend(seed, event))
    }
}
