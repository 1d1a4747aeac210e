// The stream: its state, its choice of the next call, and what calls share (bench/soak.h, MIXED PART and P). What is drawn and in which order is fixed there.
use crate::calls::{Call, lend_whole, right_record, turn_parity};
use crate::draws::{draw, draw_word};
use crate::sweeps::Sweep;
use records::WordRecord;
use terminal::Event;
use words::{CommandWord, Moment};

// "a stage (idle, data, status or full)"
#[derive(Clone, Copy)]
pub(crate) enum Stage {
    Idle,
    Data,
    Status,
    Full,
}

// "Variables: address, now, from, bus, command, partner, left, first, and a stage"; before them the fixed part, None once it is over, and whether
// the mixed part's first set-up has been made.
#[derive(Clone, Copy)]
pub(crate) struct Stream {
    pub(crate) sweep: Option<Sweep>,
    pub(crate) started: bool,
    pub(crate) now: u64,
    pub(crate) from: u64,
    pub(crate) address: u16,
    pub(crate) bus: u8,
    pub(crate) command: CommandWord,
    pub(crate) partner: u16,
    pub(crate) left: u16,
    pub(crate) first: bool,
    pub(crate) stage: Stage,
}

// A call, and the stream after it.
#[derive(Clone, Copy)]
pub(crate) struct Made {
    pub(crate) call: Call,
    pub(crate) stream: Stream,
}

// Gives the other bus of the two. The terminal, which is tried here, is not asked for its own.
pub(crate) fn other_bus(bus: u8) -> u8 {
    if bus == 0 { 1 } else { 0 }
}

// P's draw and what it does: "a record that may be spoilt, by draw(128)".
fn may_spoil(seed: &mut u64, heard: WordRecord) -> WordRecord {
    match draw(seed, 128) {
        0 => turn_parity(heard),
        1 => WordRecord {
            faults: 1 + draw(seed, 3) as u8,
            ..heard
        },
        2 => WordRecord {
            sync: draw(seed, 3) as u8,
            ..heard
        },
        3 => WordRecord {
            bus: other_bus(heard.bus),
            ..heard
        },
        4 => right_record(heard.time.0, heard.bus, heard.sync, draw_word(seed)),
        _ => heard,
    }
}

impl Stream {
    pub(crate) fn start() -> Stream {
        Stream {
            sweep: Some(Sweep::start()),
            started: false,
            now: 0,
            from: 0,
            address: 0,
            bus: 0,
            command: CommandWord(0),
            partner: 0,
            left: 0,
            first: false,
            stage: Stage::Idle,
        }
    }

    // Gives later(from + ticks): "later(x) = the greater of now and x."
    pub(crate) fn after(self, ticks: u64) -> u64 {
        self.from.wrapping_add(ticks).max(self.now)
    }

    // "Whenever .. has made its event and the event's time is below END, now becomes that time".
    fn reached(self, time: Moment) -> Stream {
        if time.on_clock() {
            Stream {
                now: time.0,
                ..self
            }
        } else {
            self
        }
    }

    // Gives the call of a mark.
    pub(crate) fn mark(self, time: u64) -> Made {
        let moment = Moment(time);
        Made {
            call: lend_whole(Event::Mark(moment)),
            stream: self.reached(moment),
        }
    }

    // Gives the call of a record.
    pub(crate) fn hear(self, heard: WordRecord) -> Made {
        Made {
            call: lend_whole(Event::Word(heard)),
            stream: self.reached(heard.time),
        }
    }

    // "P(time, bus, sync, word)"
    pub(crate) fn plan(self, seed: &mut u64, time: u64, bus: u8, sync: u8, word: u16) -> Made {
        self.hear(may_spoil(seed, right_record(time, bus, sync, word)))
    }

    // Gives a call that changes no variable.
    fn only(self, call: Call) -> Made {
        Made { call, stream: self }
    }

    // "For each later call k = draw(256)"
    fn choose(self, seed: &mut u64) -> Made {
        match draw(seed, 256) {
            0..=1 => self.set_up(seed),
            2 => self.only(Call::Restart),
            3..=10 => self.only(self.host(seed)),
            11..=16 => self.only(self.to_refuse(seed)),
            17..=26 => self.stray_record(seed),
            27..=36 => self.stray_mark(seed),
            37..=40 => self.new_command(seed),
            _ => self.go_on(seed),
        }
    }

    // Gives the next call of the fixed part.
    fn next_fixed(self, sweep: Sweep) -> Made {
        let swept = sweep.next();
        let stream = Stream {
            sweep: swept.sweep,
            ..self
        };
        Made {
            call: swept.call,
            stream,
        }
    }

    // Gives the next call.
    pub(crate) fn next(self, seed: &mut u64) -> Made {
        match self.sweep {
            Some(sweep) => self.next_fixed(sweep),
            None if self.started => self.choose(seed),
            None => self.set_up(seed),
        }
    }
}
