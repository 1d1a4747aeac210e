// The calls of docs/BENCH.md, and which of them a line is.
use crate::parts::Parts;
use crate::tables::{LENT_MASKS_MOST, LENT_WORDS_MOST, Side};
use crate::terminals::MASKS;
use records::WordRecord;
use terminal::Event;
use verdict::Plan;
use words::Moment;

// the last subaddress that has a mask
const LAST_SUBADDRESS: usize = 31;

// A call with its parts as what they are.
#[derive(Clone, Copy)]
pub(crate) enum Call<'a> {
    Event(Event),
    // so many masks of each table are lent
    SetUp {
        address: u16,
        receive: usize,
        transmit: usize,
    },
    Host(Setting),
    Mask {
        side: Side,
        subaddress: usize,
        mask: u32,
    },
    Tables {
        receive: usize,
        transmit: usize,
    },
    Send {
        place: usize,
        word: u16,
    },
    Received {
        place: usize,
        count: usize,
    },
    State,
    Spacing,
    Plan(Plan),
    Back(WordRecord),
    // what the bytes are spelled by, or "none"
    Bytes(&'a [u8]),
    Judge,
    Looked,
    File,
    Help,
}

// What the host does at the terminal.
#[derive(Clone, Copy)]
pub(crate) enum Setting {
    Service(bool),
    Busy(bool),
    Subsystem(bool),
    Fault(bool),
    Vector(u16),
    Bit(u16),
    ClearSelftest,
    Restart,
}

impl Parts<'_> {
    // A, or A R T: a set-up that names no masks lends all
    fn take_set_up(&mut self) -> Option<Call<'static>> {
        let address = self.take_number()?;
        if self.is_empty() {
            return Some(Call::SetUp {
                address,
                receive: MASKS,
                transmit: MASKS,
            });
        }
        Some(Call::SetUp {
            address,
            receive: self.take_at_most(LENT_MASKS_MOST)?,
            transmit: self.take_at_most(LENT_MASKS_MOST)?,
        })
    }

    // I, or I N: one that names no number of words asks for one
    fn take_received(&mut self) -> Option<Call<'static>> {
        let place = self.take_number()?;
        let count = if self.is_empty() {
            1
        } else {
            self.take_number()?
        };
        Some(Call::Received { place, count })
    }

    // r S MASK, or t S MASK
    fn take_mask_call(&mut self) -> Option<Call<'static>> {
        Some(Call::Mask {
            side: self.take_side()?,
            subaddress: self.take_at_most(LAST_SUBADDRESS)?,
            mask: self.take_mask()?,
        })
    }

    // R T
    fn take_tables(&mut self) -> Option<Call<'static>> {
        Some(Call::Tables {
            receive: self.take_at_most(LENT_WORDS_MOST)?,
            transmit: self.take_at_most(LENT_WORDS_MOST)?,
        })
    }

    // I WORD
    fn take_send(&mut self) -> Option<Call<'static>> {
        Some(Call::Send {
            place: self.take_number()?,
            word: self.take_word()?,
        })
    }
}

// Gives what the host does by a call of that name, with the parts that it wants.
fn setting_named(name: &[u8], parts: &mut Parts) -> Option<Setting> {
    match name {
        b"service" => Some(Setting::Service(parts.take_flag()?)),
        b"busy" => Some(Setting::Busy(parts.take_flag()?)),
        b"subsystem" => Some(Setting::Subsystem(parts.take_flag()?)),
        b"fault" => Some(Setting::Fault(parts.take_flag()?)),
        b"vector" => Some(Setting::Vector(parts.take_word()?)),
        b"bit" => Some(Setting::Bit(parts.take_word()?)),
        b"selftest" => Some(Setting::ClearSelftest),
        b"restart" => Some(Setting::Restart),
        _ => None,
    }
}

// Gives the call of a name, with the parts that it wants; any but bytes.
fn call_named(name: &[u8], parts: &mut Parts) -> Option<Call<'static>> {
    match name {
        b"word" => Some(Call::Event(Event::Word(parts.take_record()?))),
        b"mark" => Some(Call::Event(Event::Mark(Moment(parts.take_number()?)))),
        b"setup" => parts.take_set_up(),
        b"mask" => parts.take_mask_call(),
        b"tables" => parts.take_tables(),
        b"send" => parts.take_send(),
        b"received" => parts.take_received(),
        b"state" => Some(Call::State),
        b"spacing" => Some(Call::Spacing),
        b"plan" => Some(Call::Plan(parts.take_plan()?)),
        b"back" => Some(Call::Back(parts.take_record()?)),
        b"judge" => Some(Call::Judge),
        b"looked" => Some(Call::Looked),
        b"file" => Some(Call::File),
        b"help" => Some(Call::Help),
        _ => Some(Call::Host(setting_named(name, parts)?)),
    }
}

// Gives the call that a line is: its name, the parts that it wants, and nothing behind them.
pub(crate) fn call_of(line: &[u8]) -> Option<Call<'_>> {
    let mut parts = Parts::of(line);
    let name = parts.take()?;
    // the one call that holds a part of the line stands here, since a match can't join it with those that hold none
    let call = match name {
        b"bytes" => Call::Bytes(parts.take_rest()?),
        _ => call_named(name, &mut parts)?,
    };
    parts.is_empty().then_some(call)
}
