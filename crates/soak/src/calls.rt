// A call of the stream (bench/soak.h): what is handed over, and how many words or masks are lent with it.
use records::WordRecord;
use terminal::Event;
use words::{CommandWord, Moment, parity_bit};

// the words of a table
pub(crate) const TABLE: usize = 1024;

// A set-up; masks is m, from which the masks are made.
#[derive(Clone, Copy)]
pub(crate) struct SettingUp {
    pub(crate) address: u16,
    pub(crate) receive: usize,
    pub(crate) transmit: usize,
    pub(crate) masks: u64,
}

// An event, and how many words of each table are lent to it.
#[derive(Clone, Copy)]
pub(crate) struct Lending {
    pub(crate) event: Event,
    pub(crate) receive: usize,
    pub(crate) transmit: usize,
}

#[derive(Clone, Copy)]
pub(crate) enum Call {
    SetUp(SettingUp),
    Happen(Lending),
    Service(bool),
    Busy(bool),
    Subsystem(bool),
    Fault(bool),
    Vector(u16),
    Bit(u16),
    ClearSelftest,
    Send { place: usize, word: u16 },
    Restart,
}

impl Lending {
    // Gives the event with both tables whole.
    pub(crate) fn whole(event: Event) -> Lending {
        Lending {
            event,
            receive: TABLE,
            transmit: TABLE,
        }
    }
}

// Gives an event that lends both tables whole.
pub(crate) fn lend_whole(event: Event) -> Call {
    Call::Happen(Lending::whole(event))
}

// "A record has the right parity bit for its word, and faults 0, where nothing else is said."
pub(crate) fn right_record(time: u64, bus: u8, sync: u8, word: u16) -> WordRecord {
    WordRecord {
        time: Moment(time),
        bus,
        sync,
        faults: 0,
        word,
        parity: parity_bit(word),
    }
}

// Gives the record with the wrong parity, or again the right one.
pub(crate) fn turn_parity(heard: WordRecord) -> WordRecord {
    WordRecord {
        parity: heard.parity ^ 1,
        ..heard
    }
}

// Gives address * 2048 + low mod 2048.
pub(crate) fn addressed(address: u16, low: u16) -> u16 {
    CommandWord::build(address, 0, 0, 0).0 | (low % 2048)
}
