// An event whole: refused or not, then rules 1 to 6 (01 The terminal; Numbers for a refused call). Meaning: specs/Events.antt.
// Refusals: 1, 5, 6.
ghost use Rattle.std.specs.Prelude.{◌≡◌};
ghost use Rattle.terminal.specs.Events.{event_refusal, refused_of, event_of, event_receive};
ghost use Rattle.terminal.specs.Works.{told_of, heard_meaning};
ghost use Rattle.terminal.specs.declared.events.Event.TheVariants.{Word};

use crate::answers::Answer;
use crate::rules::Meaning;
use crate::states::{Own, Terminal, Work};
use crate::tables::TABLE_WORDS;
use records::{LAST_BUS, WordRecord};
use words::{Moment, Refusal};

// "An event is a record or a time mark."
#[derive(Clone, Copy)]
pub enum Event {
    Mark(Moment),
    Word(WordRecord),
}

// An event in numbers, so that it is matched on once: a time mark is told as a record of zeros at its time, and that it is a mark. A flag and no Option:
// what refuses an event and what asks its time read a record of either kind.
#[derive(Clone, Copy)]
pub struct Told {
    pub heard: WordRecord,
    pub mark: bool,
}

// What an event gives: the terminal after it, the answer that it carries, why it was refused, and whether it cut a sending. A refusal stands beside the rest
// and not in a Result, with which an event takes a fifth longer (DECISIONS 85).
#[derive(Clone, Copy)]
pub struct Happened {
    pub terminal: Terminal,
    pub answer: Option<Answer>,
    pub refusal: Option<Refusal>,
    pub cut: bool,
}

impl Event {
    // Tells the event in numbers.
    fn told(self) -> Told
        ensures told { result ≡ told_of self }
    {
        match self {
            Event::Mark(time) => {
                let heard = WordRecord {
                    time,
                    bus: 0,
                    sync: 0,
                    faults: 0,
                    word: 0,
                    parity: 0,
                };
                Told { heard, mark: true }
            }
            Event::Word(heard) => Told { heard, mark: false },
        }
    }
}

impl Work {
    // Says what the event's record is to the terminal; a time mark is nothing.
    fn heard_meaning(self, own: Own, told: Told) -> Meaning
        ensures meaning { result ≡ heard_meaning own self told }
    {
        if told.mark {
            return Meaning::Nothing;
        }
        let heard = told.heard;
        self.meaning(own, heard)
    }
}

impl Terminal {
    // Gives the refusal of an event that lends tables of these lengths, or none.
    fn event_refusal(self, heard: WordRecord, receive: usize, transmit: usize) -> Option<Refusal>
        ensures refusal { result ≡ event_refusal self (Word heard) receive transmit }
    {
        if (receive != TABLE_WORDS) | (transmit != TABLE_WORDS) {
            return Some(Refusal::TableSize);
        }
        if !heard.in_range(LAST_BUS) {
            return Some(Refusal::OutOfRange);
        }
        if heard.time < self.time {
            return Some(Refusal::OutOfOrder);
        }
        None
    }

    // The same terminal, the refusal, and nothing else.
    fn refused(self, refusal: Refusal) -> Happened
        ensures happened { result ≡ refused_of self (Some refusal) }
    {
        Happened {
            terminal: self,
            answer: None,
            refusal: Some(refusal),
            cut: false,
        }
    }

    // Takes an event: gives the refusal, if any, the answer that it carries, whether it cut a sending, and the terminal.
    // Tables: receive holds the data words of a message that this event settles, from the first place of its subaddress, and is else as
    // before; after a refusal it is all as before. transmit is only read.
    // Refusals: 1, receive or transmit is not 1,024 words; 5, a field or the time out of range; 6, earlier than the last event.
    pub fn event(self, event: Event, receive: &mut [u16], transmit: &[u16]) -> Happened
        ensures happened { result ≡ event_of self event receive.old transmit.now }
        ensures receive { receive.new ≡ event_receive self event receive.old transmit.now }
    {
        let told = event.told();
        let heard = told.heard;
        if let Some(refusal) = self.event_refusal(heard, receive.len(), transmit.len()) {
            return self.refused(refusal);
        }
        let own = self.setup.own;
        let time = heard.time;
        let passed = self.pass(time, receive, transmit);
        let work = passed.work;
        let answer = passed.answer;
        let meaning = work.heard_meaning(own, told);
        let cut = work.cuts_sending(heard, meaning);
        let taken = work.changed(own, heard, meaning);
        let mut terminal = self.with_work(taken);
        terminal.time = time;
        Happened {
            terminal,
            answer,
            refusal: None,
            cut,
        }
    }
}
