// The state of the terminal, by who changes it (01 The terminal). Fields stand from wide to narrow. A set-up, what the host sets, what is held, a message
// and a terminal are written out whole in one place each, here. Meaning:
// specs/States.antt. Refusals: none.
ghost use Rattle.std.specs.Prelude.{◌≡◌, [], ◌∷◌, ◌<◌};
ghost use Rattle.words.specs.Words.{due_distance, spacing_least, spacing_most};
ghost use Rattle.terminal.specs.Messages.{first_word_distance};
ghost use Rattle.terminal.specs.States.{own_of, setup_of, fresh_host, fresh_held, with_status, with_command, with_sync_word, with_selftest, with_inhibit, with_shut, with_spacing, message_of, no_message, at_phase, with_word, fresh_of};
ghost use Rattle.terminal.specs.Works.{work_of, built_of, message_in, with_work};

use crate::tables::{BUSES, with_word};
use words::{CommandWord, Moment, StatusWord, Ticks};

// What the rules ask of the set-up: what a later choice adds to it joins the own address here.
#[derive(Clone, Copy)]
pub struct Own {
    pub address: u16,
}

// What set-up gives; nothing changes it. "bit n of the mask of a subaddress says that count code n is legal".
#[derive(Clone, Copy)]
pub struct Setup {
    pub receive: [u32; 32],
    pub transmit: [u32; 32],
    pub own: Own,
}

// What the host sets: "the flags (service request, busy, subsystem, terminal fault), vector and BIT words". The terminal fault is a defect of
// the card and no faulty message.
#[derive(Clone, Copy)]
pub struct Host {
    pub vectorword: u16,
    pub bitword: u16,
    pub service: bool,
    pub busy: bool,
    pub subsystem: bool,
    pub defect: bool,
}

// How a word was badly spaced (02 i).
#[derive(Clone, Copy, Debug, PartialEq, Eq)]
pub enum SpacingFault {
    // "overlapping (below 195)"
    Overlapping,
    // "separated (above 205)"
    Separated,
}

// What a restart makes fresh: stored status, last command, sync word, self-test request, terminal flag inhibited, for each bus whether its transmitter
// is shut down, and of the last spacing fault whether it was overlapping or separated: two flags, since with an `Option<SpacingFault>` an event takes half
// as long again (DECISIONS 75).
#[derive(Clone, Copy)]
pub struct Held {
    pub status: StatusWord,
    pub command: CommandWord,
    pub syncword: u16,
    pub selftest: bool,
    pub inhibit: bool,
    pub shut: [bool; 2],
    pub overlapping: bool,
    pub separated: bool,
}

// What the message under way awaits. No message is a phase and no Option of a message: what the definitions say of a message they say of any state.
#[derive(Clone, Copy)]
pub enum Phase {
    // no message
    Idle,
    // data words; a receive command has just come, and a second command word may follow
    First,
    // a second command word has come, and a status from its address is awaited
    Pledged(u16),
    // that status has come, and the first data word is awaited
    Confirmed,
    // data words, or nothing more
    Data,
}

// The message under way: the times of its command and of its last word, and the data words so far, staged until it is settled.
#[derive(Clone, Copy)]
pub struct Message {
    pub start: Moment,
    pub last: Moment,
    pub got: usize,
    pub words: [u16; 32],
    pub command: CommandWord,
    pub phase: Phase,
    pub bus: u8,
}

// The answer that is being sent, from its due time on, its status word counted.
#[derive(Clone, Copy)]
pub struct Sending {
    pub from: Moment,
    pub words: u16,
    pub bus: u8,
}

// The terminal. `next` is the next moment at which time alone matters, or none: it is set with the message, so that the host's question works nothing out
// (02 e; DECISIONS 80).
#[derive(Clone, Copy)]
pub struct Terminal {
    pub message: Message,
    pub sending: Option<Sending>,
    pub time: Moment,
    pub next: Option<Moment>,
    pub setup: Setup,
    pub host: Host,
    pub held: Held,
}

// What the rules change of it: an event hands on this alone, and not the masks with it; by reference it takes half as long again.
#[derive(Clone, Copy)]
pub struct Work {
    pub message: Message,
    pub sending: Option<Sending>,
    pub next: Option<Moment>,
    pub held: Held,
}

impl Setup {
    // Gives the set-up of an own address and two tables of masks. The address is not judged: `set_up` does.
    // Tables: none. Refusals: none.
    pub fn build(address: u16, receive: [u32; 32], transmit: [u32; 32]) -> Setup
        ensures setup { result ≡ setup_of (own_of address) receive transmit }
    {
        let own = Own { address };
        Setup {
            receive,
            transmit,
            own,
        }
    }
}

impl Host {
    // "host flags off, vector and BIT words 0"
    fn fresh() -> Host
        ensures host { result ≡ fresh_host }
    {
        Host {
            vectorword: 0,
            bitword: 0,
            service: false,
            busy: false,
            subsystem: false,
            defect: false,
        }
    }
}

impl Held {
    // "Fresh: transmitters on, nothing inhibited, status the own address, last command 0, sync word 0, no self-test request", no spacing fault
    pub(crate) fn fresh(own: Own) -> Held
        ensures held { result ≡ fresh_held own }
    {
        Held {
            status: StatusWord::build(own.address, 0),
            command: CommandWord(0),
            syncword: 0,
            selftest: false,
            inhibit: false,
            shut: [false; 2],
            overlapping: false,
            separated: false,
        }
    }

    // What is held with another stored status. Here and below one field is set: as `..self` five times an event takes a twelfth longer.
    pub(crate) fn with_status(self, status: StatusWord) -> Held
        ensures held { result ≡ with_status self status.0 }
    {
        let mut next = self;
        next.status = status;
        next
    }

    // With another last command.
    pub(crate) fn with_command(self, command: CommandWord) -> Held
        ensures held { result ≡ with_command self command.0 }
    {
        let mut next = self;
        next.command = command;
        next
    }

    // With another sync word.
    pub(crate) fn with_sync_word(self, word: u16) -> Held
        ensures held { result ≡ with_sync_word self word }
    {
        let mut next = self;
        next.syncword = word;
        next
    }

    // With the self-test request set or cleared.
    pub(crate) fn with_selftest(self, on: bool) -> Held
        ensures held { result ≡ with_selftest self on }
    {
        let mut next = self;
        next.selftest = on;
        next
    }

    // With the terminal flag inhibited or allowed.
    pub(crate) fn with_inhibit(self, on: bool) -> Held
        ensures held { result ≡ with_inhibit self on }
    {
        let mut next = self;
        next.inhibit = on;
        next
    }

    // With the transmitter of a bus shut down or opened.
    pub(crate) fn with_shut(self, bus: u8, on: bool) -> Held
        ensures held { result ≡ with_shut self bus on }
    {
        let at = bus as usize;
        let mut next = self;
        if at < BUSES {
            next.shut[at] = on;
        }
        next
    }

    // With another last spacing fault.
    pub(crate) fn with_spacing(self, overlapping: bool, separated: bool) -> Held
        ensures held { result ≡ with_spacing self overlapping separated }
    {
        Held {
            overlapping,
            separated,
            ..self
        }
    }
}

impl Message {
    // A message of these parts.
    pub(crate) fn build(
        phase: Phase,
        bus: u8,
        command: CommandWord,
        start: Moment,
        last: Moment,
        got: usize,
        words: [u16; 32],
    ) -> Message
        ensures message { result ≡ message_of phase bus command start last got words }
    {
        Message {
            start,
            last,
            got,
            words,
            command,
            phase,
            bus,
        }
    }

    // No message under way.
    pub(crate) fn none() -> Message
        ensures message { result ≡ no_message }
    {
        Message::build(
            Phase::Idle,
            0,
            CommandWord(0),
            Moment(0),
            Moment(0),
            0,
            [0; 32],
        )
    }

    // The message in another phase, its last word then.
    pub(crate) fn at_phase(self, phase: Phase, last: Moment) -> Message
        ensures message { result ≡ at_phase self phase last }
    {
        let command = self.command;
        let start = self.start;
        let words = self.words;
        Message::build(phase, self.bus, command, start, last, self.got, words)
    }

    // The message with one data word more, at its own place.
    pub(crate) fn with_word(self, word: u16) -> Message
        requires { self.got < 32 }
        ensures message { result ≡ with_word self word }
    {
        Message {
            got: self.got + 1,
            words: with_word(self.words, self.got, word),
            ..self
        }
    }
}

impl Work {
    // The work of a message, with the next moment that it has.
    pub(crate) fn build(message: Message, sending: Option<Sending>, held: Held) -> Work
        ensures work { result ≡ built_of message sending held }
    {
        let next = message.next_moment();
        Work {
            message,
            sending,
            next,
            held,
        }
    }

    // The work with another message.
    pub(crate) fn with_message(self, message: Message) -> Work
        ensures work { result ≡ message_in self message }
    {
        let sending = self.sending;
        let held = self.held;
        Work::build(message, sending, held)
    }
}

impl Terminal {
    // "the last word's time plus 260, a gap of 80 (8.0 microseconds ..)"
    pub const DUE_DISTANCE: Ticks = Ticks::DUE_DISTANCE;
    // "195 to 205 after the one before"
    pub const SPACING_LEAST: Ticks = Ticks::SPACING_LEAST;

    pub const SPACING_MOST: Ticks = Ticks::SPACING_MOST;
    // "the first data word must come within 57 .. microseconds of the parity bit of the receive command": a gap of 570 (02 b)
    pub const FIRST_WORD_DISTANCE: Ticks = Ticks(750);

    // Gives the constants above. Nothing calls it: its promise holds each to the definition that contracts cite.
    fn list_distances() -> [u64; 4]
        ensures all { result ≡ due_distance ∷ spacing_least ∷ spacing_most ∷ first_word_distance ∷ [] }
    {
        [
            Self::DUE_DISTANCE.0,
            Self::SPACING_LEAST.0,
            Self::SPACING_MOST.0,
            Self::FIRST_WORD_DISTANCE.0,
        ]
    }

    // Gives the fresh terminal of a set-up: "host flags off, vector and BIT words 0, last time 0". The address is not judged: `set_up` does.
    // Tables: none. Refusals: none.
    pub fn fresh(setup: Setup) -> Terminal
        ensures terminal { result ≡ fresh_of setup }
    {
        let host = Host::fresh();
        let held = Held::fresh(setup.own);
        let message = Message::none();
        Terminal {
            message,
            sending: None,
            time: Moment(0),
            next: None,
            setup,
            host,
            held,
        }
    }

    // What the rules change of the terminal.
    pub(crate) fn work(self) -> Work
        ensures work { result ≡ work_of self }
    {
        let message = self.message;
        let sending = self.sending;
        let next = self.next;
        let held = self.held;
        Work {
            message,
            sending,
            next,
            held,
        }
    }

    // The terminal with that work.
    pub(crate) fn with_work(self, work: Work) -> Terminal
        ensures terminal { result ≡ with_work self work }
    {
        Terminal {
            message: work.message,
            sending: work.sending,
            next: work.next,
            held: work.held,
            ..self
        }
    }
}
