// "At an event of time t, in this order": rules 1 to 6 (01 The terminal). Rules 1 and 2 look at the time. Of a record rules 3 to 6 first say what it
// is to the terminal; what it changes is then done in one place. Meaning: specs/Rules.antt, specs/Works.antt. Inner functions: the event calls
// them. Refusals: none.
ghost use Rattle.std.specs.Prelude.{◌≡◌, length, ◌<◌};
ghost use Rattle.terminal.specs.Rules.{rule1_answer, rule1_receive, marked_of, kept_by, faulty_of, time_fault, rule2, fault_by, fault_in, first_phase, noted_status, noted_command, begun_of, rule4};
ghost use Rattle.terminal.specs.Events.{passed_of};
ghost use Rattle.terminal.specs.declared.rules.Meaning.TheVariants.{DataWord};
ghost use Rattle.terminal.specs.Works.{work_of, bare_of, data_meaning, word_meaning, meaning_of, is_beginning, cut_by, changed_of};

use crate::answers::Answer;
use crate::commands::{TRANSMIT_LAST_COMMAND, is_exempt, is_own};
use crate::effects::other_bus;
use crate::messages::{is_sending, is_status_from};
use crate::states::{Held, Message, Own, Phase, SpacingFault, Terminal, Work};
use records::WordRecord;
use words::{CommandWord, Flag, Moment, Spacing, StatusWord};

// What rules 1 and 2 give: the work after them, and the answer that the event carries, if any.
#[derive(Clone, Copy)]
pub struct Passed {
    pub work: Work,
    pub answer: Option<Answer>,
}

// What a record is to the terminal, in the order of rules 3 to 6.
#[derive(Clone, Copy)]
pub enum Meaning {
    // heard while the terminal is sending on its bus
    Ignored,
    // an own command
    Begins,
    // the second command word of a message between terminals, then its status
    SecondCommand,
    Status,
    // the next data word
    DataWord,
    // not the next word of the message under way
    Faulty,
    // any other record, and a time mark
    Nothing,
}

// ---- "1. A message whose due time is at most t is settled."
impl Terminal {
    // `settle` of answers.rt where it is due. What is settled is under way no more, so that rule 2 is asked of the others alone.
    pub(crate) fn pass(self, time: Moment, receive: &mut [u16], transmit: &[u16]) -> Passed
        requires { (length receive.old ≡ 1024) × (length transmit.now ≡ 1024) }
        ensures work { result.work ≡ work_of (passed_of self time.0 transmit.now) }
        ensures answer { result.answer ≡ rule1_answer self time.0 transmit.now }
        ensures receive { receive.new ≡ rule1_receive self time.0 receive.old }
    {
        if self.message.is_due(time) {
            return self.settle(receive, transmit);
        }
        let before = self.work();
        let work = before.rule2(self.setup.own, time);
        Passed { work, answer: None }
    }
}

// ---- "2. A message that still awaits a data word with t more than 205 past its last word is faulty." And "a first data word with a gap above 570, or
// time passing the receive command by more than 750 without it, makes the message faulty." (02 b)
impl Held {
    // "message error goes into the stored status (not for the two exempt commands)"
    fn marked(self, own: Own, command: CommandWord) -> Held
        ensures held { result ≡ marked_of own self command.0 }
    {
        if is_exempt(own, command) {
            return self;
        }
        let error = self.status.with(Flag::MessageError);
        self.with_status(error)
    }

    // "The terminal keeps the kind of its last spacing fault": a fault of another cause leaves it.
    fn kept(self, fault: Option<SpacingFault>) -> Held
        ensures held { result ≡ kept_by self fault }
    {
        match fault {
            None => self,
            Some(SpacingFault::Overlapping) => self.with_spacing(true, false),
            Some(SpacingFault::Separated) => self.with_spacing(false, true),
        }
    }
}

impl Message {
    // Gives the spacing fault of a message whose time is over: separated, but none where the status of the other terminal came so late that the message was
    // overdue before it was late (DECISIONS 78).
    fn time_fault(self) -> Option<SpacingFault>
        ensures fault { result ≡ time_fault self }
    {
        let waited = self.last.since(self.start);
        let before = Terminal::FIRST_WORD_DISTANCE.0 - Terminal::SPACING_MOST.0;
        if self.awaits_data() & !(self.awaits_first() & (before < waited.0)) {
            return Some(SpacingFault::Separated);
        }
        None
    }
}

impl Work {
    // "A faulty message ends at once": whatever its fault, no answer, no data stored.
    fn faulty(self, own: Own, fault: Option<SpacingFault>) -> Work
        ensures work { result ≡ work_of (faulty_of (bare_of own self) fault) }
    {
        let command = self.message.command;
        let marked = self.held.marked(own, command);
        let held = marked.kept(fault);
        let message = Message::none();
        let sending = self.sending;
        Work::build(message, sending, held)
    }

    // By either limit.
    fn rule2(self, own: Own, time: Moment) -> Work
        ensures work { result ≡ work_of (rule2 (bare_of own self) time.0) }
    {
        if self.message.is_over(time) {
            let fault = self.message.time_fault();
            return self.faulty(own, fault);
        }
        self
    }
}

// ---- "3. A record on a bus on which the terminal is sending .. is ignored.": `is_sending`, asked first in `meaning`.

// ---- "4. An own command replaces any message under way, and cuts a sending on the other bus; the result says so."
impl Held {
    // "The stored status becomes the own address, plus broadcast received if 31. Transmit status word and transmit last command (to the own
    // address) leave the stored status as it is."
    fn noted_status(self, own: Own, command: CommandWord) -> Held
        ensures held { result ≡ noted_status own self command.0 }
    {
        if is_exempt(own, command) {
            return self;
        }
        let address = StatusWord::build(own.address, 0);
        if command.is_broadcast() {
            return self.with_status(address.with(Flag::BroadcastReceived));
        }
        self.with_status(address)
    }

    // "It becomes the last command unless it is transmit last command to the own address."
    fn noted_command(self, own: Own, command: CommandWord) -> Held
        ensures held { result ≡ noted_command own self command.0 }
    {
        if is_exempt(own, command) & (command.count() == TRANSMIT_LAST_COMMAND) {
            return self;
        }
        self.with_command(command)
    }

    // Gives what is held after an own command.
    fn noted(self, own: Own, command: CommandWord) -> Held
        ensures held { result ≡ noted_command own (noted_status own self command.0) command.0 }
    {
        let stored = self.noted_status(own, command);
        stored.noted_command(own, command)
    }
}

// Gives the phase that a command begins: a second command word may follow a receive command that is no mode command.
fn first_phase(command: CommandWord) -> Phase
    ensures phase { result ≡ first_phase command.0 }
{
    if command.is_transmit() {
        return Phase::Data;
    }
    if command.is_mode() {
        return Phase::Data;
    }
    Phase::First
}

impl Message {
    // The message that an own command begins.
    fn begun(heard: WordRecord) -> Message
        ensures message { result ≡ begun_of heard }
    {
        let command = CommandWord(heard.word);
        let phase = first_phase(command);
        let start = heard.time;
        let last = heard.time;
        Message::build(phase, heard.bus, command, start, last, 0, [0; 32])
    }
}

impl Meaning {
    // Says whether the record is an own command that is not ignored.
    fn is_beginning(self) -> bool
        ensures answer { result ≡ is_beginning self }
    {
        matches!(self, Meaning::Begins)
    }
}

impl Work {
    // "Replacement by itself marks no fault."
    fn begun(self, own: Own, heard: WordRecord) -> Work
        ensures work { result ≡ work_of (rule4 (bare_of own self) heard) }
    {
        let held = self.held.noted(own, CommandWord(heard.word));
        let message = Message::begun(heard);
        Work::build(message, None, held)
    }

    // Says whether a record with that meaning cuts a sending on the other bus.
    pub(crate) fn cuts_sending(self, heard: WordRecord, meaning: Meaning) -> bool
        ensures answer { result ≡ cut_by self heard meaning }
    {
        let sending = self.sending;
        meaning.is_beginning() & is_sending(sending, other_bus(heard.bus), heard.time)
    }
}

// ---- "5. Any other record on the bus of a message under way must be its next word .. Otherwise the message is faulty, also when all its words had
// come."
impl SpacingFault {
    // Gives the fault that a spacing is, if any; no `From`, since an Option is not this crate's.
    fn of_spacing(spacing: Spacing) -> Option<SpacingFault>
        ensures fault { result ≡ fault_by spacing }
    {
        match spacing {
            Spacing::Overlapping(_) => Some(SpacingFault::Overlapping),
            Spacing::BackToBack(_) => None,
            Spacing::Separated(_) => Some(SpacingFault::Separated),
        }
    }
}

impl Message {
    // Gives the spacing fault of a record that is not the next word: spacing is asked while a data word is awaited, whatever else is wrong.
    fn spacing_fault(self, heard: WordRecord) -> Option<SpacingFault>
        ensures fault { result ≡ fault_in self heard }
    {
        if self.awaits_data() {
            let last = self.last;
            return SpacingFault::of_spacing(words::spacing_between(last, heard.time));
        }
        None
    }

    // "its next word: valid, data sync, 195 to 205 after the one before"
    fn data_meaning(self, heard: WordRecord) -> Meaning
        ensures meaning { result ≡ data_meaning self heard }
    {
        if self.awaits_data() & self.is_next_data(heard) {
            return Meaning::DataWord;
        }
        Meaning::Faulty
    }

    // "(between terminals also the words named below)"
    fn word_meaning(self, own: Own, heard: WordRecord) -> Meaning
        ensures meaning { result ≡ word_meaning self.phase own self heard }
    {
        let phase = self.phase;
        match phase {
            Phase::Idle => Meaning::Nothing,
            Phase::Data => self.data_meaning(heard),
            Phase::Confirmed => self.data_meaning(heard),
            Phase::First => {
                if self.is_second(own, heard) {
                    Meaning::SecondCommand
                } else {
                    self.data_meaning(heard)
                }
            }
            Phase::Pledged(address) => {
                if is_status_from(address, heard) {
                    Meaning::Status
                } else {
                    Meaning::Faulty
                }
            }
        }
    }
}

// ---- "6. Other records do nothing.", and the order of 3 to 6
impl Work {
    // Says what the record is to the terminal.
    pub(crate) fn meaning(self, own: Own, heard: WordRecord) -> Meaning
        ensures meaning { result ≡ meaning_of own self heard }
    {
        let message = self.message;
        if is_sending(self.sending, heard.bus, heard.time) {
            return Meaning::Ignored;
        }
        if is_own(own, heard) {
            return Meaning::Begins;
        }
        if message.is_on(heard.bus) {
            return message.word_meaning(own, heard);
        }
        Meaning::Nothing
    }

    // Changes what a record with that meaning changes.
    pub(crate) fn changed(self, own: Own, heard: WordRecord, meaning: Meaning) -> Work
        requires { meaning ≡ DataWord → self.message.got < 32 }
        ensures work { result ≡ changed_of own self heard meaning }
    {
        let message = self.message;
        let last = heard.time;
        match meaning {
            Meaning::Ignored => self,
            Meaning::Begins => self.begun(own, heard),
            Meaning::SecondCommand => {
                let partner = CommandWord(heard.word).address();
                self.with_message(message.at_phase(Phase::Pledged(partner), last))
            }
            Meaning::Status => self.with_message(message.at_phase(Phase::Confirmed, last)),
            Meaning::DataWord => {
                let moved = message.at_phase(Phase::Data, last);
                self.with_message(moved.with_word(heard.word))
            }
            Meaning::Faulty => self.faulty(own, message.spacing_fault(heard)),
            Meaning::Nothing => self,
        }
    }
}
