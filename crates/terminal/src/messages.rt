// Tests of the message under way, of the sending, and of a record as the next word; and the next moment (01 The terminal). Meaning:
// specs/Messages.antt. Refusals: none.
ghost use Rattle.std.specs.Prelude.{◌≡◌};
ghost use Rattle.words.specs.Words.{is_spaced};
ghost use Rattle.terminal.specs.Messages.{is_under_way, is_on, is_counting, awaits_data, is_whole, is_due, is_late, awaits_first, is_overdue, is_over, is_sent, is_sending, is_next_data, is_second, is_status_from, earlier_of, next_moment_of};

use crate::commands::is_valid_record;
use crate::states::{Message, Own, Phase, Sending, Terminal};
use records::WordRecord;
use words::{COMMAND_SYNC, CommandWord, DATA_SYNC, Moment, StatusWord, Ticks};

impl Phase {
    // Says whether a message is under way.
    fn is_under_way(self) -> bool
        ensures answer { result ≡ is_under_way self }
    {
        !matches!(self, Phase::Idle)
    }

    // Says whether data words are counted: not while a status between terminals is awaited.
    fn is_counting(self) -> bool
        ensures answer { result ≡ is_counting self }
    {
        matches!(self, Phase::First | Phase::Confirmed | Phase::Data)
    }
}

impl Message {
    // Says whether a message is under way on that bus.
    pub(crate) fn is_on(self, bus: u8) -> bool
        ensures answer { result ≡ is_on self bus }
    {
        let phase = self.phase;
        phase.is_under_way() & (self.bus == bus)
    }

    // Says whether a data word is awaited.
    pub(crate) fn awaits_data(self) -> bool
        ensures answer { result ≡ awaits_data self }
    {
        let phase = self.phase;
        let command = self.command;
        phase.is_counting() & (self.got < (command.awaited() as usize))
    }

    // Says whether all words have come.
    pub(crate) fn is_whole(self) -> bool
        ensures answer { result ≡ is_whole self }
    {
        let phase = self.phase;
        let command = self.command;
        phase.is_counting() & ((command.awaited() as usize) <= self.got)
    }

    // Says whether the due time is at most that.
    pub(crate) fn is_due(self, time: Moment) -> bool
        ensures answer { result ≡ is_due self time.0 }
    {
        let past = time.since(self.last);
        self.is_whole() & (Terminal::DUE_DISTANCE <= past)
    }

    // Says whether a data word is awaited for too long.
    fn is_late(self, time: Moment) -> bool
        ensures answer { result ≡ is_late self time.0 }
    {
        let past = time.since(self.last);
        self.awaits_data() & (Terminal::SPACING_MOST < past)
    }

    // Says whether the first data word of another terminal is awaited.
    pub(crate) fn awaits_first(self) -> bool
        ensures answer { result ≡ awaits_first self }
    {
        let phase = self.phase;
        match phase {
            Phase::Idle => false,
            Phase::First => false,
            Phase::Pledged(_) => true,
            Phase::Confirmed => self.awaits_data(),
            Phase::Data => false,
        }
    }

    // Says whether that word is awaited for too long.
    fn is_overdue(self, time: Moment) -> bool
        ensures answer { result ≡ is_overdue self time.0 }
    {
        let past = time.since(self.start);
        self.awaits_first() & (Terminal::FIRST_WORD_DISTANCE < past)
    }

    // Says whether the time of the message is over, by either limit.
    pub(crate) fn is_over(self, time: Moment) -> bool
        ensures answer { result ≡ is_over self time.0 }
    {
        self.is_late(time) | self.is_overdue(time)
    }

    // Says whether a word of that time is "195 to 205 after the one before".
    fn is_spaced(self, time: Moment) -> bool
        ensures answer { result ≡ is_spaced self.last.0 time.0 }
    {
        let past = time.since(self.last);
        (Terminal::SPACING_LEAST <= past) & (past <= Terminal::SPACING_MOST)
    }

    // Says whether the record is the next data word: valid, data sync, spaced.
    pub(crate) fn is_next_data(self, heard: WordRecord) -> bool
        ensures answer { result ≡ is_next_data self heard }
    {
        is_valid_record(heard) & (heard.sync == DATA_SYNC) & self.is_spaced(heard.time)
    }

    // Says whether the record is the second command word of a message between terminals.
    pub(crate) fn is_second(self, own: Own, heard: WordRecord) -> bool
        ensures answer { result ≡ is_second own self heard }
    {
        let command = CommandWord(heard.word);
        is_valid_record(heard)
            & (heard.sync == COMMAND_SYNC)
            & self.is_spaced(heard.time)
            & command.is_transmit()
            & !((command.address() == own.address) | command.is_broadcast())
            & !command.is_mode()
            & (command.count() == self.command.count())
    }
}

// Says whether the record is a valid status from that address.
pub(crate) fn is_status_from(address: u16, heard: WordRecord) -> bool
    ensures answer { result ≡ is_status_from address heard }
{
    let status = StatusWord(heard.word);
    is_valid_record(heard) & (heard.sync == COMMAND_SYNC) & (status.address() == address)
}

impl Sending {
    // Says whether it is sent on that bus at that time.
    fn is_sent(self, bus: u8, time: Moment) -> bool
        ensures answer { result ≡ is_sent self bus time.0 }
    {
        let past = time.since(self.from);
        (self.bus == bus) & (self.from <= time) & (past.0 < Ticks::WORD.0 * (self.words as u64))
    }
}

// Says whether the terminal is sending on that bus at that time.
pub(crate) fn is_sending(sending: Option<Sending>, bus: u8, time: Moment) -> bool
    ensures answer { result ≡ is_sending sending bus time.0 }
{
    match sending {
        Some(answer) => answer.is_sent(bus, time),
        None => false,
    }
}

// ---- the next moment

// "last word plus 206 while a data word is awaited"
const LATE_DISTANCE: Ticks = Ticks(206);
// "Until that word comes the next moment is at most the receive command plus 751." (02 b)
const OVERDUE_DISTANCE: Ticks = Ticks(751);

// Gives the earlier of two moments.
fn earlier(one: Moment, other: Moment) -> Moment
    ensures moment { result.0 ≡ earlier_of one.0 other.0 }
{
    one.min(other)
}

impl Message {
    // Works out the next moment at which time alone matters to the message.
    pub(crate) fn next_moment(self) -> Option<Moment>
        ensures next { result ≡ next_moment_of self }
    {
        let phase = self.phase;
        let late = self.last.plus(LATE_DISTANCE);
        let overdue = self.start.plus(OVERDUE_DISTANCE);
        if self.is_whole() {
            return Some(self.last.plus(Terminal::DUE_DISTANCE));
        }
        match phase {
            Phase::Idle => None,
            Phase::First => Some(late),
            Phase::Pledged(_) => Some(overdue),
            Phase::Confirmed => Some(earlier(late, overdue)),
            Phase::Data => Some(late),
        }
    }
}
