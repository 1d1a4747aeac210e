// A message that is open: what its records so far come to, and what a further record is to it (02 a). Meaning: specs/Machine.antt.
// Refusals: none.
ghost use Rattle.std.specs.Prelude.{◌≡◌};
ghost use Rattle.monitor.specs.Machine.{opened_by, awaits_second, expects_from, part_for, heads_second, gap_after, heads_status, heard_second, heard_status, heard_own, heard_returned, heard_word, counted, joined_by, outcome_of, closed_at};

use crate::entries::{
    Commands, Gap, Message, Statuses, data_words, is_command, is_data_word, signed_gap,
};
use records::WordRecord;
use verdict::Verdict;
use words::{CommandWord, Moment, StatusWord, Ticks};

// The words with command sync of a message that is open: its command words, its statuses, and the gap before the first of these.
#[derive(Clone, Copy)]
pub struct Heads {
    pub commands: Commands,
    pub statuses: Statuses,
    pub gap: Option<Gap>,
}

// A message that is open: the entry so far; how many of the controller's own data words are still to come, and whether one of them was bad;
// how many records were returned, and the first fact that they showed, if any.
#[derive(Clone, Copy)]
pub struct Opening {
    pub bus: u8,
    pub time: Moment,
    pub heads: Heads,
    pub words: u64,
    pub records: u64,
    pub last: Moment,
    pub left: u16,
    pub spoiled: bool,
    pub twins: bool,
    pub returned: u64,
    pub found: Option<Verdict>,
}

// What a record of its bus is to an open message: too far behind it; the start of another; its second command; a status that it expects; or any
// other record that belongs to it.
#[derive(Clone, Copy, Debug, PartialEq, Eq)]
pub(crate) enum Part {
    Far,
    Starts,
    Second,
    Status,
    Other,
}

impl Heads {
    // Gives them with the second command.
    #[tactic(auto, unfolding(crate::specs::Machine::heads_second))]
    fn with_second(self, second: CommandWord) -> Heads
        ensures heads { result ≡ heads_second self second }
    {
        Heads {
            commands: self.commands.with(second),
            ..self
        }
    }

    // Gives the gap before the first status, where a status comes at that time and the record before it came at the other.
    #[tactic(auto, unfolding(crate::specs::Machine::gap_after))]
    fn gap_at(self, last: Moment, time: Moment) -> Option<Gap>
        ensures gap { result ≡ gap_after self last time }
    {
        match self.statuses {
            Statuses::None => Some(signed_gap(last, time)),
            Statuses::One(_) | Statuses::Two(_, _) => self.gap,
        }
    }

    // Gives them with one more status, the record before it at that time.
    #[tactic(auto, unfolding(crate::specs::Machine::heads_status))]
    fn with_status(self, last: Moment, heard: WordRecord) -> Heads
        ensures heads { result ≡ heads_status self last heard }
    {
        Heads {
            statuses: self.statuses.with(StatusWord(heard.word)),
            gap: self.gap_at(last, heard.time),
            ..self
        }
    }
}

// What is changed of a message is set in a copy: written as an update of `self` a log took 4 % more instructions.
impl Opening {
    // Gives the message that a command word opens.
    #[tactic(auto, unfolding(crate::specs::Machine::opened_by))]
    pub(crate) fn start(heard: WordRecord) -> Opening
        ensures opening { result ≡ opened_by heard }
    {
        let command = CommandWord(heard.word);
        Opening {
            bus: heard.bus,
            time: heard.time,
            heads: Heads {
                commands: Commands::One(command),
                statuses: Statuses::None,
                gap: None,
            },
            words: 0,
            records: 1,
            last: heard.time,
            left: command.awaited(),
            spoiled: false,
            twins: false,
            returned: 0,
            found: None,
        }
    }

    // Says whether the word is the second command: "the second command word back to back", directly after a receive command.
    #[tactic(auto, unfolding(crate::specs::Machine::awaits_second))]
    fn awaits_second(self, heard: WordRecord) -> bool
        ensures answer { result ≡ awaits_second self heard }
    {
        match self.heads.commands {
            Commands::One(first) => {
                (self.records == 1)
                    & words::is_spaced(self.last, heard.time)
                    & verdict::is_pair(first, CommandWord(heard.word))
            }
            Commands::Two(_, _) => false,
        }
    }

    // Says whether "a command of that bus's open entry still expects a status from that word's address".
    #[tactic(auto, unfolding(crate::specs::Machine::expects_from))]
    fn expects(self, heard: WordRecord) -> bool
        ensures answer { result ≡ expects_from self heard }
    {
        let address = StatusWord(heard.word).address();
        (address != CommandWord::BROADCAST)
            & self.heads.commands.is_for(address)
            & !self.heads.statuses.is_from(address)
    }

    // Gives what a record of the message's bus is to it. The distance is asked first, the second command before the status.
    #[tactic(auto, unfolding(crate::specs::Machine::part_for))]
    pub(crate) fn part(self, heard: WordRecord) -> Part
        ensures part { result ≡ part_for self heard }
    {
        let distance = heard.time.since(self.last);
        if Ticks::NO_RESPONSE_DISTANCE < distance {
            return Part::Far;
        }
        if !is_command(heard) {
            return Part::Other;
        }
        if self.awaits_second(heard) {
            return Part::Second;
        }
        if self.expects(heard) {
            return Part::Status;
        }
        Part::Starts
    }

    // The second command: none of the controller's data words follow it.
    #[tactic(auto, unfolding(crate::specs::Machine::heard_second))]
    fn hear_second(self, heard: WordRecord) -> Opening
        ensures opening { result ≡ heard_second self heard }
    {
        let mut next = self;
        next.heads = self.heads.with_second(CommandWord(heard.word));
        next.left = 0;
        next
    }

    // A status, and before the first one the gap.
    #[tactic(auto, unfolding(crate::specs::Machine::heard_status))]
    fn hear_status(self, heard: WordRecord) -> Opening
        ensures opening { result ≡ heard_status self heard }
    {
        let mut next = self;
        next.heads = self.heads.with_status(self.last, heard);
        next
    }

    // A record where one of the controller's own data words is to come.
    #[tactic(auto, unfolding(crate::specs::Machine::heard_own))]
    fn hear_own(self, heard: WordRecord) -> Opening
        ensures opening { result ≡ heard_own self heard }
    {
        let good = is_data_word(heard) & words::is_spaced(self.last, heard.time);
        let mut next = self;
        next.left = self.left.saturating_sub(1);
        next.spoiled = self.spoiled | !good;
        next
    }

    // A returned record: it is looked at as long as none before it showed a fact.
    #[tactic(auto, unfolding(crate::specs::Machine::heard_returned))]
    fn hear_returned(self, heard: WordRecord) -> Opening
        ensures opening { result ≡ heard_returned self heard }
    {
        let mut next = self;
        next.returned = self.returned.wrapping_add(1);
        if self.found.is_none() {
            let plan = self.heads.commands.plan(self.bus, self.last, heard.time);
            next.found = plan.fact_at(self.returned, self.last, heard);
        }
        next
    }

    // "The controller's data words are those back to back after it, up to its count; what follows on that bus are returned records."
    #[tactic(auto, unfolding(crate::specs::Machine::heard_word))]
    fn hear_word(self, heard: WordRecord) -> Opening
        ensures opening { result ≡ heard_word self heard }
    {
        if self.left != 0 {
            return self.hear_own(heard);
        }
        self.hear_returned(heard)
    }

    // What every record of the message counts for.
    #[tactic(auto, unfolding(crate::specs::Machine::counted))]
    fn count(self, heard: WordRecord) -> Opening
        ensures opening { result ≡ counted self heard }
    {
        let mut next = self;
        next.records = self.records.wrapping_add(1);
        next.words = self.words.wrapping_add(data_words(heard));
        next.twins = self.twins | (heard.time == self.last);
        next.last = heard.time;
        next
    }

    // Gives the message with a record that belongs to it.
    #[tactic(auto, unfolding(crate::specs::Machine::joined_by))]
    pub(crate) fn join(self, part: Part, heard: WordRecord) -> Opening
        ensures opening { result ≡ joined_by self part heard }
    {
        match part {
            Part::Far | Part::Starts => self,
            Part::Second => self.hear_second(heard).count(heard),
            Part::Status => self.hear_status(heard).hear_word(heard).count(heard),
            Part::Other => self.hear_word(heard).count(heard),
        }
    }

    // Gives the verdict of a message that the controller listened to up to Q, or none.
    #[tactic(auto, unfolding(crate::specs::Machine::outcome_of))]
    fn outcome(self, until: Moment) -> Option<Verdict>
        ensures outcome { result ≡ outcome_of self until }
    {
        let plan = self.heads.commands.plan(self.bus, self.last, until);
        if self.spoiled | self.twins | (self.left != 0) | !plan.is_possible() {
            return None;
        }
        Some(plan.finish(self.found, self.returned, self.last))
    }

    // Gives the entry of the message, which the controller listened to up to Q.
    #[tactic(auto, unfolding(crate::specs::Machine::closed_at))]
    pub(crate) fn close(self, until: Moment) -> Message
        ensures message { result ≡ closed_at self until }
    {
        Message {
            bus: self.bus,
            time: self.time,
            commands: self.heads.commands,
            statuses: self.heads.statuses,
            words: self.words,
            records: self.records,
            gap: self.heads.gap,
            outcome: self.outcome(until),
        }
    }
}
