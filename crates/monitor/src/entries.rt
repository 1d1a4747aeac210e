// The entries of a log, and what is asked of one record and of a message's command words (02 a). Meaning: specs/Entries.antt. Refusals: none.
ghost use Rattle.std.specs.Prelude.{◌≡◌, if◌then◌else◌};
ghost use Rattle.monitor.specs.Entries.{is_word, is_command, is_data_word, is_for, is_from, plan_with, gap_from};
ghost use Rattle.monitor.specs.Machine.{with_second, with_status};

use records::WordRecord;
use verdict::{Plan, Verdict};
use words::{COMMAND_SYNC, CommandWord, DATA_SYNC, Moment, StatusWord, Ticks};

// The command words of a message: a second one between two terminals.
#[derive(Clone, Copy, Debug, PartialEq, Eq)]
pub enum Commands {
    One(CommandWord),
    Two(CommandWord, CommandWord),
}

// "statuses (its other valid words with command sync)": none, one or two, so an enum of its own and no Option.
#[derive(Clone, Copy, Debug, PartialEq, Eq)]
pub enum Statuses {
    None,
    One(StatusWord),
    Two(StatusWord, StatusWord),
}

// The gap between two words: below 0, by so many ticks, where the second comes before the middle of the parity bit of the first.
#[derive(Clone, Copy, Debug, PartialEq, Eq)]
pub enum Gap {
    Apart(Ticks),
    Overlap(Ticks),
}

// "Each entry has bus, time, command words, statuses .., numbers of valid data words and of records, the gap before the first status, and the
// verdict": "the gap before the first status", none without a status; "the verdict that the controller rules give, or "none""
#[derive(Clone, Copy)]
pub struct Message {
    pub bus: u8,
    pub time: Moment,
    pub commands: Commands,
    pub statuses: Statuses,
    pub words: u64,
    pub records: u64,
    pub gap: Option<Gap>,
    pub outcome: Option<Verdict>,
}

// "A record outside any message is an entry of its own, kept whole"
#[derive(Clone, Copy)]
pub enum Entry {
    Message(Message),
    Single(WordRecord),
}

// An entry with the place of its first record in the file, counted from 0 in records.
#[derive(Clone, Copy)]
pub struct Logged {
    pub place: u64,
    pub entry: Entry,
}

// Says whether the record is a valid word with that sync.
#[tactic(auto, unfolding(crate::specs::Entries::is_word))]
fn is_word(heard: WordRecord, sync: u8) -> bool
    ensures answer { result ≡ is_word heard sync }
{
    heard.is_valid() & (heard.sync == sync)
}

// Says whether the record is a valid word with command sync.
pub(crate) fn is_command(heard: WordRecord) -> bool
    ensures answer { result ≡ is_command heard }
{
    is_word(heard, COMMAND_SYNC)
}

// Says whether the record is a valid data word.
pub(crate) fn is_data_word(heard: WordRecord) -> bool
    ensures answer { result ≡ is_data_word heard }
{
    is_word(heard, DATA_SYNC)
}

// Gives how many valid data words the record is: 1 or none.
pub(crate) fn data_words(heard: WordRecord) -> u64
    ensures number { result ≡ (if is_data_word heard then 1 else 0) }
{
    u64::from(is_data_word(heard))
}

// Gives the gap between two words, below 0 where they overlap.
#[tactic(auto, unfolding(crate::specs::Entries::gap_from))]
pub(crate) fn signed_gap(before: Moment, after: Moment) -> Gap
    ensures gap { result ≡ gap_from before.0 after.0 }
{
    let distance = after.since(before).0;
    let middle = Ticks::PARITY_MIDDLE.0;
    if middle <= distance {
        Gap::Apart(Ticks(distance - middle))
    } else {
        Gap::Overlap(Ticks(middle - distance))
    }
}

impl Commands {
    // Gives the controller's plan. What is expected back depends on the commands alone.
    pub(crate) fn plan(self, bus: u8, last: Moment, until: Moment) -> Plan
        ensures plan { result ≡ plan_with self bus last until }
    {
        match self {
            Commands::One(first) => Plan {
                commands: 1,
                first,
                second: CommandWord(0),
                bus,
                last,
                until,
            },
            Commands::Two(first, second) => Plan {
                commands: 2,
                first,
                second,
                bus,
                last,
                until,
            },
        }
    }

    // Gives the two commands, once the second one came.
    #[tactic(auto, unfolding(crate::specs::Machine::with_second))]
    pub(crate) fn with(self, second: CommandWord) -> Commands
        ensures commands { result ≡ with_second self second }
    {
        match self {
            Commands::One(first) => Commands::Two(first, second),
            Commands::Two(first, _) => Commands::Two(first, second),
        }
    }

    // Says whether one of the commands goes to that address. `Statuses::is_from` is much like it: a trait over both words would be longer.
    #[tactic(auto, unfolding(crate::specs::Entries::is_for))]
    pub(crate) fn is_for(self, address: u16) -> bool
        ensures answer { result ≡ is_for self address }
    {
        match self {
            Commands::One(first) => first.address() == address,
            Commands::Two(first, second) => {
                (first.address() == address) | (second.address() == address)
            }
        }
    }
}

impl Statuses {
    // Says whether one of the statuses is from that address. The same is asked of the commands above: one trait over both words would be longer than the two.
    #[tactic(auto, unfolding(crate::specs::Entries::is_from))]
    pub(crate) fn is_from(self, address: u16) -> bool
        ensures answer { result ≡ is_from self address }
    {
        match self {
            Statuses::None => false,
            Statuses::One(first) => first.address() == address,
            Statuses::Two(first, second) => {
                (first.address() == address) | (second.address() == address)
            }
        }
    }

    // Gives the statuses with one more. No message has a third: each is from another address of its two commands.
    #[tactic(auto, unfolding(crate::specs::Machine::with_status))]
    pub(crate) fn with(self, status: StatusWord) -> Statuses
        ensures statuses { result ≡ with_status self status }
    {
        match self {
            Statuses::None => Statuses::One(status),
            Statuses::One(first) => Statuses::Two(first, status),
            Statuses::Two(first, second) => Statuses::Two(first, second),
        }
    }
}
