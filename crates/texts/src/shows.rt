// Which entries of a log are shown (02 a; docs/LINES.md, busdump's options). Meaning: specs/Logs.antt. Refusals: none.
ghost use Rattle.std.specs.Prelude.{◌≡◌, ◌&&◌};
ghost use Rattle.monitor.specs.declared.entries.Entry.TheVariants as entry;
ghost use Rattle.texts.specs.Logs.{is_on_bus, is_within, is_to, is_any_to, is_good, is_shown};

use monitor::{Commands, Entry, Message};
use records::WordRecord;
use verdict::Verdict;
use words::CommandWord;

// What is asked for: entries that begin from a time on up to another; of an address, of a bus, where one is given; and whether only those that are to be looked at.
#[derive(Clone, Copy)]
pub struct Wanted {
    pub from: u64,
    pub to: u64,
    pub address: Option<u64>,
    pub bus: Option<u8>,
    pub only_bad: bool,
}

// Says whether the verdict is 0.
fn is_good(outcome: Option<Verdict>) -> bool
    ensures answer { result ≡ is_good outcome }
{
    outcome.is_some_and(|verdict| verdict.number() == 0)
}

impl Wanted {
    // Says whether an entry of that bus and time is asked for.
    fn covers(self, bus: u8, time: u64) -> bool
        ensures answer { result ≡ is_on_bus self bus && is_within self time }
    {
        let on_bus = self.bus.map_or(true, |wanted| bus == wanted);
        on_bus & ((self.from <= time) & (time <= self.to))
    }

    // Says whether a message with that command word is asked for.
    fn concerns(self, command: CommandWord) -> bool
        ensures answer { result ≡ is_to self command.0 }
    {
        let address = u64::from(command.address());
        self.address.map_or(true, |wanted| address == wanted)
    }

    fn concerns_any(self, commands: Commands) -> bool
        ensures answer { result ≡ is_any_to self commands }
    {
        match commands {
            Commands::One(first) => self.concerns(first),
            Commands::Two(first, second) => self.concerns(first) | self.concerns(second),
        }
    }

    fn shows_message(self, message: Message) -> bool
        ensures answer { result ≡ is_shown self (entry.Message message) }
    {
        let hides = self.only_bad & is_good(message.outcome);
        self.covers(message.bus, message.time.0) & self.concerns_any(message.commands) & !hides
    }

    // A record outside any message has no command word.
    fn shows_single(self, heard: WordRecord) -> bool
        ensures answer { result ≡ is_shown self (entry.Single heard) }
    {
        self.covers(heard.bus, heard.time.0) & self.address.is_none()
    }

    // Says whether an entry is shown.
    // Tables: none. Refusals: none.
    pub fn shows(self, entry: Entry) -> bool
        ensures answer { result ≡ is_shown self entry }
    {
        match entry {
            Entry::Message(message) => self.shows_message(message),
            Entry::Single(heard) => self.shows_single(heard),
        }
    }
}
