// The entries as they are given: each is counted, and its line put where it is asked for (02 a; docs/LINES.md). Refusals: none.
use crate::complaints::PROGRAM;
use lines::{Block, Sink};
use monitor::{Entry, Logged};
use texts::{Wanted, put_entry, put_log_end, put_log_refused};
use words::Refusal;

// Which entries are shown, and how; where the lines go, with the block where they wait; how many entries there were, and how many records they have.
#[derive(Drop)]
pub(crate) struct Tally<'a> {
    wanted: Wanted,
    in_words: bool,
    pub(crate) block: &'a mut Block,
    pub(crate) listed: Sink,
    pub(crate) entries: u64,
    pub(crate) records: u64,
}

// Gives the place of a record's first byte: 16 bytes a record, and the version before them.
pub(crate) fn byte_of(record: u64) -> u64 {
    (record << 4).wrapping_add(1)
}

// Gives how many records an entry has.
fn records_of(entry: Entry) -> u64 {
    match entry {
        Entry::Message(message) => message.records,
        Entry::Single(_) => 1,
    }
}

impl<'a> Tally<'a> {
    // Gives the tally before any entry.
    pub(crate) fn start(
        wanted: Wanted,
        in_words: bool,
        listed: Sink,
        block: &'a mut Block,
    ) -> Self {
        Tally {
            wanted,
            in_words,
            block,
            listed,
            entries: 0,
            records: 0,
        }
    }

    // Counts the entry that was found, and puts its line where it is asked for.
    pub(crate) fn list(&mut self, found: Option<Logged>) {
        let Some(logged) = found else {
            return;
        };
        let entry = logged.entry;
        if self.wanted.shows(entry) {
            self.listed = put_entry(self.listed, self.block, entry, self.in_words);
        }
        self.entries = self.entries.wrapping_add(1);
        self.records = self.records.wrapping_add(records_of(entry));
    }

    // Puts the line that closes a log: so many records were read, and the next was refused, or there was none. The lines that wait go out first, so that a
    // failure of theirs is seen; the last one goes out at once.
    pub(crate) fn close(&mut self, refusal: Option<Refusal>, records: u64) -> Sink {
        let listed = self.listed.flush_told(self.block, &PROGRAM);
        let ended = match refusal {
            None => put_log_end(listed, self.block, self.entries, records),
            Some(refusal) => put_log_refused(
                listed,
                self.block,
                refusal.number(),
                records,
                byte_of(records),
                self.entries,
            ),
        };
        ended.flush_told(self.block, &PROGRAM)
    }
}
