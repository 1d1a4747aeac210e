// The log of a file: two readings of it, one for each bus, give its entries in order (02 a). It "groups the words of each bus, apart from the
// other bus", so that a fixed room is enough, however long the file is and however long an entry stands open. Refusals: none.
use crate::readers::Reader;
use crate::tallies::Tally;
use monitor::{Choice, Stop, choose};
use words::Refusal;

// What goes from entry to entry: the two readings, the lines so far, and whether the log is over.
#[derive(Drop)]
pub(crate) struct Dump<'a> {
    pub(crate) first: Reader<'a>,
    pub(crate) second: Reader<'a>,
    pub(crate) tally: Tally<'a>,
    over: bool,
}

impl<'a> Dump<'a> {
    // Gives a dump that is not over.
    pub(crate) fn on(first: Reader<'a>, second: Reader<'a>, tally: Tally<'a>) -> Self {
        Dump {
            first,
            second,
            tally,
            over: false,
        }
    }

    // Gives the system's number of the read that has failed, if one has.
    pub(crate) fn failure(&self) -> Option<i32> {
        self.first.failure.or(self.second.failure)
    }

    // Says whether to go on. Nothing is written after a failure.
    fn is_going(&self) -> bool {
        !self.over & self.tally.listed.failure.is_none() & self.failure().is_none()
    }

    // Does what is next: "Entries come in order of their first record in the file."
    fn turn(&mut self) {
        match choose(self.first.side, self.second.side) {
            Choice::FeedFirst => self.first.feed(),
            Choice::FeedSecond => self.second.feed(),
            Choice::GiveFirst => {
                self.tally.list(self.first.side.found);
                self.first.side = self.first.side.give();
            }
            Choice::GiveSecond => {
                self.tally.list(self.second.side.found);
                self.second.side = self.second.side.give();
            }
            Choice::Over => self.over = true,
        }
    }

    // Lists the log to its end, or up to what fails. A proved loop has to end, and nothing says that the file does: it counts up to a
    // number that no run uses up.
    pub(crate) fn list_all(&mut self) {
        for _ in 0..u64::MAX {
            if !self.is_going() {
                return;
            }
            self.turn();
        }
    }

    // Gives how many records of the file were read.
    pub(crate) fn records(&self) -> u64 {
        self.first.side.walk.records
    }

    // Gives the refusal at which the first reading ended, if it did not end with the file.
    pub(crate) fn refusal(&self) -> Option<Refusal> {
        match self.first.side.stop {
            Stop::Reading | Stop::Ended | Stop::Unnamed(_) => None,
            Stop::Refused(refusal) => Some(refusal),
        }
    }

    // Says whether both readings came to the same end, and every record is in one entry. A file that changes between them shows here.
    pub(crate) fn is_agreed(&self) -> bool {
        let records = self.records();
        self.over
            & (self.first.side.stop == self.second.side.stop)
            & (records == self.second.side.walk.records)
            & (records == self.tally.records)
    }
}
