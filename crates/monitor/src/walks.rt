// One bus's walk over the records of a file, by value: which entry of that bus stands open, and how far the file is read (02 a).
// Meaning: specs/Machine.antt. Refusals: 3, 4, 5, 6 of a record.
ghost use Rattle.std.specs.Prelude.{◌≡◌, Some};
ghost use Rattle.monitor.specs.declared.walks.Standing.TheVariants as standing;
ghost use Rattle.monitor.specs.Machine.{walk_start, standing_from, found_at, begun_with, passed_with, heard_message, heard_by, stopped_by, taken_by, read_by};

use crate::entries::{Entry, Logged, is_command};
use crate::openings::{Opening, Part};
use records::{LAST_BUS, WordRecord, read_record};
use words::{Moment, Refusal, Ticks};

// What stands open on the bus: the latest record's entry. A single record is given once the next comes.
#[derive(Clone, Copy)]
pub enum Standing {
    Single(WordRecord),
    Message(Opening),
}

// One bus's walk, any number's: how many records of the file were read, of either bus, and the time of the last; what stands open, nothing before the bus's
// first record, and the place of its first.
#[derive(Clone, Copy)]
pub struct Walk {
    pub bus: u8,
    pub records: u64,
    pub clock: Moment,
    pub place: u64,
    pub standing: Option<Standing>,
}

// How far a walk is: it reads on, or it has come to the end of the file or to a record that is refused. A walk here ends in no other way; whoever hands a side
// in may say that it ended with a number that no refusal has.
#[derive(Clone, Copy, Debug, PartialEq, Eq)]
pub enum Stop {
    Reading,
    Ended,
    Refused(Refusal),
    Unnamed(u8),
}

// One bus's side of the log: its walk, the entry that waits to be given, where one closed, and how far it is.
#[derive(Clone, Copy)]
pub struct Side {
    pub walk: Walk,
    pub found: Option<Logged>,
    pub stop: Stop,
}

// Gives what stands open once a record begins an entry: "A record outside any message is an entry of its own".
#[tactic(auto, unfolding(crate::specs::Machine::standing_from))]
fn stand(heard: WordRecord) -> Standing
    ensures standing { result ≡ standing_from heard }
{
    if is_command(heard) {
        return Standing::Message(Opening::start(heard));
    }
    Standing::Single(heard)
}

impl Walk {
    // Gives the walk of a bus before any record.
    pub(crate) fn start(bus: u8) -> Walk
        ensures walk { result ≡ walk_start bus }
    {
        Walk {
            bus,
            records: 0,
            clock: Moment(0),
            place: 0,
            standing: None,
        }
    }

    // Gives the standing entry, closed at Q, where one stands open.
    #[tactic(auto, unfolding(crate::specs::Machine::found_at))]
    fn close(self, until: Moment) -> Option<Logged>
        ensures found { result ≡ found_at self until }
    {
        let entry = match self.standing? {
            Standing::Single(heard) => Entry::Single(heard),
            Standing::Message(opening) => Entry::Message(opening.close(until)),
        };
        Some(Logged {
            place: self.place,
            entry,
        })
    }

    // Gives the walk once a record begins the next entry, with the one before it closed at Q.
    #[tactic(auto, unfolding(crate::specs::Machine::begun_with))]
    fn begin(self, until: Moment, heard: WordRecord) -> Side
        ensures side { result ≡ begun_with self until heard }
    {
        Side {
            walk: Walk {
                records: self.records.wrapping_add(1),
                clock: heard.time,
                place: self.records,
                standing: Some(stand(heard)),
                ..self
            },
            found: self.close(until),
            stop: Stop::Reading,
        }
    }

    // Gives the walk with a record that begins no entry of this bus.
    #[tactic(auto, unfolding(crate::specs::Machine::passed_with))]
    fn pass(self, standing: Option<Standing>, heard: WordRecord) -> Side
        ensures side { result ≡ passed_with self standing heard }
    {
        Side {
            walk: Walk {
                records: self.records.wrapping_add(1),
                clock: heard.time,
                standing,
                ..self
            },
            found: None,
            stop: Stop::Reading,
        }
    }

    // Gives the walk with a record that belongs to the message that stands open.
    fn pass_in(self, opening: Opening, heard: WordRecord) -> Side
        ensures side { result ≡ passed_with self (Some (standing.Message opening)) heard }
    {
        self.pass(Some(Standing::Message(opening)), heard)
    }

    // Gives the walk after a record of its bus, with a message open. Each part is named where it is joined: one arm for the three took 4 % more instructions.
    #[tactic(auto, unfolding(crate::specs::Machine::heard_message))]
    fn hear_in(self, opening: Opening, heard: WordRecord) -> Side
        ensures side { result ≡ heard_message self opening heard }
    {
        match opening.part(heard) {
            Part::Far => self.begin(opening.last.plus(Ticks::NO_RESPONSE_DISTANCE), heard),
            Part::Starts => self.begin(heard.time, heard),
            Part::Second => self.pass_in(opening.join(Part::Second, heard), heard),
            Part::Status => self.pass_in(opening.join(Part::Status, heard), heard),
            Part::Other => self.pass_in(opening.join(Part::Other, heard), heard),
        }
    }

    // Gives the walk after a record of its bus.
    #[tactic(auto, unfolding(crate::specs::Machine::heard_by))]
    fn hear(self, heard: WordRecord) -> Side
        ensures side { result ≡ heard_by self heard }
    {
        match self.standing {
            Some(Standing::Message(opening)) => self.hear_in(opening, heard),
            Some(Standing::Single(_)) | None => self.begin(heard.time, heard),
        }
    }

    // Gives the side of a walk that ends here, and how: the standing entry is closed at the time of the file's last record.
    #[tactic(auto, unfolding(crate::specs::Machine::stopped_by))]
    pub(crate) fn stop(self, stop: Stop) -> Side
        ensures side { result ≡ stopped_by self stop }
    {
        Side {
            walk: Walk {
                standing: None,
                ..self
            },
            found: self.close(self.clock),
            stop,
        }
    }

    // Gives the walk after a record of either bus. "A record earlier than the one before is refused with 6; the log stays."
    #[tactic(auto, unfolding(crate::specs::Machine::taken_by))]
    fn take(self, heard: WordRecord) -> Side
        ensures side { result ≡ taken_by self heard }
    {
        if heard.time < self.clock {
            return self.stop(Stop::Refused(Refusal::OutOfOrder));
        }
        if heard.bus == self.bus {
            return self.hear(heard);
        }
        self.pass(self.standing, heard)
    }

    // Gives the walk after the record at the front of some bytes.
    #[tactic(auto, unfolding(crate::specs::Machine::read_by))]
    pub(crate) fn read(self, bytes: &[u8]) -> Side
        ensures side { result ≡ read_by self bytes.now }
    {
        match read_record(bytes, LAST_BUS) {
            Ok(heard) => self.take(heard),
            Err(refusal) => self.stop(Stop::Refused(refusal)),
        }
    }
}
