// One bus's side of a log, fed any chunks of the file; and which of two sides is next (02 a). Meaning: specs/Machine.antt.
// Refusals: 3, 4, 5, 6 of a record end a side; the entries before it stay.
ghost use Rattle.std.specs.Prelude.{◌≡◌};
ghost use Rattle.monitor.specs.Machine.{side_start, wants_more, fed_of, ended_by, given_of, ready_of, choice_alone, choice_against, choice_of};

use crate::walks::{Side, Stop, Walk};
use records::RECORD_BYTES;

// The side after a chunk, and how many bytes of the chunk it took.
#[derive(Clone, Copy)]
pub struct Fed {
    pub side: Side,
    pub taken: usize,
}

// What a side is ready for: more of the file, to give the entry that waits, whose first record has that place, or nothing more.
#[derive(Clone, Copy, Debug, PartialEq, Eq)]
pub(crate) enum Ready {
    Feed,
    Give(u64),
    Over,
}

// What is next: feed a side, give the entry that waits on it, or the log is over. The courses of `log_of_the_file` name the five.
#[derive(Clone, Copy, Debug, PartialEq, Eq)]
pub enum Choice {
    FeedFirst,
    FeedSecond,
    GiveFirst,
    GiveSecond,
    Over,
}

impl Side {
    // Gives the side of a bus before any record.
    // Tables: none. Refusals: none.
    #[tactic(auto, unfolding(crate::specs::Machine::side_start))]
    pub fn start(bus: u8) -> Side
        ensures side { result ≡ side_start bus }
    {
        Side {
            walk: Walk::start(bus),
            found: None,
            stop: Stop::Reading,
        }
    }

    // Gives what the side is ready for.
    #[tactic(auto, unfolding(crate::specs::Machine::ready_of))]
    fn ready(self) -> Ready
        ensures ready { result ≡ ready_of self }
    {
        match (self.found, self.stop) {
            (Some(logged), _) => Ready::Give(logged.place),
            (None, Stop::Reading) => Ready::Feed,
            (None, Stop::Ended | Stop::Refused(_) | Stop::Unnamed(_)) => Ready::Over,
        }
    }

    // Says whether the side wants more of the file.
    #[tactic(auto, unfolding(crate::specs::Machine::wants_more))]
    fn wants_more(self) -> bool
        ensures answer { result ≡ wants_more self }
    {
        matches!(self.ready(), Ready::Feed)
    }

    // Feeds the next bytes of the records of the file, up to where an entry closes or a record is refused, and gives how many were taken: 16 for
    // each record, a refused one too. Bytes of a record that is not whole yet are fed again with the rest of it.
    // Tables: bytes is only read. Refusals: 4, 5, 6 of a record end the side.
    pub fn feed(self, bytes: &[u8]) -> Fed
        ensures fed { result ≡ fed_of self bytes.now }
    {
        let mut side = self;
        let mut taken = 0;
        for record in bytes.chunks_exact(RECORD_BYTES) {
            if !side.wants_more() {
                break;
            }
            side = side.walk.read(record);
            taken += RECORD_BYTES;
        }
        Fed { side, taken }
    }

    // Ends the side where the file has no more bytes than these: no byte is the end of the file, 1 to 15 are a record that is refused. Where it does not
    // want more, or 16 bytes or more are to be fed first, it stays as it is.
    // Tables: tail is only read. Refusals: 3, fewer than 16 bytes for a record.
    #[tactic(auto, unfolding(crate::specs::Machine::ended_by))]
    pub fn end(self, tail: &[u8]) -> Side
        ensures side { result ≡ ended_by self tail.now }
    {
        if (RECORD_BYTES <= tail.len()) | !self.wants_more() {
            return self;
        }
        if tail.is_empty() {
            return self.walk.stop(Stop::Ended);
        }
        self.walk.read(tail)
    }

    // Gives the side without the entry that waited.
    // Tables: none. Refusals: none.
    #[tactic(auto, unfolding(crate::specs::Machine::given_of))]
    pub fn give(self) -> Side
        ensures side { result ≡ given_of self }
    {
        Side {
            found: None,
            ..self
        }
    }
}

// Gives what is next where the first side is over.
#[tactic(auto, unfolding(crate::specs::Machine::choice_alone))]
fn choose_alone(second: Ready) -> Choice
    ensures choice { result ≡ choice_alone second }
{
    match second {
        Ready::Feed => Choice::FeedSecond,
        Ready::Give(_) => Choice::GiveSecond,
        Ready::Over => Choice::Over,
    }
}

// Gives what is next where an entry waits on the first side, whose first record has that place.
#[tactic(auto, unfolding(crate::specs::Machine::choice_against))]
fn choose_against(place: u64, second: Ready) -> Choice
    ensures choice { result ≡ choice_against place second }
{
    match second {
        Ready::Feed => Choice::FeedSecond,
        Ready::Give(other) => {
            if place < other {
                Choice::GiveFirst
            } else {
                Choice::GiveSecond
            }
        }
        Ready::Over => Choice::GiveFirst,
    }
}

// Gives what is next of two sides that are fed the same file: "Entries come in order of their first record in the file."
// Tables: none. Refusals: none.
pub fn choose(first: Side, second: Side) -> Choice
    ensures choice { result ≡ choice_of (ready_of first) (ready_of second) }
{
    match first.ready() {
        Ready::Feed => Choice::FeedFirst,
        Ready::Over => choose_alone(second.ready()),
        Ready::Give(place) => choose_against(place, second.ready()),
    }
}
