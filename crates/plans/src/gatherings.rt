// A line as it comes in, byte by byte: a comment is dropped, runs of spaces are made one, and those in front and at the end are dropped. So a
// line of any length needs only the room of the longest that is good. Meaning: specs/Machine.antt. Refusals: none.
ghost use Rattle.std.specs.Prelude.{◌≡◌};
ghost use Rattle.plans.specs.Parts.{is_control};
ghost use Rattle.plans.specs.Drafts.{one_more};
ghost use Rattle.plans.specs.Machine.{kept_none, kept_with, gathering_at, after_space, gathered, is_bad_line, gathered_entry};

use crate::entries::{Entry, Fault, read_entry};
use lines::between;
use std::num::wrapping_add_u64;

// a longest line, "message C1 C2 PERIOD FIRST" with numbers of 20 digits, has 59 bytes
const LINE_MOST: usize = 64;

// The bytes of a line that are kept: the first `length` of these. A line is copied with the reading that it stands in, and there is no heap: so they stand in a table
// beside their number.
#[derive(Clone, Copy)]
pub struct Kept {
    length: usize,
    line: [u8; LINE_MOST],
    // they do not fit, so it is no line of a plan
    over: bool,
}

// What is known of a line so far. Both flags that make it bad are kept, since which comes first is told once, at its entry.
#[derive(Clone, Copy)]
pub struct Gathering {
    kept: Kept,
    // its number, counted from 1
    pub(crate) number: u64,
    // a space stands before the next byte
    spaced: bool,
    // a # came: what follows is comment
    remark: bool,
    // a control byte came
    signless: bool,
}

impl Kept {
    // Gives the room of a line before its first byte.
    fn none() -> Kept
        ensures kept { result ≡ kept_none }
    {
        let line = [0; LINE_MOST];
        Kept {
            length: 0,
            line,
            over: false,
        }
    }

    // Keeps a byte at the end, where there is room.
    #[tactic(auto, unfolding(crate::specs::Machine::kept_with))]
    fn with(self, byte: u8) -> Kept
        ensures kept { result ≡ kept_with self byte }
    {
        let mut next = self;
        let length = next.length;
        if length < LINE_MOST {
            next.line[length] = byte;
            next.length = length + 1;
            return next;
        }
        next.over = true;
        next
    }
}

// Says whether a byte is no sign.
fn is_control(byte: u8) -> bool
    ensures answer { result ≡ is_control byte }
{
    byte.is_ascii_control()
}

impl Gathering {
    // Gives a line of that number before its first byte.
    pub(crate) fn start(number: u64) -> Gathering
        ensures line { result ≡ gathering_at number }
    {
        Gathering {
            kept: Kept::none(),
            number,
            spaced: false,
            remark: false,
            signless: false,
        }
    }

    // Gives the next line before its first byte.
    pub(crate) fn next(self) -> Gathering
        ensures line { result ≡ gathering_at (one_more self.number) }
    {
        Gathering::start(wrapping_add_u64(self.number, 1))
    }

    // Says whether it is no line of a plan, whatever comes behind.
    #[tactic(auto, unfolding(crate::specs::Machine::is_bad_line))]
    pub(crate) fn is_bad(self) -> bool
        ensures answer { result ≡ is_bad_line self }
    {
        self.signless | self.kept.over
    }

    // Keeps the space that stands before the next byte, but not in front.
    #[tactic(auto, unfolding(crate::specs::Machine::after_space))]
    fn after_space(self) -> Kept
        ensures kept { result ≡ after_space self }
    {
        let kept = self.kept;
        if self.spaced & (kept.length > 0) {
            return kept.with(b' ');
        }
        kept
    }

    // Takes one byte of the line.
    #[tactic(auto, unfolding(crate::specs::Machine::gathered))]
    pub(crate) fn take(self, byte: u8) -> Gathering
        ensures line { result ≡ gathered self byte }
    {
        let mut next = self;
        if self.remark | (byte == b'#') {
            next.remark = true;
            return next;
        }
        if byte == b' ' {
            next.spaced = true;
            return next;
        }
        let kept = self.after_space().with(byte);
        next.kept = kept;
        next.spaced = false;
        next.signless = self.signless | is_control(byte);
        next
    }

    // Gives what the line says, once it has ended or is known to be bad.
    #[tactic(auto, unfolding(crate::specs::Machine::gathered_entry))]
    pub(crate) fn entry(self) -> Result<Option<Entry>, Fault>
        ensures entry { result ≡ gathered_entry self }
    {
        let kept = self.kept;
        if self.signless {
            return Err(Fault::NoSign);
        }
        if kept.over {
            return Err(Fault::TooLong);
        }
        let line = kept.line;
        read_entry(between(&line, 0, kept.length))
    }
}
