// A plan as far as it is read: its messages with their lines and first frames, the capacities, how many first frames were given and whether one
// was not, and what is wrong with which line (02 j). Meaning: specs/Drafts.antt. Refusals: none.
ghost use Rattle.std.specs.Prelude.{◌≡◌, replicate, slice_set};
ghost use Rattle.plans.specs.Drafts.{empty_draft, with_capacities, with_message, with_first, without_first, with_firsts, with_fault, after_entry, is_fault};

use crate::entries::{Entry, Fault};
use schedule::{FRAMES, Frames, Message, Schedule};
use std::num::wrapping_add_u64;

// What is wrong with which line, counted from 1.
#[derive(Clone, Copy, Debug, PartialEq, Eq)]
pub struct BadLine {
    pub fault: Fault,
    pub line: u64,
}

// The tables stand beside their schedule: `firsts` is lent to the check as it is, and of `lines` the 65th is the line of the message that is too many.
#[derive(Clone, Copy)]
pub struct Draft {
    pub schedule: Schedule,
    // of each message, and of the one that is too many
    pub lines: [u64; 65],
    pub firsts: Frames,
    pub capacities: Frames,
    pub given: u64,
    pub unplaced: bool,
    // the last line that was read, where it is none of a plan
    pub bad: Option<BadLine>,
}

// Puts a number at a place of a table, where it has that place.
fn put(table: &mut [u64], place: u64, number: u64)
    ensures table { table.new ≡ slice_set table.old place number }
{
    if place < table.len() as u64 {
        table[place as usize] = number;
    }
}

impl Draft {
    // Gives a plan before its first line. Frames that no line gives a capacity have 0.
    #[tactic(auto, unfolding(crate::specs::Drafts::empty_draft))]
    pub(crate) fn start() -> Draft
        ensures draft { result ≡ empty_draft }
    {
        let none = [0; FRAMES];
        let lines = [0; 65];
        Draft {
            schedule: Schedule::empty(),
            lines,
            firsts: none,
            capacities: none,
            given: 0,
            unplaced: false,
            bad: None,
        }
    }

    // Says whether the last line was none of a plan.
    // Tables: none. Refusals: none.
    #[tactic(auto, unfolding(crate::specs::Drafts::is_fault))]
    pub fn is_bad(self) -> bool
        ensures answer { result ≡ is_fault self.bad }
    {
        self.bad.is_some()
    }

    // Gives the plan with other first frames.
    // Tables: none. Refusals: none.
    pub fn with_firsts(self, firsts: Frames) -> Draft
        ensures draft { result ≡ with_firsts self firsts }
    {
        let mut next = self;
        next.firsts = firsts;
        next
    }

    // Gives all frames one capacity.
    fn set_capacities(&mut self, ticks: u64)
        ensures draft { self.new ≡ with_capacities self.old (replicate 64 ticks) }
    {
        self.capacities = [ticks; FRAMES];
    }

    // Gives a frame its capacity, where there is such a frame.
    fn set_capacity(&mut self, frame: u64, ticks: u64)
        ensures draft { self.new ≡ with_capacities self.old (slice_set self.old.capacities frame ticks) }
    {
        put(&mut self.capacities, frame, ticks);
    }

    // Adds a message, which stands on a line.
    fn add(&mut self, message: Message, line: u64)
        ensures draft { self.new ≡ with_message self.old message line }
    {
        put(&mut self.lines, self.schedule.count, line);
        self.schedule = self.schedule.with(message);
    }

    // Gives the message at a place its first frame. One past the 64th has no place there, and is refused with all others.
    fn set_first(&mut self, place: u64, first: u64)
        ensures draft { self.new ≡ with_first self.old place first }
    {
        self.given = wrapping_add_u64(self.given, 1);
        put(&mut self.firsts, place, first);
    }

    // Says that a message has no first frame.
    fn leave_first(&mut self)
        ensures draft { self.new ≡ without_first self.old }
    {
        self.unplaced = true;
    }

    // Says what is bad of a line.
    fn fail(&mut self, fault: Fault, line: u64)
        ensures draft { self.new ≡ with_fault self.old fault line }
    {
        self.bad = Some(BadLine { fault, line });
    }

    // Takes in what a line says.
    #[tactic(auto, unfolding(crate::specs::Drafts::after_entry, crate::specs::Drafts::with_entry))]
    pub(crate) fn take(&mut self, said: Result<Option<Entry>, Fault>, line: u64)
        ensures draft { self.new ≡ after_entry self.old said line }
    {
        match said {
            Ok(None) => {}
            Ok(Some(Entry::Capacities(ticks))) => self.set_capacities(ticks),
            Ok(Some(Entry::Capacity(frame, ticks))) => self.set_capacity(frame, ticks),
            Ok(Some(Entry::Placed(message, first))) => {
                let place = self.schedule.count;
                self.add(message, line);
                self.set_first(place, first);
            }
            Ok(Some(Entry::Unplaced(message))) => {
                self.add(message, line);
                self.leave_first();
            }
            Err(fault) => self.fail(fault, line),
        }
    }
}
