// A schedule, the loads of its frames, and the check (02 j). Meaning: specs/Messages.antt, specs/Frames.antt. Refusals: 15.
ghost use Rattle.std.specs.Prelude.{◌≡◌, ◌≤◌, ◌<◌, ◌^◌, nat_lt, length, not, position, sum_by};
ghost use Rattle.std.specs.List.{list_all, zip};
ghost use Rattle.schedule.specs.Messages.{messages_most, messages_in, empty_schedule, count_after, with_of, is_fit, is_refused};
ghost use Rattle.schedule.specs.Frames.{placed_of, part_in, frame_load, loads_of, is_below, frames_all, found_below, check_of};

use crate::messages::Message;
use words::{CommandWord, Refusal};

// "Up to 64 messages"
pub const MESSAGES_MOST: u64 = 64;

// "the 64" frames
pub const FRAMES: usize = 64;

// A number for each frame: its load, its capacity; or for each message: its first frame.
pub type Frames = [u64; FRAMES];

// The messages of a schedule: the first `count` of them. Any numbers fit: more than 64 are counted, so that the check refuses them, and a schedule is copied, so that
// the messages stand in a table beside their count.
#[derive(Clone, Copy)]
pub struct Schedule {
    pub count: u64,
    pub messages: [Message; MESSAGES_MOST as usize],
}

// Why the check does not accept: the schedule is refused, or it is rejected for a message or for a frame, counted from 0.
#[derive(Clone, Copy, Debug, PartialEq, Eq)]
pub enum Rejection {
    Refused(Refusal),
    Message(u64),
    Frame(u64),
}

// Gives the number of messages with one more, which is never too large to be a number.
#[tactic(auto, unfolding(crate::specs::Messages::count_after))]
fn counted(count: u64) -> u64
    ensures count { result ≡ count_after count }
{
    if count <= MESSAGES_MOST {
        return count + 1;
    }
    count
}

// Gives the first frame that is overloaded, or none.
fn first_overloaded(loads: &Frames, capacities: &Frames) -> Option<usize>
    ensures first { result ≡ position (λ p. nat_lt p.1 p.0) (zip loads.now capacities.now) }
{
    loads
        .iter()
        .zip(capacities)
        .position(|(load, capacity)| *load > *capacity)
}

// Gives what a message adds to a frame: its load, or nothing.
#[tactic(auto, unfolding(crate::specs::Frames::part_in))]
fn part(message: Message, first: u64, frame: u64) -> u64
    ensures ticks { result ≡ part_in frame (record { message = message; start = first }) }
{
    if message.comes_in(first, frame) {
        return message.load();
    }
    0
}

// Says whether every message can be scheduled.
fn are_fit(messages: &[Message]) -> bool
    ensures answer { result ≡ list_all is_fit messages.now }
{
    messages.iter().all(|message| message.is_fit())
}

// Gives the first message that offends, or none. Each has its first frame: there are 64 of these.
fn first_offending(messages: &[Message], firsts: &Frames) -> Option<usize>
    ensures first { result ≡ position (λ p. not (is_below (record { message = p.0; start = p.1 }))) (zip messages.now firsts.now) }
{
    messages
        .iter()
        .zip(firsts)
        .position(|(message, first)| !message.is_below(*first))
}

// Gives the load of a frame.
fn frame_load(messages: &[Message], firsts: &Frames, frame: u64) -> u64
    requires fits { sum_by (λ p. part_in frame (record { message = p.0; start = p.1 })) (zip messages.now firsts.now) < 2 ^ 64 }
    ensures ticks { result ≡ sum_by (λ p. part_in frame (record { message = p.0; start = p.1 })) (zip messages.now firsts.now) }
{
    messages
        .iter()
        .zip(firsts)
        .map(|(message, first)| part(*message, *first, frame))
        .sum()
}

// Fills in the load of each frame.
fn fill(messages: &[Message], firsts: &Frames, loads: &mut Frames)
    requires few { length messages.now ≤ messages_most }
    ensures loads { loads.new ≡ loads_of (placed_of messages.now firsts.now) }
{
    for (frame, load) in loads.iter_mut().enumerate() {
        *load = frame_load(messages, firsts, frame as u64);
    }
}

impl Schedule {
    // Gives a schedule of no messages.
    // Tables: none. Refusals: none.
    #[tactic(auto, unfolding(crate::specs::Messages::empty_schedule))]
    pub fn empty() -> Schedule
        ensures schedule { result ≡ empty_schedule }
    {
        let none = Message {
            commands: 0,
            first: CommandWord(0),
            second: CommandWord(0),
            period: 0,
        };
        Schedule {
            count: 0,
            messages: [none; MESSAGES_MOST as usize],
        }
    }

    // Gives the schedule with one message more. A 65th is not kept, but counted: the schedule is then refused.
    // Tables: none. Refusals: none.
    #[tactic(auto, unfolding(crate::specs::Messages::with_of))]
    pub fn with(self, message: Message) -> Schedule
        ensures schedule { result ≡ with_of self message }
    {
        let mut next = self;
        next.count = counted(self.count);
        if self.count < MESSAGES_MOST {
            next.messages[self.count as usize] = message;
            return next;
        }
        next
    }

    // Gives the messages to look at: no more than there is room for.
    pub(crate) fn held(&self) -> &[Message]
        ensures messages { result.now ≡ messages_in self.now }
        ensures few { length result.now ≤ messages_most }
    {
        let held = self.count.min(MESSAGES_MOST) as usize;
        &self.messages[..held]
    }

    // Says whether the schedule is refused.
    #[tactic(auto, using(crate::proofs::Chains::all_fit), unfolding(crate::specs::Messages::is_refused))]
    pub(crate) fn is_refused(self) -> bool
        ensures answer { result ≡ is_refused self }
    {
        !((self.count <= MESSAGES_MOST) & are_fit(self.held()))
    }

    // Gives the load of each frame, also for a schedule that the check refuses.
    // Tables: firsts is only read; loads holds the load of each frame. Refusals: none.
    pub fn loads(self, firsts: &Frames, loads: &mut Frames)
        ensures loads { loads.new ≡ loads_of (placed_of (messages_in self) firsts.now) }
    {
        fill(self.held(), firsts, loads);
    }

    // Checks each message's first frame against its period, then each frame's load against its capacity.
    // Tables: both are only read. Refusals: 15, more than 64 messages, another period, or an impossible plan.
    #[tactic(auto, unfolding(crate::specs::Frames::check_of))]
    pub fn check(self, firsts: &Frames, capacities: &Frames) -> Result<(), Rejection>
        ensures outcome { result ≡ check_of self firsts.now capacities.now }
    {
        if self.is_refused() {
            return Err(Rejection::Refused(Refusal::Schedule));
        }
        if let Some(place) = first_offending(self.held(), firsts) {
            return Err(Rejection::Message(place as u64));
        }
        let mut loads = [0; FRAMES];
        self.loads(firsts, &mut loads);
        match first_overloaded(&loads, capacities) {
            Some(frame) => Err(Rejection::Frame(frame as u64)),
            None => Ok(()),
        }
    }
}
