// A search for first frames: whose turn it is to be placed or moved, and where to (02 j: "A planner .. may use any method"). Nothing here is promised but that it
// is safe and ends: what comes of it is judged by the check. Refusals: none.
ghost use Rattle.std.specs.Prelude.{◌≤◌, ◌<◌, length, IfSome};
ghost use Rattle.schedule.specs.Messages.{messages_most};

use crate::messages::Message;
use crate::schedules::{FRAMES, Frames};

// How often a message is placed or moved at most: 64 to place each once, and the rest to move.
const STEPS_MOST: u64 = 500;

// As a first frame: the message is not placed yet, and comes in no frame. It is a number and no Option, since the frames are loaded by the same table.
const NOT_PLACED: u64 = FRAMES as u64;

// ticks: more than all messages together load a frame with
const TICKS_MOST: u64 = 1_000_000;

// more than 64 times so many: no load elsewhere makes up for a tick above a capacity
const OVERLOAD: u64 = 0x400_0000;

// more than the load of a message
const PERIOD_STEP: u64 = 8192;

// Gives what a frame has against so much more load: the ticks above its capacity, and where these are equal its load, so that a plan with room to spare is
// spread over the frames.
fn price(load: u64, more: u64, capacity: u64) -> u64 {
    let after = load.saturating_add(more);
    let over = after.saturating_sub(capacity);
    over.min(TICKS_MOST) * OVERLOAD + after.min(TICKS_MOST)
}

impl Message {
    // Gives the turn to begin with. Shortest period first, and of these the heaviest: what comes in many frames has few places to go to, and the light ones
    // fill what is left.
    fn first_turn(self) -> u64 {
        (self.period.min(64) * PERIOD_STEP).saturating_sub(self.load())
    }

    // Gives how long the message waits for its next turn: eight times the ticks that it takes in all frames. So the light and rare ones, which find another
    // place most easily, are moved most often, and every other one of the frame after them.
    fn wait(self) -> u64 {
        if self.period == 0 {
            return 0;
        }
        8 * 64 * self.load().min(TICKS_MOST) / self.period
    }

    // Says whether the message is one of those among which the next is looked for: those in a frame, or those not placed.
    fn is_among(self, first: u64, frame: Option<u64>) -> bool {
        match frame {
            Some(frame) => self.comes_in(first, frame),
            None => first == NOT_PLACED,
        }
    }
}

// The messages and the capacities that first frames are looked for, these as far as they are found, whose turn it is, and what the frames are loaded with.
#[derive(Drop)]
pub(crate) struct Search<'a> {
    messages: &'a [Message],
    capacities: &'a Frames,
    firsts: Frames,
    turns: Frames,
    loads: Frames,
    ghost few: { length messages.now ≤ messages_most },
}

impl<'a> Search<'a> {
    // Gives a search in which no message is placed, and each has the turn to begin with.
    pub(crate) fn start(messages: &'a [Message], capacities: &'a Frames) -> Search<'a>
        requires few { length messages.now ≤ messages_most }
    {
        let mut turns = [0; FRAMES];
        for (turn, message) in turns.iter_mut().zip(messages) {
            *turn = message.first_turn();
        }
        Search {
            messages,
            capacities,
            firsts: [NOT_PLACED; FRAMES],
            turns,
            loads: [0; FRAMES],
        }
    }

    // Gives the frame with the most ticks above its capacity, the lowest of equals, or none.
    fn worst_frame(&self) -> Option<u64> {
        let mut worst = None;
        let mut most = 0;
        for (frame, (load, capacity)) in self.loads.iter().zip(self.capacities).enumerate() {
            let over = load.saturating_sub(*capacity);
            if over > most {
                most = over;
                worst = Some(frame as u64);
            }
        }
        worst
    }

    // Gives what all frames of a first frame have against a message. It is in none of them yet: those of its own first frame are others.
    fn price_at(&self, message: Message, first: u64) -> u64 {
        let more = message.load();
        let mut sum: u64 = 0;
        for (frame, (load, capacity)) in self.loads.iter().zip(self.capacities).enumerate() {
            if message.comes_in(first, frame as u64) {
                sum = sum.saturating_add(price(*load, more, *capacity));
            }
        }
        sum
    }

    // Gives the cheapest first frame of a message but the one that it has, the lowest of equals: it must go even where that makes things worse, which is the way
    // out of dead ends. With a period of 1 there is no other.
    fn best_first(&self, message: Message, now: u64) -> u64 {
        (0..message.period.min(64))
            .filter(|first| *first != now)
            .min_by_key(|first| self.price_at(message, *first))
            .unwrap_or(0)
    }

    // Gives the message of a frame, or of those not placed, whose turn is first, the lowest of equals, or none.
    fn next_among(&self, frame: Option<u64>) -> Option<usize>
        ensures there { IfSome result (λ i. i < length self.now.messages.now) }
    {
        let mut next = None;
        let mut earliest = u64::MAX;
        for (i, message) in self.messages.iter().enumerate() {
            if message.is_among(self.firsts[i], frame) & (self.turns[i] < earliest) {
                earliest = self.turns[i];
                next = Some(i);
            }
        }
        next
    }

    // Gives a message that is not placed, or else one of the worst frame, or none where all are placed and no frame is overloaded.
    fn next(&self) -> Option<usize>
        ensures there { IfSome result (λ i. i < length self.now.messages.now) }
    {
        let waiting = self.next_among(None);
        if waiting.is_some() {
            return waiting;
        }
        let frame = self.worst_frame()?;
        self.next_among(Some(frame))
    }

    // Takes what a message loads its frames with from those of one first frame to those of another. So the loads are those of the first frames at each
    // step, and are not added up anew, which would take 64 times as long.
    fn shift(&mut self, message: Message, from: u64, to: u64) {
        let ticks = message.load();
        for (frame, load) in self.loads.iter_mut().enumerate() {
            if message.comes_in(from, frame as u64) {
                *load = load.wrapping_sub(ticks);
            }
            if message.comes_in(to, frame as u64) {
                *load = load.wrapping_add(ticks);
            }
        }
    }

    // Puts a message at its cheapest other first frame, and its next turn later by its wait.
    fn place(&mut self, i: usize)
        requires there { i < length self.old.messages.now }
    {
        let message = self.messages[i];
        let before = self.firsts[i];
        let first = self.best_first(message, before);
        self.firsts[i] = first;
        self.turns[i] = self.turns[i].saturating_add(message.wait());
        self.shift(message, before, first);
    }

    // Places or moves one message. Says whether there was one: else all are placed, and no frame is overloaded.
    fn step(&mut self) -> bool {
        let Some(next) = self.next() else {
            return false;
        };
        self.place(next);
        true
    }

    // Looks for first frames, from none placed on.
    pub(crate) fn run(mut self) -> Frames {
        for _ in 0..STEPS_MOST {
            if !self.step() {
                break;
            }
        }
        self.firsts
    }
}
