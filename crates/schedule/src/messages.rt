// One message of a schedule: whether it can be scheduled, what it loads a frame with, and in which frames it comes (02 j). Meaning: specs/Messages.antt,
// specs/Frames.antt. Refusals: none.
ghost use Rattle.std.specs.Prelude.{◌≡◌, ◌≤◌};
ghost use Rattle.schedule.specs.Messages.{is_period, is_fit, mode_data_of, data_of, single_load, pair_load, load_of};
ghost use Rattle.schedule.specs.Frames.{is_below, comes_in};

use verdict::Plan;
use words::{CommandWord, Moment};

// One or two command words, sent once in so many frames as the period says. Any numbers fit; of one command the second word is not read.
#[derive(Clone, Copy)]
pub struct Message {
    pub commands: u8,
    pub first: CommandWord,
    pub second: CommandWord,
    pub period: u64,
}

// Says whether messages can have this period.
// Tables: none. Refusals: none.
#[tactic(auto, unfolding(crate::specs::Messages::is_period))]
pub fn is_period(period: u64) -> bool
    ensures answer { result ≡ is_period period }
{
    matches!(period, 1 | 2 | 4 | 8 | 16 | 32 | 64)
}

// Gives how many data words come with a mode command.
#[tactic(auto, unfolding(crate::specs::Messages::mode_data_of))]
fn mode_words(code: u16) -> u64
    ensures count { result ≡ mode_data_of code }
{
    if (16 <= code) & (code <= 21) {
        return 1;
    }
    0
}

// Gives how many data words come with a command.
#[tactic(auto, unfolding(crate::specs::Messages::data_of))]
fn data_words(command: CommandWord) -> u64
    ensures count { result ≡ data_of command.0 }
{
    if command.is_mode() {
        return mode_words(command.count());
    }
    command.words() as u64
}

// Gives the load of a message with so many commands, one or two, by the first of them and without the 20 of each message: each command, each data word and the
// status of each terminal that answers take 200, and each answer comes behind a gap of 100. To all terminals one answers less.
#[tactic(auto, using(crate::proofs::Bounds::data_most), unfolding(crate::specs::Messages::single_load, crate::specs::Messages::pair_load))]
fn load_by(command: CommandWord, commands: u64) -> u64
    requires few { commands ≤ 2 }
    requires some { 1 ≤ commands }
    ensures single { commands ≡ 1 → result ≡ single_load command.0 }
    ensures pair { commands ≡ 2 → result ≡ pair_load command.0 }
    ensures most { result ≤ 7400 }
{
    let words = data_words(command);
    let answers = if command.is_broadcast() {
        commands - 1
    } else {
        commands
    };
    200 * (words + commands + answers) + 100 * answers
}

impl Message {
    // Says whether the message can be scheduled: it has one of the periods, and its commands are a possible plan on whatever bus.
    #[tactic(auto, unfolding(crate::specs::Messages::is_fit))]
    pub(crate) fn is_fit(self) -> bool
        ensures answer { result ≡ is_fit self }
    {
        let first = self.first;
        let second = self.second;
        let plan = Plan {
            commands: self.commands,
            first,
            second,
            bus: 0,
            last: Moment(0),
            until: Moment(0),
        };
        is_period(self.period) & plan.is_possible()
    }

    // Gives the ticks that the message takes in each frame in which it comes. Any number of commands but 1 is taken for two.
    // Tables: none. Refusals: none.
    #[tactic(auto, unfolding(crate::specs::Messages::load_of))]
    pub fn load(self) -> u64
        ensures ticks { result ≡ load_of self }
    {
        let first = self.first;
        if self.commands == 1 {
            return load_by(first, 1) + 20;
        }
        load_by(first, 2) + 20
    }

    // Says whether a first frame is below the period.
    #[tactic(auto, unfolding(crate::specs::Frames::is_below))]
    pub(crate) fn is_below(self, first: u64) -> bool
        ensures answer { result ≡ is_below (record { message = self; start = first }) }
    {
        first < self.period
    }

    // Says whether the message comes in a frame. With a period of 0, which the check refuses, it comes in its first frame alone.
    #[tactic(auto, unfolding(crate::specs::Frames::comes_in))]
    pub(crate) fn comes_in(self, first: u64, frame: u64) -> bool
        ensures answer { result ≡ comes_in frame (record { message = self; start = first }) }
    {
        if frame < first {
            return false;
        }
        if self.period == 0 {
            return frame - first == 0;
        }
        (frame - first) % self.period == 0
    }
}
