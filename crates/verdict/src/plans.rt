// The plan of a message, which plans are possible, and what is expected back (01 Controller verdicts). Meaning: specs/Plans.antt.
// Refusals: 7, then 5 for bus, E, Q, Q below E.
ghost use Rattle.std.specs.Prelude.{◌≡◌, slice_get};
ghost use Rattle.verdict.specs.Plans.{is_single, is_pair, is_possible, plan_checks, is_unjudged, sent_by, sent_of, part_of, back_of};
ghost use Rattle.verdict.specs.Verdicts.{expected_at, sent_first};

use records::LAST_BUS;
use words::{CommandWord, Listing, ModeWord, Moment, Refusal};

// "Plan: one or two command words, the bus, the time E of the controller's last word, the moment Q up to which it listened". Any numbers fit;
// of one command the second word is not read. `last` is E, `until` is Q.
#[derive(Clone, Copy)]
pub struct Plan {
    pub commands: u8,
    pub first: CommandWord,
    pub second: CommandWord,
    pub bus: u8,
    pub last: Moment,
    pub until: Moment,
}

// What is expected at a place: the status of an address, and whether its message error and busy bits are let pass; a data word.
#[derive(Clone, Copy, Debug, PartialEq, Eq)]
pub enum Expected {
    Status(u16, bool),
    Data,
}

// Says whether one command makes a plan.
#[tactic(auto, unfolding(crate::specs::Plans::is_single))]
fn is_single(command: CommandWord) -> bool
    ensures answer { result ≡ is_single command.0 }
{
    if command.is_mode() {
        return words::is_allowed(command);
    }
    !(command.is_transmit() & command.is_broadcast())
}

// Says whether two commands, a receive and then a transmit, make a plan.
// Tables: none. Refusals: none.
#[tactic(auto, unfolding(crate::specs::Plans::is_pair))]
pub fn is_pair(first: CommandWord, second: CommandWord) -> bool
    ensures answer { result ≡ is_pair first.0 second.0 }
{
    !first.is_transmit()
        & !first.is_mode()
        & second.is_transmit()
        & !second.is_mode()
        & !((second.address() == first.address()) | second.is_broadcast())
        & (second.count() == first.count())
}

// Says whether message error and busy are let pass in the status to this command.
#[tactic(auto, unfolding(crate::specs::Plans::is_unjudged))]
fn is_unjudged(command: CommandWord) -> bool
    ensures answer { result ≡ is_unjudged command.0 }
{
    let code = command.count();
    command.is_mode() & ((code == 2) | (code == 18))
}

// Gives how many data words the code table has a terminal send.
fn sent_by(listing: Option<Listing>) -> u64
    ensures count { result ≡ sent_by listing }
{
    match listing {
        Some(
            Listing {
                word: Some(ModeWord::Sent),
                ..
            },
        ) => 1,
        _ => 0,
    }
}

// Gives how many data words come back after the status.
#[tactic(auto, unfolding(crate::specs::Plans::sent_of))]
fn sent(command: CommandWord) -> u64
    ensures count { result ≡ sent_of command.0 }
{
    if command.is_mode() {
        return sent_by(words::look_up(command));
    }
    if command.is_transmit() {
        command.words() as u64
    } else {
        0
    }
}

// Gives what is expected at a place of the answer to a command that is not withheld.
#[tactic(auto, using(crate::proofs::Places::part_status, crate::proofs::Places::part_data, crate::proofs::Places::part_nothing))]
fn part_at(command: CommandWord, place: u64) -> Option<Expected>
    ensures expected { result ≡ slice_get (part_of command.0) place }
{
    if place == 0 {
        return Some(Expected::Status(command.address(), is_unjudged(command)));
    }
    if place <= sent(command) {
        Some(Expected::Data)
    } else {
        None
    }
}

// Gives what is expected at a place of the answer, which broadcast has none of.
#[tactic(auto, unfolding(crate::specs::Plans::back_of))]
fn back_at(command: CommandWord, place: u64) -> Option<Expected>
    ensures expected { result ≡ slice_get (back_of command.0) place }
{
    if command.is_broadcast() {
        return None;
    }
    part_at(command, place)
}

impl Plan {
    // Says whether the plan is possible.
    // Tables: none. Refusals: none.
    #[tactic(auto, unfolding(crate::specs::Plans::is_possible))]
    pub fn is_possible(self) -> bool
        ensures answer { result ≡ is_possible self }
    {
        if self.commands == 1 {
            return is_single(self.first);
        }
        (self.commands == 2) & is_pair(self.first, self.second)
    }

    // Checks the plan itself.
    #[tactic(auto, unfolding(crate::specs::Plans::plan_checks))]
    pub(crate) fn check(self) -> Result<(), Refusal>
        ensures checks { result ≡ plan_checks self }
    {
        if !self.is_possible() {
            return Err(Refusal::ImpossiblePlan);
        }
        if (self.bus <= LAST_BUS)
            & self.last.on_clock()
            & self.until.on_clock()
            & (self.last <= self.until)
        {
            return Ok(());
        }
        Err(Refusal::OutOfRange)
    }

    // Gives how many data words are expected after the first status.
    #[tactic(auto, unfolding(crate::specs::Verdicts::sent_first))]
    pub(crate) fn sent_first(self) -> u64
        ensures count { result ≡ sent_first self }
    {
        if self.commands != 1 {
            return sent(self.second);
        }
        if self.first.is_broadcast() {
            return 0;
        }
        sent(self.first)
    }

    // Gives what is expected at a place, counted from 0.
    #[tactic(auto, using(crate::proofs::Places::pair_first, crate::proofs::Places::pair_second), unfolding(crate::specs::Plans::expected_of))]
    pub(crate) fn expected(self, place: u64) -> Option<Expected>
        ensures expected { result ≡ expected_at self place }
    {
        if self.commands == 1 {
            return back_at(self.first, place);
        }
        let sent = sent(self.second);
        if place <= sent {
            return part_at(self.second, place);
        }
        back_at(self.first, place - sent - 1)
    }
}
