// What is said of a plan that is not accepted: the place, and the reason (02 j). Refusals: none; the check has judged, and this explains.
use crate::complaints::{
    complain_of_count, complain_of_first, complain_of_flaw, complain_of_frame, complain_of_place,
    complain_of_planner, complain_of_room,
};
use crate::trials::{first_homeless, first_refused};
use plans::Draft;
use schedule::{FRAMES, Frames, MESSAGES_MOST, Schedule};

// Gives the sum over all frames, or the last number where it does not fit.
fn total(numbers: &Frames) -> u64 {
    let mut sum: u64 = 0;
    for number in numbers {
        sum = sum.saturating_add(*number);
    }
    sum
}

// Gives what the messages load all frames with: the same whatever their first frames are, below their periods.
fn total_load(schedule: Schedule) -> u64 {
    let firsts = [0u64; FRAMES];
    let mut loads = [0u64; FRAMES];
    schedule.loads(&firsts, &mut loads);
    total(&loads)
}

// Gives the line of a message, also of the 65th. There is no other to ask for, so that none needs no Option.
fn line_of(draft: Draft, number: u64) -> u64 {
    if number <= MESSAGES_MOST {
        return draft.lines[number as usize];
    }
    0
}

// Says which message is the first that is refused, and why. Where none of the 64 is, there is one more.
pub(crate) fn explain_refusal(draft: Draft, name: &[u8]) {
    let schedule = draft.schedule;
    match first_refused(schedule) {
        Some((number, message)) => {
            complain_of_flaw(name, number, line_of(draft, number), message)
        }
        None => complain_of_count(name, MESSAGES_MOST, line_of(draft, MESSAGES_MOST)),
    }
}

// Says why a message is rejected.
pub(crate) fn explain_first(draft: Draft, name: &[u8], number: u64) {
    let schedule = draft.schedule;
    if number < MESSAGES_MOST {
        let message = schedule.messages[number as usize];
        let first = draft.firsts[number as usize];
        complain_of_first(name, number, line_of(draft, number), first, message.period);
    }
}

// Says why a frame is rejected.
pub(crate) fn explain_frame(draft: Draft, name: &[u8], frame: u64) {
    let schedule = draft.schedule;
    let firsts = draft.firsts;
    let mut loads = [0u64; FRAMES];
    schedule.loads(&firsts, &mut loads);
    if frame < FRAMES as u64 {
        let capacity = draft.capacities[frame as usize];
        complain_of_frame(name, frame, loads[frame as usize], capacity);
    }
}

// Says why the planner found none, where it is certain that there is none: a message that has no place alone, or no room in all frames.
pub(crate) fn explain_none(draft: Draft, name: &[u8]) {
    let schedule = draft.schedule;
    let capacities = draft.capacities;
    if let Some((number, message)) = first_homeless(schedule, &capacities) {
        return complain_of_place(name, number, line_of(draft, number), message.load());
    }
    let load = total_load(schedule);
    let room = total(&capacities);
    if load > room {
        return complain_of_room(name, load, room);
    }
    complain_of_planner(name)
}
