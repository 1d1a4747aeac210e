// Messages tried alone, each as a schedule of its own that goes through the same check (02 j). What is refused or rejected alone is so in every
// schedule. Refusals: none.
use schedule::{FRAMES, Frames, Message, Schedule};

// Says whether a message alone is accepted with a first frame.
fn is_accepted(message: Message, first: u64, capacities: &Frames) -> bool {
    let firsts = [first; FRAMES];
    let alone = Schedule::empty().with(message);
    alone.check(&firsts, capacities).is_ok()
}

// Says whether there is a first frame with which a message alone is accepted.
fn has_place(message: Message, capacities: &Frames) -> bool {
    (0..FRAMES as u64).any(|first| is_accepted(message, first, capacities))
}

// Gives the first message that has no place and its number, or none.
pub(crate) fn first_homeless(schedule: Schedule, capacities: &Frames) -> Option<(u64, Message)> {
    let count = schedule.count;
    for (number, message) in (0..count).zip(&schedule.messages) {
        if !has_place(*message, capacities) {
            return Some((number, *message));
        }
    }
    None
}

// Gives the first message that is refused and its number, or none: with room without end every other has a place.
pub(crate) fn first_refused(schedule: Schedule) -> Option<(u64, Message)> {
    first_homeless(schedule, &[u64::MAX; FRAMES])
}
