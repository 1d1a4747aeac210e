// A bus schedule that is checked before it flies (02 j): messages with their periods, the load of a message and of each of the 64 frames, the check, and a
// planner whose proposals go through that check. Meaning: specs/. Refusals: 15.
#![tactic(auto)]

mod messages;
mod planner;
mod schedules;
mod searches;

pub use messages::{Message, is_period};
pub use schedules::{FRAMES, Frames, MESSAGES_MOST, Rejection, Schedule};
