// The terminal: set-up, events, host calls, next moment (01 The terminal). Meaning: specs/. Refusals: 1, 2 of set-up; 1, 5, 6 of an
// event. The caller gives the time, and the state goes in and comes back by value; any value of it is taken.
#![tactic(auto)]

mod answers;
mod commands;
mod effects;
mod events;
mod hosts;
mod messages;
mod rules;
mod setups;
mod states;
mod tables;

pub use answers::Answer;
pub use events::{Event, Happened};
pub use setups::{RefusedSetUp, set_up};
pub use states::{Held, Host, Message, Own, Phase, Sending, Setup, SpacingFault, Terminal};
