// The bytes of a file that wait in a room that the caller lends: which they are, how some are taken, and how others come behind them, from a
// chunk or by the system itself. Whoever reads a file piece by piece keeps one. Meaning: specs/Windows.antt. Refusals: none; any window and any
// room are taken.
#![tactic(auto)]

mod windows;

pub use windows::{Filled, Window};
