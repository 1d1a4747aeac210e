// The words of the bus: moments and distances, command and status words, parity, spacing, mode codes, refusal numbers
// (01 Time and words; Mode codes; Numbers for a refused call; and what later sections ask of a word). Meaning: specs/. Refusals: none.
// It knows no state and reads no bytes.
#![tactic(auto)]

mod commands;
mod fields;
mod masks;
mod modes;
mod parities;
mod refusals;
mod statuses;
mod times;

pub use commands::CommandWord;
pub use masks::mask_allows;
pub use modes::{Listing, ModeWord, is_allowed, look_up};
pub use parities::{COMMAND_SYNC, DATA_SYNC, is_valid, parity_bit};
pub use refusals::Refusal;
pub use statuses::{Flag, StatusWord};
pub use times::{Moment, Spacing, Ticks, gap, is_spaced, spacing_between};
