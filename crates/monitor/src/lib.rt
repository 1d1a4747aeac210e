// The log of whole messages (02 a): one bus's walk over the records of a file, fed chunk by chunk, and the choice between two such walks
// that gives the entries in order. Meaning: specs/. Refusals: 3, 4, 5, 6 of a record, given with the entries before it.
// It knows no file and keeps no record but one that stands alone; verdicts are those of `verdict`.
#![tactic(auto)]

mod entries;
mod openings;
mod sides;
mod walks;

pub use entries::{Commands, Entry, Gap, Logged, Message, Statuses};
pub use openings::{Heads, Opening};
pub use sides::{Choice, Fed, choose};
pub use walks::{Side, Standing, Stop, Walk};
