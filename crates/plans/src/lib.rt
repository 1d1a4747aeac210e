// The text of a schedule, read (02 j; docs/LINES.md, busplan FILE): a machine that is fed it in any chunks, and ended. Meaning: specs/. Refusals: none;
// any bytes are taken, and a bad line is a fault of the plan.
#![tactic(auto)]

mod drafts;
mod entries;
mod gatherings;
mod parts;
mod readings;

pub use drafts::{BadLine, Draft};
pub use entries::Fault;
pub use readings::Reading;
