// The controller's verdicts: a plan, and what the returned records make of it (01 Controller verdicts). Meaning: specs/. Refusals: 7 and 5 of
// the plan, then record by record 3, 4, 5, 6. It knows no state and walks the bytes through the reader of `records` alone.
#![tactic(auto)]

mod facts;
mod judges;
mod plans;
mod verdicts;

pub use judges::Finding;
pub use plans::{Plan, is_pair};
pub use verdicts::Verdict;
