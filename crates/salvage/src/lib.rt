// Saving a damaged record file (02 c): a machine that is fed the file in any chunks and gives back what to keep and what to skip, in a
// room that the caller lends. Meaning: specs/. Refusals: none; any bytes are taken.
#![tactic(auto)]

mod choices;
mod salvages;
mod stretches;

pub use salvages::{Fed, First, Progress, Run, Salvage, Settled, Totals};
