// How a tool's run is started and how it ended: `--status-fd N` in front of all other arguments, `--version`, the usage, and the digit that is the tool's last act (docs/LINES.md, "The
// status"). A program has no exit status; `./bus` makes the digit one. Meaning: specs/Statuses.antt. Refusals: none; what is wrong with an argument is said on standard error.
#![tactic(auto)]

mod arguments;
mod fronts;
mod statuses;

pub use arguments::{
    Asked, ask, asks_help, count_arguments, is_at, is_name, is_option, typed_number,
};
pub use fronts::{Begun, Front, VERSION, begin, run, show_usage};
pub use statuses::Status;
