// The texts of the tools' lines (02 a, c, i, j; docs/LINES.md): each is spelled into the block where it stands, behind what waits there, and room is asked once a line. Which
// entries of a log are shown. Meaning: specs/. Refusals: none. It knows what the lines say, and nothing of files.
#![tactic(auto)]

mod closings;
mod entries;
mod flaws;
mod puts;
mod schedules;
mod shows;
mod writings;

pub use closings::{put_log_end, put_log_refused, put_run, put_save_end};
pub use puts::put_entry;
pub use schedules::{Closing, put_closing, put_frame, put_slot};
pub use shows::Wanted;
pub use writings::put_plan;
