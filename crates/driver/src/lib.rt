// The driver `trailscript` on slices (RULES.md, "The driver `trailscript`"): bytes and a store in, the answers' bytes and the store out.
// Relies on all crates of the store, on commands for what a line says, and on replies for what is printed.
#![tactic(auto)]

mod answering;
mod calls_of;
mod line_of;
mod lines_of;
mod questions_of;

pub use answering::{Answered, answer_lines};
pub use lines_of::line_end;
