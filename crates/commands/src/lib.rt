// Which line of the driver `trailscript` is which command (RULES.md, D2 to D8).
// Every function takes everything: none has a `requires`. Relies on predicates and lines.
#![tactic(auto)]

mod command;
mod list;
mod parts;

pub use command::{Command, read_command};
pub use list::list_values;
pub use parts::Claim;
