// What the driver `trailscript` prints for a line (RULES.md, D6 and D9): the answers of the calls as replies, and a reply as text.
// Every function takes everything: none has a `requires`. Relies on predicates, lines, stores and questions.
#![tactic(auto)]

mod answers;
mod writing;

pub use answers::{LineRefusal, Reply, of_grow, of_open, of_post, of_synchronise, of_truth};
pub use writing::put_reply;
