// The text of a line: its fields, the words and numbers that they spell, and numbers written as text (RULES.md, D3 and D4).
// Every function takes everything: none has a `requires`. Relies on nothing but std.
#![tactic(auto)]

mod fields;
mod numbers;
mod writing;

pub use fields::{field, field_count, first_field, is_word};
pub use numbers::{read_integer, read_natural};
pub use writing::Writer;
