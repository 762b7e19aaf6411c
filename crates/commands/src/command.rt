// A line's command, by its first field and the number of its fields.
ghost use Rattle.std.specs.Prelude.{◌≡◌};
ghost use Rattle.lines.specs.Fields.{fields};
ghost use Rattle.commands.specs.Commands.{var_of, post_of, back_of, ask_of, at_of, show_of, command_of};

use crate::list::read_list;
use crate::parts::{Claim, read_claim, read_reason};
use lines::{field, field_count, is_word, read_integer, read_natural};
use predicates::Reason;

// What a line asks for. A `List` has its values in the line (`list_values`).
#[derive(Clone, Copy)]
pub enum Command {
    Var { lower: i32, upper: i32 },
    List,
    Post { claim: Claim, reason: Reason },
    Open,
    Back { checkpoint: u32 },
    Ask(Claim),
    At { position: u32, claim: Claim },
    Show { id: u32 },
    Count,
}

impl Command {
    // How many bytes a line may have.
    pub const LONGEST_LINE: usize = 200;
}

// The line's command, by its first field and the number of its fields; none where it cannot be read.
// A `match` on the two compiles, but its proof does not close: where no arm fits, what the match found of the field's bytes has no name that an answer can cite.
pub fn read_command(line: &[u8]) -> Option<Command>
    ensures { result ≡ command_of line.now }
{
    if Command::LONGEST_LINE < line.len() {
        return None;
    }
    let word = field(line, 0);
    let count = field_count(line);
    if count == 3 && is_word(word, b"var") {
        read_var(line)
    } else if is_word(word, b"list") {
        read_list(line)
    } else if count == 5 && is_word(word, b"post") {
        read_post(line)
    } else if count == 1 && is_word(word, b"open") {
        Some(Command::Open)
    } else if count == 2 && is_word(word, b"back") {
        read_back(line)
    } else if count == 4 && is_word(word, b"ask") {
        read_ask(line)
    } else if count == 5 && is_word(word, b"at") {
        read_at(line)
    } else if count == 2 && is_word(word, b"show") {
        read_show(line)
    } else if count == 1 && is_word(word, b"count") {
        Some(Command::Count)
    } else {
        None
    }
}

// `var lo hi`
fn read_var(line: &[u8]) -> Option<Command>
    ensures { result ≡ var_of (fields line.now) }
{
    let lower = read_integer(field(line, 1))?;
    let upper = read_integer(field(line, 2))?;
    Some(Command::Var { lower, upper })
}

// `post id op value reason`
fn read_post(line: &[u8]) -> Option<Command>
    ensures { result ≡ post_of (fields line.now) }
{
    let claim = read_claim(line, 1, 2, 3)?;
    let reason = read_reason(field(line, 4))?;
    Some(Command::Post { claim, reason })
}

// `back k`
fn read_back(line: &[u8]) -> Option<Command>
    ensures { result ≡ back_of (fields line.now) }
{
    let checkpoint = read_natural(field(line, 1))?;
    Some(Command::Back { checkpoint })
}

// `ask id op value`
fn read_ask(line: &[u8]) -> Option<Command>
    ensures { result ≡ ask_of (fields line.now) }
{
    let claim = read_claim(line, 1, 2, 3)?;
    Some(Command::Ask(claim))
}

// `at p id op value`
fn read_at(line: &[u8]) -> Option<Command>
    ensures { result ≡ at_of (fields line.now) }
{
    let position = read_natural(field(line, 1))?;
    let claim = read_claim(line, 2, 3, 4)?;
    Some(Command::At { position, claim })
}

// `show id`
fn read_show(line: &[u8]) -> Option<Command>
    ensures { result ≡ show_of (fields line.now) }
{
    let id = read_natural(field(line, 1))?;
    Some(Command::Show { id })
}
