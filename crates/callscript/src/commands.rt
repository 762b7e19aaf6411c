// What a line asks for (docs/CALLS.md). A group of commands has a function of its own, so that a further command is a line in one of them.
use crate::fields::{Fields, MOST_ROOM};
use crate::list_values::Values;
use crate::questions_asked::{Question, read_question};
use predicates::{Checkpoint, Predicate, Reason, TrailPosition};

// A call.
#[derive(Clone, Copy)]
pub enum Command {
    Fresh,
    State,
    Look(Look),
    Question(Question),
    Grow {
        lower: i32,
        upper: i32,
    },
    // Of the values that were read into the lent place.
    List,
    Post {
        predicate: Predicate,
        reason: Reason,
    },
    Open,
    Synchronise {
        checkpoint: Checkpoint,
        variables: usize,
        lowers: usize,
    },
}

// A question about the store as a whole, or about an entry of its trail.
#[derive(Clone, Copy)]
pub enum Look {
    Checkpoint,
    Domains,
    TrailEntries,
    PrunedValues,
    TrailEntry(TrailPosition),
}

// The command that the line spells: its name, and as many fields as the command has. The values of a list go to `values`, since a
// command that had them would be large.
pub fn read_command(line: &[u8], values: &mut Values) -> Option<Command> {
    let mut fields = Fields::new(line);
    let name = fields.word()?;
    let command = read_call(name, &mut fields, values)?;
    fields.end()?;
    Some(command)
}

// A call that may change the store, or `state`.
fn read_call(name: &[u8], fields: &mut Fields<'_>, values: &mut Values) -> Option<Command> {
    let command = match name {
        b"fresh" => Command::Fresh,
        b"state" => Command::State,
        b"var" => Command::Grow {
            lower: fields.integer()?,
            upper: fields.integer()?,
        },
        b"list" => {
            fields.values(values)?;
            Command::List
        }
        b"post" => Command::Post {
            predicate: fields.predicate()?,
            reason: fields.reason()?,
        },
        b"open" => Command::Open,
        b"back" => Command::Synchronise {
            checkpoint: fields.checkpoint()?,
            variables: MOST_ROOM,
            lowers: MOST_ROOM,
        },
        b"synchronise" => Command::Synchronise {
            checkpoint: fields.checkpoint()?,
            variables: fields.room()?,
            lowers: fields.room()?,
        },
        _ => read_look(name, fields)?,
    };
    Some(command)
}

fn read_look(name: &[u8], fields: &mut Fields<'_>) -> Option<Command> {
    let look = match name {
        b"get_checkpoint" => Look::Checkpoint,
        b"num_domains" => Look::Domains,
        b"num_trail_entries" => Look::TrailEntries,
        b"count" => Look::PrunedValues,
        b"get_trail_entry" => Look::TrailEntry(fields.position()?),
        _ => return Some(Command::Question(read_question(name, fields)?)),
    };
    Some(Command::Look(look))
}
