// The values of a list line, `list v..`.
ghost use Rattle.std.specs.Prelude.{◌≡◌};
ghost use Rattle.lines.specs.Fields.{fields};
ghost use Rattle.commands.specs.Commands.{list_of};
ghost use Rattle.commands.specs.Values.{values_of, Copied};

use crate::command::Command;
use lines::{field, field_count, read_integer};

// A list, where every field after the first is a value.
pub fn read_list(line: &[u8]) -> Option<Command>
    ensures { result ≡ list_of (fields line.now) }
{
    // One pass: `field` would begin again at each place.
    let mut values = line.split(|byte| *byte == b'\t').skip(1);
    values
        .all(|field| read_integer(field).is_some())
        .then_some(Command::List)
}

// Writes the values of the line, as many as there is room for, and answers how many these are. For a list line 100 places are enough.
pub fn list_values(line: &[u8], out: &mut [i32]) -> usize
    ensures { Copied (values_of line.now) 0 out.old out.new result }
{
    // A `for` over `out.iter_mut()` beside the fields compiles, but its proof stays open where it is left at a field that is no value:
    // no law tells what the iterator has written by then.
    let count = field_count(line);
    for written in 0..out.len() {
        if count <= written + 1 {
            return written;
        }
        let Some(value) = read_integer(field(line, written + 1)) else {
            return written;
        };
        out[written] = value;
    }
    out.len()
}
