// A reply's text. The pairs of a `back` are in two slices, as `synchronise` writes them. Each function states how long its text can be, so that a caller knows how much room is enough.
ghost use Rattle.std.specs.Prelude.{◌+◌, ◌*◌, ◌≤◌, length};
ghost use Rattle.lines.specs.Spelling.{spelled, spelled_integer};
ghost use Rattle.lines.specs.Writing.{Wrote};
ghost use Rattle.replies.specs.Text.{field, pair_text, pairs_text, shown_text, told_text, answer_text, reply_text};

use crate::answers::{LineRefusal, Reply};
use lines::Writer;

// A tab and a number.
fn put_number(writer: &mut Writer, number: u64)
    ensures { Wrote writer.old (field (spelled number)) writer.new × (length (field (spelled number)) ≤ 21) }
{
    writer.put_byte(b'\t');
    writer.put_natural(number);
}

// A tab and a value.
fn put_value(writer: &mut Writer, value: i32)
    ensures { Wrote writer.old (field (spelled_integer value)) writer.new × (length (field (spelled_integer value)) ≤ 12) }
{
    writer.put_byte(b'\t');
    writer.put_integer(value);
}

// A variable and a lower bound.
fn put_pair(writer: &mut Writer, variable: u16, bound: i32)
    ensures { Wrote writer.old (pair_text variable bound) writer.new × (length (pair_text variable bound) ≤ 33) }
{
    put_number(writer, u64::from(variable));
    put_value(writer, bound);
}

// The first `count` pairs, or as many as there are.
fn put_pairs(writer: &mut Writer, count: usize, variables: &[u16], lowers: &[i32])
    ensures { Wrote writer.old (pairs_text count variables.now lowers.now) writer.new × (length (pairs_text count variables.now lowers.now) ≤ 33 * length variables.now) }
{
    for (variable, lower) in variables.iter().zip(lowers).take(count) {
        put_pair(writer, *variable, *lower);
    }
}

// Two bounds, and how many values are left.
fn put_shown(writer: &mut Writer, lower: i32, upper: i32, left: u64)
    ensures { Wrote writer.old (shown_text lower upper left) writer.new × (length (shown_text lower upper left) ≤ 45) }
{
    put_value(writer, lower);
    put_value(writer, upper);
    put_number(writer, left);
}

// The fields after `ok`.
fn put_told(writer: &mut Writer, reply: Reply, variables: &[u16], lowers: &[i32])
    ensures { Wrote writer.old (told_text reply variables.now lowers.now) writer.new × (length (told_text reply variables.now lowers.now) ≤ 47 + 33 * length variables.now) }
{
    match reply {
        Reply::Number(number) => put_number(writer, number),
        Reply::Pairs(count) => put_pairs(writer, count, variables, lowers),
        Reply::Truth(Some(true)) => writer.put_bytes(b"\ttrue"),
        Reply::Truth(Some(false)) => writer.put_bytes(b"\tfalse"),
        Reply::Truth(None) => writer.put_bytes(b"\topen"),
        Reply::Shown { lower, upper, left } => put_shown(writer, lower, upper, left),
    }
}

// `ok` or `refused` and the fields.
fn put_answer(
    writer: &mut Writer,
    answer: Result<Reply, LineRefusal>,
    variables: &[u16],
    lowers: &[i32],
)
    ensures { Wrote writer.old (answer_text answer variables.now lowers.now) writer.new × (length (answer_text answer variables.now lowers.now) ≤ 50 + 33 * length variables.now) }
{
    match answer {
        Ok(reply) => {
            writer.put_bytes(b"\tok");
            put_told(writer, reply, variables, lowers);
        }
        Err(refusal) => {
            writer.put_bytes(b"\trefused");
            put_number(writer, u64::from(refusal.number()));
        }
    }
}

// The whole line: its number, the answer and LF. The pairs of an answer that has some are in the slices.
pub fn put_reply(
    writer: &mut Writer,
    number: u64,
    answer: Result<Reply, LineRefusal>,
    variables: &[u16],
    lowers: &[i32],
)
    ensures { Wrote writer.old (reply_text number answer variables.now lowers.now) writer.new × (length (reply_text number answer variables.now lowers.now) ≤ 100 + 33 * length variables.now) }
{
    writer.put_natural(number);
    put_answer(writer, answer, variables, lowers);
    writer.put_byte(b'\n');
}
