// What a line is answered, from what its call answered.
ghost use Rattle.std.specs.Prelude.{◌≡◌};
ghost use Rattle.replies.specs.declared.answers.LineRefusal.TheVariants.{Call};
ghost use Rattle.replies.specs.Replies.{line_number, grow_reply, post_reply, open_reply, synchronise_reply, truth_reply};

use predicates::{Checkpoint, DomainId};
use stories::Refusal;

// What is printed after `ok`. A `Pairs` has its pairs in two slices; a truth of `None` is open.
#[derive(Clone, Copy, Debug, PartialEq, Eq)]
pub enum Reply {
    Number(u64),
    Pairs(usize),
    Truth(Option<bool>),
    Shown { lower: i32, upper: i32, left: u64 },
}

// Why a line is refused: it cannot be read, or its call was refused.
#[derive(Clone, Copy, Debug, PartialEq, Eq)]
pub enum LineRefusal {
    BadLine,
    Call(Refusal),
}

impl LineRefusal {
    // The number that is printed after `refused`.
    pub fn number(self) -> u8
        ensures { result ≡ line_number self }
    {
        match self {
            LineRefusal::BadLine => 14,
            LineRefusal::Call(refusal) => refusal.number(),
        }
    }
}

impl From<Refusal> for LineRefusal {
    ghost from_gives = { λ refusal line. line ≡ Call refusal };

    fn from(refusal: Refusal) -> Self {
        LineRefusal::Call(refusal)
    }
}

// A function each, and no `From`: a `bool`, a `usize` or a number does not tell what is printed of it.

// The new variable's number.
pub fn of_grow(answer: Result<DomainId, Refusal>) -> Result<Reply, LineRefusal>
    ensures { result ≡ grow_reply answer }
{
    Ok(Reply::Number(u64::from(answer?.0)))
}

// 1 for a change, 0 for none.
pub fn of_post(answer: Result<bool, Refusal>) -> Result<Reply, LineRefusal>
    ensures { result ≡ post_reply answer }
{
    Ok(Reply::Number(u64::from(answer?)))
}

// The new checkpoint.
pub fn of_open(answer: Result<Checkpoint, Refusal>) -> Result<Reply, LineRefusal>
    ensures { result ≡ open_reply answer }
{
    Ok(Reply::Number(u64::from(answer?.0)))
}

// The pairs.
pub fn of_synchronise(answer: Result<usize, Refusal>) -> Result<Reply, LineRefusal>
    ensures { result ≡ synchronise_reply answer }
{
    Ok(Reply::Pairs(answer?))
}

// True, false or open.
pub fn of_truth(answer: Result<Option<bool>, Refusal>) -> Result<Reply, LineRefusal>
    ensures { result ≡ truth_reply answer }
{
    Ok(Reply::Truth(answer?))
}
