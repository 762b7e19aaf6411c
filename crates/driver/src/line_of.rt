// One line: the call that it asks for is made on the store.
ghost use Rattle.stores.specs.Made.{Made};
ghost use Rattle.driver.specs.Lines.{Did};

use crate::calls_of::{Pairs, back, grow, list, open, post};
use crate::questions_of::{ask, ask_at, show};
use commands::{Command, read_command};
use predicates::{Checkpoint, DomainId, Predicate, TrailPosition};
use replies::{LineRefusal, Reply};
use stores::Assignments;

// What the line is answered. The pairs of a `back` are written to `pairs`.
pub fn answer_line(
    store: &mut Assignments,
    line: &[u8],
    pairs: &mut Pairs,
) -> Result<Reply, LineRefusal>
    requires { Made store.old }
    ensures { Did store.old line.now store.new result pairs.new.variables pairs.new.lowers }
{
    let command = read_command(line).ok_or(LineRefusal::BadLine)?;
    match command {
        Command::Var { lower, upper } => replies::of_grow(grow(store, lower, upper)),
        Command::List => replies::of_grow(list(store, line)),
        Command::Post { claim, reason } => {
            replies::of_post(post(store, Predicate::from(claim), reason))
        }
        Command::Open => replies::of_open(open(store)),
        Command::Back { checkpoint } => {
            replies::of_synchronise(back(store, Checkpoint::new(checkpoint), pairs))
        }
        Command::Ask(claim) => replies::of_truth(ask(store, Predicate::from(claim))),
        Command::At { position, claim } => {
            let at = TrailPosition::new(position);
            replies::of_truth(ask_at(store, Predicate::from(claim), at))
        }
        Command::Show { id } => show(store, DomainId::new(id)),
        Command::Count => Ok(Reply::Number(store.pruned)),
    }
}
