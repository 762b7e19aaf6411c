// The calls that commands ask for, made on the store that the program keeps.
ghost use Rattle.stores.specs.Made.{Made};

use crate::answers::{Answer, EntryFields};
use crate::commands::{Command, Look};
use crate::list_values::Values;
use crate::questions_answered::answer_question;
use predicates::{Checkpoint, DomainId, Predicate, Reason};
use stores::Assignments;
use stories::Refusal;

// Makes the call of a command, and prints its answer. It is taken into the loop that keeps the store, so that a call by value copies
// the store no more often than where the loop made it.
#[inline(always)]
pub fn answer_command(
    answer: Answer<'_, '_>,
    store: &mut Assignments,
    command: Command,
    values: &Values,
)
    requires { Made store.old }
    ensures { Made store.new }
{
    match command {
        Command::Fresh => {
            *store = Assignments::default();
            answer.put_done();
        }
        Command::State => answer.put_state(store),
        Command::Look(look) => answer_look(answer, store, look),
        Command::Question(question) => answer_question(answer, store, question),
        Command::Grow { lower, upper } => answer.put(grow(store, lower, upper).map(|id| id.0)),
        Command::List => answer.put(list(store, values).map(|id| id.0)),
        Command::Post { predicate, reason } => {
            answer.put(post(store, predicate, reason).map(u8::from));
        }
        Command::Open => answer.put(new_checkpoint(store).map(|checkpoint| checkpoint.0)),
        Command::Synchronise {
            checkpoint,
            variables,
            lowers,
        } => synchronise(answer, store, checkpoint, variables, lowers),
    }
}

fn answer_look(answer: Answer<'_, '_>, store: &Assignments, look: Look)
    requires { Made store.now }
{
    match look {
        Look::Checkpoint => answer.put(Ok(store.get_checkpoint().0)),
        Look::Domains => answer.put(Ok(store.num_domains())),
        Look::TrailEntries => answer.put(Ok(store.num_trail_entries())),
        Look::PrunedValues => answer.put(Ok(store.get_pruned_value_count())),
        Look::TrailEntry(position) => {
            answer.put(store.get_trail_entry(position).map(EntryFields));
        }
    }
}

fn grow(store: &mut Assignments, lower: i32, upper: i32) -> Result<DomainId, Refusal>
    requires { Made store.old }
    ensures { Made store.new }
{
    let grew = creating::grow(*store, lower, upper);
    *store = grew.store;
    grew.answer
}

fn list(store: &mut Assignments, values: &Values) -> Result<DomainId, Refusal>
    requires { Made store.old }
    ensures { Made store.new }
{
    let all = values.array();
    let listed = &all[..values.count()];
    let grew = creating::create_new_integer_variable_sparse(*store, listed);
    *store = grew.store;
    grew.answer
}

// Whether the post changed anything.
fn post(store: &mut Assignments, predicate: Predicate, reason: Reason) -> Result<bool, Refusal>
    requires { Made store.old }
    ensures { Made store.new }
{
    let posted = posting::post_predicate(*store, predicate, reason);
    *store = posted.store;
    posted.answer
}

fn new_checkpoint(store: &mut Assignments) -> Result<Checkpoint, Refusal>
    requires { Made store.old }
    ensures { Made store.new }
{
    let opened = backtracking::new_checkpoint(*store);
    *store = opened.store;
    opened.answer
}

// Goes back, with lent slices of that many places, and prints what was written to them. The call is lent two slices.
fn synchronise(
    answer: Answer<'_, '_>,
    store: &mut Assignments,
    checkpoint: Checkpoint,
    variables_lent: usize,
    lowers_lent: usize,
)
    requires { Made store.old }
    ensures { Made store.new }
{
    let mut variables = [0u16; 1024];
    let mut lowers = [0i32; 1024];
    let variables_lent = variables_lent.min(1024);
    let lowers_lent = lowers_lent.min(1024);
    let gone = backtracking::synchronise(
        *store,
        checkpoint,
        &mut variables[..variables_lent],
        &mut lowers[..lowers_lent],
    );
    *store = gone.store;
    answer.put_pairs(gone.answer, &variables, &lowers);
}
