// The calls of a line that change the store, each made on a store that is lent: the call takes it by value, and what comes back
// is put where it was. A method of `Called` for that one assignment would be no plainer.
ghost use Rattle.std.specs.Prelude.{◌≡◌, Some};
ghost use Rattle.stores.specs.Calls.{grow_answer, grow_store, list_answer, list_store, post_answer, post_store, open_answer, open_store, synchronise_answer, synchronise_store, pairs_of};
ghost use Rattle.stores.specs.Made.{Made};
ghost use Rattle.stories.specs.Calls.{written, variables_in, lowers_in};
ghost use Rattle.creating.specs.Parts.{between};
ghost use Rattle.commands.specs.declared.command.Command.TheVariants.{List};
ghost use Rattle.commands.specs.Commands.{command_of};
ghost use Rattle.commands.specs.Values.{values_of};

use commands::list_values;
use predicates::{Checkpoint, DomainId, Predicate, Reason};
use stores::Assignments;
use stories::Refusal;

// Room for the pairs of a `back`: no trail has more entries. There are two arrays, since `synchronise` is lent two slices.
#[derive(Drop)]
pub struct Pairs {
    pub variables: [u16; 1024],
    pub lowers: [i32; 1024],
}

// `var`
pub fn grow(store: &mut Assignments, lower: i32, upper: i32) -> Result<DomainId, Refusal>
    requires { Made store.old }
    ensures answer { result ≡ grow_answer store.old (between lower upper) }
    ensures store { store.new ≡ grow_store store.old (between lower upper) }
{
    let grew = creating::grow(*store, lower, upper);
    *store = grew.store;
    grew.answer
}

// `list`: no line has room for more than 100 values.
pub fn list(store: &mut Assignments, line: &[u8]) -> Result<DomainId, Refusal>
    requires made { Made store.old }
    requires list { command_of line.now ≡ Some List }
    ensures answer { result ≡ list_answer store.old (values_of line.now) }
    ensures store { store.new ≡ list_store store.old (values_of line.now) }
{
    let mut values = [0i32; 100];
    let count = list_values(line, &mut values);
    let grew = creating::create_new_integer_variable_sparse(*store, &values[..count]);
    *store = grew.store;
    grew.answer
}

// `post`: one that changes nothing does not hand the store over, which would copy it.
pub fn post(store: &mut Assignments, predicate: Predicate, reason: Reason) -> Result<bool, Refusal>
    requires { Made store.old }
    ensures answer { result ≡ post_answer store.old predicate }
    ensures store { store.new ≡ post_store store.old predicate reason }
{
    let Some(_bounds) = posting::consider(store, predicate)? else {
        return Ok(false);
    };
    let posted = posting::post_predicate(*store, predicate, reason);
    *store = posted.store;
    posted.answer
}

// `open`
pub fn open(store: &mut Assignments) -> Result<Checkpoint, Refusal>
    requires { Made store.old }
    ensures answer { result ≡ open_answer store.old }
    ensures store { store.new ≡ open_store store.old }
{
    let opened = backtracking::new_checkpoint(*store);
    *store = opened.store;
    opened.answer
}

// `back`
pub fn back(
    store: &mut Assignments,
    checkpoint: Checkpoint,
    pairs: &mut Pairs,
) -> Result<usize, Refusal>
    requires { Made store.old }
    ensures answer { result ≡ synchronise_answer store.old checkpoint.0 1024 }
    ensures store { store.new ≡ synchronise_store store.old checkpoint.0 1024 }
    ensures variables { pairs.new.variables ≡ written (variables_in (pairs_of store.old checkpoint.0 1024)) pairs.old.variables }
    ensures lowers { pairs.new.lowers ≡ written (lowers_in (pairs_of store.old checkpoint.0 1024)) pairs.old.lowers }
{
    let gone = backtracking::synchronise(
        *store,
        checkpoint,
        &mut pairs.variables,
        &mut pairs.lowers,
    );
    *store = gone.store;
    gone.answer
}
