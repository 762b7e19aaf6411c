// The post: a predicate with its reason, made part of the store. Relies on rules for what it comes to, and on stores.
#![tactic(auto)]

ghost use Rattle.std.specs.Prelude.{◌≡◌, ◌<◌};
ghost use Rattle.rules.specs.Sound.{domain_in, Sound};
ghost use Rattle.stores.specs.Store.{push_if, link_if};
ghost use Rattle.stores.specs.Calls.{posted, post_answer, post_store};
ghost use Rattle.stores.specs.Made.{Made};
ghost use Rattle.posting.specs.Decision.{decision, unless_emptied, if_room, Recordable, Tells};

use domains::{Bounds, Step, is_not_equal_predicate, pruned};
use pools::{Pool, Update};
use predicates::{Predicate, PredicateType, Reason, TrailPosition};
use rules::StoredDomain;
use stores::{Assignments, Called, Variable};
use stories::{Entry, Refusal};

// An answer, or 7 where the bounds leave no value.
fn unless_emptied<T: Copy>(bounds: Bounds, answer: T) -> Result<T, Refusal>
    ensures { result ≡ unless_emptied bounds answer }
{
    if bounds.is_empty() {
        Err(Refusal::Empty)
    } else {
        Ok(answer)
    }
}

// The answer of a post that needs an entry, or 5 where the trail is full: 5 comes before 6.
fn if_room(
    entries: usize,
    answer: Result<Option<Bounds>, Refusal>,
) -> Result<Option<Bounds>, Refusal>
    ensures { result ≡ if_room entries answer }
{
    if Assignments::MAX_ENTRIES <= entries {
        Err(Refusal::TrailFull)
    } else {
        answer
    }
}

// What a post comes to: a refusal, nothing, or bounds that are to be recorded.
// It is decided on what a post reads of the store, the record of its variable among it, so that a host that keeps a store need
// not hand it over for a post that leaves it as it is. Where there is no such variable, any record will do.
pub fn decide(
    variable: Variable,
    domains: usize,
    holes: Pool,
    entries: usize,
    predicate: Predicate,
) -> Result<Option<Bounds>, Refusal>
    requires { predicate.domain.0 < domains → Sound (domain_in holes variable.holes variable.bounds) }
    ensures { result ≡ decision variable domains holes entries predicate }
{
    if domains <= predicate.domain.0 as usize {
        return Err(Refusal::NoVariable);
    }
    let bounds = variable.bounds;
    let kind = predicate.kind;
    let domain = StoredDomain::new(holes, variable.holes, bounds);
    match domain.step(kind, predicate.value) {
        Step::Nothing => unless_emptied(bounds, None),
        Step::Overflows => if_room(entries, Err(Refusal::StepOverflow)),
        Step::Moves(to) => if_room(entries, Ok(Some(to))),
    }
}

// What a post to a lent store comes to.
pub fn consider(store: &Assignments, predicate: Predicate) -> Result<Option<Bounds>, Refusal>
    requires { Made store.now }
    ensures { Tells store.now predicate result }
{
    let x = predicate.domain.0 as usize;
    // `decide` tests this too, but is handed the record
    if store.domains <= x {
        return Err(Refusal::NoVariable);
    }
    let entries = store.trail.length;
    decide(
        store.variables[x],
        store.domains,
        store.holes,
        entries,
        predicate,
    )
}

// Adds an update to a pool, where there is one. Gives the variable's link: to that update then, and else as it was.
// `happened` is the flag of `push_if` and `link_if`; an `Option` would leave out the link that is kept where there is none.
fn add_if(pool: &mut Pool, happened: bool, update: Update) -> u16
    requires { pool.old.length < 1024 }
    ensures rest { pool.new ≡ push_if happened pool.old update }
    ensures link { result ≡ link_if happened pool.old update.previous }
{
    if !happened {
        return update.previous;
    }
    *pool = pool.push(update);
    pool.length as u16
}

// Records a post that does something: its entry, an update for each bound that moves, a hole for a removed value, and the
// variable's new bounds.
fn record(store: &mut Assignments, predicate: Predicate, reason: Reason, to: Bounds)
    requires made { Made store.old }
    requires recordable { Recordable store.old predicate to }
    ensures { store.new ≡ posted store.old predicate reason }
{
    let x = predicate.domain.0 as usize;
    let was = store.variables[x];
    let from = was.bounds;
    let position = TrailPosition(store.trail.length as u16);
    store.trail.push(Entry {
        predicate,
        old: from,
        reason,
    });
    let lower = add_if(
        &mut store.lower,
        from.lower != to.lower,
        Update {
            value: to.lower,
            position,
            previous: was.lower,
        },
    );
    let upper = add_if(
        &mut store.upper,
        from.upper != to.upper,
        Update {
            value: to.upper,
            position,
            previous: was.upper,
        },
    );
    let holes = add_if(
        &mut store.holes,
        is_not_equal_predicate(predicate.kind),
        Update {
            value: predicate.value,
            position,
            previous: was.holes,
        },
    );
    store.variables[x] = Variable {
        bounds: to,
        lower,
        upper,
        holes,
        ..was
    };
    store.pruned += pruned(predicate.kind, from, to);
}

// Makes the predicate part of the store. What it comes to is decided on small values; then one entry is recorded.
pub fn post_predicate(mut store: Assignments, predicate: Predicate, reason: Reason) -> Called<bool>
    requires { Made store }
    ensures { (result.answer ≡ post_answer store predicate) × (result.store ≡ post_store store predicate reason) }
{
    let answer = match consider(&store, predicate) {
        Err(refusal) => Err(refusal),
        Ok(None) => Ok(false),
        Ok(Some(to)) => {
            record(&mut store, predicate, reason, to);
            unless_emptied(to, true)
        }
    };
    Called { store, answer }
}
