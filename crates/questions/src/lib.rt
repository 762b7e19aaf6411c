// The questions about a variable, now and at a position of the trail, by Pumpkin's names. Each reads the variable's record
// and asks the domain that it tells of. Relies on integers, predicates, domains, pools and stores.
#![tactic(auto, using(crate::proofs::Asking::few), unfolding(stores::specs::Store::domain_of, stores::specs::Positions::domain_at, domains::specs::Truth::truth_of, stories::specs::Questions::left_of))]

mod parts;
mod seen;

ghost use Rattle.std.specs.Prelude.{◌≡◌};
ghost use Rattle.stores.specs.Made.{Made};
ghost use Rattle.stories.specs.Questions.{lowest, highest, contains, is_one, assigned_value, truth, satisfied, falsified, left_of};
ghost use Rattle.questions.specs.Answers.{ask_now, ask_at, initial_lower, initial_upper};
ghost use Rattle.questions.specs.Parts.{found_in};

pub use parts::{bounds_at, find, lower_at, upper_at};
use predicates::{DomainId, Predicate, TrailPosition};
pub use seen::SeenDomain;
use stores::{Assignments, Variable};
use stories::Refusal;

// The record of a variable, for all that follow. The array is taken out before it is lent: where a place in the store itself were lent
// to be indexed, each question would copy the whole store.
fn variable_of(store: Assignments, domain: DomainId) -> Result<Variable, Refusal>
    requires { Made store }
    ensures { result ≡ found_in store.variables store.domains domain.0 }
{
    let variables = store.variables;
    find(&variables, store.domains, domain)
}

// Lower and upper bounds, and the questions about now and about a position, have a function each by the Rust's names.

pub fn get_lower_bound(store: Assignments, domain: DomainId) -> Result<i32, Refusal>
    requires { Made store }
    ensures { result ≡ ask_now lowest store domain.0 }
{
    let variable = variable_of(store, domain)?;
    Ok(variable.bounds.lower)
}

// A position before the creation has the initial bounds, one past the trail those of now.
pub fn get_lower_bound_at_trail_position(
    store: Assignments,
    domain: DomainId,
    position: TrailPosition,
) -> Result<i32, Refusal>
    requires { Made store }
    ensures { result ≡ ask_at lowest store domain.0 position.0 }
{
    let variable = variable_of(store, domain)?;
    Ok(lower_at(store.lower, variable, position))
}

pub fn get_initial_lower_bound(store: Assignments, domain: DomainId) -> Result<i32, Refusal>
    requires { Made store }
    ensures { result ≡ initial_lower store domain.0 }
{
    let variable = variable_of(store, domain)?;
    Ok(variable.initial.lower)
}

pub fn get_upper_bound(store: Assignments, domain: DomainId) -> Result<i32, Refusal>
    requires { Made store }
    ensures { result ≡ ask_now highest store domain.0 }
{
    let variable = variable_of(store, domain)?;
    Ok(variable.bounds.upper)
}

pub fn get_upper_bound_at_trail_position(
    store: Assignments,
    domain: DomainId,
    position: TrailPosition,
) -> Result<i32, Refusal>
    requires { Made store }
    ensures { result ≡ ask_at highest store domain.0 position.0 }
{
    let variable = variable_of(store, domain)?;
    Ok(upper_at(store.upper, variable, position))
}

pub fn get_initial_upper_bound(store: Assignments, domain: DomainId) -> Result<i32, Refusal>
    requires { Made store }
    ensures { result ≡ initial_upper store domain.0 }
{
    let variable = variable_of(store, domain)?;
    Ok(variable.initial.upper)
}

pub fn is_value_in_domain(store: Assignments, domain: DomainId, value: i32) -> Result<bool, Refusal>
    requires { Made store }
    ensures { result ≡ ask_now (contains value) store domain.0 }
{
    let variable = variable_of(store, domain)?;
    Ok(SeenDomain::now(&store.holes, variable).contains(value))
}

pub fn is_value_in_domain_at_trail_position(
    store: Assignments,
    domain: DomainId,
    value: i32,
    position: TrailPosition,
) -> Result<bool, Refusal>
    requires { Made store }
    ensures { result ≡ ask_at (contains value) store domain.0 position.0 }
{
    let variable = variable_of(store, domain)?;
    let seen = SeenDomain::at(store.lower, store.upper, &store.holes, variable, position);
    Ok(seen.contains(value))
}

pub fn is_domain_assigned(store: Assignments, domain: DomainId) -> Result<bool, Refusal>
    requires { Made store }
    ensures { result ≡ ask_now is_one store domain.0 }
{
    let variable = variable_of(store, domain)?;
    Ok(SeenDomain::now(&store.holes, variable).is_assigned())
}

pub fn is_domain_assigned_at_trail_position(
    store: Assignments,
    domain: DomainId,
    position: TrailPosition,
) -> Result<bool, Refusal>
    requires { Made store }
    ensures { result ≡ ask_at is_one store domain.0 position.0 }
{
    let variable = variable_of(store, domain)?;
    let seen = SeenDomain::at(store.lower, store.upper, &store.holes, variable, position);
    Ok(seen.is_assigned())
}

pub fn get_assigned_value(store: Assignments, domain: DomainId) -> Result<Option<i32>, Refusal>
    requires { Made store }
    ensures { result ≡ ask_now assigned_value store domain.0 }
{
    let variable = variable_of(store, domain)?;
    Ok(SeenDomain::now(&store.holes, variable).assigned_value())
}

// From both bounds at the position; those of now may be another value, on a variable emptied since.
pub fn get_assigned_value_at_trail_position(
    store: Assignments,
    domain: DomainId,
    position: TrailPosition,
) -> Result<Option<i32>, Refusal>
    requires { Made store }
    ensures { result ≡ ask_at assigned_value store domain.0 position.0 }
{
    let variable = variable_of(store, domain)?;
    let seen = SeenDomain::at(store.lower, store.upper, &store.holes, variable, position);
    Ok(seen.assigned_value())
}

// The order of the tests decides where no value is left.
pub fn evaluate_predicate(store: Assignments, predicate: Predicate) -> Result<Option<bool>, Refusal>
    requires { Made store }
    ensures { result ≡ ask_now (truth predicate.kind predicate.value) store predicate.domain.0 }
{
    let variable = variable_of(store, predicate.domain)?;
    Ok(SeenDomain::now(&store.holes, variable).truth(predicate.kind, predicate.value))
}

pub fn evaluate_predicate_at_trail_position(
    store: Assignments,
    predicate: Predicate,
    position: TrailPosition,
) -> Result<Option<bool>, Refusal>
    requires { Made store }
    ensures { result ≡ ask_at (truth predicate.kind predicate.value) store predicate.domain.0 position.0 }
{
    let variable = variable_of(store, predicate.domain)?;
    let seen = SeenDomain::at(store.lower, store.upper, &store.holes, variable, position);
    Ok(seen.truth(predicate.kind, predicate.value))
}

pub fn is_predicate_satisfied(store: Assignments, predicate: Predicate) -> Result<bool, Refusal>
    requires { Made store }
    ensures { result ≡ ask_now (satisfied predicate.kind predicate.value) store predicate.domain.0 }
{
    Ok(evaluate_predicate(store, predicate)? == Some(true))
}

pub fn is_predicate_falsified(store: Assignments, predicate: Predicate) -> Result<bool, Refusal>
    requires { Made store }
    ensures { result ≡ ask_now (falsified predicate.kind predicate.value) store predicate.domain.0 }
{
    Ok(evaluate_predicate(store, predicate)? == Some(false))
}

// How many values are left, holes between the bounds not taken off.
pub fn left(store: Assignments, domain: DomainId) -> Result<u64, Refusal>
    requires { Made store }
    ensures { result ≡ ask_now left_of store domain.0 }
{
    let variable = variable_of(store, domain)?;
    Ok(SeenDomain::now(&store.holes, variable).left())
}
