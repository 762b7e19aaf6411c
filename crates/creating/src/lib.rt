// The calls that create a variable: from two bounds, and from a list of values. Relies on stores and all below it.
#![tactic(auto)]

ghost use Rattle.std.specs.Prelude.{◌≡◌, true, ◌+◌, ◌<◌, length, ◌≤ℤ◌, ◌≤◌, OnOk, IfErr, MatchOption};
ghost use Rattle.std.specs.Int.Signed.{lt_z};
ghost use Rattle.predicates.specs.declared.Reason.TheVariants.{None};
ghost use Rattle.domains.specs.Choice.{pick};
ghost use Rattle.domains.specs.Domain.{width};
ghost use Rattle.stores.specs.Store.{entered, marked};
ghost use Rattle.stories.specs.Calls.{not_equal, span_of, missing};
ghost use Rattle.stores.specs.Calls.{grown, posted, grow_answer, grow_store, list_answer, list_store};
ghost use Rattle.stores.specs.Made.{Made};
ghost use Rattle.creating.specs.Parts.{between, without_reason};
ghost use Rattle.creating.specs.Walks.{Removes, Walk, Done};

mod window;

use crate::window::Window;
use domains::Bounds;
use pools::Update;
use predicates::{DomainId, Predicate, Reason, TrailPosition};
use stores::{Assignments, Called, Trail, Variable};
use stories::{Entry, Refusal};

// An entry of a creation, which has no reason, at the end of the trail, which has room for it.
fn enter(trail: &mut Trail, predicate: Predicate, old: Bounds)
    requires { trail.old.length < 1024 }
    ensures { trail.new ≡ entered trail.old (without_reason predicate old) }
{
    trail.push(Entry {
        predicate,
        old,
        reason: Reason::None,
    });
}

// Lays the next variable down: its two entries, an update for each bound, and its record.
fn lay_down(store: &mut Assignments, id: DomainId, bounds: Bounds)
    requires made { Made store.old }
    requires number { id.0 ≡ store.old.domains }
    requires few { store.old.domains < 256 }
    requires room { store.old.trail.length + 2 ≤ 1024 }
    ensures { store.new ≡ grown store.old bounds }
{
    let at = store.trail.length;
    let first = TrailPosition(at as u16);
    let last = TrailPosition((at + 1) as u16);
    let least = Predicate::lower_bound_predicate(id, bounds.lower);
    let most = Predicate::upper_bound_predicate(id, bounds.upper);
    enter(&mut store.trail, least, bounds);
    enter(&mut store.trail, most, bounds);
    store.lower = store.lower.push(Update {
        value: bounds.lower,
        position: first,
        previous: 0,
    });
    store.upper = store.upper.push(Update {
        value: bounds.upper,
        position: last,
        previous: 0,
    });
    store.variables[store.domains] = Variable {
        bounds,
        initial: bounds,
        lower: store.lower.length as u16,
        upper: store.upper.length as u16,
        holes: 0,
        mark: last,
    };
    store.domains += 1;
}

// The next variable's number, if one with these bounds can be made.
fn next_number(store: &Assignments, bounds: Bounds) -> Result<DomainId, Refusal>
    requires { Made store.now }
    ensures { result ≡ grow_answer store.now bounds }
{
    if 0 < store.checkpoint {
        return Err(Refusal::NotRoot);
    }
    if bounds.is_empty() {
        return Err(Refusal::BadDomain);
    }
    let domains = store.domains;
    if Assignments::MAX_VARIABLES <= domains {
        return Err(Refusal::TooManyVariables);
    }
    let at = store.trail.length;
    if Assignments::MAX_ENTRIES < at + 2 {
        return Err(Refusal::TrailFull);
    }
    Ok(DomainId(domains as u16))
}

// Makes a variable with every value between the bounds.
fn create_dense(store: &mut Assignments, bounds: Bounds) -> Result<DomainId, Refusal>
    requires { Made store.old }
    ensures answer { result ≡ grow_answer store.old bounds }
    ensures store { store.new ≡ grow_store store.old bounds }
{
    let id = next_number(store, bounds)?;
    lay_down(store, id, bounds);
    Ok(id)
}

// A variable with every value from `lower` to `upper`.
pub fn grow(mut store: Assignments, lower: i32, upper: i32) -> Called<DomainId>
    requires { Made store }
    ensures { (result.answer ≡ grow_answer store (between lower upper)) × (result.store ≡ grow_store store (between lower upper)) }
{
    let bounds = Bounds { lower, upper };
    let answer = create_dense(&mut store, bounds);
    Called { store, answer }
}

// The smallest and the largest of the values, if there are any.
fn span_of(values: &[i32]) -> Option<Bounds>
    ensures { MatchOption result (length values.now ≡ 0) (λ span. (0 < length values.now) × (span ≡ span_of values.now)) }
{
    let lower = values.iter().copied().min()?;
    let upper = values.iter().copied().max()?;
    Some(Bounds { lower, upper })
}

// Takes `value`, which lies strictly between the variable's bounds, out of its domain.
fn remove(store: &mut Assignments, id: DomainId, value: i32)
    requires { Removes store.old id.0 value }
    ensures { store.new ≡ posted store.old (not_equal id.0 value) None }
{
    let at = id.0 as usize;
    let variable = store.variables[at];
    let position = TrailPosition(store.trail.length as u16);
    let unequal = Predicate::disequality_predicate(id, value);
    enter(&mut store.trail, unequal, variable.bounds);
    store.holes = store.holes.push(Update {
        value,
        position,
        previous: variable.holes,
    });
    store.variables[at].holes = store.holes.length as u16;
    store.pruned += 1;
}

// Removes the values between the bounds that are not listed. It gives up at the first for which the trail has no room, so
// that it passes few more values than there are listed ones, however far apart the bounds lie.
fn remove_missing(
    store: &mut Assignments,
    id: DomainId,
    span: Bounds,
    values: &[i32],
) -> Result<(), Refusal>
    requires span { span ≡ span_of values.now }
    requires walk { Walk values.now store.old id.0 span.lower store.old }
    ensures taken { OnOk result (Done values.now store.old id.0 store.new) }
    ensures full { IfErr result (λ e. (e ≡ Refusal.TrailFull) × (1024 < store.old.trail.length + length (missing values.now))) }
{
    let room = Assignments::MAX_ENTRIES - store.trail.length;
    if too_wide(span, values.len(), room) {
        return Err(Refusal::TrailFull);
    }
    let mut window = Window::at(values, span.lower);
    for value in span.lower..span.upper {
        if !window.lists(value) {
            if Assignments::MAX_ENTRIES <= store.trail.length {
                return Err(Refusal::TrailFull);
            }
            remove(store, id, value);
        }
    }
    Ok(())
}

// Whether there are more values between the bounds than are listed and can be removed.
fn too_wide(span: Bounds, listed: usize, room: usize) -> bool
    requires { span.lower ≤ℤ span.upper }
    ensures { result ≡ true → listed + room < width span.lower span.upper }
{
    let last = integers::abs_diff(span.lower, span.upper) as usize;
    listed.saturating_add(room) <= last
}

// Sets the variable's mark at the newest entry.
fn set_mark(store: &mut Assignments, id: DomainId)
    requires number { id.0 < 256 }
    requires some { 0 < store.old.trail.length }
    requires short { store.old.trail.length ≤ 1024 }
    ensures { store.new ≡ marked store.old id.0 }
{
    let mark = TrailPosition((store.trail.length - 1) as u16);
    store.variables[id.0 as usize].mark = mark;
}

// Makes a variable with the listed values, unless it is refused; then some of the values that are missing may be removed all the same.
// An empty list is refused as bounds without a value are.
fn create_listed(store: &mut Assignments, values: &[i32]) -> Result<DomainId, Refusal>
    requires { Made store.old }
    ensures answer { result ≡ list_answer store.old values.now }
    ensures taken { OnOk result (store.new ≡ list_store store.old values.now) }
{
    let Some(span) = span_of(values) else {
        return create_dense(store, Bounds { lower: 1, upper: 0 });
    };
    let id = create_dense(store, span)?;
    remove_missing(store, id, span, values)?;
    set_mark(store, id);
    Ok(id)
}

// A variable with the listed values, in any order and as often as they come.
pub fn create_new_integer_variable_sparse(store: Assignments, values: &[i32]) -> Called<DomainId>
    requires { Made store }
    ensures { (result.answer ≡ list_answer store values.now) × (result.store ≡ list_store store values.now) }
{
    let mut sparse = store;
    let answer = create_listed(&mut sparse, values);
    if answer.is_err() {
        return Called { store, answer };
    }
    Called {
        store: sparse,
        answer,
    }
}
