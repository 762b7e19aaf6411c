// Opening a checkpoint, and going back to one. Relies on integers, predicates, domains, pools and stores.
#![tactic(auto)]

ghost use Rattle.std.specs.Prelude.{◌≡◌, ◌≤◌, ◌<◌};
ghost use Rattle.stores.specs.Store.{pop_if, back_if, undone_by};
ghost use Rattle.stores.specs.Calls.{open_answer, open_store};
ghost use Rattle.stores.specs.Made.{Made};
ghost use Rattle.backtracking.specs.Outcome.{Appended, Outcome, room_of};
ghost use Rattle.backtracking.specs.Sound.{Sound};

use domains::is_not_equal_predicate;
use pools::{Pool, Update};
use predicates::Checkpoint;
use stores::{Assignments, Called, Variable};
use stories::{Entry, Refusal};

// One checkpoint more: the trail's length is kept, and the new checkpoint is the current one.
pub fn new_checkpoint(mut store: Assignments) -> Called<Checkpoint>
    requires { Made store }
    ensures { (result.answer ≡ open_answer store) × (result.store ≡ open_store store) }
{
    let current = store.checkpoint;
    if Assignments::MAX_CHECKPOINTS <= current {
        return Called {
            answer: Err(Refusal::TooManyCheckpoints),
            store,
        };
    }
    let next = current + 1;
    store.delimiters[current] = store.trail.length as u16;
    store.checkpoint = next;
    Called {
        answer: Ok(Checkpoint(next as u16)),
        store,
    }
}

// Takes a pool's newest update out if it goes, and blanks its place. Gives the variable's link: to the update before it
// then, and else as it was. `goes` is the flag of `pop_if` and `back_if`.
fn take_if(pool: &mut Pool, goes: bool, link: u16) -> u16
    requires { pool.old.length ≤ 1024 }
    ensures rest { pool.new ≡ pop_if goes pool.old }
    ensures link { result ≡ back_if goes pool.old link }
{
    if !goes {
        return link;
    }
    let last = pool.length.saturating_sub(1);
    let newest = pool.updates[last];
    pool.updates[last] = Update::blank();
    pool.length = last;
    newest.previous
}

// Undoes the newest entry, whose variable `was`: a bound that moved left an update, and a not-equal a hole.
fn undo(store: &mut Assignments, entry: Entry, was: Variable)
    requires sound { Sound store.old }
    requires some { 0 < store.old.trail.length }
    requires named { entry.predicate.domain.0 < 256 }
    ensures { store.new ≡ undone_by store.old entry was }
{
    let last = store.trail.length - 1;
    store.trail.entries[last] = Entry::blank();
    store.trail.length = last;
    let old = entry.old;
    let now = was.bounds;
    let kind = entry.predicate.kind;
    let lower = take_if(&mut store.lower, old.lower != now.lower, was.lower);
    let upper = take_if(&mut store.upper, old.upper != now.upper, was.upper);
    let holes = take_if(&mut store.holes, is_not_equal_predicate(kind), was.holes);
    store.variables[entry.predicate.domain.0 as usize] = Variable {
        bounds: old,
        lower,
        upper,
        holes,
        ..was
    };
    store.pruned = store.pruned.saturating_sub(domains::pruned(kind, old, now));
}

// The lent slices, and how many pairs are written to them. They are two, as `synchronise` is lent them.
#[derive(Drop)]
struct Pairs<'a> {
    variables: &'a mut [u16],
    lowers: &'a mut [i32],
    number: usize,
}

impl Pairs<'_> {
    // Both slices must have room for a pair.
    fn room(&self) -> usize
        ensures { result ≡ room_of self.now.variables.now self.now.lowers.now }
    {
        self.variables.len().min(self.lowers.len())
    }

    // Appends the pair of an undone entry, whose variable `was`, if its bounds then differ.
    fn append(&mut self, entry: Entry, was: Variable)
        requires { self.old.number < room_of self.old.variables.now self.old.lowers.now }
        ensures { Appended entry was self.old self.new }
    {
        if entry.old.lower != entry.old.upper {
            self.variables[self.number] = entry.predicate.domain.0;
            self.lowers[self.number] = was.bounds.lower;
            self.number += 1;
        }
    }
}

// Goes back to a lower checkpoint: the entries above it are undone, newest first, and the pair of each whose variable's
// bounds then differ is written to the lent slices. A turn of the loop writes single places of the store where it stands,
// so that a long way back copies the store no more often than a short one.
pub fn synchronise(
    mut store: Assignments,
    checkpoint: Checkpoint,
    variables: &mut [u16],
    lowers: &mut [i32],
) -> Called<usize>
    requires { Made store }
    ensures { Outcome store checkpoint.0 variables.old lowers.old result variables.new lowers.new }
{
    let back = checkpoint.0 as usize;
    let current = store.checkpoint;
    if current <= back {
        return Called {
            answer: Err(Refusal::NotLower),
            store,
        };
    }
    let above = store.trail.length - store.delimiters[back] as usize;
    let mut pairs = Pairs {
        variables,
        lowers,
        number: 0,
    };
    if pairs.room() < above {
        return Called {
            answer: Err(Refusal::NoRoom),
            store,
        };
    }
    for _undone in 0..above {
        let entry = store.trail.entries[store.trail.length - 1];
        let was = store.variables[entry.predicate.domain.0 as usize];
        undo(&mut store, entry, was);
        pairs.append(entry, was);
    }
    store.delimiters[back..current].fill(0);
    store.checkpoint = back;
    Called {
        answer: Ok(pairs.number),
        store,
    }
}
