// The pool of updates that all variables share, and the walks along one variable's own. A pool knows no rule of the store.
// Relies on integers, predicates and domains.
#![tactic(auto)]

ghost use Rattle.std.specs.Prelude.{◌≡◌, ℕ, ◌<◌, Bool, true, Some, ℤ, pos, negsuc, ◌<ℤ◌};
ghost use Rattle.domains.specs.Domain.{has, width, raised, lowered};
ghost use Rattle.pools.specs.Chain.{no_update, no_updates, pushed, values_of, chain_of, up_to, newest_or, left};
ghost use Rattle.pools.specs.declared.TheConstants.{WINDOW};
ghost use Rattle.pools.specs.Runs.{Places, Marked, FirstClear, Steps};

mod walks;

use predicates::TrailPosition;
use walks::Updates;

// How many values a step over holes looks at: as many as the pool has places.
const WINDOW: usize = 1024;

// A bound that moved, or a value that was removed: the value, the entry that did it, and the variable's update before
// it, counted from 1, with 0 for none. The pool is shared and memory is fixed, so what is before it is told by its place.
#[derive(Clone, Copy, PartialEq, Eq, Debug)]
pub struct Update {
    pub value: i32,
    pub position: TrailPosition,
    pub previous: u16,
}

// Updates of all variables, in the order of the trail; what is past the length is blank. An array with its fill count,
// handed on by value, as is asked for by name; memory is fixed.
#[derive(Clone, Copy)]
pub struct Pool {
    pub updates: [Update; 1024],
    pub length: usize,
}

impl Update {
    pub fn blank() -> Self
        ensures { result ≡ no_update }
    {
        Update {
            value: 0,
            position: TrailPosition(0),
            previous: 0,
        }
    }
}

impl Pool {
    pub fn empty() -> Self
        ensures { result ≡ no_updates }
    {
        Pool {
            updates: [Update::blank(); 1024],
            length: 0,
        }
    }

    // The pool with one update more, if there is room.
    pub fn push(mut self, update: Update) -> Self
        ensures { result ≡ pushed self update }
    {
        if self.length < 1024 {
            self.updates[self.length] = update;
            self.length += 1;
        }
        self
    }

    // The updates of the variable whose newest is `newest`, from that one back.
    fn newest_first(&self, newest: u16) -> Updates<'_>
        ensures { left result ≡ chain_of self.now.updates newest }
    {
        Updates {
            places: &self.updates,
            link: usize::from(newest),
        }
    }

    // Whether `value` is among the values of the variable whose newest update is `newest`.
    pub fn contains(self, newest: u16, value: i32) -> bool
        ensures { result ≡ has (values_of (chain_of self.updates newest)) value }
    {
        self.newest_first(newest)
            .any(|update| update.value == value)
    }

    // The value of the newest update at or before `position`, or `otherwise` if there is none.
    pub fn value_at(self, newest: u16, position: TrailPosition, otherwise: i32) -> i32
        ensures { result ≡ newest_or (up_to (chain_of self.updates newest) position.0) otherwise }
    {
        self.newest_first(newest)
            .find(|update| update.position.0 <= position.0)
            .map_or(otherwise, |update| update.value)
    }

    // Whether `value` is among the values of the updates at or before `position`.
    pub fn contains_at(self, newest: u16, position: TrailPosition, value: i32) -> bool
        ensures { result ≡ has (values_of (up_to (chain_of self.updates newest) position.0)) value }
    {
        self.newest_first(newest)
            .filter(|update| update.position.0 <= position.0)
            .any(|update| update.value == value)
    }

    // Which places of a window are those of the variable's values. `place` tells the place of a value that stands in it.
    fn marks<F: Fn(i32) -> Option<usize>>(&self, newest: u16, place: F) -> [bool; WINDOW]
        requires callable { F.IsAlwaysCallable place }
        requires within { (v : ℤ) (n : ℕ) → F.post place v (Some n) → n < WINDOW }
        ensures { (up : Bool) (from : ℤ) → Places (F.post place) up from → Marked (values_of (chain_of self.now.updates newest)) up from result }
    {
        let mut marks = [false; WINDOW];
        for update in self.newest_first(newest) {
            if let Some(mark) = place(update.value) {
                marks[mark] = true;
            }
        }
        marks
    }

    // How many of the values from a value on, one after the other and `most` at the most, are the variable's. One window
    // of marks is enough: the pool has no room for a longer run.
    fn steps<F: Fn(i32) -> Option<usize>>(&self, newest: u16, most: usize, place: F) -> usize
        requires callable { F.IsAlwaysCallable place }
        requires within { (v : ℤ) (n : ℕ) → F.post place v (Some n) → n < WINDOW }
        ensures { (up : Bool) (from : ℤ) → Places (F.post place) up from → Steps (values_of (chain_of self.now.updates newest)) up from most result }
    {
        first_clear(&self.marks(newest, place)).min(most)
    }

    // Where a lower bound that becomes `from` comes to rest, with these values as holes. This and `step_down` are mirror images,
    // which share what tells the steps.
    pub fn step_up(self, newest: u16, upper: i32, from: i32) -> i32
        requires { has (values_of (chain_of self.updates newest)) upper ≡ true → upper <ℤ pos 2147483647 }
        ensures { result ≡ raised (values_of (chain_of self.updates newest)) upper from }
    {
        let steps = self.steps(
            newest,
            span(from, upper),
            |value| integers::ahead::<WINDOW>(from, value),
        );
        from + steps as i32
    }

    // Where an upper bound that becomes `from` comes to rest.
    pub fn step_down(self, newest: u16, lower: i32, from: i32) -> i32
        requires { has (values_of (chain_of self.updates newest)) lower ≡ true → negsuc 2147483647 <ℤ lower }
        ensures { result ≡ lowered (values_of (chain_of self.updates newest)) lower from }
    {
        let steps = self.steps(
            newest,
            span(lower, from),
            |value| integers::ahead::<WINDOW>(value, from),
        );
        from - steps as i32
    }
}

// How many values there are from `from` up to `to`, as a number of steps. Bounds made only to be asked for their width would be
// no plainer.
fn span(from: i32, to: i32) -> usize
    ensures { result ≡ width from to }
{
    if to < from {
        return 0;
    }
    integers::abs_diff(from, to) as usize + 1
}

// The first mark that is clear; 1,024 where none is.
fn first_clear(marks: &[bool; WINDOW]) -> usize
    ensures { FirstClear marks.now result }
{
    marks.iter().position(|mark| !*mark).unwrap_or(WINDOW)
}
