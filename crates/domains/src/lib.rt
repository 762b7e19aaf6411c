// What a post makes of a variable's bounds, and what it adds to the count. The meaning is in specs/: Domain.antt has the
// rules, Promises.antt what is promised of them. Relies on integers and predicates.
#![tactic(auto)]

ghost use Rattle.std.specs.Prelude.{◌≡◌};
ghost use Rattle.std.specs.Int.Signed.{lt_z};
ghost use Rattle.domains.specs.Domain.{is_not_equal, pruned_by};

use predicates::PredicateType;

// The least and the greatest value that may be left; none is left where lower > upper.
#[derive(Clone, Copy, PartialEq, Eq, Debug)]
pub struct Bounds {
    pub lower: i32,
    pub upper: i32,
}

impl Bounds {
    // Whether no value is left.
    pub fn is_empty(self) -> bool
        ensures { result ≡ lt_z self.upper self.lower }
    {
        self.upper < self.lower
    }
}

// What a post comes to, before anything is recorded: three cases, as `step_of` has them.
#[derive(Clone, Copy, PartialEq, Eq, Debug)]
pub enum Step {
    // It does nothing.
    Nothing,
    // It removes the only value left, and that is the first or the last i32.
    Overflows,
    // It makes an entry, and these are the bounds then.
    Moves(Bounds),
}

// By the Rust's name.
pub fn is_not_equal_predicate(kind: PredicateType) -> bool
    ensures { result ≡ is_not_equal kind }
{
    kind == PredicateType::NotEqual
}

// What an entry adds to the count, and its undoing takes from it.
pub fn pruned(kind: PredicateType, from: Bounds, to: Bounds) -> u64
    ensures { result ≡ pruned_by kind from to }
{
    let below = u64::from(integers::abs_diff(from.lower, to.lower));
    let above = u64::from(integers::abs_diff(from.upper, to.upper));
    let moved = below + above;
    if moved == 0 && is_not_equal_predicate(kind) {
        return 1;
    }
    moved
}
