// A variable's domain as the store keeps it, now or at a position of the trail, and what it tells. The hole pool is lent, so that a
// host that holds a store asks without copying it. What walks the pool is always inlined, so that a question about a store handed on by
// value copies no more of it than the pool. Takes any content.
ghost use Rattle.std.specs.Prelude.{◌≡◌};
ghost use Rattle.domains.specs.Domain.{Domain, has, member};
ghost use Rattle.questions.specs.Parts.{bounds_at, within, holes_in, holes_at, holes_until};
ghost use Rattle.stories.specs.Questions.{is_one, assigned_value, truth, left_of};

use crate::parts::bounds_at;
use domains::Bounds;
use pools::Pool;
use predicates::{PredicateType, TrailPosition};
use std::marker::Model;
use stores::Variable;

// The bounds, and the variable's holes in the pool: those that were made up to the position, or with none all of them.
#[derive(Drop)]
pub struct SeenDomain<'a> {
    bounds: Bounds,
    pool: &'a Pool,
    newest: u16,
    position: Option<TrailPosition>,
}

impl<'a> Model for SeenDomain<'a> {
    ghost Value = { Domain };

    ghost view = { λ d. within d.bounds (holes_until d.pool.now d.newest d.position) };
}

impl<'a> SeenDomain<'a> {
    pub fn now(holes: &'a Pool, variable: Variable) -> Self
        ensures { result ≡ within variable.bounds (holes_in holes.now variable.holes) }
    {
        SeenDomain {
            bounds: variable.bounds,
            pool: holes,
            newest: variable.holes,
            position: None,
        }
    }

    pub fn at(
        lower: Pool,
        upper: Pool,
        holes: &'a Pool,
        variable: Variable,
        position: TrailPosition,
    ) -> Self
        ensures { result ≡ within (bounds_at lower upper variable position.0) (holes_at holes.now variable.holes position.0) }
    {
        SeenDomain {
            bounds: bounds_at(lower, upper, variable, position),
            pool: holes,
            newest: variable.holes,
            position: Some(position),
        }
    }

    fn is_hole(&self, value: i32) -> bool
        ensures { result ≡ has self.now.holes value }
    {
        match self.position {
            None => self.pool.contains(self.newest, value),
            Some(position) => self.pool.contains_at(self.newest, position, value),
        }
    }

    // Whether `value` is within the bounds and no hole.
    #[inline(always)]
    pub fn contains(&self, value: i32) -> bool
        ensures { result ≡ member self.now value }
    {
        let Bounds { lower, upper } = self.bounds;
        lower <= value && value <= upper && !self.is_hole(value)
    }

    // Whether the bounds are one value.
    pub fn is_assigned(&self) -> bool
        ensures { result ≡ is_one self.now }
    {
        self.bounds.lower == self.bounds.upper
    }

    // That value.
    pub fn assigned_value(&self) -> Option<i32>
        ensures { result ≡ assigned_value self.now }
    {
        if self.is_assigned() {
            Some(self.bounds.lower)
        } else {
            None
        }
    }

    // "At least" and "at most" are mirror images and differ in every test, so one function for both is no plainer.
    fn at_least(&self, value: i32) -> Option<bool>
        ensures { result ≡ truth PredicateType.LowerBound value self.now }
    {
        if value <= self.bounds.lower { // first, so that it decides where no value is left
            Some(true)
        } else if self.bounds.upper < value {
            Some(false)
        } else {
            None
        }
    }

    fn at_most(&self, value: i32) -> Option<bool>
        ensures { result ≡ truth PredicateType.UpperBound value self.now }
    {
        if self.bounds.upper <= value {
            Some(true)
        } else if value < self.bounds.lower { // a value that is left is above v
            Some(false)
        } else {
            None
        }
    }

    fn equal(&self, value: i32) -> Option<bool>
        ensures { result ≡ truth PredicateType.Equal value self.now }
    {
        if !self.contains(value) {
            Some(false) // and so it is where no value is left
        } else if self.is_assigned() {
            Some(true)
        } else {
            None
        }
    }

    // "Not v" is true where "equal v" is false, and false where that is true.
    fn unequal(&self, value: i32) -> Option<bool>
        ensures { result ≡ truth PredicateType.NotEqual value self.now }
    {
        self.equal(value).map(|equal| !equal)
    }

    // Whether a predicate of this kind and value is true or false, or neither.
    #[inline(always)]
    pub fn truth(&self, kind: PredicateType, value: i32) -> Option<bool>
        ensures { result ≡ truth kind value self.now }
    {
        match kind {
            PredicateType::LowerBound => self.at_least(value),
            PredicateType::NotEqual => self.unequal(value),
            PredicateType::Equal => self.equal(value),
            PredicateType::UpperBound => self.at_most(value),
        }
    }

    // How many values are left.
    pub fn left(&self) -> u64
        ensures { result ≡ left_of self.now }
    {
        if self.bounds.is_empty() {
            return 0;
        }
        let Bounds { lower, upper } = self.bounds;
        u64::from(integers::abs_diff(lower, upper)) + 1
    }
}
