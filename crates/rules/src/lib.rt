// What a post comes to, decided on small values before anything is recorded: the four ways in which Pumpkin changes a
// domain. Relies on integers, predicates, domains and pools; the store is not known here.
#![tactic(auto)]

ghost use Rattle.std.specs.Prelude.{◌≡◌, ◌||◌, true, ◌<ℤ◌};
ghost use Rattle.integers.specs.Integers.{eq_z};
ghost use Rattle.domains.specs.Domain.{Domain, has, raised, lowered, step_of};
ghost use Rattle.domains.specs.Limits.{first, last};
ghost use Rattle.rules.specs.Sound.{domain_in, Sound};

use domains::{Bounds, Step};
use pools::Pool;
use predicates::PredicateType;
use std::marker::Model;

// A variable's domain as the store keeps it: its bounds, and its holes, which the pool has from the newest back. The bounds
// are the least and the greatest value left.
#[derive(Drop)]
pub struct StoredDomain {
    holes: Pool,
    newest: u16,
    bounds: Bounds,
}

impl Model for StoredDomain {
    ghost Value = { Domain };

    ghost view = { λ d. domain_in d.holes d.newest d.bounds };

    ghost invariant = { λ d. Sound (domain_in d.holes d.newest d.bounds) };
}

impl StoredDomain {
    pub fn new(holes: Pool, newest: u16, bounds: Bounds) -> Self
        requires { Sound (domain_in holes newest bounds) }
        ensures { result ≡ domain_in holes newest bounds }
    {
        StoredDomain {
            holes,
            newest,
            bounds,
        }
    }

    // Where the lower bound comes to rest if it becomes `value`, which may be a hole.
    fn raised(&self, value: i32) -> i32
        ensures { result ≡ raised self.now.holes self.now.upper value }
    {
        self.holes.step_up(self.newest, self.bounds.upper, value)
    }

    // Where the upper bound comes to rest above `lower` if it becomes `value`, which may be a hole.
    fn lowered(&self, lower: i32, value: i32) -> i32
        requires { has self.now.holes lower ≡ true → first <ℤ lower }
        ensures { result ≡ lowered self.now.holes lower value }
    {
        self.holes.step_down(self.newest, lower, value)
    }

    // The four ways have the Rust's names. The two that tighten a bound are mirror images, which differ in every step.
    fn tighten_lower_bound(&self, value: i32) -> Step
        ensures { result ≡ step_of PredicateType.LowerBound value self.now }
    {
        let Bounds { lower, upper } = self.bounds;
        if lower < value {
            return Step::Moves(Bounds {
                lower: self.raised(value), // `value` may be a hole
                upper,
            });
        }
        Step::Nothing
    }

    fn tighten_upper_bound(&self, value: i32) -> Step
        ensures { result ≡ step_of PredicateType.UpperBound value self.now }
    {
        let Bounds { lower, upper } = self.bounds;
        if value < upper {
            return Step::Moves(Bounds {
                lower,
                upper: self.lowered(lower, value), // `value` may be a hole
            });
        }
        Step::Nothing
    }

    // Raises the lower bound first, so that the upper bound is lowered no further than to where that came to rest.
    fn make_assignment(&self, value: i32) -> Step
        ensures { result ≡ step_of PredicateType.Equal value self.now }
    {
        let Bounds { lower, upper } = self.bounds;
        if lower < value {
            let raised = self.raised(value);
            if value < upper {
                return Step::Moves(Bounds {
                    lower: raised,
                    upper: self.lowered(raised, value),
                });
            }
            return Step::Moves(Bounds {
                lower: raised,
                upper,
            });
        }
        if value < upper {
            return Step::Moves(Bounds {
                lower,
                upper: self.lowered(lower, value),
            });
        }
        Step::Nothing
    }

    // Each bound that is the value steps away from it. Where both are, they pass each other, and there is no i32 past the
    // first or the last.
    fn remove_value_from_domain(&self, value: i32) -> Step
        ensures { result ≡ step_of PredicateType.NotEqual value self.now }
    {
        let Bounds { lower, upper } = self.bounds;
        if value < lower || upper < value || self.holes.contains(self.newest, value) {
            return Step::Nothing;
        }
        match (value == lower, value == upper) {
            (true, true) if is_outermost(value) => Step::Overflows,
            (true, true) => Step::Moves(Bounds {
                lower: value + 1,
                upper: value - 1,
            }),
            (true, false) => Step::Moves(Bounds {
                lower: self.raised(value + 1),
                upper,
            }),
            (false, true) => Step::Moves(Bounds {
                lower,
                upper: self.lowered(lower, value - 1),
            }),
            (false, false) => Step::Moves(self.bounds),
        }
    }

    // What a post of this kind and value comes to.
    pub fn step(&self, kind: PredicateType, value: i32) -> Step
        ensures { result ≡ step_of kind value self.now }
    {
        match kind {
            PredicateType::LowerBound => self.tighten_lower_bound(value),
            PredicateType::NotEqual => self.remove_value_from_domain(value),
            PredicateType::Equal => self.make_assignment(value),
            PredicateType::UpperBound => self.tighten_upper_bound(value),
        }
    }
}

// Whether it is the first or the last i32, so that there is none past it.
fn is_outermost(value: i32) -> bool
    ensures { result ≡ (eq_z value last || eq_z value first) }
{
    value == i32::MAX || value == i32::MIN
}
