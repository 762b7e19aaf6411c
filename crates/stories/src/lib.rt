// What is told of a store: an entry of its trail, and why a call is refused. The story that these make up, what each call does to it
// and answers, and what is promised of it are in specs/: a reader believes that and nothing below it. A call answers a `Result` whose
// error is the refusal; a post `Ok(true)` where it changed the domain.
// Relies on predicates and domains.
#![tactic(auto)]

ghost use Rattle.std.specs.Prelude.{◌≡◌};
ghost use Rattle.stories.specs.Refusals.{number_of};
ghost use Rattle.stories.specs.Story.{no_entry};

use domains::Bounds;
use predicates::{DomainId, Predicate, Reason};

// A predicate and why it is posted.
#[derive(Clone, Copy)]
pub struct Post {
    pub predicate: Predicate,
    pub reason: Reason,
}

// What happened: a predicate, the variable's bounds before it, and why.
#[derive(Clone, Copy)]
pub struct Entry {
    pub predicate: Predicate,
    pub old: Bounds,
    pub reason: Reason,
}

impl Entry {
    // What stands at a place of the trail that holds no entry.
    pub fn blank() -> Self
        ensures { result ≡ no_entry }
    {
        Entry {
            predicate: Predicate::lower_bound_predicate(DomainId(0), 0),
            old: Bounds { lower: 0, upper: 0 },
            reason: Reason::None,
        }
    }
}

// Why a call was refused.
#[derive(Clone, Copy, Debug, PartialEq, Eq)]
pub enum Refusal {
    NoVariable,
    NotRoot,
    BadDomain,
    TooManyVariables,
    TrailFull,
    StepOverflow,
    Empty,
    TooManyCheckpoints,
    NotLower,
    NoRoom,
    NoSuchEntry,
    NoDecision,
    NoReason,
}

impl Refusal {
    // The number by which the rules name it.
    pub fn number(self) -> u8
        ensures { result ≡ number_of self }
    {
        match self {
            Refusal::NoVariable => 1,
            Refusal::NotRoot => 2,
            Refusal::BadDomain => 3,
            Refusal::TooManyVariables => 4,
            Refusal::TrailFull => 5,
            Refusal::StepOverflow => 6,
            Refusal::Empty => 7,
            Refusal::TooManyCheckpoints => 8,
            Refusal::NotLower => 9,
            Refusal::NoRoom => 10,
            Refusal::NoSuchEntry => 11,
            Refusal::NoDecision => 12,
            Refusal::NoReason => 13,
        }
    }
}
