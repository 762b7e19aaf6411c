// What a post is made of: the three kinds of count, the kind of a predicate, the predicate, the reason.
// Relies on nothing.
#![tactic(auto)]

ghost use Rattle.std.specs.Prelude.{◌≡◌};
ghost use Rattle.predicates.specs.Codes.{code_of};
ghost use Rattle.predicates.specs.Counts.{counted};

// The three kinds of count are tuple structs of their own with a `new` each, as is asked for by name: one is never passed
// for another.

// A variable's number.
#[derive(Clone, Copy, PartialEq, Eq, Debug)]
pub struct DomainId(pub u16);

// A checkpoint's number; 0 is the root.
#[derive(Clone, Copy, PartialEq, Eq, Debug)]
pub struct Checkpoint(pub u16);

// A place on the trail.
#[derive(Clone, Copy, PartialEq, Eq, Debug)]
pub struct TrailPosition(pub u16);

// The number, or the last of 16 bits for all that don't fit.
fn clipped(number: u32) -> u16
    ensures { result ≡ counted number }
{
    u16::try_from(number).unwrap_or(u16::MAX)
}

impl DomainId {
    pub fn new(number: u32) -> Self
        ensures { result.0 ≡ counted number }
    {
        DomainId(clipped(number))
    }
}

impl Checkpoint {
    pub fn new(number: u32) -> Self
        ensures { result.0 ≡ counted number }
    {
        Checkpoint(clipped(number))
    }
}

impl TrailPosition {
    pub fn new(number: u32) -> Self
        ensures { result.0 ≡ counted number }
    {
        TrailPosition(clipped(number))
    }
}

// The four kinds; a value of this type has no fifth code. The codes are associated constants and the predicates have a
// constructor for each kind, as is asked for by name.
#[derive(Clone, Copy, PartialEq, Eq, Debug)]
pub enum PredicateType {
    LowerBound,
    NotEqual,
    Equal,
    UpperBound,
}

impl PredicateType {
    pub const LOWER_BOUND_CODE: u8 = 0;

    pub const NOT_EQUAL_CODE: u8 = 1;

    pub const EQUAL_CODE: u8 = 2;

    pub const UPPER_BOUND_CODE: u8 = 3;

    pub fn code(self) -> u8
        ensures { result ≡ code_of self }
    {
        match self {
            PredicateType::LowerBound => PredicateType::LOWER_BOUND_CODE,
            PredicateType::NotEqual => PredicateType::NOT_EQUAL_CODE,
            PredicateType::Equal => PredicateType::EQUAL_CODE,
            PredicateType::UpperBound => PredicateType::UPPER_BOUND_CODE,
        }
    }
}

// A claim about one variable: at least, not, equal to or at most `value`.
#[derive(Clone, Copy, PartialEq, Eq, Debug)]
pub struct Predicate {
    pub domain: DomainId,
    pub kind: PredicateType,
    pub value: i32,
}

impl Predicate {
    pub fn lower_bound_predicate(domain: DomainId, bound: i32) -> Self
        ensures { result ≡ record { domain = domain; kind = PredicateType.LowerBound; value = bound } }
    {
        Predicate {
            domain,
            kind: PredicateType::LowerBound,
            value: bound,
        }
    }

    pub fn disequality_predicate(domain: DomainId, bound: i32) -> Self
        ensures { result ≡ record { domain = domain; kind = PredicateType.NotEqual; value = bound } }
    {
        Predicate {
            domain,
            kind: PredicateType::NotEqual,
            value: bound,
        }
    }

    pub fn equality_predicate(domain: DomainId, bound: i32) -> Self
        ensures { result ≡ record { domain = domain; kind = PredicateType.Equal; value = bound } }
    {
        Predicate {
            domain,
            kind: PredicateType::Equal,
            value: bound,
        }
    }

    pub fn upper_bound_predicate(domain: DomainId, bound: i32) -> Self
        ensures { result ≡ record { domain = domain; kind = PredicateType.UpperBound; value = bound } }
    {
        Predicate {
            domain,
            kind: PredicateType::UpperBound,
            value: bound,
        }
    }
}

// Why an entry is on the trail: nothing, or the number that the host gave. A reason enum and no `Option`, as is asked for
// by name.
#[derive(Clone, Copy, PartialEq, Eq, Debug)]
pub enum Reason {
    None,
    Given(u32),
}
