// The parts of a command that are more than a number: a kind, a reason, and the three fields of a predicate.
ghost use Rattle.std.specs.Prelude.{◌≡◌};
ghost use Rattle.lines.specs.Fields.{fields};
ghost use Rattle.commands.specs.Parts.{predicate_of, read_kind, read_reason, claim_at};

use lines::{field, read_integer, read_natural};
use predicates::{DomainId, Predicate, PredicateType, Reason};

// A predicate as its three fields spell it: the variable still has its whole number.
#[derive(Clone, Copy)]
pub struct Claim {
    pub id: u32,
    pub kind: PredicateType,
    pub value: i32,
}

// The claimed predicate: no store has a variable past the last number of 16 bits, so all numbers past it become that one.
impl From<Claim> for Predicate {
    ghost from_gives = { λ claim predicate. predicate ≡ predicate_of claim };

    fn from(claim: Claim) -> Self {
        Predicate {
            domain: DomainId::new(claim.id),
            kind: claim.kind,
            value: claim.value,
        }
    }
}

// The kind whose word the field is.
fn read_kind(field: &[u8]) -> Option<PredicateType>
    ensures { result ≡ read_kind field.now }
{
    match field {
        b"ge" => Some(PredicateType::LowerBound),
        b"ne" => Some(PredicateType::NotEqual),
        b"eq" => Some(PredicateType::Equal),
        b"le" => Some(PredicateType::UpperBound),
        _ => None,
    }
}

// The reason that the field spells: `-` for none, or a number.
pub fn read_reason(field: &[u8]) -> Option<Reason>
    ensures { result ≡ read_reason field.now }
{
    match field {
        b"-" => Some(Reason::None),
        _ => Some(Reason::Given(read_natural(field)?)),
    }
}

// The predicate that three fields of the line spell, each given by its place, so that no sum of places can pass the last one.
pub fn read_claim(line: &[u8], first: usize, second: usize, third: usize) -> Option<Claim>
    ensures { result ≡ claim_at (fields line.now) first second third }
{
    let id = read_natural(field(line, first))?;
    let kind = read_kind(field(line, second))?;
    let value = read_integer(field(line, third))?;
    Some(Claim { id, kind, value })
}
