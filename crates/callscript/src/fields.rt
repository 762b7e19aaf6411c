// The fields of a line, taken one after the other, each as what the command wants it to spell. Apart from `commands`, so that a
// mistake in what the driver reads is not in both programs.
ghost use Rattle.std.specs.Prelude.{◌≡◌, [], ◌∷◌, MatchOption};
ghost use Rattle.lines.specs.Fields.{fields, fields_behind};

use crate::list_values::Values;
use lines::first_field;
use predicates::{Checkpoint, DomainId, Predicate, PredicateType, Reason, TrailPosition};

// The most places that a line can lend; `back` lends as many.
pub const MOST_ROOM: usize = 1024;

// What stands behind the fields that were taken, if anything does.
#[derive(Drop)]
pub struct Fields<'a> {
    rest: Option<&'a [u8]>,
}

impl<'a> Fields<'a> {
    pub fn new(line: &'a [u8]) -> Self
        ensures { fields_behind result.rest ≡ fields line.now }
    {
        Fields { rest: Some(line) }
    }

    // The next field, if one is left.
    pub fn word(&mut self) -> Option<&'a [u8]>
        ensures { MatchOption result ((fields_behind self.old.rest ≡ []) × (fields_behind self.new.rest ≡ [])) (λ field. fields_behind self.old.rest ≡ field.now ∷ fields_behind self.new.rest) }
    {
        let (field, rest) = first_field(self.rest?);
        self.rest = rest;
        Some(field)
    }

    pub fn natural(&mut self) -> Option<u32> {
        lines::read_natural(self.word()?)
    }

    pub fn integer(&mut self) -> Option<i32> {
        lines::read_integer(self.word()?)
    }

    // All fields that are left, each a value.
    pub fn values(&mut self, values: &mut Values) -> Option<()> {
        values.clear();
        // Where there are more, there is no room for the last.
        for _ in 0..=Values::MOST {
            let Some(field) = self.word() else {
                return Some(());
            };
            values.push(lines::read_integer(field)?)?;
        }
        None
    }

    pub fn variable(&mut self) -> Option<DomainId> {
        self.natural().map(DomainId::new)
    }

    pub fn checkpoint(&mut self) -> Option<Checkpoint> {
        self.natural().map(Checkpoint::new)
    }

    pub fn position(&mut self) -> Option<TrailPosition> {
        self.natural().map(TrailPosition::new)
    }

    // Places that the line lends.
    pub fn room(&mut self) -> Option<usize> {
        let places = self.natural()? as usize;
        (places <= MOST_ROOM).then_some(places)
    }

    // Three fields: variable, operator and value.
    pub fn predicate(&mut self) -> Option<Predicate> {
        Some(Predicate {
            domain: self.variable()?,
            kind: self.operator()?,
            value: self.integer()?,
        })
    }

    fn operator(&mut self) -> Option<PredicateType> {
        match self.word()? {
            b"ge" => Some(PredicateType::LowerBound),
            b"le" => Some(PredicateType::UpperBound),
            b"ne" => Some(PredicateType::NotEqual),
            b"eq" => Some(PredicateType::Equal),
            _ => None,
        }
    }

    pub fn reason(&mut self) -> Option<Reason> {
        match self.word()? {
            b"-" => Some(Reason::None),
            number => lines::read_natural(number).map(Reason::Given),
        }
    }

    // That no field is left.
    pub fn end(&mut self) -> Option<()> {
        self.word().is_none().then_some(())
    }
}
