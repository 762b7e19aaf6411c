// The questions about one variable (docs/CALLS.md, "Questions", and RULES.md's `ask`, `at` and `show`), as lines ask them.
use crate::fields::Fields;
use predicates::{DomainId, Predicate, TrailPosition};

// A question about a variable now, at its creation, or at a position of the trail.
#[derive(Clone, Copy)]
pub enum Question {
    Lower(DomainId),
    Upper(DomainId),
    InitialLower(DomainId),
    InitialUpper(DomainId),
    Assigned(DomainId),
    Value(DomainId),
    Show(DomainId),
    LowerAt(TrailPosition, DomainId),
    UpperAt(TrailPosition, DomainId),
    AssignedAt(TrailPosition, DomainId),
    ValueAt(TrailPosition, DomainId),
    Contains(DomainId, i32),
    ContainsAt(TrailPosition, DomainId, i32),
    Truth(Predicate),
    Satisfied(Predicate),
    Falsified(Predicate),
    TruthAt(TrailPosition, Predicate),
}

// The question of that name, about what its fields spell.
pub fn read_question(name: &[u8], fields: &mut Fields<'_>) -> Option<Question> {
    let question = match name {
        b"get_lower_bound" => Question::Lower(fields.variable()?),
        b"get_upper_bound" => Question::Upper(fields.variable()?),
        b"get_initial_lower_bound" => Question::InitialLower(fields.variable()?),
        b"get_initial_upper_bound" => Question::InitialUpper(fields.variable()?),
        b"is_domain_assigned" => Question::Assigned(fields.variable()?),
        b"get_assigned_value" => Question::Value(fields.variable()?),
        b"show" => Question::Show(fields.variable()?),
        b"is_value_in_domain" => Question::Contains(fields.variable()?, fields.integer()?),
        b"ask" => Question::Truth(fields.predicate()?),
        b"is_predicate_satisfied" => Question::Satisfied(fields.predicate()?),
        b"is_predicate_falsified" => Question::Falsified(fields.predicate()?),
        _ => read_question_at(name, fields)?,
    };
    Some(question)
}

// A question at a position, which is its first field.
fn read_question_at(name: &[u8], fields: &mut Fields<'_>) -> Option<Question> {
    let position = fields.position()?;
    let question = match name {
        b"get_lower_bound_at_trail_position" => Question::LowerAt(position, fields.variable()?),
        b"get_upper_bound_at_trail_position" => Question::UpperAt(position, fields.variable()?),
        b"is_domain_assigned_at_trail_position" => {
            Question::AssignedAt(position, fields.variable()?)
        }
        b"get_assigned_value_at_trail_position" => Question::ValueAt(position, fields.variable()?),
        b"is_value_in_domain_at_trail_position" => {
            Question::ContainsAt(position, fields.variable()?, fields.integer()?)
        }
        b"at" => Question::TruthAt(position, fields.predicate()?),
        _ => return None,
    };
    Some(question)
}
