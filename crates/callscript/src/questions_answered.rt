// The questions about one variable, answered: the call that each asks for, and the line that is printed.
ghost use Rattle.stores.specs.Made.{Made};

use crate::answers::{Answer, Printed, put_field};
use crate::questions_asked::Question;
use lines::Writer;
use predicates::DomainId;
use questions::{
    evaluate_predicate, evaluate_predicate_at_trail_position, get_assigned_value,
    get_assigned_value_at_trail_position, get_initial_lower_bound, get_initial_upper_bound,
    get_lower_bound, get_lower_bound_at_trail_position, get_upper_bound,
    get_upper_bound_at_trail_position, is_domain_assigned, is_domain_assigned_at_trail_position,
    is_predicate_falsified, is_predicate_satisfied, is_value_in_domain,
    is_value_in_domain_at_trail_position, left,
};
use stores::Assignments;
use stories::Refusal;

// Prints the store's answer.
pub fn answer_question(answer: Answer<'_, '_>, store: &Assignments, question: Question)
    requires { Made store.now }
{
    match question {
        Question::Lower(domain) => answer.put(get_lower_bound(*store, domain)),
        Question::Upper(domain) => answer.put(get_upper_bound(*store, domain)),
        Question::InitialLower(domain) => answer.put(get_initial_lower_bound(*store, domain)),
        Question::InitialUpper(domain) => answer.put(get_initial_upper_bound(*store, domain)),
        Question::Assigned(domain) => answer.put(is_domain_assigned(*store, domain)),
        Question::Value(domain) => answer.put_or(get_assigned_value(*store, domain), b"none"),
        Question::Show(domain) => answer.put(show(store, domain)),
        Question::LowerAt(position, domain) => {
            answer.put(get_lower_bound_at_trail_position(*store, domain, position))
        }
        Question::UpperAt(position, domain) => {
            answer.put(get_upper_bound_at_trail_position(*store, domain, position))
        }
        Question::AssignedAt(position, domain) => {
            answer.put(is_domain_assigned_at_trail_position(*store, domain, position))
        }
        Question::ValueAt(position, domain) => {
            let value = get_assigned_value_at_trail_position(*store, domain, position);
            answer.put_or(value, b"none")
        }
        Question::Contains(domain, value) => answer.put(is_value_in_domain(*store, domain, value)),
        Question::ContainsAt(position, domain, value) => {
            answer.put(is_value_in_domain_at_trail_position(*store, domain, value, position))
        }
        Question::Truth(predicate) => answer.put_or(evaluate_predicate(*store, predicate), b"open"),
        Question::Satisfied(predicate) => answer.put(is_predicate_satisfied(*store, predicate)),
        Question::Falsified(predicate) => answer.put(is_predicate_falsified(*store, predicate)),
        Question::TruthAt(position, predicate) => {
            let truth = evaluate_predicate_at_trail_position(*store, predicate, position);
            answer.put_or(truth, b"open")
        }
    }
}

// A variable's bounds, and how many values are left.
#[derive(Clone, Copy)]
struct Shown {
    lower: i32,
    upper: i32,
    left: u64,
}

fn show(store: &Assignments, domain: DomainId) -> Result<Shown, Refusal>
    requires { Made store.now }
{
    Ok(Shown {
        lower: get_lower_bound(*store, domain)?,
        upper: get_upper_bound(*store, domain)?,
        left: left(*store, domain)?,
    })
}

impl Printed for Shown {
    fn print(self, writer: &mut Writer<'_>) {
        self.lower.print(writer);
        put_field(writer, self.upper);
        put_field(writer, self.left);
    }
}
