// What the questions read of a store: a variable's record, and its bounds at a position. All but `find` take any content.
ghost use Rattle.std.specs.Prelude.{◌≡◌, ◌≤◌};
ghost use Rattle.questions.specs.Parts.{found_in, lower_at, upper_at, bounds_at};

use domains::Bounds;
use pools::Pool;
use predicates::{DomainId, TrailPosition};
use stores::Variable;
use stories::Refusal;

// The record of a variable. Here refusal 1 is decided, before the number is used for anything else.
pub fn find(
    variables: &[Variable; 256],
    domains: usize,
    domain: DomainId,
) -> Result<Variable, Refusal>
    requires { domains ≤ 256 }
    ensures { result ≡ found_in variables.now domains domain.0 }
{
    let id = domain.0 as usize;
    if domains <= id {
        Err(Refusal::NoVariable)
    } else {
        Ok(variables[id])
    }
}

// The bound of the newest lower update at or before `position`, and with none the initial one.
pub fn lower_at(lower: Pool, variable: Variable, position: TrailPosition) -> i32
    ensures { result ≡ lower_at lower variable position.0 }
{
    lower.value_at(variable.lower, position, variable.initial.lower)
}

// The same of the upper updates: of the variable's other link and other initial bound, so no parameter tells the two apart.
pub fn upper_at(upper: Pool, variable: Variable, position: TrailPosition) -> i32
    ensures { result ≡ upper_at upper variable position.0 }
{
    upper.value_at(variable.upper, position, variable.initial.upper)
}

pub fn bounds_at(lower: Pool, upper: Pool, variable: Variable, position: TrailPosition) -> Bounds
    ensures { result ≡ bounds_at lower upper variable position.0 }
{
    Bounds {
        lower: lower_at(lower, variable, position),
        upper: upper_at(upper, variable, position),
    }
}
