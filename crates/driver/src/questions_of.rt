// The questions of a line. Each is asked of a store that is lent, as the whole store is large.
ghost use Rattle.std.specs.Prelude.{◌≡◌};
ghost use Rattle.stores.specs.Made.{Made};
ghost use Rattle.stories.specs.Questions.{truth};
ghost use Rattle.questions.specs.Answers.{ask_now, ask_at};
ghost use Rattle.driver.specs.Lines.{shown, show_reply};

use predicates::{DomainId, Predicate, TrailPosition};
use questions::{SeenDomain, find};
use replies::{LineRefusal, Reply};
use stores::Assignments;
use stories::Refusal;

// `ask`
#[tactic(auto, using(questions::proofs::Asking::few), unfolding(stores::specs::Store::domain_of))]
pub fn ask(store: &Assignments, predicate: Predicate) -> Result<Option<bool>, Refusal>
    requires { Made store.now }
    ensures { result ≡ ask_now (truth predicate.kind predicate.value) store.now predicate.domain.0 }
{
    let variable = find(&store.variables, store.domains, predicate.domain)?;
    Ok(SeenDomain::now(&store.holes, variable).truth(predicate.kind, predicate.value))
}

// `at`
#[tactic(auto, using(questions::proofs::Asking::few), unfolding(stores::specs::Positions::domain_at))]
pub fn ask_at(
    store: &Assignments,
    predicate: Predicate,
    position: TrailPosition,
) -> Result<Option<bool>, Refusal>
    requires { Made store.now }
    ensures { result ≡ ask_at (truth predicate.kind predicate.value) store.now predicate.domain.0 position.0 }
{
    let variable = find(&store.variables, store.domains, predicate.domain)?;
    let seen = SeenDomain::at(store.lower, store.upper, &store.holes, variable, position);
    Ok(seen.truth(predicate.kind, predicate.value))
}

// `show`
#[tactic(auto, using(questions::proofs::Asking::few), unfolding(stores::specs::Store::domain_of))]
pub fn show(store: &Assignments, domain: DomainId) -> Result<Reply, LineRefusal>
    requires { Made store.now }
    ensures { result ≡ show_reply (ask_now shown store.now domain.0) }
{
    let variable = find(&store.variables, store.domains, domain)?;
    Ok(Reply::Shown {
        lower: variable.bounds.lower,
        upper: variable.bounds.upper,
        left: SeenDomain::now(&store.holes, variable).left(),
    })
}
