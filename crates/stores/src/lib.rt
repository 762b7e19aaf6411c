// The store: its records, its capacities, a fresh one, and the answers of its calls. What each call does to it is said
// in specs/, and what every store obeys that calls made. Relies on predicates, domains and pools.
#![tactic(auto)]

ghost use Rattle.std.specs.Prelude.{◌≡◌, ◌<◌};
ghost use Rattle.stores.specs.Store.{no_variable, entered};
ghost use Rattle.stores.specs.Calls.{fresh, entry_answer};
ghost use Rattle.stores.specs.Made.{Made};

use domains::Bounds;
use pools::{Pool, Update};
use predicates::{Checkpoint, DomainId, Predicate, Reason, TrailPosition};
use stories::{Entry, Refusal};

// The entries, oldest first; what is past the length is blank. An array with its fill count, as is asked for by name.
#[derive(Clone, Copy)]
pub struct Trail {
    pub entries: [Entry; 1024],
    pub length: usize,
}

// A variable: its bounds now and at first, the links to its newest lower update, upper update and hole, and
// `initial_bounds_below_trail`, the last position of its creation.
#[derive(Clone, Copy)]
pub struct Variable {
    pub bounds: Bounds,
    pub initial: Bounds,
    pub lower: u16,
    pub upper: u16,
    pub holes: u16,
    pub mark: TrailPosition,
}

// The store. The delimiters are the trail's lengths at which the open checkpoints were opened. That calls made it, `Made`, is
// a premise of the calls and no invariant of the type: `num_trail_entries` and `get_pruned_value_count` take any store.
// Variables and delimiters stand beside their number: memory is fixed, and their places are read where they are.
#[derive(Clone, Copy)]
pub struct Assignments {
    pub trail: Trail,
    pub lower: Pool,
    pub upper: Pool,
    pub holes: Pool,
    pub variables: [Variable; 256],
    pub domains: usize,
    pub delimiters: [u16; 256],
    pub checkpoint: usize,
    pub pruned: u64,
}

impl Trail {
    // One entry more.
    pub fn push(&mut self, entry: Entry)
        requires { self.old.length < 1024 }
        ensures { self.new ≡ entered self.old entry }
    {
        self.entries[self.length] = entry;
        self.length += 1;
    }
}

impl Variable {
    pub fn blank() -> Self
        ensures { result ≡ no_variable }
    {
        let none = Bounds { lower: 0, upper: 0 };
        Variable {
            bounds: none,
            initial: none,
            lower: 0,
            upper: 0,
            holes: 0,
            mark: TrailPosition(0),
        }
    }
}

impl Assignments {
    pub const MAX_VARIABLES: usize = 256;

    pub const MAX_ENTRIES: usize = 1024;

    pub const MAX_CHECKPOINTS: usize = 256;

    // A fresh store: variable 0, which is 1.
    pub fn default() -> Self
        ensures { result ≡ fresh }
    {
        let one = Bounds { lower: 1, upper: 1 };
        let no_entry = Entry::blank();
        let mut entries = [no_entry; 1024];
        entries[0] = Entry {
            predicate: Predicate::lower_bound_predicate(DomainId(0), 1),
            old: one,
            reason: Reason::None,
        };
        entries[1] = Entry {
            predicate: Predicate::upper_bound_predicate(DomainId(0), 1),
            old: one,
            reason: Reason::None,
        };
        let trail = Trail { entries, length: 2 };
        let holes = Pool::empty();
        let lower = holes.push(Update {
            value: 1,
            position: TrailPosition(0),
            previous: 0,
        });
        let upper = holes.push(Update {
            value: 1,
            position: TrailPosition(1),
            previous: 0,
        });
        let no_variable = Variable::blank();
        let mut variables = [no_variable; 256];
        variables[0] = Variable {
            bounds: one,
            initial: one,
            lower: 1,
            upper: 1,
            holes: 0,
            mark: TrailPosition(1),
        };
        Assignments {
            trail,
            lower,
            upper,
            holes,
            variables,
            domains: 1,
            delimiters: [0u16; 256],
            checkpoint: 0,
            pruned: 0,
        }
    }

    pub fn get_checkpoint(self) -> Checkpoint
        requires { Made self }
        ensures { result.0 ≡ self.checkpoint }
    {
        Checkpoint(self.checkpoint as u16)
    }

    pub fn num_domains(self) -> u32
        requires { Made self }
        ensures { result ≡ self.domains }
    {
        self.domains as u32
    }

    pub fn num_trail_entries(self) -> usize
        ensures { result ≡ self.trail.length }
    {
        self.trail.length
    }

    pub fn get_trail_entry(self, position: TrailPosition) -> Result<Entry, Refusal>
        requires { Made self }
        ensures { result ≡ entry_answer self position.0 }
    {
        let at = position.0 as usize;
        let trail = self.trail;
        if trail.length <= at {
            return Err(Refusal::NoSuchEntry);
        }
        Ok(trail.entries[at])
    }

    pub fn get_pruned_value_count(self) -> u64
        ensures { result ≡ self.pruned }
    {
        self.pruned
    }
}

// What a call gives back: the store after it, and what it answers.
#[derive(Clone, Copy)]
pub struct Called<T> {
    pub store: Assignments,
    pub answer: Result<T, Refusal>,
}
