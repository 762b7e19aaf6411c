// The whole state in lines, as the store keeps it (docs/CALLS.md, "The state").
ghost use Rattle.std.specs.Prelude.{◌≤◌};

use crate::answers::{EntryFields, Printed, put_field};
use lines::Writer;
use pools::{Pool, Update};
use predicates::TrailPosition;
use std::iter::Rev;
use std::slice;
use stores::{Assignments, Variable};

// How many places a trail and a pool have.
const PLACES: usize = 1024;

// All lines of the state.
pub fn put_state(writer: &mut Writer<'_>, store: &Assignments) {
    put_checkpoints(writer, store);
    writer.put_bytes(b"count");
    put_field(writer, store.pruned);
    writer.put_byte(b'\n');
    put_entries(writer, store);
    let positions = Positions::of(store);
    for (number, variable) in store.variables.iter().take(store.domains).enumerate() {
        let listed = Listed {
            number,
            variable,
            store,
            positions: &positions,
        };
        listed.put(writer);
    }
}

// The current checkpoint, and the trail's length at the opening of each.
fn put_checkpoints(writer: &mut Writer<'_>, store: &Assignments) {
    let checkpoint = store.checkpoint;
    writer.put_bytes(b"checkpoint");
    put_field(writer, checkpoint);
    for delimiter in store.delimiters.iter().take(checkpoint) {
        put_field(writer, *delimiter);
    }
    writer.put_byte(b'\n');
}

fn put_entries(writer: &mut Writer<'_>, store: &Assignments) {
    let trail = &store.trail;
    for (position, entry) in trail.entries.iter().take(trail.length).enumerate() {
        writer.put_bytes(b"entry");
        put_field(writer, position);
        put_field(writer, EntryFields(*entry));
        writer.put_byte(b'\n');
    }
}

// What is asked of the position of each update: the checkpoint at which its entry was made, and which bounds the entry moved. It is
// told of all positions at once, as asking the store for each update takes as long as the store is large.
#[derive(Drop)]
struct Positions {
    checkpoints: [u16; PLACES],
    lower: [bool; PLACES],
    upper: [bool; PLACES],
}

impl Positions {
    fn of(store: &Assignments) -> Self {
        Positions {
            checkpoints: checkpoints(store),
            lower: moved(&store.lower),
            upper: moved(&store.upper),
        }
    }
}

// The checkpoint at which the entry of each position was made: as many as had been opened before it.
fn checkpoints(store: &Assignments) -> [u16; PLACES] {
    let mut opened = [0; PLACES];
    for delimiter in store.delimiters.iter().take(store.checkpoint) {
        if let Some(place) = opened.get_mut(usize::from(*delimiter)) {
            *place = u16::saturating_add(*place, 1);
        }
    }
    let mut before = 0;
    for place in &mut opened {
        before = u16::saturating_add(before, *place);
        *place = before;
    }
    opened
}

// The positions of a pool's updates. An entry belongs to one variable, so a position tells the variable too.
fn moved(pool: &Pool) -> [bool; PLACES] {
    let mut marks = [false; PLACES];
    for update in pool.updates.iter().take(pool.length) {
        if let Some(mark) = marks.get_mut(usize::from(update.position.0)) {
            *mark = true;
        }
    }
    marks
}

// A variable of the store, with its number.
#[derive(Clone, Copy)]
struct Listed<'a> {
    number: usize,
    variable: &'a Variable,
    store: &'a Assignments,
    positions: &'a Positions,
}

impl Listed<'_> {
    // The variable's line, which has its bounds now and its initial mark, and the lines of its histories.
    fn put(self, writer: &mut Writer<'_>) {
        let variable = self.variable;
        self.begin(writer, b"variable");
        put_field(writer, variable.bounds.lower);
        put_field(writer, variable.bounds.upper);
        put_field(writer, variable.mark.0);
        writer.put_byte(b'\n');
        let store = self.store;
        self.put_updates(writer, b"lower", &store.lower, variable.lower);
        self.put_updates(writer, b"upper", &store.upper, variable.upper);
        let holes = Chain::of(&store.holes, variable.holes);
        self.put_holes(writer, &holes);
        self.put_initial_holes(writer, &holes);
    }

    // The word of a line, and the variable's number.
    fn begin(self, writer: &mut Writer<'_>, word: &[u8]) {
        writer.put_bytes(word);
        put_field(writer, self.number);
    }

    // The fields of an update: the value, the checkpoint at which it was made, and the position.
    fn put_update(self, writer: &mut Writer<'_>, update: &Update) {
        let position = update.position.0;
        let checkpoint = self.positions.checkpoints.get(usize::from(position));
        put_field(writer, update.value);
        put_field(writer, checkpoint.copied().unwrap_or(0));
        put_field(writer, position);
    }

    // The updates of one bound, oldest first.
    fn put_updates(self, writer: &mut Writer<'_>, word: &[u8], pool: &Pool, newest: u16) {
        for update in Chain::of(pool, newest).oldest_first() {
            self.begin(writer, word);
            self.put_update(writer, update);
            writer.put_byte(b'\n');
        }
    }

    // The holes, in the order of their removal.
    fn put_holes(self, writer: &mut Writer<'_>, holes: &Chain) {
        for hole in holes.oldest_first() {
            self.begin(writer, b"hole");
            self.put_update(writer, hole);
            put_flag(writer, &self.positions.lower, hole.position);
            put_flag(writer, &self.positions.upper, hole.position);
            writer.put_byte(b'\n');
        }
    }

    // The holes that creation made, which are at positions up to the mark, rising as they were removed. Without any there is no line.
    fn put_initial_holes(self, writer: &mut Writer<'_>, holes: &Chain) {
        let mark = self.variable.mark.0;
        if !holes.oldest_first().any(|hole| hole.position.0 <= mark) {
            return;
        }
        self.begin(writer, b"initial");
        for hole in holes.oldest_first().filter(|hole| hole.position.0 <= mark) {
            put_field(writer, hole.value);
        }
        writer.put_byte(b'\n');
    }
}

// 1 for a position that is marked, else 0.
fn put_flag(writer: &mut Writer<'_>, marks: &[bool; PLACES], position: TrailPosition) {
    let mark = marks.get(usize::from(position.0)).copied().unwrap_or(false);
    put_field(writer, u8::from(mark));
}

// A variable's own updates, newest first.
#[derive(Clone, Copy)]
struct Chain {
    updates: [Update; 1024],
    count: usize,
    ghost kept: { count ≤ 1024 },
}

impl Chain {
    // The updates that a link leads to. Links lead down, so they are no more than a pool has. It follows them
    // by itself: a fault in the walk of pools is then not in what is printed of it.
    fn of(pool: &Pool, newest: u16) -> Self {
        let mut updates = [Update::blank(); 1024];
        let mut count = 0;
        let mut link = usize::from(newest);
        for place in &mut updates {
            let Some(update) = link.checked_sub(1).and_then(|at| pool.updates.get(at)) else {
                break;
            };
            *place = *update;
            count += 1;
            link = usize::from(update.previous);
        }
        Chain { updates, count }
    }

    fn oldest_first(&self) -> Rev<slice::Iter<'_, Update>> {
        self.updates[..self.count].iter().rev()
    }
}
