// The lines that are printed: answers with their line number, and what they are made of.
use crate::states::put_state;
use lines::Writer;
use predicates::{PredicateType, Reason};
use stores::Assignments;
use stories::{Entry, Refusal};

// What is printed for a line that cannot be read. It is no refusal of the store, and callscript prints by itself.
const BAD_LINE: u8 = 14;

// What can stand in an answer: a field, or several with a tab between each two. By `Writer`, whose promise names the bytes that
// stand in the buffer then, and not by `Display`, which takes more than twice the time.
pub trait Printed {
    fn print(self, writer: &mut Writer<'_>);
}

impl Printed for u8 {
    fn print(self, writer: &mut Writer<'_>) {
        writer.put_natural(u64::from(self));
    }
}

impl Printed for u16 {
    fn print(self, writer: &mut Writer<'_>) {
        writer.put_natural(u64::from(self));
    }
}

impl Printed for u32 {
    fn print(self, writer: &mut Writer<'_>) {
        writer.put_natural(u64::from(self));
    }
}

impl Printed for u64 {
    fn print(self, writer: &mut Writer<'_>) {
        writer.put_natural(self);
    }
}

impl Printed for usize {
    fn print(self, writer: &mut Writer<'_>) {
        writer.put_natural(self as u64);
    }
}

impl Printed for i32 {
    fn print(self, writer: &mut Writer<'_>) {
        writer.put_integer(self);
    }
}

impl Printed for bool {
    fn print(self, writer: &mut Writer<'_>) {
        if self {
            writer.put_bytes(b"true");
        } else {
            writer.put_bytes(b"false");
        }
    }
}

// A field behind others.
pub fn put_field<T: Printed + Drop>(writer: &mut Writer<'_>, field: T) {
    writer.put_byte(b'\t');
    field.print(writer);
}

// The place of a line's answer: where it is printed, and the line's number. It is used up by the one answer that the line has.
#[derive(Drop)]
pub struct Answer<'a, 'b> {
    pub writer: &'a mut Writer<'b>,
    pub line: u64,
}

impl<'a, 'b> Answer<'a, 'b> {
    // What the call gives, in a field, or its refusal.
    pub fn put<T: Printed + Drop>(self, answer: Result<T, Refusal>) {
        let Answer { writer, line } = self;
        match answer {
            Ok(value) => {
                put_ok(writer, line);
                put_field(writer, value);
                writer.put_byte(b'\n');
            }
            Err(refusal) => put_refused(writer, line, refusal.number()),
        }
    }

    // The same, with a word where the call gives none.
    pub fn put_or<T: Printed + Drop>(
        self,
        answer: Result<Option<T>, Refusal>,
        word: &'static [u8],
    ) {
        self.put(answer.map(|value| OrWord(value, word)));
    }

    // That the call is done, which gives nothing.
    pub fn put_done(self) {
        let Answer { writer, line } = self;
        put_ok(writer, line);
        writer.put_byte(b'\n');
    }

    // That the line cannot be read.
    pub fn put_bad(self) {
        let Answer { writer, line } = self;
        put_refused(writer, line, BAD_LINE);
    }

    // The pairs that a synchronise wrote to the lent slices.
    pub fn put_pairs(self, answer: Result<usize, Refusal>, variables: &[u16], lowers: &[i32]) {
        let Answer { writer, line } = self;
        match answer {
            Ok(pairs) => {
                put_ok(writer, line);
                for (variable, lower) in variables.iter().zip(lowers).take(pairs) {
                    put_field(writer, *variable);
                    put_field(writer, *lower);
                }
                writer.put_byte(b'\n');
            }
            Err(refusal) => put_refused(writer, line, refusal.number()),
        }
    }

    // The lines of the state, after that of their number.
    pub fn put_state(self, store: &Assignments) {
        let Answer { writer, line } = self;
        put_ok(writer, line);
        writer.put_byte(b'\n');
        put_state(writer, store);
    }
}

// The line's number, and that the call is done.
fn put_ok(writer: &mut Writer<'_>, line: u64) {
    writer.put_natural(line);
    writer.put_bytes(b"\tok");
}

fn put_refused(writer: &mut Writer<'_>, line: u64, number: u8) {
    writer.put_natural(line);
    writer.put_bytes(b"\trefused");
    put_field(writer, number);
    writer.put_byte(b'\n');
}

// A value, or the word for there being none.
#[derive(Drop)]
struct OrWord<T>(Option<T>, &'static [u8]);

impl<T: Printed + Drop> Printed for OrWord<T> {
    fn print(self, writer: &mut Writer<'_>) {
        let OrWord(value, word) = self;
        match value {
            Some(value) => value.print(writer),
            None => writer.put_bytes(word),
        }
    }
}

fn operator(kind: PredicateType) -> &'static [u8] {
    match kind {
        PredicateType::LowerBound => b"ge",
        PredicateType::NotEqual => b"ne",
        PredicateType::Equal => b"eq",
        PredicateType::UpperBound => b"le",
    }
}

// The fields of an entry: variable, operator, value, old lower bound, old upper bound, reason.
#[derive(Clone, Copy)]
pub struct EntryFields(pub Entry);

impl Printed for EntryFields {
    fn print(self, writer: &mut Writer<'_>) {
        let EntryFields(entry) = self;
        let predicate = entry.predicate;
        predicate.domain.0.print(writer);
        writer.put_byte(b'\t');
        writer.put_bytes(operator(predicate.kind));
        put_field(writer, predicate.value);
        put_field(writer, entry.old.lower);
        put_field(writer, entry.old.upper);
        let reason = match entry.reason {
            Reason::None => OrWord(None, b"-"),
            Reason::Given(number) => OrWord(Some(number), b"-"),
        };
        put_field(writer, reason);
    }
}
