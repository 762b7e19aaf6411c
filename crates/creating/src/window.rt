// A window over a list's values: one pass over the list tells of many values at once which of them are listed.
ghost use Rattle.std.specs.Prelude.{◌≡◌};
ghost use Rattle.domains.specs.Domain.{has};
ghost use Rattle.creating.specs.Windows.{Told};

// How many values one pass over a list tells of.
const WINDOW: usize = 8192;

// Which of the values from `from` on are listed.
#[derive(Drop)]
pub struct Window<'a> {
    pub values: &'a [i32],
    pub from: i32,
    pub marks: [bool; WINDOW],
    ghost told: { Told values.now from marks },
}

impl<'a> Window<'a> {
    // Marks the listed ones of the values from `from` on.
    pub fn at(values: &'a [i32], from: i32) -> Self
        ensures values { result.values.now ≡ values.now }
        ensures from { result.from ≡ from }
    {
        let mut marks = [false; WINDOW];
        for value in values {
            if let Some(place) = integers::ahead::<WINDOW>(from, *value) {
                marks[place] = true;
            }
        }
        Window {
            values,
            from,
            marks,
        }
    }

    // Whether `value` is listed. One that does not stand in the window begins the next.
    pub fn lists(&mut self, value: i32) -> bool
        ensures values { self.new.values.now ≡ self.old.values.now }
        ensures lists { result ≡ has self.old.values.now value }
    {
        if let Some(place) = integers::ahead::<WINDOW>(self.from, value) {
            return self.marks[place];
        }
        *self = Window::at(self.values, value);
        self.marks[0]
    }
}
