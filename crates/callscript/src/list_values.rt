// The values of a list, in the order of its line.
ghost use Rattle.std.specs.Prelude.{◌≤◌};

// No ArrayVec: a proof knows of no element of one that it is an i32.
#[derive(Clone, Copy)]
pub struct Values {
    values: [i32; Values::MOST],
    count: usize,
    ghost kept: { count ≤ 100 },
}

impl Values {
    // A line has no room for as many.
    pub const MOST: usize = 100;

    pub fn new() -> Self {
        Values {
            values: [0; Values::MOST],
            count: 0,
        }
    }

    pub fn clear(&mut self) {
        self.count = 0;
    }

    // Puts a value behind the others, if there is room.
    pub fn push(&mut self, value: i32) -> Option<()> {
        let place = self.values.get_mut(self.count)?;
        *place = value;
        self.count += 1;
        Some(())
    }

    // The array, of which each element is known to be an i32.
    pub fn array(self) -> [i32; Values::MOST] {
        self.values
    }

    pub fn count(self) -> usize
        ensures { result ≤ 100 }
    {
        self.count
    }
}
