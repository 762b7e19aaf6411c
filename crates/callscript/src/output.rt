// The output: answers are printed into a buffer, and the buffer is written between two lines, once it holds enough.
ghost use Rattle.std.specs.Prelude.{◌≤◌};

use lines::Writer;
use std::io;
use std::io::Write;

// With more bytes than this the buffer is written before the next line is answered.
const ENOUGH: usize = 32768;

// There is room behind these for the longest answer, a state of 200,000 bytes.
const SIZE: usize = 262144;

// The places of the answers' bytes.
#[derive(Drop)]
struct Places {
    bytes: [u8; SIZE],
}

impl Places {
    fn text(&mut self, length: usize) -> Writer<'_> {
        Writer::new(&mut self.bytes, length)
    }
}

// A writer and the answers that are yet to be written to it, each of them whole. A BufWriter would be on the heap.
#[derive(Drop)]
pub struct Output<W> {
    writer: W,
    places: Places,
    length: usize,
    ghost kept: { length ≤ 262144 },
}

impl<W: Write> Output<W> {
    pub fn new(writer: W) -> Self {
        Output {
            writer,
            places: Places { bytes: [0; SIZE] },
            length: 0,
        }
    }

    // Where an answer is printed, behind those that are kept.
    pub fn text(&mut self) -> Writer<'_> {
        let length = self.length;
        self.places.text(length)
    }

    // Keeps the answer that was printed up to this place.
    pub fn keep(&mut self, length: usize) {
        self.length = length.min(SIZE);
    }

    // Writes the answers that are kept, if they are enough.
    pub fn write_enough(&mut self) -> io::Result<()> {
        if self.length <= ENOUGH {
            return Ok(());
        }
        self.write_kept()
    }

    // Writes the answers that are kept.
    pub fn write_kept(&mut self) -> io::Result<()> {
        self.writer.write_all(&self.places.bytes[..self.length])?;
        self.length = 0;
        Ok(())
    }
}
