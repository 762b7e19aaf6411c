// Lines from a reader, which is read in pieces. A line of any length takes no more memory than a short one.
ghost use Rattle.std.specs.Prelude.{◌≤◌};

use std::io::Read;

const LONGEST_LINE: usize = 200;

const PIECE: usize = 65536;

// A line has more bytes than a line may have.
#[derive(Clone, Copy)]
pub struct TooLong;

// What has been read of a line: how many bytes, and the bytes themselves as long as there is room for all.
#[derive(Drop)]
pub struct Line {
    bytes: [u8; LONGEST_LINE],
    length: usize,
}

impl Line {
    pub fn new() -> Self {
        Line {
            bytes: [0; LONGEST_LINE],
            length: 0,
        }
    }

    // The line's bytes, without its LF.
    pub fn bytes(&self) -> Result<&[u8], TooLong> {
        self.bytes.get(..self.length).ok_or(TooLong)
    }

    fn push(&mut self, more: &[u8]) {
        let length = self.length.saturating_add(more.len());
        if let Some(room) = self.bytes.get_mut(self.length..length) {
            room.copy_from_slice(more);
        }
        self.length = length;
    }
}

// A reader and the piece of it that was read last, of which the bytes from `at` to `end` are yet to be taken. A BufReader would be on the heap.
#[derive(Drop)]
pub struct Input<R> {
    reader: R,
    piece: [u8; PIECE],
    at: usize,
    end: usize,
    is_over: bool,
    ghost taken: { at ≤ end },
    ghost read: { end ≤ 65536 },
}

impl<R: Read> Input<R> {
    pub fn new(reader: R) -> Self {
        Input {
            reader,
            piece: [0; PIECE],
            at: 0,
            end: 0,
            is_over: false,
        }
    }

    // Reads the next line. Whether there is one: one that ended, or bytes at the input's end.
    pub fn read_line(&mut self, line: &mut Line) -> bool {
        line.length = 0;
        // Nothing says that a line ends, so the pieces are counted, up to a number that no run reaches.
        for _ in 0..u64::MAX {
            if self.take(line) {
                return true;
            }
            if !self.refill() {
                break;
            }
        }
        line.length != 0
    }

    // Takes bytes of the piece up to the line's end, or all that are left. Whether the line ended.
    fn take(&mut self, line: &mut Line) -> bool {
        let rest = &self.piece[self.at..self.end];
        match rest.iter().position(|byte| *byte == b'\n') {
            Some(length) => {
                line.push(&rest[..length]);
                self.at += length + 1;
                true
            }
            None => {
                line.push(rest);
                self.at = self.end;
                false
            }
        }
    }

    // Reads a further piece, unless the input is over. A read that fails ends the input.
    fn refill(&mut self) -> bool {
        if self.is_over {
            return false;
        }
        self.at = 0;
        self.end = self.reader.read(&mut self.piece).unwrap_or(0);
        self.is_over = self.end == 0;
        !self.is_over
    }
}
