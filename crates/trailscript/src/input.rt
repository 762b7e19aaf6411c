// What is read from standard input, in constant memory: the bytes that are not yet answered, and reading on behind them.
ghost use Rattle.std.specs.Prelude.{ℕ, false, true, ◌+◌, ◌-◌, ◌<◌, ◌≤◌, ◌≡◌, length, get_or, slice_range, slice_set, take, drop};
ghost use Rattle.std.specs.Io.KnownBytes.{Consumes};
ghost use Rattle.driver.specs.Runs.{EndsAt};

use commands::Command;
use driver::line_end;
use std::io::Read;

// The bytes that are read and not yet answered are those from `start` to `end`.
#[derive(Drop)]
pub struct Input {
    pub bytes: [u8; 65536],
    pub start: usize,
    pub end: usize,
    // Whether what is read next belongs to a line that was too long and has its answer; then no byte is kept.
    pub skipping: bool,
    ghost ordered: { start ≤ end },
    ghost inside: { end ≤ 65536 },
}

impl Input {
    pub fn empty() -> Self
        ensures { result.end ≡ 0 }
    {
        Input {
            bytes: [0u8; 65536],
            start: 0,
            end: 0,
            skipping: false,
        }
    }

    pub fn unread(&self) -> &[u8]
        ensures bytes { result.now ≡ slice_range self.now.bytes self.now.start self.now.end }
        ensures length { length result.now ≡ self.now.end - self.now.start }
    {
        &self.bytes[self.start..self.end]
    }

    // Passes so many bytes, which are answered.
    pub fn pass(&mut self, count: usize)
        requires { self.old.start + count ≤ self.old.end }
        ensures start { self.new.start ≡ self.old.start + count }
        ensures end { self.new.end ≡ self.old.end }
        ensures bytes { self.new.bytes ≡ self.old.bytes }
    {
        self.start += count;
    }

    // Makes a line of so many of the unread bytes: an LF stands behind them, and nothing behind that.
    fn end_line(&mut self, length: usize)
        requires some { length ≤ self.old.end - self.old.start }
        requires room { self.old.start + length < 65536 }
        ensures start { self.new.start ≡ self.old.start }
        ensures end { self.new.end ≡ self.old.start + length + 1 }
        ensures bytes { self.new.bytes ≡ slice_set self.old.bytes (self.old.start + length) 10 }
    {
        let place = self.start + length;
        self.bytes[place] = b'\n';
        self.end = place + 1;
    }

    // Moves what is unread to the front, and reads behind it what the reader has next. Answers how many bytes that is. A read that
    // fails reads nothing.
    fn refill<R: Read>(&mut self, reader: &mut R) -> usize
        ensures front { self.new.start ≡ 0 }
        ensures counted { self.new.end ≡ self.old.end - self.old.start + result }
        ensures kept { (k : ℕ) → k < self.old.end - self.old.start → get_or self.new.bytes k 0 ≡ get_or self.old.bytes (self.old.start + k) 0 }
        ensures behind { Consumes (R.remaining reader.old) (R.remaining reader.new) (take result (drop (self.old.end - self.old.start) self.new.bytes)) }
    {
        let kept = self.end - self.start;
        self.bytes.copy_within(self.start..self.end, 0);
        self.start = 0;
        self.end = kept;
        let count = reader.read(&mut self.bytes[kept..]).unwrap_or(0);
        self.end = kept + count;
        count
    }

    // Passes the rest of a line that was too long, and tells whether it has come to its end.
    fn skip_line(&mut self) -> bool
        ensures end { self.new.end ≡ self.old.end }
        ensures bytes { self.new.bytes ≡ self.old.bytes }
        ensures all { result ≡ false → self.new.start ≡ self.new.end }
        ensures none { result ≡ false → EndsAt (slice_range self.old.bytes self.old.start self.old.end) 0 (self.old.end - self.old.start) }
        ensures passed { result ≡ true → self.old.start < self.new.start }
        ensures ended { result ≡ true → EndsAt (slice_range self.old.bytes self.old.start self.old.end) 0 (self.new.start - (self.old.start + 1)) }
    {
        let length = line_end(self.unread(), 0);
        if length == self.end - self.start {
            self.start = self.end;
            return false;
        }
        self.start += length + 1;
        true
    }

    // Reads on where no line is left that an LF ends; false where there is nothing more. A line that is too long is told by its first
    // 201 bytes, and gets an LF after them; the last line gets the one that it lacks.
    pub fn read_on<R: Read>(&mut self, reader: &mut R) -> bool
        ensures { result ≡ false → self.old.start ≡ self.old.end }
    {
        let left = self.unread().len();
        if Command::LONGEST_LINE + 1 < left {
            self.end_line(Command::LONGEST_LINE + 1);
            self.skipping = true;
            return true;
        }
        if self.refill(reader) == 0 {
            if left == 0 {
                return false;
            }
            self.end_line(left);
            return true;
        }
        if self.skipping {
            self.skipping = !self.skip_line();
        }
        true
    }
}
