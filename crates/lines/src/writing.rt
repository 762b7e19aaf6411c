// Text written into a lent buffer.
ghost use Rattle.std.specs.Prelude.{◌-◌, ◌≡◌, [], ◌∷◌, length};
ghost use Rattle.lines.specs.Spelling.{spelled, spelled_integer};
ghost use Rattle.lines.specs.Writing.{Wrote};

// Writes one text after another into a buffer, as far as the buffer reaches.
#[derive(Drop)]
pub struct Writer<'a> {
    buffer: &'a mut [u8],
    // The place after the last byte that was written.
    length: usize,
}

impl<'a> Writer<'a> {
    // A writer that goes on at the place `length` of the buffer.
    pub fn new(buffer: &'a mut [u8], length: usize) -> Self
        ensures same_buffer { result.buffer.ghost_name ≡ buffer.entry.ghost_name }
        ensures text { result.buffer.now ≡ buffer.old }
        ensures place { result.length ≡ length }
    {
        Writer { buffer, length }
    }

    // The place after the last byte that was written.
    pub fn length(&self) -> usize
        ensures { result ≡ self.now.length }
    {
        self.length
    }

    // How many bytes more have room.
    pub fn room(&self) -> usize
        ensures { result ≡ length self.now.buffer.now - self.now.length }
    {
        self.buffer.len().saturating_sub(self.length)
    }

    // One byte.
    pub fn put_byte(&mut self, byte: u8)
        ensures { Wrote self.old (byte ∷ []) self.new }
    {
        if self.length < self.buffer.len() {
            self.buffer[self.length] = byte;
            self.length += 1;
        }
    }

    // All of `bytes`.
    pub fn put_bytes(&mut self, bytes: &[u8])
        ensures { Wrote self.old bytes.now self.new }
    {
        for byte in bytes {
            self.put_byte(*byte);
        }
    }

    // The number's spelling: that of its tenth, and the last digit. By hand and not by `Display`, since the promise names the
    // bytes that stand in the buffer then.
    pub fn put_natural(&mut self, number: u64)
        ensures { Wrote self.old (spelled number) self.new }
    {
        if 10 <= number {
            self.put_natural(number / 10);
        }
        self.put_byte(b'0' + (number % 10) as u8);
    }

    // The number's spelling, with a minus below zero.
    pub fn put_integer(&mut self, value: i32)
        ensures { Wrote self.old (spelled_integer value) self.new }
    {
        if value < 0 {
            self.put_byte(b'-');
        }
        self.put_natural(u64::from(value.unsigned_abs()));
    }
}
