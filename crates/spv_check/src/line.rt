//! A line of text that is put together in place, without taking memory.
ghost use Rattle.std.specs.Prelude.{◌≡◌, ◌≤◌, ◌+◌, ◌++◌, length, decimal};

use itoa::Buffer;

/// A line of at most 48 bytes, more than the longest verdict line has.
#[derive(Drop)]
pub struct Line {
    bytes: [u8; 48],
    len: usize,
    ghost fits: { len ≤ 48 },
}

impl Line {
    ghost use Rattle.spv_check.specs.Text.{text_of};

    /// The line of this text, of at most 48 bytes.
    pub fn of(text: &[u8]) -> Line
        requires { length text.now ≤ 48 }
        ensures text { text_of result ≡ text.now }
        ensures len { result.len ≡ length text.now }
    {
        let mut line = Line {
            bytes: [0; 48],
            len: 0,
        };
        line.push(text);
        line
    }

    /// Adds a text at the end, for which there must be room.
    pub fn push(&mut self, text: &[u8])
        requires { self.old.len + length text.now ≤ 48 }
        ensures text { text_of self.new ≡ text_of self.old ++ text.now }
        ensures len { self.new.len ≡ self.old.len + length text.now }
    {
        let end = self.len + text.len();
        self.bytes[self.len..end].copy_from_slice(text);
        self.len = end;
    }

    /// Adds a number at the end, in decimal. There must be room for ten digits.
    pub fn push_number(&mut self, n: u32)
        requires { self.old.len + 10 ≤ 48 }
        ensures text { text_of self.new ≡ text_of self.old ++ decimal n }
        ensures len { self.new.len ≤ self.old.len + 10 }
    {
        let mut digits = Buffer::new();
        self.push(digits.format(n).as_bytes());
    }

    /// The bytes of the line.
    pub fn as_slice(&self) -> &[u8]
        ensures { result.now ≡ text_of self.now }
    {
        &self.bytes[..self.len]
    }
}
