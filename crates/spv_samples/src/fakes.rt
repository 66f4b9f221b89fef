//! A reader and a writer for the tests, which do not work at chosen calls.

ghost use Rattle.std.specs.Prelude.{◌≡◌, ◌≤◌, length};

use std::io::{self, ErrorKind, Read, Write};

/// Which calls do not go well.
#[derive(Clone, Copy)]
pub struct Failures {
    /// How many calls go well before the next one that does not.
    pub calls_left: u64,
    /// How many go well after each that did not.
    pub calls_between: u64,
    /// How many calls did not go well.
    pub count: u64,
}

impl Failures {
    /// Only the call after so many does not go well.
    pub fn once_after(calls: u64) -> Self {
        Failures {
            calls_left: calls,
            calls_between: u64::MAX,
            count: 0,
        }
    }

    /// After each so many calls one does not go well.
    pub fn after_each(calls: u64) -> Self {
        Failures {
            calls_left: calls,
            calls_between: calls,
            count: 0,
        }
    }

    /// All calls go well.
    pub fn none() -> Self {
        Failures::once_after(u64::MAX)
    }

    /// Counts a call. Whether it does not go well.
    fn is_next(&mut self) -> bool {
        if self.calls_left == 0 {
            self.calls_left = self.calls_between;
            self.count = self.count.wrapping_add(1);
            return true;
        }
        self.calls_left -= 1;
        false
    }
}

/// Gives the bytes of a slice in pieces, once or over and over.
#[derive(Drop)]
pub struct Pieces<'a> {
    bytes: &'a [u8],
    rest: &'a [u8],
    piece: usize,
    /// Whether the bytes begin again at their end.
    pub is_endless: bool,
    /// The calls that answer an error.
    pub failures: Failures,
    /// Which error they answer.
    pub kind: ErrorKind,
    /// How many bytes were given.
    pub given: u64,
}

impl<'a> Pieces<'a> {
    /// Gives the bytes once, at most so many at a call. A call that does not go well was interrupted.
    pub fn new(bytes: &'a [u8], piece: usize, failures: Failures) -> Self {
        Pieces {
            bytes,
            rest: bytes,
            piece,
            is_endless: false,
            failures,
            kind: ErrorKind::Interrupted,
            given: 0,
        }
    }
}

impl Read for Pieces<'_> {
    fn read(&mut self, buf: &mut [u8]) -> io::Result<usize> {
        if self.failures.is_next() {
            return Err(io::Error::from(self.kind));
        }
        if self.is_endless && self.rest.is_empty() {
            self.rest = self.bytes;
        }
        let n = self.piece.min(buf.len()).min(self.rest.len());
        buf[..n].copy_from_slice(&self.rest[..n]);
        self.rest = &self.rest[n..];
        self.given = self.given.wrapping_add(n as u64);
        Ok(n)
    }
}

/// What a shelf does at a call that does not go well.
#[derive(Clone, Copy)]
pub enum Trouble {
    /// It answers an error.
    Fails,
    /// It takes nothing.
    TakesNothing,
}

/// Keeps the bytes that are written to it, in pieces.
#[derive(Drop)]
pub struct Shelf {
    /// The bytes that were written.
    pub kept: Vec<u8>,
    piece: usize,
    /// What it does at the calls that do not go well.
    pub trouble: Trouble,
    /// Those calls.
    pub failures: Failures,
}

impl Shelf {
    /// Keeps all behind what is kept already, at most so many bytes at a call. A call that does not go well fails.
    pub fn new(kept: Vec<u8>, piece: usize, failures: Failures) -> Self {
        Shelf {
            kept,
            piece,
            trouble: Trouble::Fails,
            failures,
        }
    }
}

impl Write for Shelf {
    fn write(&mut self, buf: &[u8]) -> io::Result<usize> {
        if self.failures.is_next() {
            return match self.trouble {
                Trouble::Fails => Err(io::Error::from(ErrorKind::BrokenPipe)),
                Trouble::TakesNothing => Ok(0),
            };
        }
        let n = self.piece.min(buf.len());
        self.kept.extend_from_slice(&buf[..n])?;
        Ok(n)
    }

    fn flush(&mut self) -> io::Result<()> {
        Ok(())
    }
}
