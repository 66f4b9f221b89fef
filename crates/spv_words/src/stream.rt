ghost use Rattle.std.specs.Prelude.{◌≡◌, ◌≤◌, ◌<◌, ◌^◌, ◌%◌, ◌+◌, ℕ, List, Option};
ghost use Rattle.std.specs.Prelude.{length, take, IfOk, IsErr, MatchResult, OnOk};
ghost use Rattle.std.specs.Io.KnownBytes.{ReadConsumes, WriteAppends};
ghost use Rattle.spv_words.specs.Count.{counted};

use std::io::{Read, Write};
use thiserror::Error;

/// A call of a reader or of a writer failed.
#[derive(Clone, Copy, Debug, PartialEq, Eq, Error)]
#[error("a call of the reader or of the writer failed")]
pub struct Failed;

/// What gives bytes.
pub trait Source {
    // How many calls have failed, as a `u64` that wraps.
    ghost failures: { Self → ℕ };

    // The bytes that reads will give from here on, where they are known.
    ghost remaining: { Self → Option (List ℕ) };

    /// Puts the next bytes at the front of `buf`, and answers how many: at most its length. A read
    /// of 0 bytes into a slice that is not empty is the end of input.
    ///
    /// # Errors
    ///
    /// `Failed` where no byte could be read. The count of failures then grows by one, and at no
    /// other call.
    fn read(&mut self, buf: &mut [u8]) -> Result<usize, Failed>
        ensures bound { IfOk result (λ n. n ≤ length buf.new) }
        ensures bytes { ReadConsumes (remaining self.old) (remaining self.new) result buf.new }
        ensures count { failures self.new ≡ counted result (failures self.old) };
}

/// What takes bytes.
pub trait Sink {
    // How many calls have failed, as a `u64` that wraps.
    ghost failures: { Self → ℕ };

    // The bytes written so far, where they are known.
    ghost contents: { Self → Option (List ℕ) };

    /// Takes bytes from the front of `buf`, and answers how many: at least one, if there is one.
    ///
    /// # Errors
    ///
    /// `Failed` where none could be taken. The count of failures then grows by one, and at no
    /// other call.
    fn write(&mut self, buf: &[u8]) -> Result<usize, Failed>
        ensures bound { IfOk result (λ n. n ≤ length buf.now) }
        ensures takes { 0 < length buf.now → IfOk result (λ n. 0 < n) }
        ensures bytes { WriteAppends (contents self.old) (contents self.new) result buf.now }
        ensures count { failures self.new ≡ counted result (failures self.old) };
}

/// A source made of a reader of std. It gives just the bytes that the reader gives, and never tries
/// a failed read again, an interrupted one neither.
#[derive(Drop)]
pub struct FromRead<R> {
    /// The reader.
    pub inner: R,
    /// How many reads have failed, wrapping.
    pub failures: u64,
}

impl<R: Read> FromRead<R> {
    /// A source that has not failed yet.
    pub fn new(inner: R) -> Self
        ensures reader { result.inner ≡ inner }
        ensures failures { result.failures ≡ 0 }
    {
        FromRead { inner, failures: 0 }
    }
}

impl<R: Read> Source for FromRead<R> {
    ghost failures = { λ s. s.failures };

    ghost remaining = { λ s. R.remaining s.inner };

    fn read(&mut self, buf: &mut [u8]) -> Result<usize, Failed> {
        match self.inner.read(buf) {
            Ok(n) => Ok(n),
            Err(_) => {
                self.failures = self.failures.wrapping_add(1);
                Err(Failed)
            }
        }
    }
}

/// A sink made of a writer of std. It hands on just the bytes that it counts as taken. A write that
/// is offered bytes and takes none is a failure, and no failed write is tried again.
#[derive(Drop)]
pub struct FromWrite<W> {
    /// The writer.
    pub inner: W,
    /// How many writes have failed, wrapping.
    pub failures: u64,
}

impl<W: Write> FromWrite<W> {
    /// A sink that has not failed yet.
    pub fn new(inner: W) -> Self
        ensures writer { result.inner ≡ inner }
        ensures failures { result.failures ≡ 0 }
    {
        FromWrite { inner, failures: 0 }
    }
}

impl<W: Write> Sink for FromWrite<W> {
    ghost failures = { λ s. s.failures };

    ghost contents = { λ s. W.contents s.inner };

    fn write(&mut self, buf: &[u8]) -> Result<usize, Failed> {
        match self.inner.write(buf) {
            Ok(n) if n > 0 || buf.is_empty() => Ok(n),
            _ => {
                self.failures = self.failures.wrapping_add(1);
                Err(Failed)
            }
        }
    }
}
