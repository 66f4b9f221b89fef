//! The bytes that a module begins with.
ghost use Rattle.std.specs.Prelude.{◌≡◌, ◌≤◌, ◌<◌, ◌↔◌, ◌⊎◌, ◌++◌, [], length, take, IsTrue, OnOk};
ghost use Rattle.std.specs.Io.KnownBytes.{Keeps, IsAtEnd, prepend_known};
ghost use Rattle.spv_words.specs.Count.{counted};
ghost use Rattle.spv_words.specs.Version.{as_1_6};

use crate::stream::{Failed, Source};
use crate::version::{FRONT_SIZE, replace_version};
use std::marker::Model;

/// Bytes that were read ahead, at most eight: as many as the magic number and the version have.
///
/// A contract sees the list of the bytes.
#[derive(Drop)]
pub struct Front {
    octets: [u8; 8],
    size: usize,
}

impl Model for Front {
    ghost use Rattle.std.specs.Prelude.{◌≤◌, List, ℕ, take};

    ghost Value = { List ℕ };

    ghost view = { λ f. take f.size f.octets };

    ghost invariant = { λ f. f.size ≤ 8 };
}

impl Front {
    /// No bytes.
    pub fn new() -> Front
        ensures { result ≡ [] }
    {
        Front {
            octets: [0; FRONT_SIZE],
            size: 0,
        }
    }

    /// Whether there are none.
    pub fn is_empty(&self) -> bool
        ensures { IsTrue result ↔ (self.now ≡ []) }
    {
        self.size == 0
    }

    /// Reads more bytes, until there are eight or the source is at its end.
    pub fn fill<S: Source>(&mut self, source: &mut S) -> Result<(), Failed>
        ensures kept { Keeps (prepend_known self.old (S.remaining source.old))
            (prepend_known self.new (S.remaining source.new)) }
        ensures whole { OnOk result ((length self.new ≡ 8) ⊎ IsAtEnd (S.remaining source.new)) }
        ensures count { S.failures source.new ≡ counted result (S.failures source.old) }
    {
        while self.size < FRONT_SIZE {
            let n = source.read(&mut self.octets[self.size..])?;
            if n == 0 {
                return Ok(());
            }
            self.size += n;
        }
        Ok(())
    }

    /// Puts version 1.6 in place of another version that the bytes tell.
    pub fn replace_version(&mut self)
        ensures { self.new ≡ as_1_6 self.old }
    {
        replace_version(&mut self.octets[..self.size]);
    }

    /// Gives as many bytes as there is room for, the first, and answers how many.
    pub fn give(&mut self, buf: &mut [u8]) -> usize
        ensures bound { result ≤ length buf.new }
        ensures gives { self.old ≡ take result buf.new ++ self.new }
        ensures some { result ≡ 0 → 0 < length buf.new → self.old ≡ [] }
    {
        let n = buf.len().min(self.size);
        buf[..n].copy_from_slice(&self.octets[..n]);
        self.octets.copy_within(n.., 0);
        self.size -= n;
        n
    }
}
