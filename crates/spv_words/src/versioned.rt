//! A source that can read a module of another version as one of 1.6.
ghost use Rattle.std.specs.Prelude.{◌≡◌, false, option_map, OnOk};
ghost use Rattle.std.specs.Io.KnownBytes.{Keeps, prepend_known};
ghost use Rattle.spv_words.specs.Count.{counted};
ghost use Rattle.spv_words.specs.Version.{as_1_6};
ghost use Rattle.spv_words.specs.inner.Pending.{version_due};

use crate::front::Front;
use crate::stream::{Failed, Source};

/// A source that can give what it has left as a module of version 1.6.
pub trait VersionSource: Source {
    /// From here on the bytes are given with version 1.6 in place of the version of a module of 1.0 to 1.6, whatever
    /// its byte order; where they begin otherwise, as they are. (own) Nothing is read yet.
    fn read_as_1_6(&mut self)
        ensures bytes { Self.remaining self.new ≡ option_map as_1_6 (Self.remaining self.old) }
        ensures failures { Self.failures self.new ≡ Self.failures self.old };
}

/// A source made of another one, which it reads at most eight bytes ahead. It gives the same bytes, but where it is
/// told to read them as version 1.6.
#[derive(Drop)]
pub struct Versioned<S> {
    source: S,
    front: Front,
    is_due: bool,
}

impl<S: Source> Versioned<S> {
    /// A source that gives the bytes of this one as they are.
    pub fn new(source: S) -> Self
        ensures bytes { ⟦<Versioned<S> as Source>⟧.remaining result ≡ S.remaining source }
        ensures failures { ⟦<Versioned<S> as Source>⟧.failures result ≡ S.failures source }
    {
        Versioned {
            source,
            front: Front::new(),
            is_due: false,
        }
    }

    /// Replaces the version, if that is due.
    fn begin(&mut self) -> Result<(), Failed>
        ensures done { OnOk result (self.new.is_due ≡ false) }
        ensures kept { Keeps (version_due self.old.is_due (prepend_known self.old.front (S.remaining self.old.source)))
            (version_due self.new.is_due (prepend_known self.new.front (S.remaining self.new.source))) }
        ensures count { S.failures self.new.source ≡ counted result (S.failures self.old.source) }
    {
        if self.is_due {
            self.front.fill(&mut self.source)?;
            self.front.replace_version();
            self.is_due = false;
        }
        Ok(())
    }
}

impl<S: Source> Source for Versioned<S> {
    ghost failures = { λ s. S.failures s.source };

    ghost remaining = { λ s. version_due s.is_due (prepend_known s.front (S.remaining s.source)) };

    fn read(&mut self, buf: &mut [u8]) -> Result<usize, Failed> {
        self.begin()?;
        if self.front.is_empty() {
            return self.source.read(buf);
        }
        Ok(self.front.give(buf))
    }
}

impl<S: Source> VersionSource for Versioned<S> {
    fn read_as_1_6(&mut self) {
        self.is_due = true;
    }
}
