//! As which version a module is read, and how far it is looked at.
ghost use Rattle.std.specs.Prelude.{◌≡◌, ◌≤◌};
ghost use Rattle.spv_scope.specs.Scope as spec;

use crate::minor::{GREATEST_MINOR, minor_of};
use crate::told::put_text_minor;
use spv_extended::Reach;
use spv_words::replace_version;

/// As which version a module is read, and how far it is looked at.
#[derive(Clone, Copy, PartialEq, Eq)]
pub enum Scope {
    /// As far as the profile asks.
    Own {
        /// Whether a module of version 1.0 to 1.5 is taken as one of 1.6.
        as_1_6: bool,
    },
    /// Extended instructions whole, too.
    Extended {
        /// Whether a module of version 1.0 to 1.5 is taken as one of 1.6.
        as_1_6: bool,
    },
    /// All that a kernel of OpenCL can be, of version 1.0 to 1.6, each as it is.
    OpenCl,
}

/// The minor number of the version of bytes, and 6 where they begin as a module of none of the versions 1.0 to 1.6
/// does.
fn own_minor(bytes: &[u8]) -> u8
    ensures told { result ≡ spec.own_minor bytes.now }
    ensures known { result ≤ 6 }
{
    minor_of(bytes).unwrap_or(GREATEST_MINOR)
}

impl Scope {
    /// Whether version 1.6 is put in place of another version from 1.0 to 1.6.
    pub fn takes_as_1_6(self) -> bool
        ensures { result ≡ spec.takes_as_1_6 self }
    {
        match self {
            Scope::Own { as_1_6 } | Scope::Extended { as_1_6 } => as_1_6,
            Scope::OpenCl => true,
        }
    }

    /// How far the module of these bytes is looked at.
    pub fn reach(self, bytes: &[u8]) -> Reach
        ensures { result ≡ spec.reach_of self bytes.now }
    {
        match self {
            Scope::Own { .. } => Reach::Profile,
            Scope::Extended { .. } => Reach::Extended,
            Scope::OpenCl => Reach::OpenCl {
                minor: own_minor(bytes),
            },
        }
    }

    /// Makes bytes those that are read.
    pub fn take(self, bytes: &mut [u8])
        ensures { bytes.new ≡ spec.taken self bytes.old }
    {
        if self.takes_as_1_6() {
            replace_version(bytes);
        }
    }
}

/// Makes the text of what was read that of the module: for OpenCL it tells the module's own version.
pub fn tell(reach: Reach, text: &mut [u8])
    ensures { text.new ≡ spec.told_text reach text.old }
{
    match reach {
        Reach::Profile | Reach::Extended => {}
        Reach::OpenCl { minor } => put_text_minor(text, minor),
    }
}
