//! How far a module is looked at.

ghost use Rattle.std.specs.Prelude.{◌≡◌};
ghost use Rattle.spv_extended.specs.Reach as spec;

use spv_module::Profile;

/// How far a module is looked at.
#[derive(Clone, Copy, PartialEq, Eq)]
pub enum Reach {
    /// As far as the profile asks: of an extended instruction up to its number.
    Profile,
    /// Extended instructions whole: their ids are looked at too, and the calls of OpenCL.std.
    Extended,
    /// All that a kernel of OpenCL can be, of version 1.`minor` (0 to 6): more instructions than the profile has, and
    /// extended instructions whole.
    OpenCl {
        /// The minor number of the version.
        minor: u8,
    },
}

/// Which instructions a module may have that is looked at so far.
pub fn profile_of(reach: Reach) -> Profile
    ensures { result ≡ spec.profile_of reach }
{
    match reach {
        Reach::Profile => Profile::Own,
        Reach::Extended => Profile::Own,
        Reach::OpenCl { .. } => Profile::OpenCl,
    }
}

/// Whether extended instructions are looked at whole.
pub fn opens(reach: Reach) -> bool
    ensures { result ≡ spec.opens reach }
{
    match reach {
        Reach::Profile => false,
        Reach::Extended => true,
        Reach::OpenCl { .. } => true,
    }
}
