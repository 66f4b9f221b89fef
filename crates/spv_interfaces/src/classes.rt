//! The storage classes of variables.

ghost use Rattle.std.specs.Prelude.{◌≡◌, ◌≢◌, ◌↔◌, ◌||◌, ◌==◌, ℕ, IsTrue};
ghost use Rattle.spv_interfaces.specs.Interface.{IsOfClass};
ghost use Rattle.spv_interfaces.specs.inner.Wanted as spec;
ghost use Rattle.spv_interfaces.specs.inner.Wanted.{IsWanted};

use spv_type_forms::{Definitions, Form};

/// The storage classes Input and Output.
const INPUT: u32 = 1;

const OUTPUT: u32 = 3;

/// From this minor version on an interface has all variables that are used.
pub const OF_ALL: u8 = 4;

/// The storage class of a pointer, by its type.
fn class_of(definitions: &Definitions, x: u32) -> Option<u32>
    ensures { result ≡ spec.class_of definitions.now x }
{
    match definitions.form(definitions.type_of(x)?)? {
        Form::Pointer { class, .. } => Some(class),
        _ => None,
    }
}

/// Whether a storage class is Input or Output.
fn is_outside(class: u32) -> bool
    ensures { result ≡ (class == 1 || class == 3) }
{
    class == INPUT || class == OUTPUT
}

/// Whether an id is a variable neither of Input nor of Output.
pub fn is_inner(definitions: &Definitions, x: u32) -> bool
    ensures { IsTrue result ↔ ((class : ℕ) × IsOfClass definitions.now x class × (class ≢ 1) × (class ≢ 3)) }
{
    match class_of(definitions, x) {
        Some(class) => !is_outside(class) && definitions.is_global(x),
        None => false,
    }
}

/// Whether an id is a variable that has to be in the interface where it is used.
pub fn is_wanted(definitions: &Definitions, minor: u8, x: u32) -> bool
    ensures { IsTrue result ↔ IsWanted minor definitions.now x }
{
    if !definitions.is_global(x) {
        return false;
    }
    if minor >= OF_ALL {
        return true;
    }
    match class_of(definitions, x) {
        Some(class) => is_outside(class),
        None => false,
    }
}
