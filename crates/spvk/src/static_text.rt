//! Texts of the library, as C reads them.
ghost use Rattle.std.specs.Prelude.{◌≡◌, ℕ, List, Option, Some, None};

use std::marker::Model;

/// Where a text of the library begins: `const uint8_t *` of C. A null pointer stands for none.
#[repr(C)]
#[derive(Drop)]
pub struct StaticText {
    start: *const u8,
    /// The octets.
    ghost octets: { Option (List ℕ) },
}

impl Model for StaticText {
    ghost use Rattle.std.specs.Prelude.{Option, List, ℕ};
    ghost use Rattle.spvk.specs.StaticText.{lasting};

    ghost also_owns = { λ t. lasting t.start t.octets };
}

impl StaticText {
    /// The place of a text.
    pub fn of(text: &'static [u8]) -> StaticText
        ensures { result.octets ≡ Some text.now }
    {
        StaticText {
            start: text.as_ptr(),
        }
    }
}
