//! Which values and bits among operands are missing.

ghost use Rattle.std.specs.Prelude.{◌≡◌, ◌↔◌, ◌⊎◌, ◌<◌, ◌^◌, ◌/◌, ◌%◌, ℕ, Some, None, IsTrue, true, false};
ghost use Rattle.spv_versions.specs.inner.Told.{AreKnown, AreLeast, AreNumbers, IsAnyHit, IsBitHit, IsHit, IsHitAt};
ghost use Rattle.spv_versions.specs.inner.Told as told;
ghost use Rattle.spv_versions.specs.inner.Lines.{IsListed};
ghost use Rattle.spv_versions.specs.Table as spec;

use crate::missing::Missing;
use crate::table::{KIND_COUNT, Kind, kinds};
use spv_table::Table;

/// The kinds of operands of which the table speaks, by their numbers in a grammar.
#[derive(Clone, Copy)]
pub struct Kinds {
    pub numbers: [Option<u32>; KIND_COUNT],
}

/// The number that a kind has in a grammar.
fn number_of(table: &Table, kind: Kind) -> Option<u32>
    ensures { result ≡ told.number_of table.now kind }
{
    match kind.name() {
        Some(name) => table.kind_named(name),
        None => None,
    }
}

/// The number that a kind has in a grammar, but none where nothing of the kind is missing.
fn missing_number_of(table: &Table, missing: &Missing, kind: Kind) -> Option<u32>
    requires { AreLeast missing.now.lines missing.now.least }
    ensures { (result ≡ told.number_of table.now kind)
        ⊎ ((result ≡ None) × ((n : ℕ) → ¬ (IsListed spec.lines missing.now.lines kind n))) }
{
    if missing.least_of(kind) == u32::MAX {
        return None;
    }
    number_of(table, kind)
}

/// Whether a number that may be missing is that one.
pub fn is_number(number: Option<u32>, wanted: u32) -> bool
    ensures { IsTrue result ↔ (number ≡ Some wanted) }
{
    match number {
        Some(number) => number == wanted,
        None => false,
    }
}

/// The number of one bit.
pub fn bit_at(position: u32) -> u32
    requires { position < 32 }
    ensures { result ≡ 2 ^ position }
{
    1 << position
}

/// Whether the bit at a position is set in a mask.
pub fn is_set(mask: u32, position: u32) -> bool
    requires { position < 32 }
    ensures { IsTrue result ↔ (mask / 2 ^ position % 2 ≡ 1) }
{
    (mask >> position) % 2 == 1
}

/// Whether the bit at a position is set in a mask, and missing.
fn is_missing_at(missing: &Missing, kind: Kind, mask: u32, position: u32) -> bool
    requires { position < 32 }
    ensures { IsTrue result ↔ IsBitHit missing.now.lines kind mask position }
{
    is_set(mask, position) && missing.has(kind, bit_at(position))
}

/// Whether a set bit of a mask is missing.
fn is_bit_missing(missing: &Missing, kind: Kind, mask: u32) -> bool
    ensures { IsTrue result ↔ IsHit missing.now.lines kind true mask }
{
    for position in 0..32u32 {
        if is_missing_at(missing, kind, mask, position) {
            return true;
        }
    }
    false
}

/// Whether a value of a kind is missing, or a set bit of a mask.
fn is_hit(missing: &Missing, kind: Kind, is_mask: bool, value: u32) -> bool
    ensures { IsTrue result ↔ IsHit missing.now.lines kind is_mask value }
{
    if is_mask {
        is_bit_missing(missing, kind, value)
    } else {
        missing.has(kind, value)
    }
}

impl Kinds {
    /// Those of a grammar.
    pub fn of(table: &Table) -> Kinds
        ensures { AreNumbers table.now result.numbers }
    {
        let kinds = kinds();
        let mut numbers = [None; KIND_COUNT];
        for k in 0..KIND_COUNT {
            numbers[k] = number_of(table, kinds[k]);
        }
        Kinds { numbers }
    }

    /// Those of a grammar of which something is missing.
    pub fn of_missing(table: &Table, missing: &Missing) -> Kinds
        requires { AreLeast missing.now.lines missing.now.least }
        ensures { AreKnown table.now missing.now.lines result.numbers }
    {
        let kinds = kinds();
        let mut numbers = [None; KIND_COUNT];
        for k in 0..KIND_COUNT {
            numbers[k] = missing_number_of(table, missing, kinds[k]);
        }
        Kinds { numbers }
    }

    /// Whether that number is that of the kind at a place, of which a value is missing, or a set bit of a mask.
    fn is_hit_at(
        &self,
        missing: &Missing,
        number: u32,
        is_mask: bool,
        value: u32,
        place: usize,
    ) -> bool
        requires { place < KIND_COUNT }
        ensures { IsTrue result ↔ IsHitAt missing.now.lines self.now.numbers number is_mask value place }
    {
        is_number(self.numbers[place], number) && is_hit(missing, kinds()[place], is_mask, value)
    }

    /// Whether a value of the kind of that number is missing, or a set bit of a mask.
    #[inline(never)]
    pub fn is_any_hit(&self, missing: &Missing, number: u32, is_mask: bool, value: u32) -> bool
        ensures { IsTrue result ↔ IsAnyHit missing.now.lines self.now.numbers number is_mask value }
    {
        for place in 0..KIND_COUNT {
            if self.is_hit_at(missing, number, is_mask, value, place) {
                return true;
            }
        }
        false
    }
}
