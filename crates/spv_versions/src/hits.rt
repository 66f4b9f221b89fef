//! Which number of an operand is missing, and by which line of the table.

ghost use Rattle.std.specs.Prelude.{◌≡◌, ◌<◌, ◌/◌, ◌%◌, ◌^◌, MatchOption, true, false};
ghost use Rattle.spv_versions.specs.inner.Hits.{IsBitHitBy, IsHitBy, IsHitAtBy, IsAnyHitBy};
ghost use Rattle.spv_versions.specs.inner.Told.{IsAnyHit, IsBitHit, IsHit, IsHitAt};

use crate::kinds::{Kinds, bit_at, is_number, is_set};
use crate::missing::Missing;
use crate::table::{KIND_COUNT, Kind, kinds};

/// A number that is missing: a value or a bit, and the line of the table that says so.
#[derive(Clone, Copy)]
pub struct Hit {
    pub number: u32,
    pub line: u32,
}

/// The line by which a number is missing.
fn number_hit(missing: &Missing, kind: Kind, number: u32) -> Option<Hit>
    ensures { MatchOption result (¬ (IsHit missing.now.lines kind false number))
        (λ h. IsHitBy missing.now.lines kind false number h.number h.line) }
{
    match missing.line_of(kind, number) {
        Some(line) => Some(Hit { number, line }),
        None => None,
    }
}

/// The bit at a position, if it is set in a mask, and missing.
fn bit_hit_at(missing: &Missing, kind: Kind, mask: u32, position: u32) -> Option<Hit>
    requires { position < 32 }
    ensures { MatchOption result (¬ (IsBitHit missing.now.lines kind mask position))
        (λ h. IsBitHitBy missing.now.lines kind mask position h.number h.line) }
{
    if !is_set(mask, position) {
        return None;
    }
    number_hit(missing, kind, bit_at(position))
}

/// The first set bit of a mask that is missing.
fn bit_hit(missing: &Missing, kind: Kind, mask: u32) -> Option<Hit>
    ensures { MatchOption result (¬ (IsHit missing.now.lines kind true mask))
        (λ h. IsHitBy missing.now.lines kind true mask h.number h.line) }
{
    for position in 0..32u32 {
        if let Some(hit) = bit_hit_at(missing, kind, mask, position) {
            return Some(hit);
        }
    }
    None
}

/// The value of a kind, or the first set bit of a mask, that is missing.
fn hit_of(missing: &Missing, kind: Kind, is_mask: bool, value: u32) -> Option<Hit>
    ensures { MatchOption result (¬ (IsHit missing.now.lines kind is_mask value))
        (λ h. IsHitBy missing.now.lines kind is_mask value h.number h.line) }
{
    if is_mask {
        bit_hit(missing, kind, value)
    } else {
        number_hit(missing, kind, value)
    }
}

/// The same of the kind at a place, if that is the number of it.
fn hit_at(
    missing: &Missing,
    numbers: &Kinds,
    number: u32,
    is_mask: bool,
    value: u32,
    place: usize,
) -> Option<Hit>
    requires { place < KIND_COUNT }
    ensures { MatchOption result
        (¬ (IsHitAt missing.now.lines numbers.now.numbers number is_mask value place))
        (λ h. IsHitAtBy missing.now.lines numbers.now.numbers number is_mask value place h.number h.line) }
{
    if !is_number(numbers.numbers[place], number) {
        return None;
    }
    hit_of(missing, kinds()[place], is_mask, value)
}

/// The value of the kind of that number, or the first set bit of a mask, that is missing.
pub fn any_hit(
    missing: &Missing,
    numbers: &Kinds,
    number: u32,
    is_mask: bool,
    value: u32,
) -> Option<Hit>
    ensures { MatchOption result (¬ (IsAnyHit missing.now.lines numbers.now.numbers number is_mask value))
        (λ h. IsAnyHitBy missing.now.lines numbers.now.numbers number is_mask value h.number h.line) }
{
    for place in 0..KIND_COUNT {
        if let Some(hit) = hit_at(missing, numbers, number, is_mask, value, place) {
            return Some(hit);
        }
    }
    None
}
