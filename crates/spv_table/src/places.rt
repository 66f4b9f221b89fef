//! Lists of places by numbers.

ghost use Rattle.std.specs.Prelude.{◌≡◌, ◌<◌, ℕ, length, slice_index_or, OnOk};

use std::alloc::AllocError;

/// Gives a list of places one for a number, if it has none: 4,294,967,295 stands for no place, and in the list's new
/// part.
pub(crate) fn widen(places: &mut Vec<u32>, number: u32) -> Result<(), AllocError>
    ensures kept { (n : ℕ) → slice_index_or places.new.items n 4294967295
        ≡ slice_index_or places.old.items n 4294967295 }
    ensures place { OnOk result (number < length places.new.items) }
{
    let count = number as usize + 1;
    if places.len() < count {
        places.resize(count, u32::MAX)?;
    }
    Ok(())
}
