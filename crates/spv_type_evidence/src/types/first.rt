//! The first operand of which what is asked does not hold.

ghost use Rattle.std.specs.Prelude.{◌≡◌, IsTrue};
ghost use Rattle.spv_type_evidence.specs.types.inner.First.{IsFirstOf};

/// The first of operands 1 and 2 of which what is asked does not hold, if there is one.
pub fn first_of_two(one: bool, two: bool) -> Option<u32>
    ensures { IsFirstOf (λ k. (k ≡ 1 → IsTrue one) × (k ≡ 2 → IsTrue two)) result }
{
    if !one {
        Some(1)
    } else if !two {
        Some(2)
    } else {
        None
    }
}
