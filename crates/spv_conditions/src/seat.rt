ghost use Rattle.std.specs.Prelude.{◌≡◌};
ghost use Rattle.spv_conditions.specs.Values as spec;

/// Whose type it is that is looked at.
#[derive(Clone, Copy, PartialEq, Eq)]
pub enum Seat {
    /// The result type.
    Result,
    /// The type of the value operand of that number, from 0.
    Value(u32),
}

/// The type that is looked at, where these are the result type, if there is one, and the types of the value operands.
#[inline(always)]
pub fn type_at(r: Option<u32>, types: &[u32], seat: Seat) -> Option<u32>
    ensures { result ≡ spec.type_at r types.now seat }
{
    match seat {
        Seat::Result => r,
        Seat::Value(k) => types.get(k as usize).copied(),
    }
}
