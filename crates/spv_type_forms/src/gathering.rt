ghost use Rattle.std.specs.Prelude.{◌≡◌, ◌≤◌, ◌<◌, ℕ, List, Some, IfSome, IfNone, length, take};
ghost use Rattle.spv_module.specs.Module.{plain_operands};
ghost use Rattle.spv_type_kinds.specs.Operands.{ids_in};
ghost use Rattle.spv_type_forms.specs.Values.{types_of};

use crate::definitions::Definitions;
use spv_module::Operand;

/// The most value operands of an instruction that has a number of them of its own.
pub const MOST: usize = 6;

/// Writes the types that the ids at the front of the operands are declared with, and answers how many there are. None
/// where an id has none, or where there are more than fit.
pub fn gather(
    definitions: &Definitions,
    operands: &[Operand],
    types: &mut [u32; MOST],
) -> Option<usize>
    ensures some { IfSome result (λ n. (n ≤ 6)
        × (types_of definitions.now (ids_in (plain_operands operands.now)) ≡ Some (take n types.new))) }
    ensures none { IfNone result ((ts : List ℕ) → types_of definitions.now (ids_in (plain_operands operands.now))
        ≡ Some ts → 6 < length ts) }
{
    let mut count = 0;
    for operand in operands {
        let Operand::Id(x) = operand else {
            return Some(count);
        };
        let tag = definitions.type_of(*x)?;
        if count >= MOST {
            return None;
        }
        types[count] = tag;
        count += 1;
    }
    Some(count)
}
