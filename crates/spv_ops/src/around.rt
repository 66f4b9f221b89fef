//! Value operands that stand among others.

ghost use Rattle.std.specs.Prelude.{◌≡◌, ◌≤◌, ◌<◌, ℕ, List, Some, IfSome, IfNone, length, take};
ghost use Rattle.spv_module.specs.Module.{plain_operands};
ghost use Rattle.spv_type_forms.specs.Values.{types_of};
ghost use Rattle.spv_type_kinds.specs.Operands.{ids_in};
ghost use Rattle.spv_conditions.specs.Group.{all_ids_in};
ghost use Rattle.spv_ops.specs.Values.{others_from};

use spv_module::Operand;
use spv_type_forms::{Definitions, MOST};

/// Writes the types that all ids among operands are declared with, and answers how many there are. None where an id has
/// none, or where there are more than fit.
pub fn gather_all(
    definitions: &Definitions,
    operands: &[Operand],
    types: &mut [u32; MOST],
) -> Option<usize>
    ensures some { IfSome result (λ n. (n ≤ 6)
        × (types_of definitions.now (all_ids_in (plain_operands operands.now)) ≡ Some (take n types.new))) }
    ensures none { IfNone result ((ts : List ℕ) → types_of definitions.now (all_ids_in (plain_operands operands.now))
        ≡ Some ts → 6 < length ts) }
{
    let mut count = 0;
    for operand in operands {
        if let Operand::Id(x) = operand {
            let tag = definitions.type_of(*x)?;
            if count >= MOST {
                return None;
            }
            types[count] = tag;
            count += 1;
        }
    }
    Some(count)
}

/// Writes the types that the ids at the front of the operands are declared with, but for the one of a number, and
/// answers how many there are. None where an id has none, or where there are more than fit.
pub fn gather_beside(
    definitions: &Definitions,
    operands: &[Operand],
    skip: u8,
    types: &mut [u32; MOST],
) -> Option<usize>
    ensures some { IfSome result (λ n. (n ≤ 6)
        × (types_of definitions.now (others_from skip 0 (ids_in (plain_operands operands.now)))
        ≡ Some (take n types.new))) }
    ensures none { IfNone result ((ts : List ℕ)
        → types_of definitions.now (others_from skip 0 (ids_in (plain_operands operands.now))) ≡ Some ts
        → 6 < length ts) }
{
    let mut count = 0;
    let mut at = 0;
    for operand in operands {
        let Operand::Id(x) = operand else {
            return Some(count);
        };
        if at != skip as usize {
            let tag = definitions.type_of(*x)?;
            if count >= MOST {
                return None;
            }
            types[count] = tag;
            count += 1;
        }
        at += 1;
    }
    Some(count)
}
