//! The types on the way of literal indexes.

ghost use Rattle.std.specs.Prelude.{◌≡◌, IfOk};
ghost use Rattle.spv_module.specs.Module.{plain_operands};
ghost use Rattle.spv_type_kinds.specs.Operands.{words_in};
ghost use Rattle.spv_readings.specs.Path as spec;

use spv_conditions::part_within;
use spv_module::Operand;
use spv_type_forms::Definitions;
use std::alloc::{AllocError, Global};

/// A type, and those that the literals among the operands lead to as indexes, as far as each is that of a part.
///
/// The error comes when out of memory.
pub fn path_by(
    alloc: Global,
    definitions: &Definitions,
    t: u32,
    operands: &[Operand],
) -> Result<Vec<u32>, AllocError>
    ensures { IfOk result (λ v. v.items ≡ spec.path_by definitions.now (words_in (plain_operands operands.now)) t) }
{
    let mut types = Vec::new(alloc);
    let mut at = t;
    for operand in operands {
        if let Operand::Word(k) = operand {
            types.push(at)?;
            let Some(u) = part_within(definitions, at, *k) else {
                return Ok(types);
            };
            at = u;
        }
    }
    types.push(at)?;
    Ok(types)
}
