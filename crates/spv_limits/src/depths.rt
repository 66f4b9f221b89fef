//! How deep structs are.

ghost use Rattle.std.specs.Prelude.{◌≡◌, ◌≤◌, ◌+◌, ℕ, IfOk, Some, max, slice_get};
ghost use Rattle.spv_module.specs.Module.{plain_inst, plain_operand, plain_operands};
ghost use Rattle.spv_limits.specs.Depth.{AreLower};
ghost use Rattle.spv_limits.specs.inner.Counting.{AreDepths, IsAnswer, IsDeepest, IsOperandDepth, IsStructDepth};
ghost use Rattle.spv_limits.specs.inner.Counting.{IsTooDeep};
ghost use Rattle.spv_limits.specs.inner.Kept.{kept};

use crate::kept::{keep, kept_at};
use crate::table::{Limit, most};
use spv_module::{Inst, Operand, opcode};
use spv_type_forms::Definitions;
use std::alloc::AllocError;
use std::collections::BTreeMap;

/// What is kept of the definition of an operand, if it is an id.
fn operand_depth(
    depths: &BTreeMap<u32, u32>,
    definitions: &Definitions,
    operand: Operand<'_>,
) -> u32
    ensures { IsOperandDepth definitions.now depths.now (plain_operand operand.entry) result }
{
    match operand {
        Operand::Id(id) => match definitions.number(id) {
            Some(number) => kept_at(depths, number),
            None => 0,
        },
        _ => 0,
    }
}

/// The greater of two numbers.
fn greater(a: u32, b: u32) -> u32
    ensures { result ≡ max a b }
{
    if a < b { b } else { a }
}

/// How deep the deepest of some members is.
fn deepest(depths: &BTreeMap<u32, u32>, definitions: &Definitions, members: &[Operand<'_>]) -> u32
    requires { (k : ℕ) → kept depths.now k ≤ 255 }
    ensures deepest { IsDeepest definitions.now depths.now (plain_operands members.now) result }
    ensures few { result ≤ 255 }
{
    let mut deepest = 0;
    for k in 0..members.len() {
        deepest = greater(deepest, operand_depth(depths, definitions, members[k]));
    }
    deepest
}

/// How deep a struct of these operands is.
fn struct_depth(
    depths: &BTreeMap<u32, u32>,
    definitions: &Definitions,
    operands: &[Operand<'_>],
) -> u32
    requires { (k : ℕ) → kept depths.now k ≤ 255 }
    ensures { IsStructDepth definitions.now depths.now (plain_operands operands.now) result }
{
    match operands {
        [Operand::Result(_), members @ ..] => deepest(depths, definitions, members) + 1,
        _ => 0,
    }
}

/// Takes note of an instruction, and answers whether the struct that it declares, if it declares one, is too deep.
pub fn is_too_deep(
    depths: &mut BTreeMap<u32, u32>,
    definitions: &Definitions,
    number: u32,
    inst: &Inst<'_>,
) -> Result<bool, AllocError>
    requires lower { AreLower definitions.now }
    requires there { slice_get definitions.now number ≡ Some (plain_inst inst.now) }
    requires depths { AreDepths definitions.now number depths.old }
    ensures { IfOk result (λ b. IsAnswer b (IsTooDeep definitions.now number)
        (AreDepths definitions.now (number + 1) depths.new)) }
{
    if inst.opcode != opcode::TYPE_STRUCT {
        return Ok(false);
    }
    let depth = struct_depth(depths, definitions, inst.operands.as_slice());
    keep(depths, number, depth)?;
    Ok(most(Limit::Depth) < depth)
}
