//! O3 and O5: entry points of one name, and execution modes.

ghost use Rattle.std.specs.Prelude.{◌↔◌, ◌≡◌, ◌≤◌, ◌+◌, ℕ, List, IfOk, IsTrue, Some, false, length, option_map};
ghost use Rattle.std.specs.Prelude.{slice_get};
ghost use Rattle.spv_module.specs.Operand.{PlainInst};
ghost use Rattle.spv_module.specs.Module.{plain_inst, plain_operands};
ghost use Rattle.spv_declarations.specs.Entry as spec;
ghost use Rattle.spv_declarations.specs.Entry.{IsRepeated, SetsById, TakesId};
ghost use Rattle.spv_declarations.specs.inner.First.{IsFirstBelow};
ghost use Rattle.spv_declarations.specs.inner.Kinds.{AreKinds};
ghost use Rattle.spv_declarations.specs.inner.Named.{AreSeen};

use crate::decorated::has_id_behind;
use crate::kinds::Kinds;
use spv_module::{Inst, Operand, opcode};
use spv_type_forms::Definitions;
use std::alloc::{AllocError, Global};
use std::collections::BTreeSet;

/// The execution model and the name that the operands of an OpEntryPoint have.
fn name_in<'a>(operands: &[Operand<'a>]) -> Option<(u32, &'a str)>
    ensures { option_map (λ p. (p.0, p.1.now)) result ≡ spec.name_in (plain_operands operands.now) }
{
    match operands {
        [
            Operand::Value { value, .. },
            Operand::Id(_),
            Operand::Text(name),
            ..
        ] => Some((*value, *name)),
        _ => None,
    }
}

/// The execution model and the name of an OpEntryPoint.
pub fn named<'a>(inst: &Inst<'a>) -> Option<(u32, &'a str)>
    ensures { option_map (λ p. (p.0, p.1.now)) result ≡ spec.named_by (plain_inst inst.now) }
{
    if inst.opcode == opcode::ENTRY_POINT {
        name_in(inst.operands.as_slice())
    } else {
        None
    }
}

/// Puts the model and the name of an instruction in, if it is an OpEntryPoint; whether they were there.
fn repeats<'a>(seen: &mut BTreeSet<(u32, &'a str)>, inst: &Inst<'a>) -> Result<bool, AllocError>
    ensures { IfOk result (λ yes. (is : List PlainInst) (n : ℕ) → slice_get is n ≡ Some (plain_inst inst.now)
        → AreSeen n is seen.old → (IsTrue yes ↔ IsRepeated is n) × (yes ≡ false → AreSeen (n + 1) is seen.new)) }
{
    match named(inst) {
        Some(entry) => Ok(!seen.insert(entry)?),
        None => Ok(false),
    }
}

/// The first of the first `count` instructions that breaks O3 (SPIR-V Specification 1.6, OpEntryPoint).
///
/// Time is near-linear in the words of these instructions. Where no two of them are OpEntryPoints, it looks at none.
pub fn first_repeated(
    alloc: Global,
    definitions: &Definitions,
    kinds: &Kinds,
    count: u32,
) -> Result<Option<u32>, AllocError>
    requires count { count ≤ length definitions.now }
    requires kinds { AreKinds definitions.now count kinds.now }
    ensures { IfOk result (IsFirstBelow count (IsRepeated definitions.now)) }
{
    if !kinds.entries {
        return Ok(None);
    }
    let mut seen = BTreeSet::new(alloc);
    for number in 0..count {
        if repeats(&mut seen, definitions.inst(number))? {
            return Ok(Some(number));
        }
    }
    Ok(None)
}

/// Whether an instruction is an OpExecutionMode with an id behind its mode.
#[inline(always)]
pub fn takes_id(inst: &Inst<'_>) -> bool
    ensures { IsTrue result ↔ SetsById (plain_inst inst.now) }
{
    inst.opcode == opcode::EXECUTION_MODE && has_id_behind(inst.operands.as_slice())
}

/// The first of the first `count` instructions that breaks O5 (SPIR-V Specification 1.6, OpExecutionMode). It takes no
/// memory.
pub fn first_with_id(definitions: &Definitions, kinds: &Kinds, count: u32) -> Option<u32>
    requires count { count ≤ length definitions.now }
    requires kinds { AreKinds definitions.now count kinds.now }
    ensures { IsFirstBelow count (TakesId definitions.now) result }
{
    if !kinds.by_id {
        return None;
    }
    for number in 0..count {
        if takes_id(definitions.inst(number)) {
            return Some(number);
        }
    }
    None
}
