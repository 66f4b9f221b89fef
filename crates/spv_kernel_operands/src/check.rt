//! The first of the rules on operands that is broken at an instruction.

ghost use Rattle.std.specs.Prelude.{◌≡◌, ◌<◌, ℕ, List, Some, None, IsTrue, IfOk, length, slice_get, if◌then◌else◌};
ghost use Rattle.spv_table.specs.Table.{Table};
ghost use Rattle.spv_module.specs.Module.{plain_inst};
ghost use Rattle.spv_module.specs.Operand.{PlainInst};
ghost use Rattle.spv_kernel_operands.specs.Broken.{Broken};
ghost use Rattle.spv_kernel_operands.specs.inner.First.{IsFirstAt, IsFirstInMemory};

use crate::control::is_miscontrolled;
use crate::objects::{is_made_elsewhere, is_void_return};
use crate::pointers::{is_any_atomic, is_empty_copy, is_misatomic, is_miswritten, is_write};
use crate::scopes::is_misscoped;
use crate::seats::is_seatless;
use crate::switch::is_misswitched;
use spv_capabilities::Capabilities;
use spv_module::{Inst, Rule, opcode};
use spv_type_forms::Definitions;
use std::alloc::{AllocError, Global};

/// Whether no instruction of an opcode breaks one of the rules O14 to O20 and O23.
pub fn is_quiet(number: u16) -> bool
    ensures { IsTrue result → (G : Table) (is : List PlainInst) (n : ℕ) (i : PlainInst) → slice_get is n ≡ Some i
        → i.opcode ≡ number → (r : Rule) → ¬ (Broken G is r n) }
{
    match number {
        opcode::LOOP_MERGE
        | opcode::BRANCH_CONDITIONAL
        | opcode::SWITCH
        | opcode::RETURN_VALUE
        | opcode::IMAGE_SAMPLE_EXPLICIT_LOD
        | opcode::IMAGE => false,
        _ => is_seatless(number) && !is_write(number) && !is_any_atomic(number),
    }
}

/// A rule where it is broken.
fn rule_if(rule: Rule, is_broken: bool) -> Option<Rule>
    ensures { result ≡ (if is_broken then Some rule else None) }
{
    if is_broken { Some(rule) } else { None }
}

/// The first of the rules O14 to O17, on scopes, memory and copies, that an instruction breaks.
fn broken_in_memory(
    capabilities: &Capabilities<'_, '_>,
    definitions: &Definitions,
    inst: &Inst<'_>,
) -> Option<Rule>
    requires { capabilities.now.insts ≡ definitions.now }
    ensures { IsFirstInMemory capabilities.now.table definitions.now (plain_inst inst.now) result }
{
    if is_misscoped(definitions, inst) {
        return Some(Rule::O14);
    }
    if is_misatomic(capabilities, definitions, inst) {
        return Some(Rule::O15);
    }
    if is_miswritten(definitions, inst) {
        return Some(Rule::O16);
    }
    if is_empty_copy(definitions, inst) {
        return Some(Rule::O17);
    }
    None
}

/// The first of these rules that the instruction of a number, from 0, breaks (SPIR-V Specification 1.6):
/// - O14: a scope or memory semantics with a value that there may not be there (3.25, 3.27).
/// - O15: an atomic works on a type on which none does (2.16.1).
/// - O16: a write to UniformConstant or Input, or an atomic there (3.7).
/// - O17: an OpCopyMemorySized of nothing (OpCopyMemorySized).
/// - O18: a loop control that contradicts itself, or weights of a branch whose sum is 0 or too great (3.23,
///   OpBranchConditional).
/// - O19: two literals of an OpSwitch are equal, or one is wider than the selector (OpSwitch, 2.2.1).
/// - O20: a value of type void is returned (OpReturnValue).
/// - O23: a sampled image is not made in the block that takes it (OpSampledImage).
///
/// Time is linear in the words of the instruction, but for the logarithm of a sort of the literals of an OpSwitch. An
/// `AllocError` comes only where a growth of memory was refused.
pub fn broken_at(
    alloc: Global,
    capabilities: &Capabilities<'_, '_>,
    definitions: &Definitions,
    number: u32,
) -> Result<Option<Rule>, AllocError>
    requires same { capabilities.now.insts ≡ definitions.now }
    requires number { number < length definitions.now }
    ensures { IfOk result (IsFirstAt capabilities.now.table definitions.now number) }
{
    let inst = definitions.inst(number);
    let rule = match inst.opcode {
        opcode::STORE => rule_if(Rule::O16, is_miswritten(definitions, inst)),
        opcode::LOOP_MERGE | opcode::BRANCH_CONDITIONAL => rule_if(
            Rule::O18,
            is_miscontrolled(inst),
        ),
        opcode::SWITCH => rule_if(Rule::O19, is_misswitched(alloc, definitions, inst)?),
        opcode::RETURN_VALUE => rule_if(Rule::O20, is_void_return(definitions, inst)),
        opcode::IMAGE_SAMPLE_EXPLICIT_LOD | opcode::IMAGE => {
            rule_if(Rule::O23, is_made_elsewhere(definitions, number, inst))
        }
        _ => broken_in_memory(capabilities, definitions, inst),
    };
    Ok(rule)
}
