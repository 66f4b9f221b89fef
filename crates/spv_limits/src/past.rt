//! The instructions that pass a limit.

ghost use Rattle.std.specs.Prelude.{◌≡◌, ◌↔◌, ◌⊎◌, ◌<◌, ◌≤◌, ◌+◌, ℕ, List, Some, IsTrue, IfOk, length, slice_get};
ghost use Rattle.spv_module.specs.Module.{plain_inst, plain_operands};
ghost use Rattle.spv_module.specs.Operand.{PlainInst};
ghost use Rattle.spv_limits.specs.Depth.{AreLower};
ghost use Rattle.spv_limits.specs.Past.{IsPast};
ghost use Rattle.spv_limits.specs.declared.past.Counts.{Counts};
ghost use Rattle.spv_limits.specs.inner.Alone.{AreLong, HasTooMany, IsStdCall};
ghost use Rattle.spv_limits.specs.inner.Counting.{AreDepths, IsAnswer, IsTooDeep, IsUpTo};

use crate::counted::{has_long_text, has_too_many, has_too_many_arguments};
use crate::depths::is_too_deep;
use crate::kept::empty_map;
use crate::tallies::{Variables, has_mode_too_many};
use spv_module::{Inst, Operand, opcode};
use spv_std_types::is_std;
use spv_type_forms::Definitions;
use std::alloc::{AllocError, Global};
use std::collections::BTreeMap;

/// Whether operands are those of an instruction of OpenCL.std.
fn is_std_call(definitions: &Definitions, operands: &[Operand<'_>]) -> bool
    ensures { IsTrue result ↔ IsStdCall definitions.now (plain_operands operands.now) }
{
    match operands {
        [
            Operand::OfType(_),
            Operand::Result(_),
            Operand::Id(set),
            Operand::Word(_),
            ..
        ] => is_std(definitions, *set),
        _ => false,
    }
}

/// Takes note of an instruction, and answers whether the struct that it declares has too many members or is too deep.
fn is_struct_past(
    depths: &mut BTreeMap<u32, u32>,
    definitions: &Definitions,
    number: u32,
    inst: &Inst<'_>,
) -> Result<bool, AllocError>
    requires lower { AreLower definitions.now }
    requires there { slice_get definitions.now number ≡ Some (plain_inst inst.now) }
    requires depths { AreDepths definitions.now number depths.old }
    ensures { IfOk result (λ b. IsAnswer b (HasTooMany (plain_inst inst.now) ⊎ IsTooDeep definitions.now number)
        (AreDepths definitions.now (number + 1) depths.new)) }
{
    if has_too_many(inst) {
        return Ok(true);
    }
    Ok(is_too_deep(depths, definitions, number, inst)?)
}

/// So many operands, or fewer, pass no limit on how many there are.
pub const FEW: usize = 255;

/// Whether no instruction of an opcode that has `FEW` operands at most passes a limit but by a text, and none of them
/// is counted.
pub fn is_quiet(number: u16) -> bool
    ensures { IsTrue result → (is : List PlainInst) (n : ℕ) (i : PlainInst) (counts : Counts)
        → slice_get is n ≡ Some i → i.opcode ≡ number → ¬ (AreLong i.operands) → length i.operands ≤ 255
        → IsUpTo is n counts → (¬ (IsPast is n)) × IsUpTo is (n + 1) counts }
{
    match number {
        opcode::TYPE_STRUCT
        | opcode::EXECUTION_MODE
        | opcode::EXECUTION_MODE_ID
        | opcode::VARIABLE
        | opcode::FUNCTION => false,
        _ => true,
    }
}

/// What is counted of the instructions before one.
#[derive(Drop)]
pub struct Counts {
    /// How deep structs are, by their numbers.
    depths: BTreeMap<u32, u32>,
    /// How many execution modes functions have.
    modes: BTreeMap<u32, u32>,
    variables: Variables,
}

impl Counts {
    /// Nothing is counted yet. It takes no memory.
    pub fn new(alloc: Global) -> Counts
        ensures { (is : List PlainInst) → IsUpTo is 0 result }
    {
        Counts {
            depths: empty_map(alloc),
            modes: empty_map(alloc),
            variables: Variables {
                are_local: false,
                count: 0,
            },
        }
    }

    /// Takes note of the instruction of a number, from 0, and answers whether it passes a limit (O22; SPIR-V
    /// Specification 1.6, section 2.17). All before it have been noted, but those of an opcode that `is_quiet`, which
    /// have no text that is too long and `FEW` operands at most. Behind a yes or an error nothing is known of what is
    /// counted.
    ///
    /// Time is near-linear in the words of the instruction. An `AllocError` comes only where a growth of memory was
    /// refused.
    pub fn is_past(&mut self, definitions: &Definitions, number: u32) -> Result<bool, AllocError>
        requires lower { AreLower definitions.now }
        requires number { number < length definitions.now }
        requires counted { IsUpTo definitions.now number self.old }
        ensures { IfOk result (λ b. IsAnswer b (IsPast definitions.now number)
            (IsUpTo definitions.now (number + 1) self.new)) }
    {
        let inst = definitions.inst(number);
        let operands = inst.operands.as_slice();
        if has_long_text(operands) {
            return Ok(true);
        }
        match inst.opcode {
            opcode::TYPE_STRUCT => {
                Ok(is_struct_past(&mut self.depths, definitions, number, inst)?)
            }
            opcode::EXT_INST => {
                Ok(has_too_many_arguments(operands) && is_std_call(definitions, operands))
            }
            opcode::EXECUTION_MODE | opcode::EXECUTION_MODE_ID => {
                Ok(has_mode_too_many(&mut self.modes, inst)?)
            }
            opcode::FUNCTION | opcode::VARIABLE => Ok(self.variables.is_too_many(inst)),
            _ => Ok(has_too_many(inst)),
        }
    }
}
