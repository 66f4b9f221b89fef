//! The rules C1 and M1, at an OpMemoryModel.

ghost use Rattle.std.specs.Prelude.{◌↔◌, ℕ, IsTrue};
ghost use Rattle.spv_module.specs.Module.{plain_operands};
ghost use Rattle.spv_module.specs.declared.fault.Rule.TheVariants as rule;
ghost use Rattle.spv_module.specs.declared.opcode.TheConstants as opcode;
ghost use Rattle.spv_ids.specs.Order.{HasOpcode};
ghost use Rattle.spv_capabilities.specs.inner.Capable.{IsKernel};
ghost use Rattle.spv_capabilities.specs.Memory.{IsModel};
ghost use Rattle.spv_form_evidence.specs.capabilities.Evidence.{IsEvidence, IsOtherModel};
ghost use Rattle.spv_form_evidence.specs.capabilities.inner.Models.{HasAddressing, HasMemory};

use spv_capabilities::Survey;
use spv_evidence::Evidence;
use spv_module::Operand;

/// The capability Shader.
const SHADER: u32 = 1;

/// The capability Kernel.
const KERNEL: u32 = 6;

/// The evidence for C1: that the module has Shader, or that it has not Kernel.
pub fn capability(survey: &Survey<'_, '_>) -> Evidence
    requires { ¬ (IsKernel survey.now.table survey.now.insts) }
    ensures { (n : ℕ) → HasOpcode survey.now.insts n opcode.MEMORY_MODEL
        → IsEvidence survey.now.table survey.now.insts rule.C1 n result }
{
    if survey.has(SHADER) {
        Evidence::Capability {
            capability: SHADER,
            implied: true,
        }
    } else {
        Evidence::Capability {
            capability: KERNEL,
            implied: false,
        }
    }
}

/// Whether the first operand is the addressing model Physical32 or Physical64.
fn has_addressing(operands: &[Operand<'_>]) -> bool
    ensures { IsTrue result ↔ HasAddressing (plain_operands operands.now) }
{
    match operands {
        [Operand::Value { value: 1 | 2, .. }, ..] => true,
        _ => false,
    }
}

/// Whether the second operand is the memory model OpenCL.
fn has_memory(operands: &[Operand<'_>]) -> bool
    ensures { IsTrue result ↔ HasMemory (plain_operands operands.now) }
{
    match operands {
        [_, Operand::Value { value: 2, .. }, ..] => true,
        _ => false,
    }
}

/// The number of the first operand at which M1 fails: the addressing model, the memory model, or one after them.
pub fn operand(operands: &[Operand<'_>]) -> u32
    requires { ¬ (IsModel (plain_operands operands.now)) }
    ensures { IsOtherModel (plain_operands operands.now) result }
{
    if !has_addressing(operands) {
        return 0;
    }
    if !has_memory(operands) {
        return 1;
    }
    2
}
