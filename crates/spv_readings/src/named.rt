//! The id that an operand names, and the instruction that defines it.

ghost use Rattle.std.specs.Prelude.{◌≡◌, ℕ, List, option_and_then, slice_get};
ghost use Rattle.spv_module.specs.Operand.{PlainInst};
ghost use Rattle.spv_module.specs.Module.{plain_inst, plain_operands};
ghost use Rattle.spv_ids.specs.Outcome.{IsDefinitionOf, definition_in};
ghost use Rattle.spv_type_forms.specs.Parts.{id_in};
ghost use Rattle.spv_readings.specs.Named as spec;
ghost use Rattle.spv_readings.specs.Named.{IsDefinedBy};

use spv_ids::Ids;
use spv_module::{Inst, Operand};

/// The id that operand `k` is, if it is one that is neither a type nor a result.
pub fn id_at(operands: &[Operand], k: usize) -> Option<u32>
    ensures { result ≡ option_and_then id_in (slice_get (plain_operands operands.now) k) }
{
    match operands.get(k) {
        Some(Operand::Id(x)) => Some(*x),
        _ => None,
    }
}

/// The id that operand `k` names, if it names one that is defined elsewhere.
fn named_in(operands: &[Operand], k: usize) -> Option<u32>
    ensures { result ≡ option_and_then spec.named_in (slice_get (plain_operands operands.now) k) }
{
    match operands.get(k) {
        Some(Operand::OfType(x) | Operand::Id(x)) => Some(*x),
        _ => None,
    }
}

/// The same of an operand of an instruction, if there is one.
pub fn named_at(inst: &Inst, operand: Option<u32>) -> Option<u32>
    ensures { result ≡ spec.named_at (plain_inst inst.now) operand }
{
    match operand {
        Some(k) => named_in(inst.operands.as_slice(), k as usize),
        None => None,
    }
}

/// The instruction that defines the id that an operand names.
pub fn defined_by(ids: &Ids, inst: &Inst, operand: Option<u32>) -> Option<u32>
    ensures { (is : List PlainInst) → ((x : ℕ) → IsDefinitionOf is x (definition_in ids.now x))
        → IsDefinedBy is (plain_inst inst.now) operand result }
{
    match named_at(inst, operand) {
        Some(x) => ids.definition(x),
        None => None,
    }
}
