//! Loop controls, and the weights of branches: O18.

ghost use Rattle.std.specs.Prelude.{◌≡◌, ◌↔◌, ◌≤◌, Some, IsTrue, slice_get};
ghost use Rattle.spv_module.specs.Module.{plain_inst, plain_operands};
ghost use Rattle.spv_module.specs.Operand.{Word};
ghost use Rattle.spv_kernel_operands.specs.Control as spec;
ghost use Rattle.spv_kernel_operands.specs.Value as value;

use crate::value::has_bit;
use spv_module::{Inst, Operand, opcode};

/// Whether a mask has two bits of which one speaks against the other.
fn contradicts(mask: u64) -> bool
    ensures { result ≡ spec.contradicts mask }
{
    (has_bit(mask, 1) && has_bit(mask, 2))
        || (has_bit(mask, 2) && has_bit(mask, 384))
        || (has_bit(mask, 4) && has_bit(mask, 8))
}

/// 1 where a mask has a bit, else 0.
fn one_if(mask: u64, bit: u64) -> usize
    ensures value { result ≡ spec.one_if (value.has_bit mask bit) }
    ensures within { result ≤ 1 }
{
    if has_bit(mask, bit) { 1 } else { 0 }
}

/// How many numbers of lower bits stand before that of IterationMultiple.
fn numbers_before(mask: u64) -> usize
    ensures { result ≡ spec.numbers_before mask }
{
    one_if(mask, 8) + one_if(mask, 16) + one_if(mask, 32)
}

/// Whether the operands of an OpLoopMerge contradict themselves, or have IterationMultiple with the number 0.
fn has_bad_control(operands: &[Operand]) -> bool
    ensures { IsTrue result ↔ spec.HasBadControl (plain_operands operands.now) }
{
    match operands {
        [
            Operand::Id(_),
            Operand::Id(_),
            Operand::Mask { value: mask, .. },
            numbers @ ..,
        ] => {
            let mask = u64::from(*mask);
            contradicts(mask) || (has_bit(mask, 64) && is_zero_at(numbers, numbers_before(mask)))
        }
        _ => false,
    }
}

/// Whether the operand of a number is the literal 0.
fn is_zero_at(operands: &[Operand], k: usize) -> bool
    ensures { IsTrue result ↔ (slice_get (plain_operands operands.now) k ≡ Some (Word 0)) }
{
    match operands.get(k) {
        Some(Operand::Word(number)) => *number == 0,
        _ => false,
    }
}

/// Whether the operands of an OpBranchConditional have two weights whose sum is 0 or takes more than 32 bits.
fn has_bad_weights(operands: &[Operand]) -> bool
    ensures { IsTrue result ↔ spec.HasBadWeights (plain_operands operands.now) }
{
    match operands {
        [
            Operand::Id(_),
            Operand::Id(_),
            Operand::Id(_),
            Operand::Word(one),
            Operand::Word(other),
        ] => {
            let sum = u64::from(*one) + u64::from(*other);
            sum == 0 || 4_294_967_295 < sum
        }
        _ => false,
    }
}

/// Whether an instruction breaks O18.
pub fn is_miscontrolled(inst: &Inst<'_>) -> bool
    ensures { IsTrue result ↔ spec.IsMiscontrolled (plain_inst inst.now) }
{
    match inst.opcode {
        opcode::LOOP_MERGE => has_bad_control(inst.operands.as_slice()),
        opcode::BRANCH_CONDITIONAL => has_bad_weights(inst.operands.as_slice()),
        _ => false,
    }
}
