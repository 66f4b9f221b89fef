//! The operands of an instruction.

ghost use Rattle.std.specs.Prelude.{◌≡◌, Some, None, ◌↔◌, ◌<◌, [], length, IsTrue, ◌≢◌, ◌+◌};
ghost use Rattle.spv_module.specs.Module.{plain_inst, plain_operands};
ghost use Rattle.spv_type_kinds.specs.Operands.{words_in, ids_in, result_type_in};
ghost use Rattle.spv_type_kinds.specs.Operands as spec;

use spv_module::{Inst, Operand, opcode};

/// What follows the result type and the result.
#[inline(always)]
pub fn after_head<'o, 'a>(operands: &'o [Operand<'a>]) -> &'o [Operand<'a>]
    ensures { plain_operands result.now ≡ spec.after_head (plain_operands operands.now) }
{
    match operands {
        [Operand::OfType(_), Operand::Result(_), rest @ ..] => rest,
        _ => operands,
    }
}

/// The result type, which is the first operand.
pub fn result_type(operands: &[Operand]) -> Option<u32>
    ensures { result ≡ result_type_in (plain_operands operands.now) }
{
    match operands {
        [Operand::OfType(id), ..] => Some(*id),
        _ => None,
    }
}

/// Whether there are literals among the operands.
pub fn has_words(operands: &[Operand]) -> bool
    ensures { IsTrue result ↔ (words_in (plain_operands operands.now) ≢ []) }
{
    for operand in operands {
        if let Operand::Word(_) = operand {
            return true;
        }
    }
    false
}

/// How many literals there are among the operands.
pub fn word_count(operands: &[Operand]) -> usize
    ensures { result ≡ length (words_in (plain_operands operands.now)) }
{
    let mut count = 0;
    for operand in operands {
        if let Operand::Word(_) = operand {
            count += 1;
        }
    }
    count
}

/// How many ids stand at the front of the operands.
pub fn id_count(operands: &[Operand]) -> usize
    ensures { result ≡ length (ids_in (plain_operands operands.now)) }
{
    let mut count = 0;
    for operand in operands {
        let Operand::Id(_) = operand else {
            return count;
        };
        count += 1;
    }
    count
}

/// The function type that an instruction names, if it is an OpFunction. It takes no memory.
pub fn function_type_in(inst: &Inst) -> Option<u32>
    ensures { result ≡ spec.function_type_in (plain_inst inst.now) }
{
    match (inst.opcode, after_head(inst.operands.as_slice())) {
        (opcode::FUNCTION, [_, Operand::Id(t), ..]) => Some(*t),
        _ => None,
    }
}
