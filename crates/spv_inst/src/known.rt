//! What is known of an instruction after some operands.

ghost use Rattle.std.specs.Prelude.{◌≡◌, ◌++◌, ◌∷◌, []};
ghost use Rattle.spv_module.specs.Module.{plain_operand, plain_operands};
ghost use Rattle.spv_module.specs.Operand.{type_in};
ghost use Rattle.spv_module.specs.Width.{first_id};

use crate::reader::Known;
use spv_module::Operand;

/// The result type that an operand is.
fn type_in_operand(operand: &Operand<'_>) -> Option<u32>
    ensures { result ≡ type_in (plain_operand operand.now ∷ []) }
{
    match operand {
        Operand::OfType(id) => Some(*id),
        Operand::Result(_)
        | Operand::Id(_)
        | Operand::Word(_)
        | Operand::Number { .. }
        | Operand::Text(_)
        | Operand::Value { .. }
        | Operand::Mask { .. }
        | Operand::Argument(_)
        | Operand::Mention(_) => None,
    }
}

/// The id that an operand is.
fn id_in_operand(operand: &Operand<'_>) -> Option<u32>
    ensures { result ≡ first_id (plain_operand operand.now ∷ []) }
{
    match operand {
        Operand::OfType(id) | Operand::Result(id) | Operand::Id(id) => Some(*id),
        Operand::Word(_)
        | Operand::Number { .. }
        | Operand::Text(_)
        | Operand::Value { .. }
        | Operand::Mask { .. }
        | Operand::Argument(_)
        | Operand::Mention(_) => None,
    }
}

/// What is known after one operand more, where `operands` are the instruction's operands before it: the first id of a
/// result's type counts, and the first operand.
pub fn known_after(known: Known, operands: &[Operand<'_>], operand: &Operand<'_>) -> Known
    ensures opcode { result.opcode ≡ known.opcode }
    ensures type_id { known.type_id ≡ type_in (plain_operands operands.now)
        → result.type_id ≡ type_in (plain_operands operands.now ++ plain_operand operand.now ∷ []) }
    ensures first { known.first ≡ first_id (plain_operands operands.now)
        → result.first ≡ first_id (plain_operands operands.now ++ plain_operand operand.now ∷ []) }
{
    let type_id = match known.type_id {
        Some(id) => Some(id),
        None => type_in_operand(operand),
    };
    let first = match operands.first() {
        Some(_) => known.first,
        None => id_in_operand(operand),
    };
    Known {
        opcode: known.opcode,
        type_id,
        first,
    }
}

/// What is known after some operands of an instruction: the first id of a result's type counts, and the first operand.
pub fn known_of(opcode: u16, operands: &[Operand<'_>]) -> Known
    ensures opcode { result.opcode ≡ opcode }
    ensures type_id { result.type_id ≡ type_in (plain_operands operands.now) }
    ensures first { result.first ≡ first_id (plain_operands operands.now) }
{
    let first = match operands {
        [first, ..] => id_in_operand(first),
        [] => None,
    };
    Known {
        opcode,
        type_id: spv_module::type_in(operands),
        first,
    }
}
