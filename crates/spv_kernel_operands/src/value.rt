//! The values of ids.

ghost use Rattle.std.specs.Prelude.{◌≡◌};
ghost use Rattle.spv_module.specs.Module.{plain_inst, plain_operand, plain_operands};
ghost use Rattle.spv_type_forms.specs.Parts as parts;
ghost use Rattle.spv_kernel_operands.specs.Value as spec;

use spv_module::{Inst, Operand, opcode};
use spv_type_forms::{Definitions, Form, Scalar, type_in};

/// The number of an OpConstant, by its operands.
fn number_in(operands: &[Operand]) -> Option<u64>
    ensures { result ≡ parts.number_in (plain_operands operands.now) }
{
    match operands {
        [
            Operand::OfType(_),
            Operand::Result(_),
            Operand::Number { low, high, .. },
            ..
        ] => Some(u64::from(*low) + 4_294_967_296 * u64::from(*high)),
        _ => None,
    }
}

/// The number of an OpConstant, and 0 of an OpConstantNull.
fn number_of(inst: &Inst<'_>) -> Option<u64>
    ensures { result ≡ spec.number_of (plain_inst inst.now) }
{
    match inst.opcode {
        opcode::CONSTANT => number_in(inst.operands.as_slice()),
        opcode::CONSTANT_NULL => Some(0),
        _ => None,
    }
}

/// Whether an instruction is declared with an int type.
fn has_int_type(definitions: &Definitions, inst: &Inst<'_>) -> bool
    ensures { result ≡ spec.has_int_type definitions.now (plain_inst inst.now) }
{
    match type_in(inst.operands.as_slice()) {
        Some(t) => match definitions.form(t) {
            Some(Form::Scalar(Scalar::Int(_))) => true,
            _ => false,
        },
        None => false,
    }
}

/// The value of an instruction's result.
fn value_by(definitions: &Definitions, inst: &Inst<'_>) -> Option<u64>
    ensures { result ≡ spec.value_by definitions.now (plain_inst inst.now) }
{
    if has_int_type(definitions, inst) {
        number_of(inst)
    } else {
        None
    }
}

/// The value of an id: the number of an OpConstant of int type, and 0 of an OpConstantNull of int type.
fn value_of(definitions: &Definitions, id: u32) -> Option<u64>
    ensures { result ≡ spec.value_of definitions.now id }
{
    match definitions.definition(id) {
        Some(inst) => value_by(definitions, inst),
        None => None,
    }
}

/// The id that an operand is, if it is one.
fn id_in(operand: Operand) -> Option<u32>
    ensures { result ≡ parts.id_in (plain_operand operand.entry) }
{
    match operand {
        Operand::Id(x) => Some(x),
        _ => None,
    }
}

/// The id that the operand of a number is, from 0.
pub fn id_at(operands: &[Operand], k: u32) -> Option<u32>
    ensures { result ≡ spec.id_at (plain_operands operands.now) k }
{
    match operands.get(k as usize) {
        Some(operand) => id_in(*operand),
        None => None,
    }
}

/// The value of the operand of a number, from 0.
pub fn value_at(definitions: &Definitions, operands: &[Operand], k: u32) -> Option<u64>
    ensures { result ≡ spec.value_at definitions.now (plain_operands operands.now) k }
{
    value_of(definitions, id_at(operands, k)?)
}

/// Whether a number has one of the bits of a mask.
pub fn has_bit(number: u64, mask: u64) -> bool
    ensures { result ≡ spec.has_bit number mask }
{
    number & mask != 0
}
