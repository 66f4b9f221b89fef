//! The capabilities that types ask for.
ghost use Rattle.std.specs.Prelude.{◌≡◌};
ghost use Rattle.spv_module.specs.Module.{plain_operands};
ghost use Rattle.spv_facts.specs.Texts.{float_needs, int_needs, type_needs, vector_needs, width_needs};

use spv_evidence::Lister;
use spv_module::{Operand, opcode};

/// Of an OpTypeInt: Int16 (22) or Int64 (11).
fn int_needs_of(operands: &[Operand<'_>]) -> &'static [u32]
    ensures { result.now ≡ int_needs (plain_operands operands.now) }
{
    match operands {
        [_, Operand::Word(16), ..] => &[22],
        [_, Operand::Word(64), ..] => &[11],
        _ => &[],
    }
}

/// Of an OpTypeFloat: Float16Buffer (8) or Float16 (9), or Float64 (10).
fn float_needs_of(operands: &[Operand<'_>]) -> &'static [u32]
    ensures { result.now ≡ float_needs (plain_operands operands.now) }
{
    match operands {
        [_, Operand::Word(16), ..] => &[8, 9],
        [_, Operand::Word(64), ..] => &[10],
        _ => &[],
    }
}

/// Of an OpTypeVector: Vector16 (7).
fn vector_needs_of(operands: &[Operand<'_>]) -> &'static [u32]
    ensures { result.now ≡ vector_needs (plain_operands operands.now) }
{
    match operands {
        [_, _, Operand::Word(8), ..] => &[7],
        [_, _, Operand::Word(16), ..] => &[7],
        _ => &[],
    }
}

/// Those of a width or a count.
fn width_needs_of(code: u16, operands: &[Operand<'_>]) -> &'static [u32]
    ensures { result.now ≡ width_needs code (plain_operands operands.now) }
{
    match code {
        opcode::TYPE_INT => int_needs_of(operands),
        opcode::TYPE_FLOAT => float_needs_of(operands),
        opcode::TYPE_VECTOR => vector_needs_of(operands),
        _ => &[],
    }
}

/// The capabilities of which one is needed, by their numbers: of an image or sampler type ImageBasic (13), of an access
/// qualifier ImageReadWrite (14), and of a type of another opcode those of its width or count.
pub fn needs_of(lister: Lister, code: u16, operands: &[Operand<'_>]) -> &'static [u32]
    ensures { result.now ≡ type_needs lister code (plain_operands operands.now) }
{
    match lister {
        Lister::Type => &[13],
        Lister::Access => &[14],
        _ => width_needs_of(code, operands),
    }
}
