//! Image types, pipe types, sizes and ranges.

ghost use Rattle.std.specs.Prelude.{◌≡◌, ◌↔◌, IsTrue, map};
ghost use Rattle.spv_module.specs.Module.{plain_inst, plain_operands};
ghost use Rattle.spv_type_forms.specs.Types.{IsInt};
ghost use Rattle.spv_type_forms.specs.Objects as spec;
ghost use Rattle.spv_type_forms.specs.Objects.{IsSizeInt, IsSizeArray, AreOfRange, IsRangeStruct, IsRange};

use crate::definitions::Definitions;
use crate::form::{Form, Scalar};
use crate::parts::{length, members};
use spv_module::{Inst, Operand, opcode};

/// What an image type says of its images (SPIR-V Specification 1.6, section 3.49.6, OpTypeImage): numbers of that
/// section's words and enumerants.
#[derive(Clone, Copy, PartialEq, Eq)]
pub struct Image {
    /// The type of the parts of what is read from an image.
    pub sampled_type: u32,
    pub dim: u32,
    pub depth: u32,
    pub arrayed: u32,
    pub multisampled: u32,
    /// 0 where the kernel's run tells whether there is a sampler, 1 where there is one, 2 where there is none.
    pub sampled: u32,
    pub access: Option<u32>,
}

/// The enumerant that the operands begin with, if they do.
#[inline(always)]
fn enumerant_in(operands: &[Operand]) -> Option<u32>
    ensures { result ≡ spec.enumerant_in (plain_operands operands.now) }
{
    match operands {
        [Operand::Value { value, .. }, ..] => Some(*value),
        _ => None,
    }
}

/// What the operands of an OpTypeImage say.
pub fn image_in(operands: &[Operand]) -> Option<Image>
    ensures { result ≡ spec.image_in (plain_operands operands.now) }
{
    match operands {
        [
            Operand::Result(_),
            Operand::Id(sampled_type),
            Operand::Value { value: dim, .. },
            Operand::Word(depth),
            Operand::Word(arrayed),
            Operand::Word(multisampled),
            Operand::Word(sampled),
            Operand::Value { .. },
            rest @ ..,
        ] => Some(Image {
            sampled_type: *sampled_type,
            dim: *dim,
            depth: *depth,
            arrayed: *arrayed,
            multisampled: *multisampled,
            sampled: *sampled,
            access: enumerant_in(rest),
        }),
        _ => None,
    }
}

/// What an image type says of its images; none where the id declares no image type.
pub fn image_of(definitions: &Definitions, t: u32) -> Option<Image>
    ensures { result ≡ spec.image_of definitions.now t }
{
    let inst = definitions.definition(t)?;
    match inst.opcode {
        opcode::TYPE_IMAGE => image_in(inst.operands.as_slice()),
        _ => None,
    }
}

/// What the operands of an OpTypePipe say.
fn pipe_access_in(operands: &[Operand]) -> Option<u32>
    ensures { result ≡ spec.pipe_access_in (plain_operands operands.now) }
{
    match operands {
        [Operand::Result(_), rest @ ..] => enumerant_in(rest),
        _ => None,
    }
}

/// The access qualifier of a pipe type; none where the id declares no pipe type.
pub fn pipe_access(definitions: &Definitions, t: u32) -> Option<u32>
    ensures { result ≡ spec.pipe_access_of definitions.now t }
{
    let inst = definitions.definition(t)?;
    match inst.opcode {
        opcode::TYPE_PIPE => pipe_access_in(inst.operands.as_slice()),
        _ => None,
    }
}

/// The addressing model of the instructions of a module: the first operand of the OpMemoryModel.
#[inline(never)]
pub fn addressing(insts: &[Inst]) -> Option<u32>
    ensures { result ≡ spec.addressing_of (map plain_inst insts.now) }
{
    for inst in insts {
        if inst.opcode == opcode::MEMORY_MODEL {
            return enumerant_in(inst.operands.as_slice());
        }
    }
    None
}

/// Whether a type is an int as wide as a size.
pub fn is_size_int(definitions: &Definitions, t: u32) -> bool
    ensures { IsTrue result ↔ IsSizeInt definitions.now t }
{
    match (definitions.size_width(), definitions.read_form(t)) {
        (Some(width), Some(Form::Scalar(Scalar::Int(own)))) => own == width,
        _ => false,
    }
}

/// Whether a type is an array of so many sizes.
pub fn is_size_array(definitions: &Definitions, count: u64, t: u32) -> bool
    ensures { IsTrue result ↔ IsSizeArray definitions.now count t }
{
    match definitions.read_form(t) {
        Some(
            Form::Array {
                element,
                length: id,
            },
        ) => match length(definitions, id) {
            Some(length) => length == count && is_size_int(definitions, element),
            None => false,
        },
        _ => false,
    }
}

/// Whether a type is an int of width 32.
fn is_int32(definitions: &Definitions, t: u32) -> bool
    ensures { IsTrue result ↔ IsInt definitions.now t 32 }
{
    match definitions.read_form(t) {
        Some(Form::Scalar(Scalar::Int(width))) => width == 32,
        _ => false,
    }
}

/// Whether members are those of a range.
fn are_of_range(definitions: &Definitions, members: &[Operand]) -> bool
    ensures { IsTrue result ↔ AreOfRange definitions.now (plain_operands members.now) }
{
    match members {
        [
            Operand::Id(dimensions),
            Operand::Id(offset),
            Operand::Id(global),
            Operand::Id(local),
        ] => is_int32(definitions, *dimensions)
            && is_size_array(definitions, 3, *offset)
            && is_size_array(definitions, 3, *global)
            && is_size_array(definitions, 3, *local),
        _ => false,
    }
}

/// Whether a type is a struct of an int of width 32 and three arrays of three sizes.
pub fn is_range_struct(definitions: &Definitions, t: u32) -> bool
    ensures { IsTrue result ↔ IsRangeStruct definitions.now t }
{
    match (definitions.read_form(t), members(definitions, t)) {
        (Some(Form::Struct), Some(members)) => are_of_range(definitions, members),
        _ => false,
    }
}

/// Whether a type is such a struct, or a pointer to one.
pub fn is_range(definitions: &Definitions, t: u32) -> bool
    ensures { IsTrue result ↔ IsRange definitions.now t }
{
    match definitions.pointee(t) {
        Some(pointee) => is_range_struct(definitions, pointee),
        None => is_range_struct(definitions, t),
    }
}
