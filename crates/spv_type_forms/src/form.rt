ghost use Rattle.std.specs.Prelude.{◌≡◌, ◌↔◌, IsTrue};
ghost use Rattle.spv_module.specs.Module.{plain_inst, plain_operands};
ghost use Rattle.spv_type_forms.specs.Form as spec;
ghost use Rattle.spv_type_forms.specs.Types.{sort_of};

use spv_module::{Inst, Operand, opcode};
use spv_type_kinds::Object;

/// A scalar type (SPIR-V Specification 1.6, section 2.2.2). Ints and floats have a width in bits.
#[derive(Clone, Copy, PartialEq, Eq)]
pub enum Scalar {
    Int(u32),
    Float(u32),
    Bool,
}

/// What a type declaration declares (SPIR-V Specification 1.6, section 3.49.6). Other types are named by their ids. The
/// members of a struct, what a function type returns and takes, what an image type says of its images and a pipe type
/// of its access are read from the declaration.
#[derive(Clone, Copy, PartialEq, Eq)]
pub enum Form {
    Void,
    Scalar(Scalar),
    Vector { component: u32, count: u32 },
    /// `length` is the id of a constant.
    Array { element: u32, length: u32 },
    Struct,
    Opaque,
    /// `class` is the number of the storage class.
    Pointer { class: u32, pointee: u32 },
    Function,
    Object(Object),
    /// The id is that of the image type.
    SampledImage(u32),
}

/// What the operands of OpTypeInt declare.
#[inline(always)]
fn int_in(operands: &[Operand]) -> Option<Form>
    ensures { result ≡ spec.int_in (plain_operands operands.now) }
{
    match operands {
        [Operand::Result(_), Operand::Word(width), ..] => Some(Form::Scalar(Scalar::Int(*width))),
        _ => None,
    }
}

/// What the operands of OpTypeFloat declare.
#[inline(always)]
fn float_in(operands: &[Operand]) -> Option<Form>
    ensures { result ≡ spec.float_in (plain_operands operands.now) }
{
    match operands {
        [Operand::Result(_), Operand::Word(width), ..] => Some(Form::Scalar(Scalar::Float(*width))),
        _ => None,
    }
}

/// What the operands of OpTypeVector declare.
#[inline(always)]
fn vector_in(operands: &[Operand]) -> Option<Form>
    ensures { result ≡ spec.vector_in (plain_operands operands.now) }
{
    match operands {
        [
            Operand::Result(_),
            Operand::Id(component),
            Operand::Word(count),
            ..
        ] => Some(Form::Vector {
            component: *component,
            count: *count,
        }),
        _ => None,
    }
}

/// What the operands of OpTypeArray declare.
#[inline(always)]
pub(crate) fn array_in(operands: &[Operand]) -> Option<Form>
    ensures { result ≡ spec.array_in (plain_operands operands.now) }
{
    match operands {
        [
            Operand::Result(_),
            Operand::Id(element),
            Operand::Id(length),
            ..
        ] => Some(Form::Array {
            element: *element,
            length: *length,
        }),
        _ => None,
    }
}

/// What the operands of OpTypePointer declare.
#[inline(always)]
fn pointer_in(operands: &[Operand]) -> Option<Form>
    ensures { result ≡ spec.pointer_in (plain_operands operands.now) }
{
    match operands {
        [
            Operand::Result(_),
            Operand::Value { value, .. },
            Operand::Id(pointee),
            ..
        ] => Some(Form::Pointer {
            class: *value,
            pointee: *pointee,
        }),
        _ => None,
    }
}

/// What the operands of OpTypeSampledImage declare.
#[inline(always)]
fn sampled_image_in(operands: &[Operand]) -> Option<Form>
    ensures { result ≡ spec.sampled_image_in (plain_operands operands.now) }
{
    match operands {
        [Operand::Result(_), Operand::Id(image), ..] => Some(Form::SampledImage(*image)),
        _ => None,
    }
}

/// What an opcode declares objects of.
#[inline(always)]
pub fn object_of(number: u16) -> Option<Object>
    ensures { result ≡ spec.object_of number }
{
    match number {
        opcode::TYPE_IMAGE => Some(Object::Image),
        opcode::TYPE_SAMPLER => Some(Object::Sampler),
        opcode::TYPE_EVENT => Some(Object::Event),
        opcode::TYPE_DEVICE_EVENT => Some(Object::DeviceEvent),
        opcode::TYPE_RESERVE_ID => Some(Object::ReserveId),
        opcode::TYPE_QUEUE => Some(Object::Queue),
        opcode::TYPE_PIPE => Some(Object::Pipe),
        opcode::TYPE_PIPE_STORAGE => Some(Object::PipeStorage),
        opcode::TYPE_NAMED_BARRIER => Some(Object::NamedBarrier),
        _ => None,
    }
}

/// What an instruction declares, if it is a type declaration.
#[inline(always)]
pub fn form_in(inst: &Inst) -> Option<Form>
    ensures { result ≡ spec.form_in (plain_inst inst.now) }
{
    let operands = inst.operands.as_slice();
    match inst.opcode {
        opcode::TYPE_VOID => Some(Form::Void),
        opcode::TYPE_BOOL => Some(Form::Scalar(Scalar::Bool)),
        opcode::TYPE_INT => int_in(operands),
        opcode::TYPE_FLOAT => float_in(operands),
        opcode::TYPE_VECTOR => vector_in(operands),
        opcode::TYPE_ARRAY => array_in(operands),
        opcode::TYPE_STRUCT => Some(Form::Struct),
        opcode::TYPE_OPAQUE => Some(Form::Opaque),
        opcode::TYPE_POINTER => pointer_in(operands),
        opcode::TYPE_FUNCTION => Some(Form::Function),
        opcode::TYPE_SAMPLED_IMAGE => sampled_image_in(operands),
        number => Some(Form::Object(object_of(number)?)),
    }
}

/// What a scalar type is, whatever its width.
#[derive(Clone, Copy, PartialEq, Eq)]
pub enum Sort {
    Int,
    Float,
    Bool,
}

/// A scalar type, or a vector of it: so many components. A scalar has one.
#[derive(Clone, Copy, PartialEq, Eq)]
pub struct Components {
    pub scalar: Scalar,
    pub count: u32,
}

impl Scalar {
    /// Whether it is an int, a float or a bool, whatever its width.
    #[inline(always)]
    pub fn is_of(self, sort: Sort) -> bool
        ensures { IsTrue result ↔ (sort_of self ≡ sort) }
    {
        match (self, sort) {
            (Scalar::Int(_), Sort::Int) => true,
            (Scalar::Float(_), Sort::Float) => true,
            (Scalar::Bool, Sort::Bool) => true,
            _ => false,
        }
    }
}
