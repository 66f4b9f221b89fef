//! What ids stand for, noted by id.

ghost use Rattle.std.specs.Prelude.{◌≡◌, Some, IfSome};
ghost use Rattle.spv_module.specs.Module.{plain_inst};
ghost use Rattle.spv_module.specs.Operand.{result_in};
ghost use Rattle.spv_type_forms.specs.declared.form.Form.TheVariants as forms;
ghost use Rattle.spv_type_forms.specs.inner.Meaning as spec;
ghost use Rattle.spv_type_forms.specs.inner.Meaning.{IsSaid, IsMeaningOf};

use crate::form::{Form, Scalar, Sort, form_in};
use spv_module::{Inst, Operand, opcode};
use spv_type_kinds::Object;

/// What an id stands for, as far as it was noted. Each variant has one number at most, so that a list of these is
/// small: vectors have a variant for each count of components that they may have, and pointers one for each storage
/// class that they mostly have.
#[derive(Clone, Copy)]
pub enum Meaning {
    /// Nothing was noted.
    Unknown,
    /// A value that is declared with a type, other than a function.
    Typed(u32),
    /// A data type of which no more was noted.
    Declared,
    Void,
    Bool,
    /// An int of a width in bits.
    Int(u32),
    /// A float of a width in bits.
    Float(u32),
    Struct,
    Opaque,
    Function,
    /// Vectors of two components or more, of a type.
    Vector2(u32),
    Vector3(u32),
    Vector4(u32),
    Vector8(u32),
    Vector16(u32),
    /// Pointers of a storage class to a type: UniformConstant, Input, Workgroup, CrossWorkgroup, Function, Generic.
    UniformConstant(u32),
    Input(u32),
    Workgroup(u32),
    CrossWorkgroup(u32),
    Local(u32),
    Generic(u32),
    Object(Object),
    /// That of the images of a type, with samplers.
    SampledImage(u32),
}

const _: () = prove!(std::mem::size_of::<Meaning>() == 8);

/// What an instruction says of its result.
#[derive(Clone, Copy)]
pub struct Note {
    pub id: u32,
    pub meaning: Meaning,
}

impl Meaning {
    /// The type of a value.
    #[inline(always)]
    pub fn value_type(self) -> Option<u32>
        ensures { result ≡ spec.type_meant self }
    {
        match self {
            Meaning::Typed(t) => Some(t),
            _ => None,
        }
    }

    /// What a type is, as far as it was noted.
    #[inline(always)]
    pub fn form(self) -> Option<Form>
        ensures { result ≡ spec.form_meant self }
    {
        match self {
            Meaning::Unknown | Meaning::Typed(_) | Meaning::Declared => None,
            Meaning::Void => Some(Form::Void),
            Meaning::Bool => Some(Form::Scalar(Scalar::Bool)),
            Meaning::Int(width) => Some(Form::Scalar(Scalar::Int(width))),
            Meaning::Float(width) => Some(Form::Scalar(Scalar::Float(width))),
            Meaning::Struct => Some(Form::Struct),
            Meaning::Opaque => Some(Form::Opaque),
            Meaning::Function => Some(Form::Function),
            Meaning::Vector2(component) => Some(Form::Vector {
                component,
                count: 2,
            }),
            Meaning::Vector3(component) => Some(Form::Vector {
                component,
                count: 3,
            }),
            Meaning::Vector4(component) => Some(Form::Vector {
                component,
                count: 4,
            }),
            Meaning::Vector8(component) => Some(Form::Vector {
                component,
                count: 8,
            }),
            Meaning::Vector16(component) => Some(Form::Vector {
                component,
                count: 16,
            }),
            Meaning::UniformConstant(pointee) => Some(Form::Pointer { class: 0, pointee }),
            Meaning::Input(pointee) => Some(Form::Pointer { class: 1, pointee }),
            Meaning::Workgroup(pointee) => Some(Form::Pointer { class: 4, pointee }),
            Meaning::CrossWorkgroup(pointee) => Some(Form::Pointer { class: 5, pointee }),
            Meaning::Local(pointee) => Some(Form::Pointer { class: 7, pointee }),
            Meaning::Generic(pointee) => Some(Form::Pointer { class: 8, pointee }),
            Meaning::Object(object) => Some(Form::Object(object)),
            Meaning::SampledImage(image) => Some(Form::SampledImage(image)),
        }
    }

    /// The type that a pointer type points to, as far as it was noted.
    #[inline(always)]
    pub fn pointee(self) -> Option<u32>
        ensures { result ≡ spec.pointee_meant self }
    {
        match self {
            Meaning::UniformConstant(pointee)
            | Meaning::Input(pointee)
            | Meaning::Workgroup(pointee)
            | Meaning::CrossWorkgroup(pointee)
            | Meaning::Local(pointee)
            | Meaning::Generic(pointee) => Some(pointee),
            _ => None,
        }
    }

    /// Whether it is that of an int.
    #[inline(always)]
    pub fn is_int(self) -> bool
        ensures { result ≡ spec.is_int self }
    {
        matches!(self, Meaning::Int(_))
    }

    /// Whether it is that of bool.
    #[inline(always)]
    pub fn is_bool(self) -> bool
        ensures { result ≡ spec.is_bool self }
    {
        matches!(self, Meaning::Bool)
    }

    /// Whether it is that of an int or a float of 32 bits or more.
    #[inline(always)]
    pub fn is_wide(self) -> bool
        ensures { result ≡ spec.is_wide self }
    {
        match self {
            Meaning::Int(width) | Meaning::Float(width) => 32 <= width,
            _ => false,
        }
    }

    /// Whether it is that of an int, a float or a bool, by the sort.
    #[inline(always)]
    pub fn is_of(self, sort: Sort) -> bool
        ensures { result ≡ spec.is_of_sort sort self }
    {
        match (sort, self) {
            (Sort::Int, Meaning::Int(_))
            | (Sort::Float, Meaning::Float(_))
            | (Sort::Bool, Meaning::Bool) => true,
            _ => false,
        }
    }

    /// Whether it is that of a data type. A type of which no more was noted is one.
    #[inline(always)]
    pub fn is_data(self) -> bool
        ensures { result ≡ spec.is_data self }
    {
        match self {
            Meaning::Unknown
            | Meaning::Typed(_)
            | Meaning::Void
            | Meaning::Opaque
            | Meaning::Function
            | Meaning::SampledImage(_) => false,
            _ => true,
        }
    }

    /// Whether it is that of a type.
    #[inline(always)]
    pub fn is_type(self) -> bool
        ensures { result ≡ spec.is_declared self }
    {
        match self {
            Meaning::Unknown | Meaning::Typed(_) => false,
            _ => true,
        }
    }
}

/// A vector of so many components of a type.
#[inline(always)]
fn vector(component: u32, count: u32) -> Meaning
    ensures { IsMeaningOf (forms.Vector component count) result }
{
    match count {
        2 => Meaning::Vector2(component),
        3 => Meaning::Vector3(component),
        4 => Meaning::Vector4(component),
        8 => Meaning::Vector8(component),
        16 => Meaning::Vector16(component),
        _ => Meaning::Declared,
    }
}

/// A pointer of a storage class to a type.
#[inline(always)]
fn pointer(class: u32, pointee: u32) -> Meaning
    ensures { IsMeaningOf (forms.Pointer class pointee) result }
{
    match class {
        0 => Meaning::UniformConstant(pointee),
        1 => Meaning::Input(pointee),
        4 => Meaning::Workgroup(pointee),
        5 => Meaning::CrossWorkgroup(pointee),
        7 => Meaning::Local(pointee),
        8 => Meaning::Generic(pointee),
        _ => Meaning::Declared,
    }
}

/// What is noted of a type.
#[inline(always)]
fn meaning_of(form: Form) -> Meaning
    ensures { IsMeaningOf form result }
{
    match form {
        Form::Void => Meaning::Void,
        Form::Scalar(Scalar::Bool) => Meaning::Bool,
        Form::Scalar(Scalar::Int(width)) => Meaning::Int(width),
        Form::Scalar(Scalar::Float(width)) => Meaning::Float(width),
        Form::Vector { component, count } => vector(component, count),
        Form::Array { .. } => Meaning::Declared,
        Form::Struct => Meaning::Struct,
        Form::Opaque => Meaning::Opaque,
        Form::Pointer { class, pointee } => pointer(class, pointee),
        Form::Function => Meaning::Function,
        Form::Object(object) => Meaning::Object(object),
        Form::SampledImage(image) => Meaning::SampledImage(image),
    }
}

/// What is noted of a result that is declared with a type, by an instruction of an opcode.
#[inline(always)]
fn meaning_typed(number: u16, t: u32) -> Meaning
    ensures { result ≡ spec.typed_by number t }
{
    if number == opcode::FUNCTION {
        Meaning::Unknown
    } else {
        Meaning::Typed(t)
    }
}

/// What an instruction whose result is an id says of it, where it declares a type. By a call, so that the loop over all
/// instructions, of which few do, keeps its registers.
#[inline(never)]
fn declared_note(inst: &Inst, id: u32) -> Option<Note>
    ensures id { IfSome result (λ n. n.id ≡ id) }
    ensures said { IfSome result (λ n. IsSaid (plain_inst inst.now) n.meaning) }
{
    let form = form_in(inst)?;
    Some(Note {
        id,
        meaning: meaning_of(form),
    })
}

/// What an instruction says of its result, where its type comes first, or where it declares a type.
#[inline(always)]
pub fn note_in(inst: &Inst) -> Option<Note>
    ensures { IfSome result (λ n. (result_in (plain_inst inst.now).operands ≡ Some n.id)
        × IsSaid (plain_inst inst.now) n.meaning) }
{
    match inst.operands.as_slice() {
        [Operand::OfType(t), Operand::Result(x), ..] => Some(Note {
            id: *x,
            meaning: meaning_typed(inst.opcode, *t),
        }),
        [Operand::Result(x), ..] => declared_note(inst, *x),
        _ => None,
    }
}
