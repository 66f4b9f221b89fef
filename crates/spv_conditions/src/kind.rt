//! Kinds of types that instructions of groups, pipes and queues ask for.

ghost use Rattle.std.specs.Prelude.{◌↔◌, IsTrue};
ghost use Rattle.spv_type_forms.specs.Types.{IsInt};
ghost use Rattle.spv_conditions.specs.Condition.{IsAcross, IsOf};
ghost use Rattle.spv_type_kinds.specs.declared.kinds.Kind.TheVariants as kind;

use crate::image::is_numeric;
use spv_type_forms::{
    Components, Definitions, Form, Object, Scalar, is_object, is_plain, is_size_array, is_size_int,
    pipe_access,
};

/// Whether a type is an int of width 32.
#[inline(always)]
pub fn is_int_of_32(definitions: &Definitions, t: u32) -> bool
    ensures { IsTrue result ↔ IsInt definitions.now t 32 }
{
    match definitions.form(t) {
        Some(Form::Scalar(Scalar::Int(32))) => true,
        _ => false,
    }
}

/// Whether a type is a scalar, or a vector of scalars.
pub fn is_scalars(definitions: &Definitions, t: u32) -> bool
    ensures { IsTrue result ↔ IsOf definitions.now kind.Scalars t }
{
    match definitions.components(t) {
        Some(_) => true,
        None => false,
    }
}

/// Whether a type is a float of width 32, or a vector of them.
pub fn is_floats_of_32(definitions: &Definitions, t: u32) -> bool
    ensures { IsTrue result ↔ IsOf definitions.now kind.Floats32 t }
{
    match definitions.components(t) {
        Some(
            Components {
                scalar: Scalar::Float(32),
                ..
            },
        ) => true,
        _ => false,
    }
}

/// Whether a type is an int, or a vector of at most three ints.
pub fn is_few_ints(definitions: &Definitions, t: u32) -> bool
    ensures { IsTrue result ↔ IsOf definitions.now kind.FewInts t }
{
    match definitions.components(t) {
        Some(
            Components {
                scalar: Scalar::Int(_),
                count,
            },
        ) => count <= 3,
        _ => false,
    }
}

/// Whether a type is a vector of four ints of width 32.
pub fn is_ballot(definitions: &Definitions, t: u32) -> bool
    ensures { IsTrue result ↔ IsOf definitions.now kind.Ballot t }
{
    match definitions.components(t) {
        Some(
            Components {
                scalar: Scalar::Int(32),
                count: 4,
            },
        ) => true,
        _ => false,
    }
}

/// Whether a type is an int of width 8.
fn is_int_of_8(definitions: &Definitions, t: u32) -> bool
    ensures { IsTrue result ↔ IsInt definitions.now t 8 }
{
    match definitions.form(t) {
        Some(Form::Scalar(Scalar::Int(8))) => true,
        _ => false,
    }
}

/// Whether a type is a pointer to an int of width 8.
pub fn is_int8_pointer(definitions: &Definitions, t: u32) -> bool
    ensures { IsTrue result ↔ IsOf definitions.now kind.Int8Pointer t }
{
    match definitions.pointee(t) {
        Some(pointee) => is_int_of_8(definitions, pointee),
        None => false,
    }
}

/// Whether a type is a pointer to an int of width 32.
pub fn is_int32_pointer(definitions: &Definitions, t: u32) -> bool
    ensures { IsTrue result ↔ IsOf definitions.now kind.Int32Pointer t }
{
    match definitions.pointee(t) {
        Some(pointee) => is_int_of_32(definitions, pointee),
        None => false,
    }
}

/// Whether a type is a pointer to a plain type.
pub fn is_plain_pointer(definitions: &Definitions, t: u32) -> bool
    ensures { IsTrue result ↔ IsOf definitions.now kind.PlainPointer t }
{
    match definitions.pointee(t) {
        Some(pointee) => is_plain(definitions, pointee),
        None => false,
    }
}

/// Whether a type is a pointer to one of such objects.
pub fn is_object_pointer(definitions: &Definitions, object: Object, t: u32) -> bool
    ensures { IsTrue result ↔ IsOf definitions.now (kind.ObjectPointer object) t }
{
    match definitions.pointee(t) {
        Some(pointee) => is_object(definitions, object, pointee),
        None => false,
    }
}

/// Whether a type is a pipe type of that access qualifier.
pub fn is_pipe(definitions: &Definitions, access: u32, t: u32) -> bool
    ensures { IsTrue result ↔ IsOf definitions.now (kind.Pipe access) t }
{
    match pipe_access(definitions, t) {
        Some(own) => own == access,
        None => false,
    }
}

/// Whether a type is a size, or an array of two or three.
pub fn is_sizes(definitions: &Definitions, t: u32) -> bool
    ensures { IsTrue result ↔ IsOf definitions.now kind.Sizes t }
{
    is_size_int(definitions, t)
        || (is_size_array(definitions, 2, t) || is_size_array(definitions, 3, t))
}

/// Whether a type is a pointer to ints or floats.
pub fn is_numbers_pointer(definitions: &Definitions, t: u32) -> bool
    ensures { IsTrue result ↔ IsOf definitions.now kind.NumbersPointer t }
{
    match definitions.pointee(t) {
        Some(pointee) => is_numeric(definitions, pointee),
        None => false,
    }
}

/// Whether two types are pointers, one of the storage class Workgroup and one of CrossWorkgroup.
pub fn is_across(definitions: &Definitions, t: u32, u: u32) -> bool
    ensures { IsTrue result ↔ IsAcross definitions.now t u }
{
    match (definitions.form(t), definitions.form(u)) {
        (Some(Form::Pointer { class: 4, .. }), Some(Form::Pointer { class: 5, .. })) => true,
        (Some(Form::Pointer { class: 5, .. }), Some(Form::Pointer { class: 4, .. })) => true,
        _ => false,
    }
}
