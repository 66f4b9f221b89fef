//! What a type is.

ghost use Rattle.std.specs.Prelude.{◌≡◌, ◌↔◌, Some, None, IsTrue};
ghost use Rattle.spv_type_forms.specs.Form.{form_of};
ghost use Rattle.spv_type_forms.specs.inner.Meaning.{IsWide};
ghost use Rattle.spv_type_forms.specs.inner.Tests.{is_int_form};
ghost use Rattle.spv_type_forms.specs.Types.{IsBool, IsSomeInt, IsNumber, PointsTo, IsData, IsObject, IsPlain, HasSort};

use crate::definitions::Definitions;
use crate::form::{Form, Scalar, Sort};
use spv_type_kinds::Object;

/// Whether a type is a pointer to another, by its definition.
#[inline(never)]
fn defined_points_to(definitions: &Definitions, t: u32, to: u32) -> bool
    ensures { IsTrue result ↔ PointsTo definitions.now t to }
{
    match definitions.pointee(t) {
        Some(pointee) => pointee == to,
        None => false,
    }
}

/// Whether a type is a pointer to another.
#[inline(always)]
pub fn points_to(definitions: &Definitions, t: u32, to: u32) -> bool
    ensures { IsTrue result ↔ PointsTo definitions.now t to }
{
    match definitions.meaning(t).pointee() {
        Some(pointee) => pointee == to,
        None => defined_points_to(definitions, t, to),
    }
}

/// Whether a type is an int, by its definition.
#[inline(never)]
fn defined_int(definitions: &Definitions, t: u32) -> bool
    ensures { result ≡ is_int_form (form_of definitions.now t) }
{
    match definitions.form(t) {
        Some(Form::Scalar(Scalar::Int(_))) => true,
        _ => false,
    }
}

/// Whether a type is an int. Most that are asked for are.
#[inline(always)]
pub fn is_int(definitions: &Definitions, t: u32) -> bool
    ensures some { IsTrue result ↔ IsSomeInt definitions.now t }
    ensures form { result ≡ is_int_form (form_of definitions.now t) }
{
    definitions.meaning(t).is_int() || defined_int(definitions, t)
}

/// Whether it is noted of a type that it is an int or a float of 32 bits or more. Of some types nothing is noted.
#[inline(always)]
pub fn is_noted_wide(definitions: &Definitions, t: u32) -> bool
    ensures { IsTrue result → IsWide definitions.now t }
{
    definitions.meaning(t).is_wide()
}

/// Whether a type is bool, by its definition.
#[inline(never)]
fn defined_bool(definitions: &Definitions, t: u32) -> bool
    ensures { IsTrue result ↔ IsBool definitions.now t }
{
    match definitions.form(t) {
        Some(Form::Scalar(Scalar::Bool)) => true,
        _ => false,
    }
}

/// Whether a type is bool. Most that are asked for are.
#[inline(always)]
pub fn is_bool(definitions: &Definitions, t: u32) -> bool
    ensures { IsTrue result ↔ IsBool definitions.now t }
{
    definitions.meaning(t).is_bool() || defined_bool(definitions, t)
}

/// Whether a type is an int or a float.
pub fn is_number(definitions: &Definitions, t: u32) -> bool
    ensures { IsTrue result ↔ IsNumber definitions.now t }
{
    match definitions.read_form(t) {
        Some(Form::Scalar(Scalar::Int(_) | Scalar::Float(_))) => true,
        _ => false,
    }
}

/// Whether a type is an int, float or bool type or a vector of it.
#[inline(always)]
pub fn has_sort(definitions: &Definitions, sort: Sort, t: u32) -> bool
    ensures { IsTrue result ↔ HasSort sort definitions.now t }
{
    definitions.meaning(t).is_of(sort) || has_components_of(definitions, sort, t)
}

/// Whether the components of a type, if it has any, are ints, floats or bools.
#[inline(never)]
fn has_components_of(definitions: &Definitions, sort: Sort, t: u32) -> bool
    ensures { IsTrue result ↔ HasSort sort definitions.now t }
{
    match definitions.components(t) {
        Some(components) => components.scalar.is_of(sort),
        None => false,
    }
}

/// Whether a type is a data type, by its definition.
#[inline(never)]
fn defined_data(definitions: &Definitions, t: u32) -> bool
    ensures { IsTrue result ↔ IsData definitions.now t }
{
    match definitions.form(t) {
        None | Some(Form::Void | Form::Opaque | Form::Function | Form::SampledImage(_)) => false,
        Some(_) => true,
    }
}

/// Whether a type is an int, float, bool, vector, array, struct or pointer type, or one of objects.
#[inline(always)]
pub fn is_data(definitions: &Definitions, t: u32) -> bool
    ensures { IsTrue result ↔ IsData definitions.now t }
{
    definitions.meaning(t).is_data() || defined_data(definitions, t)
}

/// Whether a type is an int, float, bool, vector, array, struct or pointer type.
pub fn is_plain(definitions: &Definitions, t: u32) -> bool
    ensures { IsTrue result ↔ IsPlain definitions.now t }
{
    match definitions.read_form(t) {
        Some(Form::Object(_)) => false,
        _ => is_data(definitions, t),
    }
}

/// Whether a type is one of such objects.
pub fn is_object(definitions: &Definitions, object: Object, t: u32) -> bool
    ensures { IsTrue result ↔ IsObject definitions.now object t }
{
    match definitions.read_form(t) {
        Some(Form::Object(own)) => own == object,
        _ => false,
    }
}
