//! Whether a condition holds.

ghost use Rattle.std.specs.Prelude.{◌≡◌, ◌<◌, ◌↔◌, ℕ, IsTrue, length};
ghost use Rattle.spv_module.specs.Module.{plain_inst};
ghost use Rattle.spv_type_forms.specs.Types.{IsPointer, IsVector, PointsTo};
ghost use Rattle.spv_type_kinds.specs.declared.kinds.Kind.TheVariants as kind;
ghost use Rattle.spv_type_kinds.specs.declared.kinds.Relation.TheVariants as relation;
ghost use Rattle.spv_conditions.specs.Condition.{Agrees, HasOtherScalar, HasResult, HasSameBits, HasSameCount};
ghost use Rattle.spv_conditions.specs.Condition.{IsChoice, IsNamedClass, IsOf, bits_of};
ghost use Rattle.spv_conditions.specs.inner.Direct.{AgreesDirectly, HoldsDirectly};

use crate::asked::Asked;
use crate::constituents::is_pair_of;
use crate::image::{
    is_coordinate, is_extent, is_image, is_int_coordinate, is_place, is_sampled, is_sampled_of,
    is_texel, is_texel_pointer,
};
use crate::kind::{
    is_across, is_ballot, is_few_ints, is_floats_of_32, is_int_of_32, is_int8_pointer,
    is_int32_pointer, is_numbers_pointer, is_object_pointer, is_pipe, is_plain_pointer, is_scalars,
    is_sizes,
};
use crate::rest::rest_holds;
use crate::seat::type_at;
use spv_module::Inst;
use spv_type_forms::{
    Components, Definitions, Form, Scalar, Sort, has_sort, is_data, is_int, is_number, is_object,
    is_plain, is_range, is_range_struct, is_size_int, points_to,
};
use spv_type_kinds::{Kind, Relation};

/// Whether a type is a bool.
#[inline(always)]
fn is_bool(definitions: &Definitions, t: u32) -> bool
    ensures { IsTrue result ↔ IsOf definitions.now kind.Bool t }
{
    match definitions.form(t) {
        Some(Form::Scalar(Scalar::Bool)) => true,
        _ => false,
    }
}

/// Whether a type is a pointer.
fn is_pointer(definitions: &Definitions, t: u32) -> bool
    ensures { IsTrue result ↔ IsOf definitions.now kind.Pointer t }
{
    match definitions.pointee(t) {
        Some(_) => true,
        None => false,
    }
}

/// Whether a type is a pointer of a storage class.
#[inline(always)]
fn is_pointer_of(definitions: &Definitions, t: u32, class: u32) -> bool
    ensures { IsTrue result ↔ ((p : ℕ) × IsPointer definitions.now t class p) }
{
    match definitions.form(t) {
        Some(Form::Pointer { class: own, .. }) => own == class,
        _ => false,
    }
}

/// Whether a storage class is Workgroup, CrossWorkgroup or Function.
fn is_named_class(class: u32) -> bool
    ensures { IsTrue result ↔ IsNamedClass class }
{
    match class {
        4 | 5 | 7 => true,
        _ => false,
    }
}

/// Whether a type is a pointer of such a storage class.
fn is_named_pointer(definitions: &Definitions, t: u32) -> bool
    ensures { IsTrue result ↔ IsOf definitions.now kind.NamedPointer t }
{
    match definitions.form(t) {
        Some(Form::Pointer { class, .. }) => is_named_class(class),
        _ => false,
    }
}

/// Whether a type is a vector.
fn is_vector(definitions: &Definitions, t: u32) -> bool
    ensures { IsTrue result ↔ IsOf definitions.now kind.Vector t }
{
    match definitions.form(t) {
        Some(Form::Vector { .. }) => true,
        _ => false,
    }
}

/// Whether a type is a vector of four components.
fn is_four(definitions: &Definitions, t: u32) -> bool
    ensures { IsTrue result ↔ IsOf definitions.now kind.Four t }
{
    match definitions.form(t) {
        Some(Form::Vector { count: 4, .. }) => true,
        _ => false,
    }
}

/// Whether a type is a vector, a struct or an array.
fn is_composite(definitions: &Definitions, t: u32) -> bool
    ensures { IsTrue result ↔ IsOf definitions.now kind.Composite t }
{
    match definitions.form(t) {
        Some(Form::Vector { .. } | Form::Struct | Form::Array { .. }) => true,
        _ => false,
    }
}

/// Whether a type is of a kind.
#[inline(always)]
pub fn is_of(definitions: &Definitions, kind: Kind, t: u32) -> bool
    ensures { IsTrue result ↔ IsOf definitions.now kind t }
{
    match kind {
        Kind::Int => is_int(definitions, t),
        Kind::Int32 => is_int_of_32(definitions, t),
        Kind::Number => is_number(definitions, t),
        Kind::Bool => is_bool(definitions, t),
        Kind::Data => is_data(definitions, t),
        Kind::Plain => is_plain(definitions, t),
        Kind::Ints => has_sort(definitions, Sort::Int, t),
        Kind::Floats => has_sort(definitions, Sort::Float, t),
        Kind::Bools => has_sort(definitions, Sort::Bool, t),
        Kind::Pointer => is_pointer(definitions, t),
        Kind::FunctionPointer => is_pointer_of(definitions, t, 7),
        Kind::GenericPointer => is_pointer_of(definitions, t, 8),
        Kind::NamedPointer => is_named_pointer(definitions, t),
        Kind::Vector => is_vector(definitions, t),
        Kind::Composite => is_composite(definitions, t),
        Kind::Scalars => is_scalars(definitions, t),
        Kind::Floats32 => is_floats_of_32(definitions, t),
        Kind::FewInts => is_few_ints(definitions, t),
        Kind::Ballot => is_ballot(definitions, t),
        Kind::Int8Pointer => is_int8_pointer(definitions, t),
        Kind::Int32Pointer => is_int32_pointer(definitions, t),
        Kind::PlainPointer => is_plain_pointer(definitions, t),
        Kind::GlobalPointer => is_pointer_of(definitions, t, 5),
        Kind::Object(object) => is_object(definitions, object, t),
        Kind::ObjectPointer(object) => is_object_pointer(definitions, object, t),
        Kind::Pipe(access) => is_pipe(definitions, access, t),
        Kind::Size => is_size_int(definitions, t),
        Kind::Sizes => is_sizes(definitions, t),
        Kind::RangeStruct => is_range_struct(definitions, t),
        Kind::Range => is_range(definitions, t),
        Kind::NumbersPointer => is_numbers_pointer(definitions, t),
        Kind::Image(images) => is_image(definitions, images, t),
        Kind::SampledImage => is_sampled(definitions, t),
        Kind::Four => is_four(definitions, t),
    }
}

/// Whether two types have components, and these are as many.
#[inline(always)]
fn has_same_count(definitions: &Definitions, t: u32, u: u32) -> bool
    ensures { IsTrue result ↔ HasSameCount definitions.now t u }
{
    match (definitions.components(t), definitions.components(u)) {
        (Some(some), Some(others)) => some.count == others.count,
        _ => false,
    }
}

/// Whether two types have components, and these are other scalars.
#[inline(always)]
fn has_other_scalar(definitions: &Definitions, t: u32, u: u32) -> bool
    ensures { IsTrue result ↔ HasOtherScalar definitions.now t u }
{
    match (definitions.components(t), definitions.components(u)) {
        (Some(some), Some(others)) => some.scalar != others.scalar,
        _ => false,
    }
}

/// How many bits the components of an int or float type have, or of a vector of it.
fn bits(definitions: &Definitions, t: u32) -> Option<u64>
    ensures { result ≡ bits_of definitions.now t }
{
    let components = definitions.components(t)?;
    match components.scalar {
        Scalar::Int(width) | Scalar::Float(width) => Some(
            u64::from(components.count) * u64::from(width),
        ),
        Scalar::Bool => None,
    }
}

/// Whether two types have as many bits, or are pointers of one storage class.
fn has_same_bits(definitions: &Definitions, t: u32, u: u32) -> bool
    ensures { IsTrue result ↔ HasSameBits definitions.now t u }
{
    match (definitions.form(t), definitions.form(u)) {
        (Some(Form::Pointer { class: from, .. }), Some(Form::Pointer { class: to, .. })) => from
            == to,
        _ => match (bits(definitions, t), bits(definitions, u)) {
            (Some(from), Some(to)) => from == to,
            _ => false,
        },
    }
}

/// Whether a type is bool, or a vector of bools beside a vector of as many components.
fn chooses(definitions: &Definitions, t: u32, u: u32) -> bool
    ensures { IsTrue result ↔ IsChoice definitions.now t u }
{
    match (
        definitions.form(t),
        definitions.form(u),
        definitions.components(t),
    ) {
        (Some(Form::Scalar(Scalar::Bool)), _, _) => true,
        (
            _,
            Some(Form::Vector { count: n, .. }),
            Some(
                Components {
                    scalar: Scalar::Bool,
                    count: m,
                },
            ),
        ) => n == m,
        _ => false,
    }
}

/// Whether two types are pointers to one type.
fn has_same_pointee(definitions: &Definitions, t: u32, u: u32) -> bool
    ensures { IsTrue result ↔ ((p : ℕ) × PointsTo definitions.now t p × PointsTo definitions.now u p) }
{
    match (definitions.pointee(t), definitions.pointee(u)) {
        (Some(to), Some(from)) => to == from,
        _ => false,
    }
}

/// Whether two types are pointers of one storage class.
fn has_same_class(definitions: &Definitions, t: u32, u: u32) -> bool
    ensures { IsTrue result ↔ Agrees definitions.now relation.SameClass t u }
{
    match (definitions.form(t), definitions.form(u)) {
        (Some(Form::Pointer { class: own, .. }), Some(Form::Pointer { class: other, .. })) => own
            == other,
        _ => false,
    }
}

/// Whether a type is a vector of a component type.
#[inline(always)]
fn is_vector_of(definitions: &Definitions, t: u32, c: u32) -> bool
    ensures { IsTrue result ↔ ((n : ℕ) × IsVector definitions.now t c n) }
{
    match definitions.form(t) {
        Some(Form::Vector { component, .. }) => component == c,
        _ => false,
    }
}

/// Whether two types are vectors of one component type.
fn has_same_component(definitions: &Definitions, t: u32, u: u32) -> bool
    ensures { IsTrue result ↔ Agrees definitions.now relation.SameComponent t u }
{
    match (definitions.form(t), definitions.form(u)) {
        (Some(Form::Vector { component: c, .. }), Some(Form::Vector { component: d, .. })) => c
            == d,
        _ => false,
    }
}

/// Whether a type stands to another in a relation, other than that it matches it.
#[inline(always)]
fn agrees(definitions: &Definitions, relation: Relation, t: u32, u: u32) -> bool
    ensures { IsTrue result ↔ AgreesDirectly definitions.now relation t u }
{
    match relation {
        Relation::Same => t == u,
        Relation::SameCount => has_same_count(definitions, t, u),
        Relation::OtherWidth => has_other_scalar(definitions, t, u),
        Relation::SameBits => has_same_bits(definitions, t, u),
        Relation::Chooses => chooses(definitions, t, u),
        Relation::PointsTo => points_to(definitions, t, u),
        Relation::SamePointee => has_same_pointee(definitions, t, u),
        Relation::SameClass => has_same_class(definitions, t, u),
        Relation::VectorOf => is_vector_of(definitions, t, u),
        Relation::ComponentOf => is_vector_of(definitions, u, t),
        Relation::SameComponent => has_same_component(definitions, t, u),
        Relation::PairOf => is_pair_of(definitions, t, u),
        Relation::Across => is_across(definitions, t, u),
        Relation::SampledImageOf => is_sampled_of(definitions, t, u),
        Relation::TexelPointer => is_texel_pointer(definitions, t, u),
        Relation::Place => is_place(definitions, t, u),
        Relation::IntCoordinate => is_int_coordinate(definitions, t, u),
        Relation::Coordinate => is_coordinate(definitions, t, u),
        Relation::Extent => is_extent(definitions, t, u),
        Relation::Texel => is_texel(definitions, t, u),
        // That a type matches another is told by numbers of all types, and not here.
        Relation::Matches => false,
    }
}

/// Whether there is a result type, or none.
#[inline(always)]
fn has_result(result_type: Option<u32>, there: bool) -> bool
    ensures { IsTrue result ↔ HasResult there result_type }
{
    match result_type {
        Some(_) => there,
        None => !there,
    }
}

/// Whether there is a result type, or none, and so many values.
#[inline(always)]
fn has_operands(r: Option<u32>, types: &[u32], there: bool, count: u32) -> bool
    ensures { IsTrue result ↔ (HasResult there r × (length types.now ≡ count)) }
{
    has_result(r, there) && types.len() == count as usize
}

/// Whether a condition holds at the instruction of a number, of its result type, if it has one, and of the types of its
/// value operands in order. That a type matches another is not decided here, and answered in the negative.
#[inline(always)]
pub fn holds(
    definitions: &Definitions,
    number: u32,
    inst: &Inst,
    r: Option<u32>,
    types: &[u32],
    asked: Asked,
) -> bool
    requires { number < length definitions.now }
    ensures { IsTrue result ↔ HoldsDirectly definitions.now number (plain_inst inst.now) r types.now asked }
{
    match asked {
        Asked::Operands {
            result: there,
            values: count,
        } => has_operands(r, types, there, count),
        Asked::Kind { kind, of } => match type_at(r, types, of) {
            Some(t) => is_of(definitions, kind, t),
            None => false,
        },
        Asked::Relation { relation, of, to } => {
            match (type_at(r, types, of), type_at(r, types, to)) {
                (Some(t), Some(u)) => agrees(definitions, relation, t, u),
                _ => false,
            }
        }
        Asked::Rest(rest) => rest_holds(definitions, number, inst, r, types, rest),
    }
}
