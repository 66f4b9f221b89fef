//! Whether a condition holds.

ghost use Rattle.std.specs.Prelude.{◌≡◌, ◌↔◌, ℕ, IsTrue};
ghost use Rattle.spv_module.specs.Module.{plain_operands, plain_operand};
ghost use Rattle.spv_std_types.specs.Condition as spec;

use crate::condition::{Among, Classes, Condition, Number, Relation, Subject, Wanted};
use spv_conditions::is_of;
use spv_module::Operand;
use spv_type_forms::{Definitions, Form, Scalar, Sort, has_sort};

/// Whether a number is one of some.
fn is_among(among: Among, n: u32) -> bool
    ensures { IsTrue result ↔ spec.IsAmong among n }
{
    match among {
        Among::One(a) => n == a,
        Among::Two(a, b) => n == a || n == b,
        Among::Three(a, b, c) => n == a || n == b || n == c,
        Among::Four(a, b, c, d) => n == a || n == b || n == c || n == d,
        Among::AtMost(a) => n <= a,
        Among::Not(a) => n != a,
    }
}

/// Whether a store may name a storage class.
fn is_stored(class: u32) -> bool
    ensures { IsTrue result ↔ spec.IsStored class }
{
    match class {
        4 | 5 | 7 | 8 => true,
        _ => false,
    }
}

/// Whether a storage class is one of some.
fn is_class(classes: Classes, class: u32) -> bool
    ensures { IsTrue result ↔ spec.IsClass classes class }
{
    match classes {
        Classes::Stored => is_stored(class),
        Classes::Loaded => is_stored(class) || class == 0,
        Classes::Only(own) => class == own,
    }
}

/// How wide a scalar is, in bits; a bool has no width.
fn width_in(scalar: Scalar) -> Option<u32>
    ensures { result ≡ spec.width_in scalar }
{
    match scalar {
        Scalar::Int(width) | Scalar::Float(width) => Some(width),
        Scalar::Bool => None,
    }
}

/// How wide the components of a type are, in bits.
fn width(definitions: &Definitions, t: u32) -> Option<u32>
    ensures { result ≡ spec.width_of definitions.now t }
{
    width_in(definitions.components(t)?.scalar)
}

/// The component type of a type, which is itself where it is a scalar.
fn component(definitions: &Definitions, t: u32) -> Option<u32>
    ensures { result ≡ spec.component_of definitions.now t }
{
    match definitions.form(t)? {
        Form::Scalar(_) => Some(t),
        Form::Vector { component, .. } => Some(component),
        _ => None,
    }
}

/// Whether a type is void.
fn is_void(definitions: &Definitions, t: u32) -> bool
    ensures { IsTrue result ↔ spec.IsVoid definitions.now t }
{
    match definitions.form(t) {
        Some(Form::Void) => true,
        _ => false,
    }
}

/// Whether a type is a float of width 16.
fn is_half(definitions: &Definitions, t: u32) -> bool
    ensures { IsTrue result ↔ spec.IsHalf definitions.now t }
{
    match definitions.form(t) {
        Some(Form::Scalar(Scalar::Float(width))) => width == 16,
        _ => false,
    }
}

/// Whether a type is an int, a float, or a vector of ints or floats.
fn is_numeric(definitions: &Definitions, t: u32) -> bool
    ensures { IsTrue result ↔ spec.IsNumbers definitions.now t }
{
    has_sort(definitions, Sort::Int, t) || has_sort(definitions, Sort::Float, t)
}

/// Whether a type has so many components.
fn has_count(definitions: &Definitions, among: Among, t: u32) -> bool
    ensures { IsTrue result ↔ spec.HasCount definitions.now among t }
{
    match definitions.components(t) {
        Some(components) => is_among(among, components.count),
        None => false,
    }
}

/// Whether the components of a type have such a width.
fn has_width(definitions: &Definitions, among: Among, t: u32) -> bool
    ensures { IsTrue result ↔ spec.HasWidth definitions.now among t }
{
    match width(definitions, t) {
        Some(width) => is_among(among, width),
        None => false,
    }
}

/// Whether a type is a pointer of one of some storage classes.
fn is_pointer_in(definitions: &Definitions, classes: Classes, t: u32) -> bool
    ensures { IsTrue result ↔ spec.IsPointerIn definitions.now classes t }
{
    match definitions.form(t) {
        Some(Form::Pointer { class, .. }) => is_class(classes, class),
        _ => false,
    }
}

/// Whether a type is what it is to be.
fn is_wanted(definitions: &Definitions, wanted: Wanted, t: u32) -> bool
    ensures { IsTrue result ↔ spec.IsWanted definitions.now wanted t }
{
    match wanted {
        Wanted::Kind(kind) => is_of(definitions, kind, t),
        Wanted::Void => is_void(definitions, t),
        Wanted::Numbers => is_numeric(definitions, t),
        Wanted::Half => is_half(definitions, t),
        Wanted::Count(among) => has_count(definitions, among, t),
        Wanted::Width(among) => has_width(definitions, among, t),
        Wanted::Pointer(classes) => is_pointer_in(definitions, classes, t),
    }
}

/// Whether two types have components, and these are as many.
fn has_same_count(definitions: &Definitions, t: u32, u: u32) -> bool
    ensures { IsTrue result ↔ spec.HasSameCount definitions.now t u }
{
    match (definitions.components(t), definitions.components(u)) {
        (Some(own), Some(other)) => own.count == other.count,
        _ => false,
    }
}

/// Whether the components of two types have widths, and these are the same.
fn has_same_width(definitions: &Definitions, t: u32, u: u32) -> bool
    ensures { IsTrue result ↔ spec.HasSameWidth definitions.now t u }
{
    match (width(definitions, t), width(definitions, u)) {
        (Some(own), Some(other)) => own == other,
        _ => false,
    }
}

/// Whether the components of two types have widths, and those of the first are half of those of the second.
fn has_half_width(definitions: &Definitions, t: u32, u: u32) -> bool
    ensures { IsTrue result ↔ spec.HasHalfWidth definitions.now t u }
{
    match (width(definitions, t), width(definitions, u)) {
        (Some(own), Some(other)) => 2 * u64::from(own) == u64::from(other),
        _ => false,
    }
}

/// Whether two types have one component type.
fn has_same_component(definitions: &Definitions, t: u32, u: u32) -> bool
    ensures { IsTrue result ↔ spec.HasSameComponent definitions.now t u }
{
    match (component(definitions, t), component(definitions, u)) {
        (Some(own), Some(other)) => own == other,
        _ => false,
    }
}

/// Whether a type is the component type of another.
fn is_component_of(definitions: &Definitions, t: u32, u: u32) -> bool
    ensures { IsTrue result ↔ spec.IsComponentOf definitions.now t u }
{
    match component(definitions, u) {
        Some(component) => component == t,
        None => false,
    }
}

/// Whether a type stands to another in a relation.
fn agrees(definitions: &Definitions, relation: Relation, t: u32, u: u32) -> bool
    ensures { IsTrue result ↔ spec.Agrees definitions.now relation t u }
{
    match relation {
        Relation::Same => t == u,
        Relation::SameCount => has_same_count(definitions, t, u),
        Relation::SameWidth => has_same_width(definitions, t, u),
        Relation::HalfWidth => has_half_width(definitions, t, u),
        Relation::SameComponent => has_same_component(definitions, t, u),
        Relation::ComponentOf => is_component_of(definitions, t, u),
    }
}

/// The type that an operand is declared with, if it is a value.
fn value_type(definitions: &Definitions, operand: Operand) -> Option<u32>
    ensures { result ≡ spec.value_type definitions.now (plain_operand operand.entry) }
{
    match operand {
        Operand::Argument(x) => definitions.type_of(x),
        _ => None,
    }
}

/// The type of the operand of a number behind the number of the instruction.
fn value_at(definitions: &Definitions, operands: &[Operand], k: u8) -> Option<u32>
    ensures { result ≡ spec.value_at definitions.now (plain_operands operands.now) k }
{
    match operands.get(usize::from(k)) {
        Some(operand) => value_type(definitions, *operand),
        None => None,
    }
}

/// The type that this one points to.
fn pointee_at(definitions: &Definitions, operands: &[Operand], k: u8) -> Option<u32>
    ensures { result ≡ spec.pointee_at definitions.now (plain_operands operands.now) k }
{
    definitions.pointee(value_at(definitions, operands, k)?)
}

/// The type that is looked at, where r is the result type and these are the operands behind the number of the
/// instruction.
fn type_at(definitions: &Definitions, r: u32, operands: &[Operand], subject: Subject) -> Option<u32>
    ensures { result ≡ spec.type_at definitions.now r (plain_operands operands.now) subject }
{
    match subject {
        Subject::Result => Some(r),
        Subject::Value(k) => value_at(definitions, operands, k),
        Subject::Pointee(k) => pointee_at(definitions, operands, k),
    }
}

/// The number that an operand is, if it is one.
fn number_in(operand: Operand) -> Option<u32>
    ensures { result ≡ spec.number_in (plain_operand operand.entry) }
{
    match operand {
        Operand::Id(n) => Some(n),
        _ => None,
    }
}

/// The number that the operand of a number is.
fn number_at(operands: &[Operand], k: u8) -> Option<u32>
    ensures { result ≡ spec.number_at (plain_operands operands.now) k }
{
    match operands.get(usize::from(k)) {
        Some(operand) => number_in(*operand),
        None => None,
    }
}

/// Whether a number is what it is to be, where r is the result type.
fn is_number(definitions: &Definitions, r: u32, wanted: Number, n: u32) -> bool
    ensures { IsTrue result ↔ spec.IsNumber definitions.now r wanted n }
{
    match wanted {
        Number::Count => has_count(definitions, Among::One(n), r),
        Number::Rounding => n <= 3,
    }
}

/// Whether a condition holds, where r is the result type and these are the operands behind the number of the
/// instruction.
pub fn holds(definitions: &Definitions, r: u32, operands: &[Operand], condition: Condition) -> bool
    ensures { IsTrue result ↔ spec.Holds definitions.now r (plain_operands operands.now) condition }
{
    match condition {
        Condition::Type { of, wanted } => match type_at(definitions, r, operands, of) {
            Some(t) => is_wanted(definitions, wanted, t),
            None => false,
        },
        Condition::Relation { of, relation, to } => match (
            type_at(definitions, r, operands, of),
            type_at(definitions, r, operands, to),
        ) {
            (Some(t), Some(u)) => agrees(definitions, relation, t, u),
            _ => false,
        },
        Condition::Number { at, wanted } => match number_at(operands, at) {
            Some(n) => is_number(definitions, r, wanted, n),
            None => false,
        },
    }
}
