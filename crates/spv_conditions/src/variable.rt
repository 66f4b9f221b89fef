//! What OpVariable asks of its storage class and its initializer.

ghost use Rattle.std.specs.Prelude.{◌≡◌, ◌≢◌, ◌<◌, ◌↔◌, IsSomeAnd, IsTrue, Some, drop, length};
ghost use Rattle.std.specs.List.{AllByRecursion};
ghost use Rattle.spv_module.specs.Module.{plain_inst, plain_operands};
ghost use Rattle.spv_type_forms.specs.Form.{form_of};
ghost use Rattle.spv_type_kinds.specs.Operands.{ids_in};
ghost use Rattle.spv_type_kinds.specs.Operands as of_operands;
ghost use Rattle.spv_type_forms.specs.Types.{class_in};
ghost use Rattle.spv_conditions.specs.Variable as spec;
ghost use Rattle.spv_conditions.specs.Variable.{HasClass, MayHave, MayInitialize, initializers_in};

use spv_layout::Place;
use spv_module::{Inst, Operand};
use spv_type_forms::{DECLARATIONS, Definitions, Form, after_head, is_constant};

/// The storage class Function.
const FUNCTION: u32 = 7;

/// The storage class Generic.
const GENERIC: u32 = 8;

/// Whether an id may initialize a variable: it is a constant, or a variable of section 9.
pub fn is_initializer(definitions: &Definitions, x: u32) -> bool
    ensures { IsTrue result ↔ MayInitialize definitions.now x }
{
    is_constant(definitions, x) || definitions.is_global(x)
}

/// Whether a place is of section 9, and a storage class neither Function nor Generic.
fn is_global_class(place: Place, class: u32) -> bool
    ensures { IsTrue result ↔ ((place.section ≡ 11) × (class ≢ 7) × (class ≢ 8)) }
{
    place.section == DECLARATIONS && class != FUNCTION && class != GENERIC
}

/// Whether a storage class is one of a variable at an instruction.
pub fn is_class_at(definitions: &Definitions, number: u32, class: u32) -> bool
    requires { number < length definitions.now }
    ensures { IsTrue result ↔ MayHave definitions.now number class }
{
    let place = definitions.place(number);
    match place.function {
        Some(_) => class == FUNCTION,
        None => is_global_class(place, class),
    }
}

/// The storage class of a variable, by what follows its result.
fn class_of(operands: &[Operand]) -> Option<u32>
    ensures { result ≡ spec.class_of (plain_operands operands.now) }
{
    match operands {
        [Operand::Value { value, .. }, ..] => Some(*value),
        _ => None,
    }
}

/// Whether a type is a pointer of a storage class.
fn is_of_class(definitions: &Definitions, t: u32, class: u32) -> bool
    ensures { IsTrue result ↔ (class_in (form_of definitions.now t) ≡ Some class) }
{
    match definitions.form(t) {
        Some(Form::Pointer { class: own, .. }) => own == class,
        _ => false,
    }
}

/// Whether the result type is a pointer of the storage class, by what follows the result.
fn class_fits(definitions: &Definitions, r: Option<u32>, operands: &[Operand]) -> bool
    ensures { IsTrue result ↔ HasClass definitions.now r (plain_operands operands.now) }
{
    match (r, class_of(operands)) {
        (Some(t), Some(class)) => is_of_class(definitions, t, class),
        _ => false,
    }
}

/// Whether the result type is a pointer of the storage class of the variable.
pub fn has_class(definitions: &Definitions, inst: &Inst, r: Option<u32>) -> bool
    ensures { IsTrue result ↔ HasClass definitions.now r (of_operands.after_head (plain_inst inst.now).operands) }
{
    class_fits(definitions, r, after_head(inst.operands.as_slice()))
}

/// Whether the result type is a pointer of the storage class that stands after the first of the operands.
fn next_class_fits(definitions: &Definitions, r: Option<u32>, operands: &[Operand]) -> bool
    ensures { IsTrue result ↔ HasClass definitions.now r (drop 1 (plain_operands operands.now)) }
{
    match operands {
        [_, rest @ ..] => class_fits(definitions, r, rest),
        [] => class_fits(definitions, r, &[]),
    }
}

/// Whether the result type is a pointer of the storage class that stands after the value.
pub fn has_cast_class(definitions: &Definitions, inst: &Inst, r: Option<u32>) -> bool
    ensures { IsTrue result
        ↔ HasClass definitions.now r (drop 1 (of_operands.after_head (plain_inst inst.now).operands)) }
{
    next_class_fits(definitions, r, after_head(inst.operands.as_slice()))
}

/// Whether a variable there may have the storage class, by what follows the result.
fn may_have(definitions: &Definitions, number: u32, operands: &[Operand]) -> bool
    requires { number < length definitions.now }
    ensures { IsTrue result ↔ IsSomeAnd (spec.class_of (plain_operands operands.now))
        (MayHave definitions.now number) }
{
    match class_of(operands) {
        Some(class) => is_class_at(definitions, number, class),
        None => false,
    }
}

/// Whether a variable there may have its storage class.
pub fn is_class_here(definitions: &Definitions, number: u32, inst: &Inst) -> bool
    requires { number < length definitions.now }
    ensures { IsTrue result ↔ IsSomeAnd (spec.class_of (of_operands.after_head (plain_inst inst.now).operands))
        (MayHave definitions.now number) }
{
    may_have(definitions, number, after_head(inst.operands.as_slice()))
}

/// Whether the ids at the front of the operands all may initialize variables.
pub fn all_initialize(definitions: &Definitions, operands: &[Operand]) -> bool
    ensures { IsTrue result ↔ AllByRecursion (MayInitialize definitions.now) (ids_in (plain_operands operands.now)) }
{
    for operand in operands {
        let Operand::Id(x) = operand else {
            return true;
        };
        if !is_initializer(definitions, *x) {
            return false;
        }
    }
    true
}

/// Whether the initializers may be such, by what follows the result.
fn may_initialize(definitions: &Definitions, operands: &[Operand]) -> bool
    ensures { IsTrue result ↔ AllByRecursion (MayInitialize definitions.now)
        (initializers_in (plain_operands operands.now)) }
{
    match operands {
        [Operand::Value { .. }, rest @ ..] => all_initialize(definitions, rest),
        _ => true,
    }
}

/// Whether the initializer of a variable may be one, if it has one.
pub fn is_initialized(definitions: &Definitions, inst: &Inst) -> bool
    ensures { IsTrue result ↔ AllByRecursion (MayInitialize definitions.now)
        (initializers_in (of_operands.after_head (plain_inst inst.now).operands)) }
{
    may_initialize(definitions, after_head(inst.operands.as_slice()))
}
