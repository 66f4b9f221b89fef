//! What OpVariable asks.

ghost use Rattle.std.specs.Prelude.{◌≡◌, ◌↔◌, ◌<◌, Some, IsTrue, IsSomeAnd, length};
ghost use Rattle.std.specs.List.{AllByRecursion};
ghost use Rattle.spv_module.specs.Module.{plain_operands};
ghost use Rattle.spv_type_forms.specs.Values.{types_of};
ghost use Rattle.spv_conditions.specs.Variable.{MayHave, MayInitialize, initializers_in};
ghost use Rattle.spv_type_kinds.specs.Operands.{ids_in};
ghost use Rattle.spv_type_forms.specs.Types.{class_in, PointsTo};
ghost use Rattle.spv_type_forms.specs.Form.{form_of};
ghost use Rattle.spv_ops.specs.inner.Declares.{DeclaresVariable};

use spv_conditions::{all_initialize, is_class_at};
use spv_module::Operand;
use spv_type_forms::{Definitions, Form, all_pointees};

/// Whether r is a pointer of the storage class, which a variable there may have, and the ids may initialize it.
fn may_declare(
    definitions: &Definitions,
    number: u32,
    r: u32,
    class: u32,
    operands: &[Operand],
) -> bool
    requires { number < length definitions.now }
    ensures { IsTrue result ↔ ((class_in (form_of definitions.now r) ≡ Some class)
        × MayHave definitions.now number class × AllByRecursion (MayInitialize definitions.now)
        (ids_in (plain_operands operands.now))) }
{
    match definitions.form(r) {
        Some(Form::Pointer { class: own, .. }) => own == class
            && is_class_at(definitions, number, class)
            && all_initialize(definitions, operands),
        _ => false,
    }
}

/// Whether it may be declared so, and r points to the declared types of the ids.
fn declares(
    definitions: &Definitions,
    number: u32,
    r: u32,
    class: u32,
    operands: &[Operand],
) -> bool
    requires { number < length definitions.now }
    ensures { IsTrue result ↔ IsSomeAnd (types_of definitions.now (ids_in (plain_operands operands.now)))
        (λ types. (class_in (form_of definitions.now r) ≡ Some class) × MayHave definitions.now number class
        × AllByRecursion (MayInitialize definitions.now) (ids_in (plain_operands operands.now))
        × AllByRecursion (PointsTo definitions.now r) types) }
{
    may_declare(definitions, number, r, class, operands) && all_pointees(definitions, r, operands)
}

/// Whether what OpVariable asks holds at the instruction of a number: of the result type and the declared types of the
/// initializers.
pub fn variable_holds(definitions: &Definitions, number: u32, r: u32, operands: &[Operand]) -> bool
    requires { number < length definitions.now }
    ensures { IsTrue result ↔ IsSomeAnd (types_of definitions.now (initializers_in (plain_operands operands.now)))
        (λ types. DeclaresVariable definitions.now number r (plain_operands operands.now) types) }
{
    match operands {
        [Operand::Value { value: class, .. }, rest @ ..] => {
            declares(definitions, number, r, *class, rest)
        }
        _ => false,
    }
}
