ghost use Rattle.std.specs.Prelude.{◌≡◌, ◌<◌, ◌↔◌, Some, IsTrue, IsSomeAnd, length, option_and_then};
ghost use Rattle.spv_module.specs.Module.{plain_operands};
ghost use Rattle.spv_type_kinds.specs.Operands.{ids_in};
ghost use Rattle.spv_type_forms.specs.Form.{form_of};
ghost use Rattle.spv_ops.specs.inner.Tests.{left_of_all, left_of};
ghost use Rattle.spv_conditions.specs.Rest.{shares_of};
ghost use Rattle.spv_ops.specs.inner.Composite.{Constructs, share_of};
ghost use Rattle.spv_type_forms.specs.Values.{types_of};
ghost use Rattle.spv_module.specs.Width.{type_of};

use spv_module::Operand;
use spv_type_forms::{Definitions, Form, fills, id_count};

/// How many components of a vector of a component type the value of an id gives.
fn share(definitions: &Definitions, c: u32, x: u32) -> Option<u32>
    ensures { result ≡ option_and_then (share_of definitions.now c) (type_of definitions.now x) }
{
    let t = definitions.type_of(x)?;
    if t == c {
        return Some(1);
    }
    match definitions.form(t)? {
        Form::Vector { component, count } if component == c => Some(count),
        _ => None,
    }
}

/// How many of so many components are left after those that the value of an id gives.
fn left_after(definitions: &Definitions, c: u32, n: u32, x: u32) -> Option<u32>
    ensures { result ≡ left_of definitions.now c n x }
{
    let share = share(definitions, c, x)?;
    if share <= n { Some(n - share) } else { None }
}

/// How many of so many components are left after those that the ids at the front of the operands give.
pub fn left_after_all(
    definitions: &Definitions,
    c: u32,
    n: u32,
    operands: &[Operand],
) -> Option<u32>
    ensures { result ≡ left_of_all definitions.now c n (ids_in (plain_operands operands.now)) }
{
    let mut left = n;
    for operand in operands {
        let Operand::Id(x) = operand else {
            return Some(left);
        };
        left = left_after(definitions, c, left, *x)?;
    }
    Some(left)
}

/// Whether the values of two ids or more use up so many components.
fn uses_up(definitions: &Definitions, c: u32, n: u32, operands: &[Operand]) -> bool
    ensures { IsTrue result ↔ ((left_of_all definitions.now c n (ids_in (plain_operands operands.now)) ≡ Some 0)
        × (1 < length (ids_in (plain_operands operands.now)))) }
{
    match left_after_all(definitions, c, n, operands) {
        Some(0) => 1 < id_count(operands),
        _ => false,
    }
}

/// Whether the values of two ids or more give so many components.
fn adds_up(definitions: &Definitions, c: u32, n: u32, operands: &[Operand]) -> bool
    ensures { IsTrue result ↔ IsSomeAnd (types_of definitions.now (ids_in (plain_operands operands.now)))
        (λ types. (1 < length types) × (shares_of definitions.now c types ≡ Some n)) }
{
    uses_up(definitions, c, n, operands)
}

/// Whether what OpCompositeConstruct asks holds of the result type and the declared types of the ids at the front of
/// the operands.
pub fn constructs(definitions: &Definitions, r: u32, operands: &[Operand]) -> bool
    ensures { IsTrue result ↔ IsSomeAnd (types_of definitions.now (ids_in (plain_operands operands.now)))
        (λ types. Constructs definitions.now r types (form_of definitions.now r)) }
{
    match definitions.form(r) {
        Some(Form::Vector { component, count }) => adds_up(definitions, component, count, operands),
        Some(Form::Struct | Form::Array { .. }) => fills(definitions, r, operands),
        _ => false,
    }
}
