//! The lines of the table that most instructions have.

ghost use Rattle.std.specs.Prelude.{◌≡◌, ◌↔◌, ◌∷◌, [], IsTrue, IsSomeAnd};
ghost use Rattle.spv_module.specs.Module.{plain_operands};
ghost use Rattle.spv_ops.specs.inner.Common as spec;
ghost use Rattle.spv_ops.specs.inner.Common.{Combines, IsCondition, Loads, Stores};
ghost use Rattle.spv_type_forms.specs.Values.{types_of};

use spv_module::Operand;
use spv_type_forms::{Definitions, Sort, has_sort, is_bool, is_data, is_typed, points_to};

/// Ids that a binary operation names.
#[derive(Clone, Copy)]
pub struct Binary {
    pub result_type: u32,
    pub first: u32,
    pub second: u32,
}

/// A result type, or a pointer, and an id after it.
#[derive(Clone, Copy)]
pub struct Two {
    pub first: u32,
    pub second: u32,
}

/// The ids of a binary operation.
#[inline(always)]
pub fn binary_in(operands: &[Operand]) -> Option<Binary>
    ensures { result ≡ spec.binary_in (plain_operands operands.now) }
{
    match operands {
        [
            Operand::OfType(r),
            Operand::Result(_),
            Operand::Id(a),
            Operand::Id(b),
        ] => Some(Binary {
            result_type: *r,
            first: *a,
            second: *b,
        }),
        _ => None,
    }
}

/// The result type and the pointer of an OpLoad.
#[inline(always)]
pub fn load_in(operands: &[Operand]) -> Option<Two>
    ensures { result ≡ spec.load_in (plain_operands operands.now) }
{
    match operands {
        [Operand::OfType(r), Operand::Result(_), Operand::Id(p)] => Some(Two {
            first: *r,
            second: *p,
        }),
        [
            Operand::OfType(r),
            Operand::Result(_),
            Operand::Id(p),
            Operand::Mask { .. },
            ..
        ] => Some(Two {
            first: *r,
            second: *p,
        }),
        _ => None,
    }
}

/// The pointer and the object of an OpStore.
#[inline(always)]
pub fn store_in(operands: &[Operand]) -> Option<Two>
    ensures { result ≡ spec.store_in (plain_operands operands.now) }
{
    match operands {
        [Operand::Id(p), Operand::Id(x)] => Some(Two {
            first: *p,
            second: *x,
        }),
        [Operand::Id(p), Operand::Id(x), Operand::Mask { .. }, ..] => Some(Two {
            first: *p,
            second: *x,
        }),
        _ => None,
    }
}

/// The condition of an OpBranchConditional without weights.
#[inline(always)]
pub fn condition_in(operands: &[Operand]) -> Option<u32>
    ensures { result ≡ spec.condition_in (plain_operands operands.now) }
{
    match operands {
        [Operand::Id(x), Operand::Id(_), Operand::Id(_)] => Some(*x),
        _ => None,
    }
}

/// Whether what a binary operation asks holds of the result type and the declared types of two ids.
#[inline(always)]
pub fn binary_holds(definitions: &Definitions, sort: Sort, r: u32, a: u32, b: u32) -> bool
    ensures { IsTrue result ↔ IsSomeAnd (types_of definitions.now (a ∷ b ∷ [])) (Combines definitions.now sort r) }
{
    is_typed(definitions, r, a) && is_typed(definitions, r, b) && has_sort(definitions, sort, r)
}

/// Whether what OpLoad asks holds of the result type and the declared type of the pointer.
#[inline(always)]
pub fn load_holds(definitions: &Definitions, r: u32, p: u32) -> bool
    ensures { IsTrue result ↔ IsSomeAnd (types_of definitions.now (p ∷ []))
        (Loads definitions.now r) }
{
    match definitions.type_of(p) {
        Some(t) => points_to(definitions, t, r) && is_data(definitions, r),
        None => false,
    }
}

/// Whether what OpStore asks holds of the declared types of the pointer and the object.
#[inline(always)]
pub fn store_holds(definitions: &Definitions, p: u32, x: u32) -> bool
    ensures { IsTrue result ↔ IsSomeAnd (types_of definitions.now (p ∷ x ∷ []))
        (Stores definitions.now) }
{
    match (definitions.type_of(p), definitions.type_of(x)) {
        (Some(t), Some(u)) => points_to(definitions, t, u),
        _ => false,
    }
}

/// Whether an id is declared with the type bool.
#[inline(always)]
pub fn stands_for_bool(definitions: &Definitions, x: u32) -> bool
    ensures { IsTrue result ↔ IsSomeAnd (types_of definitions.now (x ∷ [])) (IsCondition definitions.now) }
{
    match definitions.type_of(x) {
        Some(t) => is_bool(definitions, t),
        None => false,
    }
}
