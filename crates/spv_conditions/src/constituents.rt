//! What is asked of the constituents of a composite that is made.

ghost use Rattle.std.specs.Prelude.{◌≡◌, ◌↔◌, ℕ, IsTrue, IsSomeAnd, length, option_and_then, slice_get};
ghost use Rattle.spv_type_forms.specs.Form.{form_of};
ghost use Rattle.spv_type_forms.specs.Parts as parts;
ghost use Rattle.spv_conditions.specs.Condition.{IsPairOf};
ghost use Rattle.spv_conditions.specs.Rest as spec;
ghost use Rattle.spv_conditions.specs.Rest.{shares_of};
ghost use Rattle.spv_conditions.specs.inner.Shares as spec_shares;

use crate::seat::{Seat, type_at};
use spv_type_forms::{Definitions, Form, count, parts_of};

/// Of a vector there are two or more.
pub fn are_several(definitions: &Definitions, r: Option<u32>, types: &[u32]) -> bool
    ensures { IsTrue result ↔ IsSomeAnd r (λ t. spec.AreSeveral types.now (form_of definitions.now t)) }
{
    let Some(t) = r else {
        return false;
    };
    match definitions.form(t) {
        Some(Form::Vector { .. }) => 1 < types.len(),
        _ => true,
    }
}

/// Whether a value of a type gives components of a type.
fn is_share(definitions: &Definitions, c: u32, u: u32) -> bool
    ensures { IsTrue result ↔ spec.IsShare definitions.now c u }
{
    if u == c {
        return true;
    }
    match definitions.form(u) {
        Some(Form::Vector { component, .. }) => component == c,
        _ => false,
    }
}

/// Whether the value of a number gives components of a type.
fn has_share(definitions: &Definitions, c: u32, types: &[u32], k: u32) -> bool
    ensures { IsTrue result ↔ IsSomeAnd (slice_get types.now k)
        (spec.IsShare definitions.now c) }
{
    match type_at(None, types, Seat::Value(k)) {
        Some(u) => is_share(definitions, c, u),
        None => false,
    }
}

/// Of a vector the one of a number is of the component type, or a vector of that.
pub fn is_share_at(definitions: &Definitions, r: Option<u32>, types: &[u32], k: u32) -> bool
    ensures { IsTrue result
        ↔ IsSomeAnd r (λ t. spec.IsShareAt definitions.now types.now k (form_of definitions.now t)) }
{
    let Some(t) = r else {
        return false;
    };
    match definitions.form(t) {
        Some(Form::Vector { component, .. }) => has_share(definitions, component, types, k),
        _ => true,
    }
}

/// How many components of a type a value of a type gives.
fn share_of(definitions: &Definitions, c: u32, u: u32) -> Option<u32>
    ensures { result ≡ spec_shares.share_of definitions.now c u }
{
    if u == c {
        return Some(1);
    }
    match definitions.form(u)? {
        Form::Vector { component, count } if component == c => Some(count),
        _ => None,
    }
}

/// How many of so many components are left after those that a value of a type gives.
fn left_after(definitions: &Definitions, c: u32, n: u32, u: u32) -> Option<u32>
    ensures { result ≡ spec_shares.left_by definitions.now c n u }
{
    let share = share_of(definitions, c, u)?;
    if share <= n { Some(n - share) } else { None }
}

/// How many of so many components are left after those that the values give.
fn left_after_all(definitions: &Definitions, c: u32, n: u32, types: &[u32]) -> Option<u32>
    ensures { result ≡ spec_shares.left_of definitions.now c types.now n }
{
    let mut left = n;
    for value in types {
        left = left_after(definitions, c, left, *value)?;
    }
    Some(left)
}

/// Whether none of so many components are left after those that the values give.
fn leave_none(definitions: &Definitions, c: u32, n: u32, types: &[u32]) -> bool
    ensures { IsTrue result ↔ (spec_shares.left_of definitions.now c types.now n ≡ Some 0) }
{
    match left_after_all(definitions, c, n, types) {
        Some(0) => true,
        _ => false,
    }
}

/// Whether the values give so many components together.
fn give(definitions: &Definitions, c: u32, n: u32, types: &[u32]) -> bool
    ensures { IsTrue result ↔ (shares_of definitions.now c types.now ≡ Some n) }
{
    leave_none(definitions, c, n, types)
}

/// Of a vector they have as many components together.
pub fn are_filling(definitions: &Definitions, r: Option<u32>, types: &[u32]) -> bool
    ensures { IsTrue result
        ↔ IsSomeAnd r (λ t. spec.AreFilling definitions.now types.now (form_of definitions.now t)) }
{
    let Some(t) = r else {
        return false;
    };
    match definitions.form(t) {
        Some(Form::Vector { component, count }) => give(definitions, component, count, types),
        _ => true,
    }
}

/// Whether a type has as many parts as there are values.
fn has_count(definitions: &Definitions, t: u32, types: &[u32]) -> bool
    ensures { IsTrue result ↔ (parts.count_of definitions.now t ≡ Some (length types.now)) }
{
    match count(definitions, t) {
        Some(count) => count == types.len() as u64,
        None => false,
    }
}

/// Of a struct or an array there are as many as it has parts.
pub fn are_counted(definitions: &Definitions, r: Option<u32>, types: &[u32]) -> bool
    ensures { IsTrue result
        ↔ IsSomeAnd r (λ t. spec.AreCounted definitions.now t types.now (form_of definitions.now t)) }
{
    let Some(t) = r else {
        return false;
    };
    match definitions.form(t) {
        Some(Form::Struct | Form::Array { .. }) => has_count(definitions, t, types),
        _ => true,
    }
}

/// The type of a part of a type.
fn part(definitions: &Definitions, t: u32, k: u32) -> Option<u32>
    ensures { result ≡ parts.part_of definitions.now t k }
{
    parts_of(definitions, t).at(k as usize)
}

/// The type of a part of the result type.
pub fn part_of(definitions: &Definitions, r: Option<u32>, k: u32) -> Option<u32>
    ensures { result ≡ option_and_then (λ t. parts.part_of definitions.now t k) r }
{
    part(definitions, r?, k)
}

/// Whether a type is a struct of two members of a type.
pub fn is_pair_of(definitions: &Definitions, t: u32, u: u32) -> bool
    ensures { IsTrue result ↔ IsPairOf definitions.now t u }
{
    match definitions.form(t) {
        Some(Form::Struct) => match (
            count(definitions, t),
            part(definitions, t, 0),
            part(definitions, t, 1),
        ) {
            (Some(2), Some(first), Some(second)) => first == u && second == u,
            _ => false,
        },
        _ => false,
    }
}

/// Whether the value of a number is of the type of the part of that number.
fn has_part(definitions: &Definitions, t: u32, types: &[u32], k: u32) -> bool
    ensures { IsTrue result ↔ IsSomeAnd (slice_get types.now k)
        (λ u. parts.part_of definitions.now t k ≡ Some u) }
{
    match (
        type_at(None, types, Seat::Value(k)),
        part(definitions, t, k),
    ) {
        (Some(u), Some(due)) => due == u,
        _ => false,
    }
}

/// Of a struct or an array the one of a number is of the type of the part of that number.
pub fn is_part_at(definitions: &Definitions, r: Option<u32>, types: &[u32], k: u32) -> bool
    ensures { IsTrue result
        ↔ IsSomeAnd r (λ t. spec.IsPartAt definitions.now t types.now k (form_of definitions.now t)) }
{
    let Some(t) = r else {
        return false;
    };
    match definitions.form(t) {
        Some(Form::Struct | Form::Array { .. }) => has_part(definitions, t, types, k),
        _ => true,
    }
}
