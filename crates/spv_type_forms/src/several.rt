ghost use Rattle.std.specs.Prelude.{◌≡◌, ◌↔◌, IsTrue, IsSomeAnd, length, Some, true};
ghost use Rattle.std.specs.List.{list_all, AllByRecursion};
ghost use Rattle.spv_module.specs.Module.{plain_operands};
ghost use Rattle.spv_module.specs.Width.{type_of};
ghost use Rattle.spv_type_kinds.specs.Operands.{ids_in};
ghost use Rattle.spv_type_forms.specs.Types.{PointsTo};
ghost use Rattle.spv_type_forms.specs.inner.Tests.{has_type, has_pointee, has_int, are_parts_from};
ghost use Rattle.spv_type_forms.specs.Values.{paired_ids_in, types_of};
ghost use Rattle.spv_type_forms.specs.Parts.{count_of, AreParts};

use crate::definitions::Definitions;
use crate::meaning::Meaning;
use crate::parts::{count, parts_of};
use crate::types::is_int;
use spv_module::Operand;
use spv_type_kinds::id_count;

/// Whether an id stands for an int.
#[inline(always)]
pub fn stands_for_int(definitions: &Definitions, x: u32) -> bool
    ensures { result ≡ has_int definitions.now x }
{
    match definitions.type_of(x) {
        Some(t) => is_int(definitions, t),
        None => false,
    }
}

/// Whether an id is declared with a type.
#[inline(always)]
pub fn is_typed(definitions: &Definitions, t: u32, x: u32) -> bool
    ensures { result ≡ has_type definitions.now t x }
{
    match definitions.meaning(x) {
        Meaning::Typed(u) => u == t,
        _ => defined_typed(definitions, t, x),
    }
}

/// Whether an id is declared with a type, by its definition.
#[inline(never)]
fn defined_typed(definitions: &Definitions, t: u32, x: u32) -> bool
    ensures { result ≡ has_type definitions.now t x }
{
    match definitions.type_of(x) {
        Some(u) => u == t,
        None => false,
    }
}

/// Whether the ids at the front of the operands are declared with the types of the parts from a number on.
pub fn are_parts(definitions: &Definitions, t: u32, operands: &[Operand]) -> bool
    ensures { result ≡ are_parts_from definitions.now t 0 (ids_in (plain_operands operands.now)) }
{
    let parts = parts_of(definitions, t);
    let mut k = 0;
    for operand in operands {
        let Operand::Id(x) = operand else {
            return true;
        };
        match parts.at(k) {
            Some(u) if is_typed(definitions, u, *x) => k += 1,
            _ => return false,
        }
    }
    true
}

/// Whether an id is declared with the type that a pointer type points to.
fn is_pointee(definitions: &Definitions, r: u32, x: u32) -> bool
    ensures { result ≡ has_pointee definitions.now r x }
{
    match (definitions.type_of(x), definitions.pointee(r)) {
        (Some(t), Some(u)) => u == t,
        _ => false,
    }
}

/// Whether the ids at the front of the operands are all declared with the type that a pointer type points to.
fn are_pointees(definitions: &Definitions, r: u32, operands: &[Operand]) -> bool
    ensures { result ≡ list_all (has_pointee definitions.now r) (ids_in (plain_operands operands.now)) }
{
    for operand in operands {
        let Operand::Id(x) = operand else {
            return true;
        };
        if !is_pointee(definitions, r, *x) {
            return false;
        }
    }
    true
}

/// Whether the declared types of the ids at the front of the operands are all what a pointer type points to.
pub fn all_pointees(definitions: &Definitions, r: u32, operands: &[Operand]) -> bool
    ensures { IsTrue result ↔ IsSomeAnd (types_of definitions.now (ids_in (plain_operands operands.now)))
        (AllByRecursion (PointsTo definitions.now r)) }
{
    are_pointees(definitions, r, operands)
}

/// Whether the values of pairs of ids are all declared with a type.
fn same_pair_types(definitions: &Definitions, t: u32, operands: &[Operand]) -> bool
    ensures { result ≡ list_all (has_type definitions.now t) (paired_ids_in (plain_operands operands.now)) }
{
    let mut rest = operands;
    while let [Operand::Id(x), Operand::Id(_), after @ ..] = rest {
        if !is_typed(definitions, t, *x) {
            return false;
        }
        rest = after;
    }
    true
}

/// Whether the declared types of the values of pairs of ids are all one.
pub fn all_pairs_of_type(definitions: &Definitions, t: u32, operands: &[Operand]) -> bool
    ensures { IsTrue result ↔ IsSomeAnd (types_of definitions.now (paired_ids_in (plain_operands operands.now)))
        (AllByRecursion (λ u. u ≡ t)) }
{
    same_pair_types(definitions, t, operands)
}

/// Whether ids are declared with the types of the parts, and there are as many.
fn fits(definitions: &Definitions, r: u32, operands: &[Operand]) -> bool
    ensures { IsTrue result ↔ ((are_parts_from definitions.now r 0 (ids_in (plain_operands operands.now)) ≡ true)
        × (count_of definitions.now r ≡ Some (length (ids_in (plain_operands operands.now))))) }
{
    match count(definitions, r) {
        Some(count) => count == id_count(operands) as u64 && are_parts(definitions, r, operands),
        None => false,
    }
}

/// Whether ids are declared with the types of the parts of a type, one for each.
pub fn fills(definitions: &Definitions, r: u32, operands: &[Operand]) -> bool
    ensures { IsTrue result ↔ IsSomeAnd (types_of definitions.now (ids_in (plain_operands operands.now)))
        (λ types. AreParts definitions.now r types) }
{
    fits(definitions, r, operands)
}
