ghost use Rattle.std.specs.Prelude.{◌≡◌, ◌↔◌, ◌∷◌, Some, true, IsTrue, IsSomeAnd};
ghost use Rattle.std.specs.List.{list_all};
ghost use Rattle.spv_type_forms.specs.Types.{IsSomeInt};
ghost use Rattle.spv_module.specs.Module.{plain_operands};
ghost use Rattle.spv_type_kinds.specs.Operands.{ids_in};
ghost use Rattle.spv_type_forms.specs.inner.Tests.{has_int};
ghost use Rattle.spv_ops.specs.inner.Chain.{Chains, ChainsByElement, LeadsByPointer};
ghost use Rattle.spv_type_forms.specs.Values.{types_of};

use spv_module::Operand;
use spv_type_forms::{Definitions, Form, is_int, leads_by_ints};

/// Whether the indexes are ints, and lead from a pointer to a pointer of the same storage class.
fn ints_lead(definitions: &Definitions, r: u32, o: u32, indexes: &[Operand]) -> bool
    ensures { IsTrue result ↔ ((list_all (has_int definitions.now) (ids_in (plain_operands indexes.now)) ≡ true)
        × LeadsByPointer definitions.now r o (ids_in (plain_operands indexes.now))) }
{
    match (definitions.read_form(o), definitions.read_form(r)) {
        (
            Some(
                Form::Pointer {
                    class: a,
                    pointee: from,
                },
            ),
            Some(
                Form::Pointer {
                    class: b,
                    pointee: to,
                },
            ),
        ) => a == b && leads_by_ints(definitions, from, indexes, to),
        _ => false,
    }
}

/// Whether what OpAccessChain asks holds of a base and indexes.
fn chain_from(definitions: &Definitions, r: u32, x: u32, indexes: &[Operand]) -> bool
    ensures { IsTrue result ↔ IsSomeAnd (types_of definitions.now (x ∷ ids_in (plain_operands indexes.now)))
        (λ types. Chains definitions.now r types (x ∷ ids_in (plain_operands indexes.now))) }
{
    match definitions.type_of(x) {
        Some(o) => ints_lead(definitions, r, o, indexes),
        None => false,
    }
}

/// Whether what OpAccessChain asks holds of the result type and the declared types of the ids at the front of the
/// operands.
pub fn access_chain(definitions: &Definitions, r: u32, operands: &[Operand]) -> bool
    ensures { IsTrue result ↔ IsSomeAnd (types_of definitions.now (ids_in (plain_operands operands.now)))
        (λ types. Chains definitions.now r types (ids_in (plain_operands operands.now))) }
{
    match operands {
        [Operand::Id(x), indexes @ ..] => chain_from(definitions, r, *x, indexes),
        _ => false,
    }
}

/// Whether the element is an int, and so are the indexes, which lead from a pointer to a pointer of the same storage
/// class.
fn element_leads(definitions: &Definitions, r: u32, o: u32, p: u32, indexes: &[Operand]) -> bool
    ensures { IsTrue result ↔ (IsSomeInt definitions.now p
        × (list_all (has_int definitions.now) (ids_in (plain_operands indexes.now)) ≡ true)
        × LeadsByPointer definitions.now r o (ids_in (plain_operands indexes.now))) }
{
    is_int(definitions, p) && ints_lead(definitions, r, o, indexes)
}

/// Whether what OpPtrAccessChain asks holds of a base, an element and indexes.
fn chain_at(definitions: &Definitions, r: u32, x: u32, y: u32, indexes: &[Operand]) -> bool
    ensures { IsTrue result ↔ IsSomeAnd (types_of definitions.now (x ∷ y ∷ ids_in (plain_operands indexes.now)))
        (λ types. ChainsByElement definitions.now r types (x ∷ y ∷ ids_in (plain_operands indexes.now))) }
{
    match (definitions.type_of(x), definitions.type_of(y)) {
        (Some(o), Some(p)) => element_leads(definitions, r, o, p, indexes),
        _ => false,
    }
}

/// Whether what OpPtrAccessChain asks holds of a base and what follows it.
fn chain_after(definitions: &Definitions, r: u32, x: u32, operands: &[Operand]) -> bool
    ensures { IsTrue result ↔ IsSomeAnd (types_of definitions.now (x ∷ ids_in (plain_operands operands.now)))
        (λ types. ChainsByElement definitions.now r types (x ∷ ids_in (plain_operands operands.now))) }
{
    match operands {
        [Operand::Id(y), indexes @ ..] => chain_at(definitions, r, x, *y, indexes),
        _ => false,
    }
}

/// Whether what OpPtrAccessChain asks holds of the result type and the declared types of the ids at the front of the
/// operands.
pub fn element_chain(definitions: &Definitions, r: u32, operands: &[Operand]) -> bool
    ensures { IsTrue result ↔ IsSomeAnd (types_of definitions.now (ids_in (plain_operands operands.now)))
        (λ types. ChainsByElement definitions.now r types (ids_in (plain_operands operands.now))) }
{
    match operands {
        [Operand::Id(x), rest @ ..] => chain_after(definitions, r, *x, rest),
        _ => false,
    }
}
