//! What OpCopyLogical asks.

ghost use Rattle.std.specs.Prelude.{◌≡◌, ◌≢◌, ◌<◌, ◌↔◌, ◌∷◌, [], ℕ, IfOk, OnOk, IsTrue, MatchOption, Some, length};
ghost use Rattle.spv_module.specs.Module.{plain_inst, plain_operands};
ghost use Rattle.spv_type_kinds.specs.Operands.{after_head as values_in, ids_in, result_type_in};
ghost use Rattle.spv_type_forms.specs.Values.{types_of};
ghost use Rattle.spv_type_forms.specs.inner.Matching.{IsMatching};
ghost use Rattle.spv_conditions.specs.Condition.{Agrees};
ghost use Rattle.spv_type_kinds.specs.declared.kinds.Relation.TheVariants as relation;
ghost use Rattle.spv_ops.specs.declared.table.Places.TheVariants.{Copied};
ghost use Rattle.spv_ops.specs.Table.{places_of};
ghost use Rattle.spv_ops.specs.inner.Copy.{IsCopy};
ghost use Rattle.spv_ops.specs.inner.Typed.{IsTypedIn};

use crate::table::{Places, look_up};
use crate::typed::inst_holds;
use spv_module::{Inst, Operand};
use spv_type_forms::{Definitions, MOST, Matching, after_head, gather, result_type};
use std::alloc::{AllocError, Global};

/// Whether a type is another than one that it matches.
fn matches_another(
    alloc: Global,
    definitions: &Definitions,
    matching: &mut Matching,
    t: u32,
    u: u32,
) -> Result<bool, AllocError>
    requires matching { IsMatching definitions.now matching.old }
    ensures answer { IfOk result (λ b. IsTrue b ↔ Agrees definitions.now relation.Matches t u) }
    ensures matching { OnOk result (IsMatching definitions.now matching.new) }
{
    if t == u {
        return Ok(false);
    }
    matching.matches(alloc, definitions, t, u)
}

/// The type that the id at the front of the operands is declared with, where there is one.
fn one_type(definitions: &Definitions, operands: &[Operand]) -> Option<u32>
    ensures { let found = types_of definitions.now (ids_in (plain_operands operands.now)) in
        MatchOption result ((t : ℕ) → found ≢ Some (t ∷ [])) (λ t. found ≡ Some (t ∷ [])) }
{
    let mut types = [0; MOST];
    match gather(definitions, operands, &mut types) {
        Some(count) => if count == 1 { Some(types[0]) } else { None },
        None => None,
    }
}

/// Whether the declared type of the one value among the operands is another than the result type, which it matches.
fn is_copy(
    alloc: Global,
    definitions: &Definitions,
    matching: &mut Matching,
    operands: &[Operand],
) -> Result<bool, AllocError>
    requires matching { IsMatching definitions.now matching.old }
    ensures answer { IfOk result (λ b. IsTrue b ↔ IsCopy definitions.now (result_type_in (plain_operands operands.now))
        (types_of definitions.now (ids_in (values_in (plain_operands operands.now))))) }
    ensures matching { OnOk result (IsMatching definitions.now matching.new) }
{
    match result_type(operands) {
        Some(r) => match one_type(definitions, after_head(operands)) {
            Some(t) => matches_another(alloc, definitions, matching, t, r),
            None => Ok(false),
        },
        None => Ok(false),
    }
}

/// Whether an instruction is a copy whose type is to match another, and does: of any other instruction it is false, and
/// `inst_holds` tells of it.
#[inline(never)]
fn copy_holds(
    alloc: Global,
    definitions: &Definitions,
    matching: &mut Matching,
    inst: &Inst,
) -> Result<bool, AllocError>
    requires matching { IsMatching definitions.now matching.old }
    ensures answer { (n : ℕ) → IfOk result (λ b. IsTrue b ↔ ((places_of (plain_inst inst.now).opcode ≡ Copied)
        × IsTypedIn definitions.now n (plain_inst inst.now))) }
    ensures matching { OnOk result (IsMatching definitions.now matching.new) }
{
    match look_up(inst.opcode).places {
        Places::Copied => is_copy(alloc, definitions, matching, inst.operands.as_slice()),
        _ => Ok(false),
    }
}

/// Whether what an instruction's opcode asks, if anything, holds of its result type, the types that its value operands
/// are declared with, and its literals. What was found out of types that match is kept in `matching`.
///
/// An `AllocError` comes only where a growth of memory was refused, at an OpCopyLogical.
#[inline(always)]
pub fn operation_holds(
    alloc: Global,
    definitions: &Definitions,
    matching: &mut Matching,
    number: u32,
    inst: &Inst,
) -> Result<bool, AllocError>
    requires matching { IsMatching definitions.now matching.old }
    requires number { number < length definitions.now }
    ensures answer { IfOk result (λ b. IsTrue b ↔ IsTypedIn definitions.now number (plain_inst inst.now)) }
    ensures matching { OnOk result (IsMatching definitions.now matching.new) }
{
    if inst_holds(definitions, number, inst) {
        return Ok(true);
    }
    copy_holds(alloc, definitions, matching, inst)
}
