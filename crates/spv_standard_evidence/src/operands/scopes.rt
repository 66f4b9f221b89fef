//! What shows that O14 is broken: a scope or memory semantics.

ghost use Rattle.std.specs.Prelude.{◌≡◌, ◌↔◌, ℕ, Some, IsSomeAnd, IsTrue, MatchOption, slice_get};
ghost use Rattle.spv_table.specs.Table.{Table};
ghost use Rattle.spv_module.specs.Module.{plain_inst, plain_operands};
ghost use Rattle.spv_module.specs.declared.fault.Rule.TheVariants.{O14};
ghost use Rattle.spv_kernel_operands.specs.Scopes.{IsMisscoped};
ghost use Rattle.spv_kernel_operands.specs.inner.Scopes.{HasValue};
ghost use Rattle.spv_standard_evidence.specs.Operands.{Shows};
ghost use Rattle.spv_standard_evidence.specs.inner.Operands as inner;

use spv_evidence::Evidence;
use spv_kernel_operands::{
    are_bad_semantics, has_bad_group, is_high, scopes_of, semantics_of, value_at,
};
use spv_module::{Inst, Operand, opcode};
use spv_type_forms::Definitions;

/// Whether a value, if there is one, is no scope, or no semantics.
fn is_bad(value: Option<u64>, is_scope: bool) -> bool
    ensures { IsTrue result ↔ IsSomeAnd value (inner.IsBad is_scope) }
{
    if is_scope {
        is_high(value)
    } else {
        are_bad_semantics(value)
    }
}

/// The first of these operands whose value is so.
fn bad_seat(
    definitions: &Definitions,
    operands: &[Operand],
    seats: &[u32],
    are_scopes: bool,
) -> Option<u32>
    ensures { MatchOption result
        (¬ (HasValue (inner.IsBad are_scopes) definitions.now (plain_operands operands.now) seats.now))
        (inner.IsValuedAt (inner.IsBad are_scopes) definitions.now (plain_operands operands.now) seats.now) }
{
    for seat in seats {
        if is_bad(value_at(definitions, operands, *seat), are_scopes) {
            return Some(*seat);
        }
    }
    None
}

/// The operand of OpAtomicCompareExchange and OpAtomicFlagClear that breaks what is asked of these alone.
fn own_seat(code: u16) -> u32
    ensures { result ≡ inner.own_seat code }
{
    if code == opcode::ATOMIC_FLAG_CLEAR {
        2
    } else {
        5
    }
}

/// The first scope of an instruction of a group.
fn group_seat(scopes: &[u32]) -> u32
    ensures { (k : ℕ) → slice_get scopes.now 0 ≡ Some k → result ≡ k }
{
    match scopes {
        [first, ..] => *first,
        [] => 0,
    }
}

/// O14: the first scope or semantics that is none, or that is none there.
pub fn scope_evidence(definitions: &Definitions, inst: &Inst<'_>) -> Evidence
    requires { IsMisscoped definitions.now (plain_inst inst.now) }
    ensures { (G : Table) → Shows G definitions.now (plain_inst inst.now) O14 result }
{
    let scopes = scopes_of(inst.opcode);
    let operands = inst.operands.as_slice();
    if let Some(operand) = bad_seat(definitions, operands, scopes, true) {
        return Evidence::Operand { operand };
    }
    if let Some(operand) = bad_seat(definitions, operands, semantics_of(inst.opcode), false) {
        return Evidence::Operand { operand };
    }
    if has_bad_group(definitions, inst, scopes) {
        return Evidence::Operand {
            operand: group_seat(scopes),
        };
    }
    Evidence::Operand {
        operand: own_seat(inst.opcode),
    }
}
