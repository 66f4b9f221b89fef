//! Scopes and memory semantics: O14.

ghost use Rattle.std.specs.Prelude.{◌≡◌, ◌↔◌, ◌<◌, ◌≢◌, ℕ, Some, IsSomeAnd, IsTrue};
ghost use Rattle.spv_module.specs.Module.{plain_inst, plain_operands};
ghost use Rattle.spv_module.specs.declared.opcode.TheConstants as opcode;
ghost use Rattle.spv_kernel_operands.specs.Value as value;
ghost use Rattle.spv_kernel_operands.specs.Scopes as spec;
ghost use Rattle.spv_kernel_operands.specs.Seats as seats;
ghost use Rattle.spv_kernel_operands.specs.inner.Scopes as inner;

use crate::seats::{scopes_of, semantics_of};
use crate::value::{has_bit, value_at};
use spv_module::{Inst, Operand, opcode};
use spv_type_forms::Definitions;

/// The bits Acquire, Release, AcquireRelease and SequentiallyConsistent.
const ORDERS: u64 = 30;

/// The bits UniformMemory, OutputMemory, MakeAvailable, MakeVisible and Volatile, which no kernel has.
const FOREIGN: u64 = 61504;

/// Whether a number has at most one of the bits of orders.
fn has_one_order(number: u64) -> bool
    ensures { IsTrue result ↔ spec.HasOneOrder number }
{
    match number & ORDERS {
        0 | 2 | 4 | 8 | 16 => true,
        _ => false,
    }
}

/// Whether an opcode is that of a group instruction, whose first scope is that of a group.
fn is_group(code: u16) -> bool
    ensures { result ≡ spec.is_group code }
{
    (opcode::GROUP_ASYNC_COPY <= code && code <= opcode::GROUP_S_MAX)
        || (opcode::GROUP_RESERVE_READ_PIPE_PACKETS <= code
            && code <= opcode::GROUP_COMMIT_WRITE_PIPE)
        || (opcode::GROUP_NON_UNIFORM_ELECT <= code && code <= opcode::GROUP_NON_UNIFORM_QUAD_SWAP)
}

/// Whether a value, if there is one, is over Invocation.
pub fn is_high(scope: Option<u64>) -> bool
    ensures { IsTrue result ↔ IsSomeAnd scope (λ n. 4 < n) }
{
    match scope {
        Some(scope) => 4 < scope,
        None => false,
    }
}

/// Whether the value of one of these operands is over Invocation.
fn has_high_scope(definitions: &Definitions, operands: &[Operand], seats: &[u32]) -> bool
    ensures { IsTrue result ↔ inner.HasHighScope definitions.now (plain_operands operands.now) seats.now }
{
    for seat in seats {
        if is_high(value_at(definitions, operands, *seat)) {
            return true;
        }
    }
    false
}

/// Whether the value of the first of these operands is neither Workgroup nor Subgroup.
fn is_no_group(definitions: &Definitions, operands: &[Operand], seats: &[u32]) -> bool
    ensures { IsTrue result ↔ inner.IsNoGroup definitions.now (plain_operands operands.now) seats.now }
{
    let Some(seat) = seats.first() else {
        return false;
    };
    match value_at(definitions, operands, *seat) {
        Some(scope) => scope != 2 && scope != 3,
        None => false,
    }
}

/// Whether a value, if there is one, has two orders, or a bit that no kernel has.
pub fn are_bad_semantics(semantics: Option<u64>) -> bool
    ensures { IsTrue result ↔ IsSomeAnd semantics inner.AreBadSemantics }
{
    match semantics {
        Some(semantics) => !has_one_order(semantics) || has_bit(semantics, FOREIGN),
        None => false,
    }
}

/// Whether the value of one of these operands has two orders, or a bit that no kernel has.
fn has_bad_semantics(definitions: &Definitions, operands: &[Operand], seats: &[u32]) -> bool
    ensures { IsTrue result ↔ inner.HasBadSemantics definitions.now (plain_operands operands.now) seats.now }
{
    for seat in seats {
        if are_bad_semantics(value_at(definitions, operands, *seat)) {
            return true;
        }
    }
    false
}

/// Whether semantics are SequentiallyConsistent where those for where the values are equal are not.
fn is_newly_sequential(equal: u64, unequal: u64) -> bool
    ensures { IsTrue result ↔ inner.IsNewlySequential equal unequal }
{
    has_bit(unequal, 16) && !has_bit(equal, 16)
}

/// Whether semantics are Acquire where those for where the values are equal have no order.
fn is_newly_acquiring(equal: u64, unequal: u64) -> bool
    ensures { IsTrue result ↔ inner.IsNewlyAcquiring equal unequal }
{
    has_bit(unequal, 2) && equal & ORDERS == 0
}

/// Whether the semantics for where the values differ release, or are stronger than those for where they are equal.
fn is_too_strong(equal: Option<u64>, unequal: u64) -> bool
    ensures { IsTrue result ↔ spec.IsTooStrong equal unequal }
{
    if has_bit(unequal, 12) {
        return true;
    }
    match equal {
        Some(equal) => is_newly_sequential(equal, unequal) || is_newly_acquiring(equal, unequal),
        None => false,
    }
}

/// Whether the semantics of an OpAtomicCompareExchange or an OpAtomicFlagClear are none that it may have.
fn has_own_bad_semantics(definitions: &Definitions, inst: &Inst<'_>) -> bool
    ensures { IsTrue result ↔ inner.HasOwnBadSemantics definitions.now (plain_inst inst.now) }
{
    let operands = inst.operands.as_slice();
    match inst.opcode {
        opcode::ATOMIC_COMPARE_EXCHANGE => match value_at(definitions, operands, 5) {
            Some(unequal) => is_too_strong(value_at(definitions, operands, 4), unequal),
            None => false,
        },
        opcode::ATOMIC_FLAG_CLEAR => match value_at(definitions, operands, 2) {
            Some(semantics) => has_bit(semantics, 10),
            None => false,
        },
        _ => false,
    }
}

/// Whether an instruction is that of a group, and the first of its scopes none of a group.
pub fn has_bad_group(definitions: &Definitions, inst: &Inst<'_>, scopes: &[u32]) -> bool
    ensures { IsTrue result ↔ (IsTrue (spec.is_group inst.now.opcode)
        × inner.IsNoGroup definitions.now (plain_inst inst.now).operands scopes.now) }
{
    is_group(inst.opcode) && is_no_group(definitions, inst.operands.as_slice(), scopes)
}

/// Whether an instruction breaks O14: it has a scope or memory semantics with a value that there may not be there.
pub fn is_misscoped(definitions: &Definitions, inst: &Inst<'_>) -> bool
    ensures { IsTrue result ↔ spec.IsMisscoped definitions.now (plain_inst inst.now) }
{
    let scopes = scopes_of(inst.opcode);
    let operands = inst.operands.as_slice();
    if has_high_scope(definitions, operands, scopes) {
        return true;
    }
    if has_bad_group(definitions, inst, scopes) {
        return true;
    }
    if has_bad_semantics(definitions, operands, semantics_of(inst.opcode)) {
        return true;
    }
    has_own_bad_semantics(definitions, inst)
}
