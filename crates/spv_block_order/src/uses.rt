//! The first use of a local value before its definition.

ghost use Rattle.std.specs.Prelude.{◌≡◌, ◌≤◌, ◌<◌, ℕ, MatchBool, MatchOption, length};
ghost use Rattle.spv_table.specs.Table.{Table};
ghost use Rattle.spv_module.specs.Module.{plain_inst};
ghost use Rattle.spv_layout.specs.declared.form.Role as declared;
ghost use Rattle.spv_layout.specs.Place.{IsOfBlock};
ghost use Rattle.spv_layout.specs.Shape.{FitsShape, IsUse};
ghost use Rattle.spv_flow.specs.walks.inner.Code.{insts_of, IsCode};
ghost use Rattle.spv_block_order.specs.Early.{IsEarlyUse};
ghost use Rattle.spv_block_order.specs.inner.First.{IsFirstUse};
ghost use Rattle.spv_block_order.specs.inner.Uses.{IsLater, IsEarlyAt};

use spv_flow::walks::code::Code;
use spv_flow::walks::use_id;
use spv_layout::{id_at, role};
use spv_module::Inst;
use spv_module::opcode::{EXT_INST, PHI};

/// The id that operand `n` of an instruction uses, in whatever role, if it does.
pub fn used(inst: &Inst<'_>, n: usize) -> Option<u32>
    ensures { (G : Table) → FitsShape G (plain_inst inst.now)
        → MatchOption result ((x : ℕ) (r : declared.Role) → ¬ (IsUse G (plain_inst inst.now) n x r))
        (λ x. (r : declared.Role) × IsUse G (plain_inst inst.now) n x r) }
{
    if inst.opcode != EXT_INST {
        // Each id but a result is a use.
        return use_id(inst, n);
    }
    match role(inst, n) {
        Some(_) => id_at(inst, n),
        None => None,
    }
}

/// Whether an id is a local value that no instruction below one has as its result.
pub fn is_later(code: &Code<'_, '_>, at: u32, id: u32) -> bool
    ensures { (G : Table) → IsCode G code.now
        → MatchBool result (IsLater (insts_of code.now) at id) (¬ (IsLater (insts_of code.now) at id)) }
{
    let Some(place) = code.definition(id) else {
        return false;
    };
    if place < at {
        return false;
    }
    code.is_local(place)
}

/// Whether operand `n` of an instruction uses a local value that no lower instruction has as its result.
fn is_early_at(code: &Code<'_, '_>, at: u32, n: usize) -> bool
    requires { at < length code.now.insts.now }
    ensures { (G : Table) → IsCode G code.now
        → MatchBool result (IsEarlyAt G (insts_of code.now) at n) (¬ (IsEarlyAt G (insts_of code.now) at n)) }
{
    match used(&code.insts[at as usize], n) {
        Some(id) => is_later(code, at, id),
        None => false,
    }
}

/// Whether an instruction is of a block.
fn is_of_block(code: &Code<'_, '_>, at: u32) -> bool
    requires { at < length code.now.insts.now }
    ensures { (G : Table) → IsCode G code.now
        → MatchBool result ((b : ℕ) × IsOfBlock (insts_of code.now) at b)
        ((b : ℕ) → ¬ (IsOfBlock (insts_of code.now) at b)) }
{
    match code.plan.at(at) {
        Some(place) => place.block.is_some(),
        None => false,
    }
}

/// Whether an instruction of a block, other than OpPhi, uses a local value that no lower instruction has as its result.
fn is_early_use(code: &Code<'_, '_>, at: u32) -> bool
    requires { at < length code.now.insts.now }
    ensures { (G : Table) → IsCode G code.now
        → MatchBool result (IsEarlyUse G (insts_of code.now) at) (¬ (IsEarlyUse G (insts_of code.now) at)) }
{
    let inst = &code.insts[at as usize];
    if inst.opcode == PHI {
        return false;
    }
    if !is_of_block(code, at) {
        return false;
    }
    for n in 0..inst.operands.as_slice().len() {
        if is_early_at(code, at, n) {
            return true;
        }
    }
    false
}

/// The first of the instructions from one on and below another that uses a local value which no lower instruction has
/// as its result.
pub fn first_early_use(code: &Code<'_, '_>, from: u32, limit: u32) -> Option<u32>
    requires { limit ≤ length code.now.insts.now }
    ensures { (G : Table) → IsCode G code.now → IsFirstUse G (insts_of code.now) from limit result }
{
    for at in from..limit {
        if is_early_use(code, at) {
            return Some(at);
        }
    }
    None
}
