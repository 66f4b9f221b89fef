//! What shows that D1 is broken.

ghost use Rattle.std.specs.Prelude.{◌≡◌, ◌↔◌, ℕ, Some, IsTrue, MatchBool, MatchOption, map, slice_get};
ghost use Rattle.spv_table.specs.Table.{Table};
ghost use Rattle.spv_module.specs.Module.{plain_inst, plain_operands};
ghost use Rattle.spv_module.specs.declared.fault.Rule.TheVariants.{D1};
ghost use Rattle.spv_layout.specs.Shape.{FitsShape};
ghost use Rattle.spv_ids.specs.Broken.{Broken, IsOutOfRange};
ghost use Rattle.spv_ids.specs.inner.Uses as uses;
ghost use Rattle.spv_form_evidence.specs.ids.Evidence.{IsEvidence};
ghost use Rattle.spv_form_evidence.specs.ids.inner.Uses.{AreFit};
ghost use Rattle.spv_form_evidence.specs.ids.inner.Range.{IsOwnResult, IsIdAt, IsAstray};

use crate::ids::uses::named_at;
use spv_evidence::Evidence;
use spv_module::{Inst, Operand};

/// Whether an id is 0 or not below the bound.
fn is_out_of_range(bound: u32, id: u32) -> bool
    ensures { IsTrue result ↔ IsOutOfRange bound id }
{
    id == 0 || bound <= id
}

/// The operand at a place, if it is a result.
fn result_at(operands: &[Operand<'_>], k: usize) -> Option<u32>
    ensures { result ≡ uses.result_at (slice_get (plain_operands operands.now) k) }
{
    match operands.get(k) {
        Some(Operand::Result(id)) => Some(*id),
        _ => None,
    }
}

/// The result of an instruction, if operand `k` is that.
fn own_result_at(inst: &Inst<'_>, k: usize) -> Option<u32>
    ensures { MatchOption result ((x : ℕ) → ¬ (IsOwnResult (plain_inst inst.now) k x))
        (λ x. IsOwnResult (plain_inst inst.now) k x) }
{
    let Some(id) = result_at(inst.operands.as_slice(), k) else {
        return None;
    };
    let Some(result) = inst.result_id() else {
        return None;
    };
    if result == id { Some(id) } else { None }
}

/// The id that operand `k` of an instruction is, as its result, a use or a mention.
fn id_at(inst: &Inst<'_>, k: usize) -> Option<u32>
    ensures { (G : Table) → FitsShape G (plain_inst inst.now)
        → MatchOption result ((x : ℕ) → ¬ (IsIdAt G (plain_inst inst.now) k x))
        (λ x. IsIdAt G (plain_inst inst.now) k x) }
{
    match named_at(inst, k) {
        Some(id) => Some(id),
        None => own_result_at(inst, k),
    }
}

/// Whether operand `k` of an instruction is its result, a use or a mention of an id that is out of range.
fn is_astray(inst: &Inst<'_>, bound: u32, k: usize) -> bool
    ensures { (G : Table) → FitsShape G (plain_inst inst.now)
        → MatchBool result (IsAstray G bound (plain_inst inst.now) k)
        (¬ (IsAstray G bound (plain_inst inst.now) k)) }
{
    match id_at(inst, k) {
        Some(id) => is_out_of_range(bound, id),
        None => false,
    }
}

/// What shows that an id of an instruction is out of range (D1): its first operand that is its result, a use or a
/// mention of such an id. `at` is the number of the instruction, from 0.
///
/// Time is linear in the operands of the instruction. It takes no memory.
pub fn out_of_range(insts: &[Inst<'_>], bound: u32, at: u32) -> Evidence
    requires broken { (G : Table) × AreFit G (map plain_inst insts.now)
        × Broken G bound (map plain_inst insts.now) D1 at }
    ensures { (G : Table) → AreFit G (map plain_inst insts.now)
        → IsEvidence G bound (map plain_inst insts.now) D1 at result }
{
    let inst = &insts[at as usize];
    for k in 0..inst.operands.as_slice().len() {
        if is_astray(inst, bound, k) {
            return Evidence::Operand { operand: k as u32 };
        }
    }
    unreachable!()
}
