//! What shows that D3 is broken.

ghost use Rattle.std.specs.Prelude.{ℕ, List, MatchBool, IfOk, length, map};
ghost use Rattle.spv_table.specs.Table.{Table};
ghost use Rattle.spv_module.specs.Operand.{PlainInst};
ghost use Rattle.spv_module.specs.Module.{plain_inst};
ghost use Rattle.spv_module.specs.declared.fault.Rule.TheVariants.{D3};
ghost use Rattle.spv_layout.specs.First.{IsFirst};
ghost use Rattle.spv_layout.specs.Shape.{FitsShape};
ghost use Rattle.spv_layout.specs.Place.{AreFew};
ghost use Rattle.spv_layout.specs.Stage.{of_ids};
ghost use Rattle.spv_ids.specs.Broken.{Broken};
ghost use Rattle.spv_form_evidence.specs.ids.Evidence.{IsEvidence};
ghost use Rattle.spv_form_evidence.specs.ids.inner.Known.{AreFirst};
ghost use Rattle.spv_form_evidence.specs.ids.inner.Undefined.{IsUndefined};
ghost use Rattle.spv_form_evidence.specs.ids.inner.Uses.{AreFit, HasNamed};

use crate::ids::definitions::first_definitions;
use crate::ids::kept::Kept;
use crate::ids::uses::named_at;
use spv_evidence::Evidence;
use spv_module::Inst;
use std::alloc::{AllocError, Global};

/// Whether operand `k` of an instruction is a use or a mention of an id below the bound that no instruction has as its
/// result.
fn is_undefined(definitions: &Kept, inst: &Inst<'_>, k: usize) -> bool
    ensures { (G : Table) (bound : ℕ) (is : List PlainInst) → FitsShape G (plain_inst inst.now)
        → AreFirst bound is (length is) definitions.now
        → MatchBool result (HasNamed G (plain_inst inst.now) (IsUndefined bound is) k)
        (¬ (HasNamed G (plain_inst inst.now) (IsUndefined bound is) k)) }
{
    match named_at(inst, k) {
        Some(id) => definitions.is_free(id),
        None => false,
    }
}

/// What shows that an instruction uses or mentions an id that no instruction has as its result (D3): its first operand
/// that does. `at` is the number of the instruction, from 0.
///
/// Time is that of the operands of the instruction and of all instructions, with a search among ids for each. Memory
/// grows with the ids that are kept, and not with the bound. An `AllocError` comes only where a growth of memory was
/// refused.
pub fn undefined(
    alloc: Global,
    insts: &[Inst<'_>],
    bound: u32,
    at: u32,
) -> Result<Evidence, AllocError>
    requires few { AreFew insts.now }
    requires first { (G : Table) × AreFit G (map plain_inst insts.now)
        × IsFirst (Broken G bound (map plain_inst insts.now)) of_ids D3 at }
    ensures { (G : Table) → AreFit G (map plain_inst insts.now)
        → IfOk result (λ e. IsEvidence G bound (map plain_inst insts.now) D3 at e) }
{
    let definitions = first_definitions(alloc, insts, bound)?;
    let inst = &insts[at as usize];
    for k in 0..inst.operands.as_slice().len() {
        if is_undefined(&definitions, inst, k) {
            return Ok(Evidence::Operand { operand: k as u32 });
        }
    }
    unreachable!()
}
