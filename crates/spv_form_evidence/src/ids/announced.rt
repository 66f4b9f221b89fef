//! The ids that instructions announce before they are defined.

ghost use Rattle.std.specs.Prelude.{◌≡◌, ◌+◌, ◌≤◌, ℕ, List, Some, OnOk, IfOk, length, map, slice_get};
ghost use Rattle.spv_module.specs.Operand.{PlainInst};
ghost use Rattle.spv_module.specs.Module.{plain_inst};
ghost use Rattle.spv_ids.specs.inner.Test.{announced_id};
ghost use Rattle.spv_form_evidence.specs.ids.inner.Order.{AreAnnounced};

use crate::ids::kept::Kept;
use spv_ids::named_id;
use spv_module::{Inst, opcode};
use std::alloc::{AllocError, Global};

/// The id that an OpTypeForwardPointer names.
fn announced_by(inst: &Inst<'_>) -> Option<u32>
    ensures { result ≡ announced_id (plain_inst inst.now) }
{
    if inst.opcode == opcode::TYPE_FORWARD_POINTER {
        named_id(inst, 0)
    } else {
        None
    }
}

/// Keeps an OpTypeForwardPointer of the id that it names.
///
/// An `AllocError` comes only where a growth of memory was refused.
fn keep_announced(announced: &mut Kept, inst: &Inst<'_>, at: u32) -> Result<(), AllocError>
    ensures { OnOk result ((is : List PlainInst) (bound : ℕ) → slice_get is at ≡ Some (plain_inst inst.now)
        → AreAnnounced bound is at announced.old
        → AreAnnounced bound is (at + 1) announced.new) }
{
    if let Some(id) = announced_by(inst) {
        announced.put(id, at)?;
    }
    Ok(())
}

/// Of each id below the bound an OpTypeForwardPointer before instruction `at` that names it.
///
/// An `AllocError` comes only where a growth of memory was refused.
pub fn announced_before(
    alloc: Global,
    insts: &[Inst<'_>],
    bound: u32,
    at: u32,
) -> Result<Kept, AllocError>
    requires { at ≤ length insts.now }
    ensures { IfOk result (λ a. AreAnnounced bound (map plain_inst insts.now) at a) }
{
    let mut announced = Kept::new(alloc, bound, insts.len())?;
    for m in 0..at {
        keep_announced(&mut announced, &insts[m as usize], m)?;
    }
    Ok(announced)
}
