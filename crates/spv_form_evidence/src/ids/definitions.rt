//! The first definitions of ids.

ghost use Rattle.std.specs.Prelude.{◌≡◌, ◌+◌, ℕ, List, Some, OnOk, IfOk, length, map, slice_get};
ghost use Rattle.spv_module.specs.Operand.{PlainInst};
ghost use Rattle.spv_module.specs.Module.{plain_inst};
ghost use Rattle.spv_layout.specs.Place.{AreFew};
ghost use Rattle.spv_form_evidence.specs.ids.inner.Known.{AreFirst};

use crate::ids::kept::Kept;
use spv_module::Inst;
use std::alloc::{AllocError, Global};

/// Keeps an instruction of its result, if nothing is kept of that id.
///
/// An `AllocError` comes only where a growth of memory was refused.
fn keep_first(definitions: &mut Kept, inst: &Inst<'_>, at: u32) -> Result<(), AllocError>
    ensures { OnOk result ((is : List PlainInst) (bound : ℕ) → slice_get is at ≡ Some (plain_inst inst.now)
        → AreFirst bound is at definitions.old
        → AreFirst bound is (at + 1) definitions.new) }
{
    if let Some(id) = inst.result_id() {
        if definitions.is_free(id) {
            definitions.put(id, at)?;
        }
    }
    Ok(())
}

/// Of each id below the bound the first instruction that defines it.
///
/// An `AllocError` comes only where a growth of memory was refused.
pub fn first_definitions(alloc: Global, insts: &[Inst<'_>], bound: u32) -> Result<Kept, AllocError>
    requires { AreFew insts.now }
    ensures { IfOk result (λ d. AreFirst bound (map plain_inst insts.now) (length (map plain_inst insts.now)) d) }
{
    let mut definitions = Kept::new(alloc, bound, insts.len())?;
    for i in 0..insts.len() {
        keep_first(&mut definitions, &insts[i], i as u32)?;
    }
    Ok(definitions)
}
