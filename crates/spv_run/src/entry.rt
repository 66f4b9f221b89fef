//! The functions of entry points.

ghost use Rattle.std.specs.Prelude.{◌≡◌, ◌↔◌, IsTrue, map, slice_get};
ghost use Rattle.spv_module.specs.Module.{plain_inst};
ghost use Rattle.spv_flow.specs.calls.inner.Found.{entry_in};
ghost use Rattle.spv_run.specs.Entry.{IsEntryId};

use spv_ids::named_id;
use spv_module::{Inst, opcode};

/// The function that an OpEntryPoint names.
fn named_by(inst: &Inst<'_>) -> Option<u32>
    ensures { result ≡ entry_in (plain_inst inst.now) }
{
    if inst.opcode != opcode::ENTRY_POINT {
        return None;
    }
    named_id(inst, 1)
}

/// Whether an id is the function of an OpEntryPoint. (3.49.5)
pub fn is_entry(insts: &[Inst<'_>], function: u32) -> bool
    ensures { IsTrue result ↔ IsEntryId (map plain_inst insts.now) function }
{
    for at in 0..insts.len() {
        if let Some(id) = named_by(&insts[at]) {
            if id == function {
                return true;
            }
        }
    }
    false
}
