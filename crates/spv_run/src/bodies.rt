//! Where the bodies of functions begin.

ghost use Rattle.std.specs.Prelude.{◌≡◌, ◌<◌, ℕ, Some, map, length, IfOk};
ghost use Rattle.spv_table.specs.Table.{Table};
ghost use Rattle.spv_module.specs.Module.{plain_inst};
ghost use Rattle.spv_layout.specs.Place.{AreFew};
ghost use Rattle.spv_run.specs.Act.{Function};
ghost use Rattle.spv_run.specs.At.{act_at};
ghost use Rattle.spv_run.specs.Sound.{KeepsRules};
ghost use Rattle.spv_run.specs.inner.Bodies.{IsEntry, HaveEntries};

use spv_module::{Inst, opcode};
use std::alloc::{AllocError, Global};

/// The OpLabel with which a function's body begins, or 0 where it has none.
fn entry_of(insts: &[Inst<'_>], function: u32) -> u32
    requires few { AreFew insts.now }
    requires within { function < length insts.now }
    ensures { (G : Table) (bound : ℕ) → KeepsRules G bound (map plain_inst insts.now)
        → act_at (map plain_inst insts.now) function ≡ Some Function
        → IsEntry (map plain_inst insts.now) function result }
{
    for at in function as usize + 1..insts.len() {
        let opcode = insts[at].opcode;
        if opcode == opcode::LABEL {
            return at as u32;
        }
        if opcode == opcode::FUNCTION_END {
            return 0;
        }
    }
    0
}

/// The OpLabel with which the body of the function at an instruction begins, or 0 where there is none.
fn entry_at(insts: &[Inst<'_>], at: u32) -> u32
    requires few { AreFew insts.now }
    requires within { at < length insts.now }
    ensures { (G : Table) (bound : ℕ) → KeepsRules G bound (map plain_inst insts.now)
        → act_at (map plain_inst insts.now) at ≡ Some Function → IsEntry (map plain_inst insts.now) at result }
{
    let opcode = insts[at as usize].opcode;
    if opcode == opcode::FUNCTION {
        entry_of(insts, at)
    } else {
        0
    }
}

/// Of each instruction that is an OpFunction the OpLabel with which its body begins, or 0.
pub fn entries_of(alloc: Global, insts: &[Inst<'_>]) -> Result<Vec<u32>, AllocError>
    requires { AreFew insts.now }
    ensures { IfOk result (λ es. HaveEntries (map plain_inst insts.now) es.items) }
{
    let mut entries = Vec::with_capacity(alloc, insts.len())?;
    for at in 0..insts.len() {
        entries.push(entry_at(insts, at as u32))?;
    }
    Ok(entries)
}
