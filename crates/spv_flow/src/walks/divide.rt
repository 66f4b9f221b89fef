//! Functions divided into blocks.

ghost use Rattle.std.specs.Prelude.{◌≡◌, ◌<◌, ◌≤◌, ℕ, false, length, map, OnOk, MatchBool};
ghost use Rattle.spv_layout.specs.Place.{AreFew};
ghost use Rattle.spv_table.specs.Table.{Table};
ghost use Rattle.spv_module.specs.Module.{plain_inst};
ghost use Rattle.spv_flow.specs.branches.Target.{IsOp};
ghost use Rattle.spv_flow.specs.branches.Target as target;
ghost use Rattle.spv_flow.specs.branches.inner.Target as opcodes;
ghost use Rattle.spv_flow.specs.walks.inner.Code.{insts_of, IsCode};
ghost use Rattle.spv_flow.specs.walks.inner.Divided.{IsBegin};
ghost use Rattle.spv_flow.specs.walks.inner.Starts.{IsExtent, IsLaid};

use crate::walks::code::{Code, is_terminator};
use spv_module::Inst;
use spv_module::opcode::{FUNCTION, FUNCTION_END, LABEL, PHI};
use std::alloc::AllocError;

/// How far a function goes.
#[derive(Clone, Copy)]
pub struct Extent {
    /// The instruction after its last one.
    pub end: u32,
    /// Whether one of its instructions is an OpPhi.
    pub has_phis: bool,
}

/// How far the function of an OpFunction goes: to its OpFunctionEnd.
pub fn function_extent(code: &Code<'_, '_>, function: u32) -> Extent
    requires code { (G : Table) × IsCode G code.now }
    requires function { IsOp (insts_of code.now) function opcodes.is_function }
    ensures extent { IsExtent (insts_of code.now) function result.end }
    ensures phis { result.has_phis ≡ false → (n : ℕ) → function ≤ n → n < result.end
        → ¬ (IsOp (insts_of code.now) n target.is_phi) }
{
    let count = code.insts.len() as u32;
    let mut has_phis = false;
    for at in function + 1..count {
        let opcode = code.insts[at as usize].opcode;
        if opcode == FUNCTION_END {
            return Extent {
                end: at + 1,
                has_phis,
            };
        }
        if opcode == FUNCTION {
            return Extent { end: at, has_phis };
        }
        if opcode == PHI {
            has_phis = true;
        }
    }
    Extent {
        end: count,
        has_phis,
    }
}

/// Whether an instruction after the first begins a block: an OpLabel, or one after a terminator.
fn begins(insts: &[Inst<'_>], at: usize) -> bool
    requires some { 0 < at }
    requires at { at < length insts.now }
    ensures { MatchBool result (IsBegin (map plain_inst insts.now) at) (¬ (IsBegin (map plain_inst insts.now) at)) }
{
    insts[at].opcode == LABEL || is_terminator(insts[at - 1].opcode)
}

/// The first instruction of each block of a function, and at last the one after the function's last; and the number of
/// the block that begins at each of these.
pub fn divide(
    code: &Code<'_, '_>,
    function: u32,
    end: u32,
    starts: &mut Vec<u32>,
    numbers: &mut [u32],
) -> Result<(), AllocError>
    requires extent { IsExtent (insts_of code.now) function end }
    requires count { length numbers.old ≡ length code.now.insts.now }
    requires most { AreFew code.now.insts.now }
    ensures { OnOk result (IsLaid (insts_of code.now) function end starts.new.items numbers.new) }
{
    starts.clear();
    numbers[function as usize] = 0;
    starts.push(function)?;
    for at in function + 1..end {
        if begins(code.insts, at as usize) {
            numbers[at as usize] = starts.len() as u32;
            starts.push(at)?;
        }
    }
    starts.push(end)?;
    Ok(())
}
