//! What an OpExtInst calls.

ghost use Rattle.std.specs.Prelude.{◌≡◌, IfOk};
ghost use Rattle.spv_module.specs.Module.{plain_inst, plain_insts};
ghost use Rattle.spv_extended.specs.Call as spec;
ghost use Rattle.spv_extended.specs.inner.Found.{set_found};

use crate::set::{Set, set_of, sets_of};
use spv_module::{Inst, Module, Operand, opcode};
use std::alloc::{AllocError, Global};
use std::collections::BTreeMap;

/// What an OpExtInst calls.
#[derive(Clone, Copy)]
pub struct Call {
    /// The set of the extended instruction.
    pub set: Set,
    /// The number that it has there.
    pub number: u32,
    /// How many operands stand behind the number.
    pub operands: u32,
}

/// What an instruction calls; none where it is no OpExtInst.
fn call_of(sets: &BTreeMap<u32, Set>, inst: &Inst<'_>) -> Option<Call>
    ensures { result ≡ spec.call_of (set_found sets.now) (plain_inst inst.now) }
{
    if inst.opcode != opcode::EXT_INST {
        return None;
    }
    match inst.operands.as_slice() {
        [
            Operand::OfType(_),
            Operand::Result(_),
            Operand::Id(id),
            Operand::Word(number),
            behind @ ..,
        ] => Some(Call {
            set: set_of(sets, *id),
            number: *number,
            operands: behind.len() as u32,
        }),
        _ => None,
    }
}

/// What the instruction of a number, from 0, calls: the set of the extended instruction, its number there, and how many
/// operands stand behind it. None where the module has no such instruction, or it is no OpExtInst, %x = OpExtInst %t
/// %set number ...
///
/// Time is linear in the number of instructions.
///
/// An `AllocError` comes only where a growth of memory was refused.
pub fn call_at(alloc: Global, module: &Module<'_>, inst: u32) -> Result<Option<Call>, AllocError>
    ensures { IfOk result (λ call. call ≡ spec.call_at (plain_insts «module».now) inst) }
{
    let insts = module.insts.as_slice();
    let Some(caller) = insts.get(inst as usize) else {
        return Ok(None);
    };
    let sets = sets_of(alloc, insts)?;
    Ok(call_of(&sets, caller))
}
