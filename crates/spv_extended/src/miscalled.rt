//! The calls of extended instructions that OpenCL.std does not have.

ghost use Rattle.std.specs.Prelude.{◌≡◌, IfOk};
ghost use Rattle.spv_module.specs.Module.{plain_inst, plain_insts, plain_operands};
ghost use Rattle.spv_extended.specs.Miscalled as spec;
ghost use Rattle.spv_extended.specs.Miscalled.{IsFirstMiscalled};
ghost use Rattle.spv_extended.specs.inner.Found.{set_found};

use crate::set::{Set, set_of, sets_of};
use crate::signature::signature_of;
use spv_module::{Inst, Memory, Module, Operand, opcode};
use std::alloc::Global;
use std::collections::BTreeMap;

/// Whether operands of an OpExtInst call what OpenCL.std does not have.
fn is_miscall(sets: &BTreeMap<u32, Set>, operands: &[Operand<'_>]) -> bool
    ensures { result ≡ spec.is_miscall (set_found sets.now) (plain_operands operands.now) }
{
    match operands {
        [
            Operand::OfType(_),
            Operand::Result(_),
            Operand::Id(id),
            Operand::Word(number),
            behind @ ..,
        ] => match set_of(sets, *id) {
            Set::OpenClStd => !signature_of(Set::OpenClStd, *number).takes(behind.len()),
            _ => false,
        },
        _ => false,
    }
}

/// Whether an instruction calls what OpenCL.std does not have.
#[inline(always)]
fn miscalls(sets: &BTreeMap<u32, Set>, inst: &Inst<'_>) -> bool
    ensures { result ≡ spec.miscalls (set_found sets.now) (plain_inst inst.now) }
{
    inst.opcode == opcode::EXT_INST && is_miscall(sets, inst.operands.as_slice())
}

/// The number, from 0, of the first instruction that calls what OpenCL.std does not have: an OpExtInst of that set
/// whose number is none of the set's, or that has fewer or more operands behind it than the set's instruction takes.
/// None where there is no such instruction.
///
/// `Memory` comes only where a growth of memory was refused, or where the module has 4,294,967,296 instructions or
/// more.
pub fn first_miscalled(alloc: Global, module: &Module<'_>) -> Result<Option<u32>, Memory>
    ensures { IfOk result (IsFirstMiscalled (plain_insts «module».now)) }
{
    let insts = module.insts.as_slice();
    if insts.len() > 0xffff_ffff {
        return Err(Memory);
    }
    let sets = sets_of(alloc, insts)?;
    for (number, inst) in insts.iter().enumerate() {
        if miscalls(&sets, inst) {
            return Ok(Some(number as u32));
        }
    }
    Ok(None)
}
