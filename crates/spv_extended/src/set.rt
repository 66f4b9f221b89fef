//! The sets of extended instructions, and which of them each id stands for.

ghost use Rattle.std.specs.Prelude.{◌≡◌, IfOk, map};
ghost use Rattle.spv_module.specs.Module.{plain_inst, plain_operands};
ghost use Rattle.spv_extended.specs.Sets as spec;
ghost use Rattle.spv_extended.specs.inner.Found.{Finds, set_found};

use spv_module::{Inst, Operand, opcode};
use std::alloc::{AllocError, Global};
use std::collections::BTreeMap;

/// A set of extended instructions, by the name that an OpExtInstImport gives it.
#[derive(Clone, Copy)]
pub enum Set {
    /// OpenCL.std.
    OpenClStd,
    /// OpenCL.DebugInfo.100, under this name or the one that llvm-spirv gives it, SPIRV.debug.
    OpenClDebugInfo,
    /// DebugInfo.
    DebugInfo,
    /// Any other set, of whose instructions nothing is known.
    Other,
}

/// The set of a name. It takes no memory.
pub fn set_named(name: &str) -> Set
    ensures { result ≡ spec.set_named name.now }
{
    if name == "OpenCL.std" {
        return Set::OpenClStd;
    }
    if name == "OpenCL.DebugInfo.100" {
        return Set::OpenClDebugInfo;
    }
    if name == "SPIRV.debug" {
        return Set::OpenClDebugInfo;
    }
    if name == "DebugInfo" {
        return Set::DebugInfo;
    }
    Set::Other
}

/// The id and the set of the operands of an OpExtInstImport.
#[inline(never)]
fn import_in(operands: &[Operand<'_>]) -> Option<(u32, Set)>
    ensures { result ≡ spec.import_in (plain_operands operands.now) }
{
    match operands {
        [Operand::Result(id), Operand::Text(name), ..] => Some((*id, set_named(name))),
        _ => None,
    }
}

/// The id for which an instruction imports a set, and the set; none where it is no OpExtInstImport. It takes no memory.
#[inline(always)]
pub fn import(inst: &Inst<'_>) -> Option<(u32, Set)>
    ensures { result ≡ spec.imported_by (plain_inst inst.now) }
{
    if inst.opcode == opcode::EXT_INST_IMPORT {
        import_in(inst.operands.as_slice())
    } else {
        None
    }
}

/// The set of each id for which instructions import one. The first import of an id holds.
///
/// An `AllocError` comes only where a growth of memory was refused.
pub fn sets_of(alloc: Global, insts: &[Inst<'_>]) -> Result<BTreeMap<u32, Set>, AllocError>
    ensures { IfOk result (Finds (map plain_inst insts.now)) }
{
    let mut sets = BTreeMap::new(alloc);
    for at in (0..insts.len()).rev() {
        if let Some((id, set)) = import(&insts[at]) {
            sets.insert(id, set)?;
        }
    }
    Ok(sets)
}

/// The set of an id.
#[inline(always)]
pub fn set_of(sets: &BTreeMap<u32, Set>, id: u32) -> Set
    ensures { result ≡ set_found sets.now id }
{
    match sets.get(&id) {
        Some(set) => *set,
        None => Set::Other,
    }
}
