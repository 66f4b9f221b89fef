//! The pass that opens a module.

ghost use Rattle.std.specs.Prelude.{◌≡◌, ◌++◌, ◌≤◌, ◌+◌, length, map, IfOk, OnOk, MatchOption};
ghost use Rattle.spv_module.specs.Module.{plain_inst, plain_insts, plain_operand, plain_operands};
ghost use Rattle.spv_extended.specs.Opened as spec;
ghost use Rattle.spv_extended.specs.Opened.{opened, opened_from, opened_operands};
ghost use Rattle.spv_extended.specs.inner.Found.{set_found};
ghost use Rattle.spv_extended.specs.inner.Parts.{all_opened, given, operands_in};

use crate::set::{Set, set_of, sets_of};
use crate::signature::{Signature, signature_of};
use spv_module::{Inst, Module, Operand, Operands, opcode};
use std::alloc::{AllocError, Global};
use std::collections::BTreeMap;
use std::rc::Rc;

/// How many operands one list can have of which instructions have parts.
const MOST: usize = 0xffff_ffff;

/// What an operand becomes that is no literal.
#[inline(always)]
fn opened_operand<'a>(set: Set, operand: Operand<'a>) -> Operand<'a>
    ensures { plain_operand result ≡ spec.opened_operand set (plain_operand operand.entry) }
{
    match (set, operand) {
        (Set::OpenClStd, Operand::Id(id)) => Operand::Argument(id),
        (_, Operand::Id(id)) => Operand::Mention(id),
        _ => operand,
    }
}

/// Adds what stands behind the number of an extended instruction to a list, opened.
fn add_behind<'a>(
    set: Set,
    signature: Signature,
    behind: &[Operand<'a>],
    list: &mut Vec<Operand<'a>>,
) -> Result<(), AllocError>
    ensures { OnOk result (plain_operands list.new.items
        ≡ plain_operands list.old.items ++ opened_from set signature 0 (plain_operands behind.now)) }
{
    for (place, operand) in behind.iter().enumerate() {
        if signature.is_literal(place) {
            list.push(*operand)?;
        } else {
            list.push(opened_operand(set, *operand))?;
        }
    }
    Ok(())
}

/// Adds the operands of an OpExtInst to a list, opened.
#[inline(always)]
fn add_opened<'a>(
    sets: &BTreeMap<u32, Set>,
    operands: &[Operand<'a>],
    list: &mut Vec<Operand<'a>>,
) -> Result<(), AllocError>
    ensures { OnOk result (plain_operands list.new.items
        ≡ plain_operands list.old.items ++ opened_operands (set_found sets.now) (plain_operands operands.now)) }
{
    match operands {
        [
            Operand::OfType(_),
            Operand::Result(_),
            Operand::Id(id),
            Operand::Word(number),
            behind @ ..,
        ] => {
            let set = set_of(sets, *id);
            list.extend_from_slice(&operands[..4])?;
            add_behind(set, signature_of(set, *number), behind, list)
        }
        _ => list.extend_from_slice(operands),
    }
}

/// How many operands all OpExtInsts have together, if one list can have so many.
fn count_operands(insts: &[Inst<'_>]) -> Option<usize>
    ensures { MatchOption result (Unit {0}) (λ n. (n ≡ operands_in (map plain_inst insts.now)) × (n ≤ 4294967295)) }
{
    let mut count = 0;
    for inst in insts {
        if inst.opcode == opcode::EXT_INST {
            let more = inst.operands.len();
            if more > MOST - count {
                return None;
            }
            count += more;
        }
    }
    Some(count)
}

/// The operands of all OpExtInsts, which are so many, one after another, opened.
fn gather<'a>(
    alloc: Global,
    sets: &BTreeMap<u32, Set>,
    insts: &[Inst<'a>],
    count: usize,
) -> Result<Vec<Operand<'a>>, AllocError>
    ensures { IfOk result (λ v. plain_operands v.items ≡ all_opened (set_found sets.now) (map plain_inst insts.now)) }
{
    let mut list = Vec::with_capacity(alloc, count)?;
    for inst in insts {
        if inst.opcode == opcode::EXT_INST {
            add_opened(sets, inst.operands.as_slice(), &mut list)?;
        }
    }
    Ok(list)
}

/// Gives each OpExtInst its part of a list, in order: as many operands as it has.
fn give<'a>(shared: &Rc<Vec<Operand<'a>>>, insts: &mut Vec<Inst<'a>>) -> Result<(), AllocError>
    requires enough { operands_in (map plain_inst insts.old.items) ≤ length shared.now.value.items }
    requires few { length shared.now.value.items ≤ 4294967295 }
    ensures { OnOk result (map plain_inst insts.new.items
        ≡ given (plain_operands shared.now.value.items) (map plain_inst insts.old.items)) }
{
    let mut first = 0;
    for at in 0..insts.len() {
        let inst = &insts[at];
        if inst.opcode == opcode::EXT_INST {
            let count = inst.operands.len();
            let operands = Operands::part(shared, first as u32, count as u32)?;
            insts[at] = Inst {
                opcode: opcode::EXT_INST,
                operands,
            };
            first += count;
        }
    }
    Ok(())
}

/// Opens a module: of each OpExtInst the ids behind its number become operands that are looked at, as its set says:
/// `Argument` where the set is OpenCL.std, `Mention` where it is another one. Literals, which decoding reads as ids,
/// stay as they are, and so does all else.
///
/// Time is linear in the module's operands, but for a logarithm of the number of imports. Where nothing is to be
/// opened, no memory is taken.
///
/// An `AllocError` comes only where a growth of memory was refused, or where OpExtInsts have 4,294,967,296 operands or
/// more together, and then nothing is said of the instructions.
pub fn open<'a>(alloc: Global, module: &mut Module<'a>) -> Result<(), AllocError>
    ensures opened { OnOk result (plain_insts «module».new ≡ opened (plain_insts «module».old)) }
    ensures header { «module».new.header ≡ «module».old.header }
{
    let insts = module.insts.as_slice();
    let Some(count) = count_operands(insts) else {
        return Err(AllocError);
    };
    if count == 0 {
        return Ok(());
    }
    let sets = sets_of(alloc, insts)?;
    let operands = gather(alloc, &sets, insts, count)?;
    let Ok(shared) = Rc::new(alloc, operands) else {
        return Err(AllocError);
    };
    give(&shared, &mut module.insts)
}
