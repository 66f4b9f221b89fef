ghost use Rattle.std.specs.Prelude.{◌≡◌, List, [], drop, map, IfOk, IfErr, OnOk};
ghost use Rattle.spv_module.specs.Operand.{PlainInst};
ghost use Rattle.spv_module.specs.Module.{plain_inst, plain_insts};
ghost use Rattle.spv_module.specs.Instruction.{IsListing};
ghost use Rattle.spv_inst.specs.Outcome.{HasNoList, IsDecodeFault, IsHeaderOf};
ghost use Rattle.spv_inst.specs.inner.Batch.{batch_insts, IsTidy};
ghost use Rattle.spv_inst.specs.inner.Known.{Knows};

use crate::batch::Batch;
use crate::definitions::Definitions;
use crate::instruction::{Read, read_instruction};
use crate::pending::Pending;
use crate::reader::Scene;
use crate::room::room_for;
use spv_module::{Inst, Module, Stop};
use spv_table::Table;
use spv_words::{Header, Image};
use std::alloc::{AllocError, Global};

/// How many words the decoder reckons an instruction has, to keep room for all of them from the start.
const WORDS_FOR_EACH: usize = 4;

/// A module with that header and no instruction, with room for so many. The error is that memory ran out.
fn with_room<'a>(alloc: Global, header: Header, count: usize) -> Result<Module<'a>, AllocError>
    ensures header { IfOk result (λ m. m.header ≡ header) }
    ensures insts { IfOk result (λ m. plain_insts m ≡ []) }
{
    let mut module = Module::new(alloc, header);
    module.insts = Vec::with_capacity(alloc, count)?;
    Ok(module)
}

/// Adds the instructions of an image to a list of none. What is handed in is begun anew: nothing is known, and no
/// instruction was read. After an error nothing is said of what is left.
#[inline(always)]
fn read_all<'t, 'a>(
    alloc: Global,
    table: &'t Table,
    image: &'a Image,
    definitions: &mut Definitions,
    pending: &mut Pending<'t>,
    batch: &mut Batch<'a>,
    insts: &mut Vec<Inst<'a>>,
) -> Result<(), Stop>
    requires unknown { Knows definitions.old [] }
    requires unread { batch_insts batch.old ≡ [] }
    requires tidy { IsTidy batch.old }
    requires empty { batch.old.operands.items ≡ [] }
    requires unlisted { map plain_inst insts.old.items ≡ [] }
    ensures found { OnOk result (IsListing table.now (map plain_inst insts.new.items) (drop 5 image.now)) }
    ensures only { OnOk result ((is : List PlainInst) → IsListing table.now is (drop 5 image.now)
        → is ≡ map plain_inst insts.new.items) }
    ensures dead { IfErr result (λ e. IsDecodeFault table.now image.now e) }
    ensures none { IfErr result (λ e. HasNoList table.now image.now e) }
{
    let forms = table.forms();
    let len = image.len();
    let mut number = 0;
    let mut at = 5;
    while at < len {
        let scene = Scene {
            table,
            forms,
            definitions,
            image,
        };
        let Read { opcode, first, end } = read_instruction(
            &scene,
            pending,
            &mut batch.operands,
            number,
            at,
        )?;
        definitions.add(opcode, &batch.operands[first..])?;
        batch.close(opcode, first)?;
        batch.settle(alloc, insts)?;
        number += 1;
        at = end;
    }
    batch.move_into(alloc, insts, 0)?;
    Ok(())
}

/// The instructions of an image by a grammar table, with texts lent by the image.
///
/// A `Fault` tells the first instruction that fails, with its rule, I1 to I12, and the word of the module (from 0) by
/// which the rule is told. `Memory` comes only where a growth of memory was refused.
#[inline(never)]
pub fn decode<'t, 'a>(alloc: Global, table: &'t Table, image: &'a Image) -> Result<Module<'a>, Stop>
    // What is answered is the list that the words from word 5 on spell.
    ensures found { IfOk result (λ m. IsListing table.now (plain_insts m) (drop 5 image.now)) }
    // The words spell no other.
    ensures only { IfOk result (λ m. (is : List PlainInst) → IsListing table.now is (drop 5 image.now)
        → is ≡ plain_insts m) }
    ensures header { IfOk result (λ m. IsHeaderOf image.now m.header) }
    // A fault is that of the dead instruction.
    ensures dead { IfErr result (λ e. IsDecodeFault table.now image.now e) }
    // Where there is one, the words spell no list.
    ensures none { IfErr result (λ e. HasNoList table.now image.now e) }
{
    let words = image.len() as usize;
    let mut module = with_room(alloc, image.header(), words / WORDS_FOR_EACH)?;
    let mut definitions = room_for(alloc, table, image)?;
    let mut pending: Pending<'t> = Pending::new(alloc);
    let mut batch = Batch::with_room(alloc, words)?;
    read_all(
        alloc,
        table,
        image,
        &mut definitions,
        &mut pending,
        &mut batch,
        &mut module.insts,
    )?;
    Ok(module)
}
