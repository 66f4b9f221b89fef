//! The words of a module before an instruction that is malformed.
ghost use Rattle.std.specs.Prelude.{◌≡◌, ◌≤◌, ℕ, List, IfOk, drop, length, take};
ghost use Rattle.spv_table.specs.Table.{Table};
ghost use Rattle.spv_module.specs.Operand.{PlainInst};
ghost use Rattle.spv_module.specs.Instruction.{IsListing};
ghost use Rattle.spv_module.specs.Malformed.{IsMalformedAt};
ghost use Rattle.spv_module.specs.declared.fault.Rule.{Rule};
ghost use Rattle.spv_views.specs.inner.Beginning.{IsBeginning, IsDeadAt};

use spv_inst::decode;
use spv_module::{Memory, Stop};
use spv_table::Table;
use spv_words::{Draft, Image, word};
use std::alloc::{AllocError, Global};

/// The place of the first word of an instruction, by the words that each before it tells.
fn place_of(image: &Image, inst: u32) -> u32
    ensures { (G : Table) (rule : Rule) (n : ℕ) → IsMalformedAt G (drop 5 image.now) rule inst n
        → IsDeadAt G image.now rule result }
{
    let count = image.len();
    let mut at: u32 = 5;
    let mut left = inst;
    while left > 0 {
        if at >= count {
            return at;
        }
        at += word(image, at) / 65536;
        left -= 1;
    }
    at
}

/// The image of the first words of one, with its header.
fn words_before(alloc: Global, image: &Image, end: u32) -> Result<Image, AllocError>
    requires header { 5 ≤ end }
    requires within { end ≤ length image.now }
    ensures { IfOk result (λ i. i ≡ take end image.now) }
{
    let _header = image.header();
    let _count = image.len();
    let mut draft = Draft::new(alloc);
    for at in 0..end {
        draft.push(word(image, at))?;
    }
    Ok(draft.finish())
}

/// The image of the words before the instruction that is malformed, of words that are no list of instructions.
///
/// `Memory` comes only where a growth of memory was refused.
pub fn beginning_of(alloc: Global, table: &Table, image: &Image) -> Result<Image, Memory>
    requires { (is : List PlainInst) → ¬ (IsListing table.now is (drop 5 image.now)) }
    ensures { IfOk result (IsBeginning table.now image.now) }
{
    let _count = image.len();
    let fault = match decode(alloc, table, image) {
        Ok(_) => unreachable!(),
        Err(Stop::Fault(fault)) => fault,
        Err(Stop::Memory) => return Err(Memory),
    };
    let end = place_of(image, fault.inst);
    match words_before(alloc, image, end) {
        Ok(start) => Ok(start),
        Err(_) => Err(Memory),
    }
}
