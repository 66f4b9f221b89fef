//! The instructions of an image, as far as they are looked at.

ghost use Rattle.std.specs.Prelude.{◌≡◌, List, IfOk, IfErr, drop};
ghost use Rattle.spv_module.specs.Module.{plain_insts};
ghost use Rattle.spv_module.specs.Operand.{PlainInst};
ghost use Rattle.spv_inst.specs.Outcome.{HasNoList, IsDecodeFault, IsHeaderOf};
ghost use Rattle.spv_layout.specs.Place.{IsShort};
ghost use Rattle.spv_check.specs.Reading.{IsReading};

use spv_extended::laws::opening_keeps;
use spv_extended::{Reach, open, opens};
use spv_inst::decode;
use spv_layout::laws::word_counts;
use spv_module::{Module, Stop};
use spv_table::Table;
use spv_words::Image;
use std::alloc::Global;

/// The instructions of an image by a grammar table, with texts lent by the image, as far as they are looked at: as
/// `decode` answers them, and then, where extended instructions are looked at, as `open` leaves them.
///
/// A `Fault` tells the first instruction that fails, with its rule, I1 to I12, and the word of the module (from 0) by
/// which the rule is told. `Memory` comes only where a growth of memory was refused.
pub fn read<'a>(
    alloc: Global,
    table: &Table,
    reach: Reach,
    image: &'a Image,
) -> Result<Module<'a>, Stop>
    // What is answered is the list that the words from word 5 on spell, as far as it is looked at.
    ensures found { IfOk result (λ m. IsReading table.now reach (plain_insts m) (drop 5 image.now)) }
    // The words spell no other.
    ensures only { IfOk result (λ m. (is : List PlainInst) → IsReading table.now reach is (drop 5 image.now)
        → is ≡ plain_insts m) }
    ensures header { IfOk result (λ m. IsHeaderOf image.now m.header) }
    // It has as few words as a module may have.
    ensures short { IfOk result (λ m. IsShort (plain_insts m)) }
    // A fault is that of the dead instruction.
    ensures dead { IfErr result (λ e. IsDecodeFault table.now image.now e) }
    // Where there is one, the words spell no list.
    ensures none { IfErr result (λ e. HasNoList table.now image.now e) }
{
    word_counts();
    opening_keeps();
    let _words = image.len();
    let mut module = decode(alloc, table, image)?;
    if opens(reach) {
        open(alloc, &mut module)?;
    }
    Ok(module)
}
