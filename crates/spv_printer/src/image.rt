//! From an image to its text, without a list of its instructions.

ghost use Rattle.std.specs.Prelude.{◌≡◌, ◌<◌, ◌++◌, ◌∷◌, [], List, IfOk, IfErr, OnOk, length};
ghost use Rattle.std.specs.Prelude.{string_bytes};
ghost use Rattle.spv_inst.specs.inner.Known.{Knows};
ghost use Rattle.spv_module.specs.Operand.{PlainInst};
ghost use Rattle.spv_inst.specs.Outcome.{IsDecodeFault};
ghost use Rattle.spv_inst.specs.inner.Step.{IsDeadFrom};
ghost use Rattle.spv_lines.specs.Image.{IsShownImage};
ghost use Rattle.spv_printer.specs.inner.Image.{AreAdded, IsNext};
ghost use Rattle.spv_printer.specs.inner.Printer.{IsReady};

use crate::fast_line::{SIZE, fast_line};
use crate::printer::Printer;
use crate::shown::push_header;
use spv_inst::due::{Scene, read_apart};
use spv_module::{Operand, Stop};
use spv_table::Table;
use spv_words::Image;
use std::alloc::{AllocError, Global};

/// What is kept from one instruction of an image to the next.
#[derive(Drop)]
struct ImagePrinter<'t, 'a> {
    printer: Printer<'t>,
    /// The operands of an instruction that is shown the general way.
    operands: Vec<Operand<'a>>,
    /// Where a line is put together the fast way.
    buffer: [u8; SIZE],
}

/// Reads the instruction at a word, after so many instructions, into a list, and adds its line the general way. Gives
/// the number of the word behind it.
#[inline(never)]
fn push_read<'t, 'a>(
    out: &mut String,
    table: &'t Table,
    image: &'a Image,
    printer: &mut Printer<'t>,
    operands: &mut Vec<Operand<'a>>,
    number: u32,
    at: u32,
) -> Result<u32, Stop>
    requires ready { IsReady table.now printer.old }
    requires fits { at < length image.now }
    ensures next { (before : List PlainInst) → Knows printer.old.definitions before
        → IfOk result (λ end. IsNext table.now image.now before (string_bytes out.old) (string_bytes out.new)
        printer.new.definitions at end) }
    ensures dead { (before : List PlainInst) → Knows printer.old.definitions before
        → IfErr result (λ e. IsDeadFrom table.now before image.now number at e) }
    ensures ready { IsReady table.now printer.new }
{
    let scene = Scene {
        table,
        forms: printer.forms,
        definitions: &printer.definitions,
        image,
    };
    operands.clear();
    let read = read_apart(&scene, &mut printer.pending, operands, number, at)?;
    printer.push_line(out, table, read.opcode, operands.as_slice())?;
    Ok(read.end)
}

impl<'t, 'a> ImagePrinter<'t, 'a> {
    /// The same as `push_read`, the fast way where that is possible.
    fn push_next(
        &mut self,
        out: &mut String,
        table: &'t Table,
        image: &'a Image,
        number: u32,
        at: u32,
    ) -> Result<u32, Stop>
        requires ready { IsReady table.now self.old.printer }
        requires fits { at < length image.now }
        ensures next { (before : List PlainInst) → Knows self.old.printer.definitions before
            → IfOk result (λ end. IsNext table.now image.now before (string_bytes out.old) (string_bytes out.new)
            self.new.printer.definitions at end) }
        ensures dead { (before : List PlainInst) → Knows self.old.printer.definitions before
            → IfErr result (λ e. IsDeadFrom table.now before image.now number at e) }
        ensures ready { IsReady table.now self.new.printer }
    {
        let fast = fast_line(out, &mut self.buffer, table, image, &self.printer, at)?;
        let Some(line) = fast else {
            let operands = &mut self.operands;
            return push_read(out, table, image, &mut self.printer, operands, number, at);
        };
        let Some(id) = line.result else {
            return Ok(line.end);
        };
        let definitions = &mut self.printer.definitions;
        definitions.add_result(line.opcode, id, line.type_id, None)?;
        Ok(line.end)
    }
}

/// Reads the instructions of an image, one in the place of the other, and adds the line of each. After an error nothing
/// is said of what is added.
fn push_image(alloc: Global, table: &Table, image: &Image, out: &mut String) -> Result<(), Stop>
    ensures added { OnOk result (AreAdded table.now image.now (string_bytes out.old) (string_bytes out.new)) }
    ensures dead { IfErr result (λ e. IsDecodeFault table.now image.now e) }
{
    let mut printer = ImagePrinter {
        printer: Printer::new(alloc, table)?,
        operands: Vec::new(alloc),
        buffer: [0; SIZE],
    };
    let len = image.len();
    let mut number = 0;
    let mut at = 5;
    while at < len {
        at = printer.push_next(out, table, image, number, at)?;
        number += 1;
    }
    Ok(())
}

/// The text of the module whose words are those of an image: five lines for its header, and one for each instruction.
/// It is the text that `show` makes of what `decode` makes of the image.
///
/// # Errors
///
/// As those of `decode`: a `Fault` tells the first instruction that fails, with its rule, I1 to I12, and the word of
/// the module (from 0) by which the rule is told. `Memory` comes only where a growth of memory was refused.
pub fn show_image(alloc: Global, table: &Table, image: &Image) -> Result<String, Stop>
    // The words are those of a header and of a list of instructions, whose text it is.
    ensures shown { IfOk result (λ t. IsShownImage table.now image.now (string_bytes t)) }
    // A fault is that of the dead instruction.
    ensures dead { IfErr result (λ e. IsDecodeFault table.now image.now e) }
{
    let mut out = String::new(alloc);
    push_header(&mut out, image.header())?;
    push_image(alloc, table, image, &mut out)?;
    Ok(out)
}
