//! From a module to its text.

ghost use Rattle.std.specs.Prelude.{◌≡◌, ◌++◌, [], ℕ, List, OnOk, IfOk, IfErr, string_bytes};
ghost use Rattle.spv_module.specs.Module.{plain_insts};
ghost use Rattle.spv_module.specs.Instruction.{IsListing};
ghost use Rattle.spv_printer.specs.Encoding.{IsImageOf, RefusesModule};
ghost use Rattle.spv_lines.specs.Text.{IsShownText, ShownLines, ended, header_lines};

use crate::encode_error::EncodeError;
use crate::encoder::encode;
use crate::fast_line::SIZE;
use crate::listed_line::push_listed;
use crate::number::push_decimal;
use crate::printer::Printer;
use spv_module::Module;
use spv_table::Table;
use spv_words::Header;
use std::alloc::{AllocError, Global};

/// For how many bytes of an instruction's line room is made at first: most have fewer.
const LINE_ROOM: usize = 32;

/// Adds the lines of a header, of version 1.6 and schema 0. Where memory runs out, nothing is said of what is left.
pub fn push_header(out: &mut String, header: Header) -> Result<(), AllocError>
    ensures { OnOk result (string_bytes out.new ≡ string_bytes out.old ++ ended (header_lines header)) }
{
    out.push_str("; SPIR-V\n; Version: 1.6\n; Generator: ")?;
    push_decimal(out, u64::from(header.generator))?;
    out.push_str("\n; Bound: ")?;
    push_decimal(out, u64::from(header.bound))?;
    out.push_str("\n; Schema: 0\n")
}

/// Adds the lines of a module's instructions. Where no words spell them, nothing is said of what is added.
fn push_lines(
    alloc: Global,
    table: &Table,
    module: &Module<'_>,
    out: &mut String,
) -> Result<(), AllocError>
    ensures { (lines : List (List ℕ)) → ShownLines table.now [] (plain_insts «module».now) lines
        → OnOk result (string_bytes out.new ≡ string_bytes out.old ++ ended lines) }
{
    let mut printer = Printer::new(alloc, table)?;
    let mut buffer = [0u8; SIZE];
    for inst in &module.insts {
        let operands = inst.operands.as_slice();
        push_listed(out, &mut buffer, table, &mut printer, inst.opcode, operands)?;
    }
    Ok(())
}

/// The text of a module that words spell, as the words of an image spell the module that `decode` makes of it: five
/// lines for its header, and one for each instruction.
///
/// An `AllocError` comes only where a growth of memory was refused.
pub fn show_listed(alloc: Global, table: &Table, module: &Module<'_>) -> Result<String, AllocError>
    requires { (words : List ℕ) × IsListing table.now (plain_insts «module».now) words }
    ensures { IfOk result (λ t. IsShownText table.now «module».now.header (plain_insts «module».now)
        (string_bytes t)) }
{
    let room = module.insts.len().saturating_mul(LINE_ROOM);
    let mut out = String::with_capacity(alloc, room)?;
    push_header(&mut out, module.header)?;
    push_lines(alloc, table, module, &mut out)?;
    Ok(out)
}

/// The text of a module by a grammar table: five lines for its header, and one for each instruction.
///
/// # Errors
///
/// Those of `encode`, for a module that has no image. `N1`: the header is not one of version 1.6 with schema 0 and a
/// bound from 1 to 4,194,303 (2.3). Else the first instruction that has no words of its own, or too many: `N2`: its
/// opcode has no entry in the table, or no words spell its operands by the entry's pattern. `N3`: words spell it, but
/// it has over 65,535 of them (2.3), or with it the module has over 4,194,304. `Memory`: a growth of memory was
/// refused.
pub fn show(alloc: Global, table: &Table, module: &Module<'_>) -> Result<String, EncodeError>
    // The text is the shown one of the module's header and instructions.
    ensures shown { IfOk result (λ t. IsShownText table.now «module».now.header (plain_insts «module».now)
        (string_bytes t)) }
    // The module has an image.
    ensures spelled { IfOk result (λ t. (words : List ℕ) × IsImageOf table.now «module».now words) }
    // An error tells the header, or the first instruction that is hindered, and why.
    ensures refused { IfErr result (λ e. RefusesModule e.code table.now «module».now e.inst) }
{
    // A module that has no image is refused here, so that each line is that of an instruction that words spell.
    let image = encode(alloc, table, module)?;
    drop(image);
    let text = show_listed(alloc, table, module)?;
    Ok(text)
}
