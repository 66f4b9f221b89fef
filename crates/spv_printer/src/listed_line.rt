//! The fast way to the line of an instruction that is read already: its operands one behind the other, in a buffer.

ghost use Rattle.std.specs.Prelude.{◌≡◌, ◌≤◌, ◌+◌, ◌++◌, ◌∷◌, [], ℕ, List, IfOk, OnOk};
ghost use Rattle.std.specs.Prelude.{IfSome, MatchOption, length, string_bytes};
ghost use Rattle.spv_inst.specs.inner.Known.{Knows};
ghost use Rattle.spv_module.specs.Module.{plain_operand, plain_operands};
ghost use Rattle.spv_module.specs.Operand.{Number, PlainInst};
ghost use Rattle.spv_lines.specs.Line.{IsShownLine};
ghost use Rattle.spv_lines.specs.Operand.{id_text};
ghost use Rattle.spv_table.specs.Table as grammar;
ghost use Rattle.spv_printer.specs.inner.Fast.{AreDrafted, IsListedLine, IsNameAdded, IsOneMore};
ghost use Rattle.spv_printer.specs.inner.Names.{AreNames};
ghost use Rattle.spv_printer.specs.inner.Printer.{IsReady};

use crate::buffer::{add_id, add_name, add_word};
use crate::fast_line::{FRONT, whole_line};
use crate::fast_operand::{Draft, ROOM, mask_label, value_label};
use crate::fast_text::add_short;
use crate::named::Named;
use crate::printer::Printer;
use spv_inst::due::Definitions;
use spv_lines::is_narrow;
use spv_module::{Operand, opcode};
use spv_table::Table;
use std::alloc::AllocError;

/// Adds an id that is no result and no result's type.
#[inline(always)]
fn add_other_id(buffer: &mut [u8], id: u32, draft: Draft) -> Draft
    requires { draft.at + 96 ≤ length buffer.old }
    ensures { IsNameAdded (id_text id) draft result buffer.old buffer.new }
{
    Draft {
        at: add_id(buffer, id, draft.at),
        ..draft
    }
}

/// Adds a name. None where the name has more than 64 octets.
#[inline(always)]
fn add_label(buffer: &mut [u8], name: &str, draft: Draft) -> Option<Draft>
    requires { draft.at + 96 ≤ length buffer.old }
    ensures { IfSome result (λ d. IsNameAdded name.now draft d buffer.old buffer.new) }
{
    let at = add_name(buffer, name, draft.at)?;
    Some(Draft { at, ..draft })
}

/// Adds a number. None where it has more words than one, or stands in hexadecimal, as far as is known: its type is not
/// known to be one of numbers of at most 32 bits that are no floats.
#[inline(always)]
fn add_number(
    buffer: &mut [u8],
    definitions: &Definitions,
    low: u32,
    high: u32,
    words: u8,
    draft: Draft,
) -> Option<Draft>
    requires { draft.at + 96 ≤ length buffer.old }
    ensures { (G : grammar.Table) → IfSome result (λ d. IsOneMore G definitions.now (Number low high words) draft d
        buffer.old buffer.new) }
{
    if high != 0 || words != 1 || !is_narrow(definitions, draft.type_id) {
        return None;
    }
    Some(Draft {
        at: add_word(buffer, low, draft.at),
        ..draft
    })
}

/// Adds an operand, but for the result, which stands in front of the line and is kept. None where there is no room, for
/// a second result, and as of `add_short`, `add_number`, `value_label`, `mask_label` and `add_label`.
#[inline(always)]
fn add_listed<'t>(
    buffer: &mut [u8],
    table: &'t Table,
    printer: &Printer<'t>,
    operand: Operand<'_>,
    draft: Draft,
) -> Option<Draft>
    requires { AreNames table.now printer.now.names }
    ensures { IfSome result (λ d. IsOneMore table.now printer.now.definitions (plain_operand operand.entry) draft d
        buffer.old buffer.new) }
{
    if buffer.len() < ROOM || draft.at > buffer.len() - ROOM {
        return None;
    }
    match operand {
        Operand::OfType(id) => Some(Draft {
            at: add_id(buffer, id, draft.at),
            type_id: draft.type_id.or(Some(id)),
            ..draft
        }),
        Operand::Result(id) => match draft.result {
            Some(_) => None,
            None => Some(Draft {
                result: Some(id),
                ..draft
            }),
        },
        Operand::Id(id) => Some(add_other_id(buffer, id, draft)),
        Operand::Word(word) => Some(Draft {
            at: add_word(buffer, word, draft.at),
            ..draft
        }),
        Operand::Number { low, high, words } => {
            add_number(buffer, &printer.definitions, low, high, words, draft)
        }
        Operand::Value { kind, value } => {
            let label = value_label(table, &printer.names, kind, value)?;
            add_label(buffer, label.name, draft)
        }
        Operand::Mask { kind, value } => {
            let bits = mask_label(table, &printer.names, kind, value)?;
            add_label(buffer, bits.name, draft)
        }
        Operand::Text(text) => {
            let at = add_short(buffer, text, draft.at)?;
            Some(Draft { at, ..draft })
        }
        Operand::Argument(id) => Some(add_other_id(buffer, id, draft)),
        Operand::Mention(id) => Some(add_other_id(buffer, id, draft)),
    }
}

/// Adds the operands of an instruction. None where one of them is not added.
fn add_all_listed<'t>(
    buffer: &mut [u8],
    table: &'t Table,
    printer: &Printer<'t>,
    operands: &[Operand<'_>],
) -> Option<Draft>
    requires size { 128 ≤ length buffer.old }
    requires names { AreNames table.now printer.now.names }
    ensures { IfSome result (λ d. AreDrafted table.now printer.now.definitions (plain_operands operands.now) d
        buffer.new) }
{
    let mut draft = Draft {
        at: FRONT,
        result: None,
        type_id: None,
    };
    for operand in operands {
        draft = add_listed(buffer, table, printer, *operand, draft)?;
    }
    Some(draft)
}

/// Adds the line of an instruction, with its line feed, by its opcode and operands, if its name and operands can be put
/// in the buffer, and it declares no width and is no OpSwitch. None where not, and then nothing is added.
///
/// An `AllocError` comes only where a growth of memory was refused, and then nothing is said of what is left.
fn listed_line<'t>(
    out: &mut String,
    buffer: &mut [u8],
    table: &'t Table,
    printer: &Printer<'t>,
    opcode: u16,
    operands: &[Operand<'_>],
) -> Result<Option<Draft>, AllocError>
    requires size { 128 ≤ length buffer.old }
    requires ready { IsReady table.now printer.now }
    ensures { IfOk result (λ o. MatchOption o (string_bytes out.new ≡ string_bytes out.old)
        (λ d. IsListedLine table.now printer.now.definitions
        (record { opcode = opcode; operands = plain_operands operands.now }) d
        (string_bytes out.old) (string_bytes out.new))) }
{
    if opcode == opcode::TYPE_INT || opcode == opcode::TYPE_FLOAT || opcode == opcode::SWITCH {
        return Ok(None);
    }
    if !printer.names.has(Named::Opcode(opcode)) {
        return Ok(None);
    }
    let Some(entry) = table.entry(opcode) else {
        return Ok(None);
    };
    let Some(draft) = add_all_listed(buffer, table, printer, operands) else {
        return Ok(None);
    };
    let Some(line) = whole_line(buffer, &entry, draft) else {
        return Ok(None);
    };
    out.push_str(line)?;
    Ok(Some(draft))
}

/// The same as `push_line` of the printer, the fast way where that is possible.
///
/// An `AllocError` comes only where a growth of memory was refused, and then nothing is said of what is left.
pub fn push_listed<'t>(
    out: &mut String,
    buffer: &mut [u8],
    table: &'t Table,
    printer: &mut Printer<'t>,
    opcode: u16,
    operands: &[Operand<'_>],
) -> Result<(), AllocError>
    requires size { 128 ≤ length buffer.old }
    requires ready { IsReady table.now printer.old }
    ensures line { (before : List PlainInst) (further line : List ℕ) → Knows printer.old.definitions before
        → IsShownLine table.now before (record { opcode = opcode; operands = plain_operands operands.now })
        further line
        → OnOk result (string_bytes out.new ≡ string_bytes out.old ++ (line ++ 10 ∷ [])) }
    ensures knows { OnOk result ((before : List PlainInst) → Knows printer.old.definitions before
        → Knows printer.new.definitions
        (before ++ record { opcode = opcode; operands = plain_operands operands.now } ∷ [])) }
    ensures ready { IsReady table.now printer.new }
{
    let fast = listed_line(out, buffer, table, printer, opcode, operands)?;
    let Some(draft) = fast else {
        return printer.push_line(out, table, opcode, operands);
    };
    let Some(id) = draft.result else {
        return Ok(());
    };
    let definitions = &mut printer.definitions;
    definitions.add_result(opcode, id, draft.type_id, None)
}
