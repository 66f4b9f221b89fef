//! The fast way to a line: straight from the words of an instruction, one operand behind the other, in a buffer.

ghost use Rattle.std.specs.Prelude.{◌≡◌, ◌<◌, ◌≤◌, ◌++◌, ◌∷◌, [], ℕ, List, Some, IfOk};
ghost use Rattle.std.specs.Prelude.{IfSome, MatchOption};
ghost use Rattle.std.specs.Prelude.{length, string_bytes};
ghost use Rattle.spv_table.specs.Table as grammar;
ghost use Rattle.spv_table.specs.Table.{entry_of};
ghost use Rattle.spv_inst.specs.declared.definitions.Definitions.{Definitions};
ghost use Rattle.spv_inst.specs.inner.Known.{Knows};
ghost use Rattle.spv_module.specs.Operand.{PlainInst};
ghost use Rattle.spv_lines.specs.Line.{IsShownLine, shown_name};
ghost use Rattle.spv_printer.specs.inner.Fast.{AreCharacters, IsFastLine, IsLineOf, IsSpelled};
ghost use Rattle.spv_printer.specs.inner.Printer.{IsReady};

use crate::buffer::{put_octets, put_result};
use crate::fast_operand::{Draft, add_operand};
use crate::named::Named;
use crate::printer::Printer;
use spv_inst::due::{DueItems, joined, next_kind};
use spv_module::opcode;
use spv_table::{EntryRef, PatternRef, Table};
use spv_words::{Image, word};
use std::alloc::AllocError;
use std::str::from_utf8_unchecked;

/// The size of the buffer: most lines are shorter.
pub const SIZE: usize = 640;

/// Where the operands begin in the buffer: before them there is room for most names, with a result.
pub const FRONT: usize = 128;

/// How long a name may be.
const LONGEST_NAME: usize = 96;

/// An instruction whose line was added.
#[derive(Clone, Copy)]
pub struct FastLine {
    /// The number of the word behind it.
    pub end: u32,
    pub opcode: u16,
    pub result: Option<u32>,
    /// The first result type.
    pub type_id: Option<u32>,
}

/// Adds the operands that the words from `first` up to `end` are, both counted in words of the module from 0, by the
/// pattern of their instruction. None where an operand is not added, or the words are no such operands.
fn add_operands<'t>(
    buffer: &mut [u8],
    table: &'t Table,
    image: &Image,
    printer: &Printer<'t>,
    pattern: &PatternRef<'t>,
    first: u32,
    end: u32,
) -> Option<Draft>
    requires size { 128 ≤ length buffer.old }
    requires ready { IsReady table.now printer.now }
    requires order { first ≤ end }
    requires fits { end ≤ length image.now }
    ensures { IfSome result (λ d. IsSpelled table.now printer.now.definitions image.now pattern.now first end d
        buffer.new) }
{
    let mut kinds: &'t [u32] = &[];
    let mut items = DueItems::of(pattern);
    let mut at = first;
    let mut draft = Draft {
        at: FRONT,
        result: None,
        type_id: None,
    };
    while at < end {
        let next = next_kind(kinds, items, true)?;
        let added = add_operand(buffer, table, image, printer, next.kind, at, end, draft)?;
        kinds = joined(added.kinds, next.kinds)?;
        items = next.items;
        at += added.words;
        draft = added.draft;
    }
    match next_kind(kinds, items, false) {
        Some(_) => None,
        None => Some(draft),
    }
}

/// The line of an instruction whose operands are in the buffer, with its line feed. None where there is no room for it.
#[inline(always)]
pub fn whole_line<'b>(buffer: &'b mut [u8], entry: &EntryRef<'_>, draft: Draft) -> Option<&'b str>
    requires { AreCharacters draft buffer.old }
    ensures { (G : grammar.Table) (d : Definitions) (before : List PlainInst) (i : PlainInst) (further line : List ℕ)
        → Knows d before → IsLineOf G d i draft buffer.old → entry_of G i.opcode ≡ Some entry.now
        → shown_name G i.opcode entry.now ≡ entry.now.name → IsShownLine G before i further line
        → IfSome result (λ t. t.now ≡ line ++ 10 ∷ []) }
{
    let name = entry.name();
    if draft.at >= buffer.len() || name.len() > LONGEST_NAME {
        return None;
    }
    buffer[draft.at] = b'\n';
    let line = &mut buffer[..draft.at + 1];
    let at = put_octets(line, name.as_bytes(), FRONT);
    let start = put_result(line, draft.result, at);
    Some(unsafe { from_utf8_unchecked(&line[start..]) })
}

/// Adds the line of the instruction at a word, with its line feed, straight from its words, if these are an instruction
/// whose name and operands can be put in the buffer, which declares no width and is no OpSwitch. None where they are
/// not, and then nothing is added.
///
/// An `AllocError` comes only where a growth of memory was refused, and then nothing is said of what is left.
pub fn fast_line<'t>(
    out: &mut String,
    buffer: &mut [u8],
    table: &'t Table,
    image: &Image,
    printer: &Printer<'t>,
    at: u32,
) -> Result<Option<FastLine>, AllocError>
    requires size { 128 ≤ length buffer.old }
    requires ready { IsReady table.now printer.now }
    requires fits { at < length image.now }
    ensures { IfOk result (λ o. MatchOption o (string_bytes out.new ≡ string_bytes out.old)
        (λ f. IsFastLine table.now printer.now.definitions image.now (string_bytes out.old) (string_bytes out.new)
        at f)) }
{
    let head = word(image, at);
    let count = head / 65536;
    let opcode = (head % 65536) as u16;
    if count == 0 || count > image.len() - at {
        return Ok(None);
    }
    if opcode == opcode::TYPE_INT || opcode == opcode::TYPE_FLOAT || opcode == opcode::SWITCH {
        return Ok(None);
    }
    if !printer.names.has(Named::Opcode(opcode)) {
        return Ok(None);
    }
    let Some(entry) = table.entry(opcode) else {
        return Ok(None);
    };
    let end = at + count;
    let pattern = entry.operands();
    let Some(draft) = add_operands(buffer, table, image, printer, pattern, at + 1, end) else {
        return Ok(None);
    };
    let Some(line) = whole_line(buffer, &entry, draft) else {
        return Ok(None);
    };
    out.push_str(line)?;
    Ok(Some(FastLine {
        end,
        opcode,
        result: draft.result,
        type_id: draft.type_id,
    }))
}
