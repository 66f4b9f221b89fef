//! Why a text fails.

ghost use Rattle.std.specs.Prelude.{◌≡◌, ◌≢◌, ◌<◌, ◌≤◌, [], ◌-◌, ◌+◌, ℕ, List, IfOk, MatchOption};
ghost use Rattle.std.specs.Prelude.{length, map, slice_get, unwrap_or};
ghost use Rattle.spv_table.specs.Table as grammar;
ghost use Rattle.spv_inst.specs.inner.Known.{Knows};
ghost use Rattle.spv_module.specs.Operand.{PlainInst};
ghost use Rattle.spv_words.specs.declared.words.Header as words;
ghost use Rattle.spv_words.specs.Header.{greatest_length};
ghost use Rattle.spv_table.specs.inner.Form.{form_of};
ghost use Rattle.spv_lines.specs.declared.asm_error.AsmCode.TheVariants.{S6};
ghost use Rattle.spv_lines.specs.Text.{IsReadText, lines_of};
ghost use Rattle.spv_lines.specs.Fault.{HeaderFails};
ghost use Rattle.spv_parser.specs.Reason.{FailsFor, column_of, plain_reason};
ghost use Rattle.spv_parser.specs.inner.Lines.{HasLines};
ghost use Rattle.spv_parser.specs.inner.Stopping.{IsTakenOr, StopIn};

use crate::assembled::{add_line, put_instruction, put_words};
use crate::header::read_header;
use crate::operands::{Buffers, Setting};
use crate::stops::{Outcome, Stop, read_or_stop};
use spv_inst::due::{Definitions, Pending};
use spv_lines::{AsmCode, AsmError, split_line};
use spv_table::Table;
use spv_words::{Draft, MAGIC_NUMBER};
use std::alloc::{AllocError, Global};

/// What is wanted where the reading of a text stopped.
#[derive(Clone, Copy)]
pub enum Wanted {
    /// The line of the header with that number, from 1 to 5.
    HeaderLine(u32),
    /// ` = ` and the name of an instruction, behind the id with which the line begins.
    Equals,
    /// The name of an instruction.
    Name,
    /// A result id and ` = `.
    Result,
    /// A result id, in front of ` = `.
    ResultId,
    /// No result id: the instruction has none.
    NoResult,
    /// An id.
    Id,
    /// A number of one word or two, in decimal or in hexadecimal.
    Number { words: u32, hexadecimal: bool },
    /// A number of a type whose width the lines before tell.
    KnownWidth,
    /// A text in quotes.
    Text,
    /// A value of the kind of that number.
    Value(u32),
    /// A mask of the kind of that number.
    Mask(u32),
    /// Nothing: no text is an operand of the kind of that number.
    Nothing(u32),
    /// The end of the line.
    End,
    /// An instruction of at most 65,535 words, in a module of at most 4,194,304.
    Shorter,
}

/// Why a text fails: its first fault, where the reading of its line stopped, and what is wanted there.
#[derive(Clone, Copy)]
pub struct TextReason<'a> {
    /// One of S1 to S5.
    pub code: AsmCode,
    /// The number of the line, from 1.
    pub line: u32,
    /// The line without its line feed; empty where the text ends before it.
    pub text: &'a str,
    /// What is left of the line where its reading stopped.
    pub rest: &'a str,
    pub wanted: Wanted,
}

impl TextReason<'_> {
    /// The place in the line where its reading stopped: its octet, from 1, and one more than the line has at its end.
    pub fn column(&self) -> usize
        ensures { result ≡ column_of (plain_reason self.now) }
    {
        self.text.len().saturating_sub(self.rest.len()) + 1
    }
}

/// The line of a text by how many stand before it; empty where there is none.
fn line_after(text: &str, count: u32) -> &str
    ensures { result.now ≡ unwrap_or (slice_get (lines_of text.now) count) [] }
{
    let mut rest = text;
    let mut left = count;
    while !rest.is_empty() {
        let (line, behind) = split_line(rest);
        if left == 0 {
            return line;
        }
        left -= 1;
        rest = behind;
    }
    ""
}

/// Why a text fails in its header.
fn header_reason<'a>(text: &'a str, error: AsmError) -> TextReason<'a>
    requires { HeaderFails (lines_of text.now) error.code error.line }
    ensures { (G : grammar.Table) → FailsFor G text.now result.code result.line (plain_reason result) }
{
    let line = line_after(text, error.line - 1);
    TextReason {
        code: error.code,
        line: error.line,
        text: line,
        rest: line,
        wanted: Wanted::HeaderLine(error.line),
    }
}

/// Why a line fails that stops, by how many lines of instructions stand before it.
fn line_reason<'a>(line: &'a str, stop: &Stop<'a>, before: u32) -> TextReason<'a>
    requires { before < 4294967290 }
    ensures { result ≡ record {
      code = stop.now.code;
      line = before + 6;
      text = line.entry;
      rest = stop.now.rest;
      wanted = stop.now.wanted;
    } }
{
    TextReason {
        code: stop.code,
        line: before + 6,
        text: line,
        rest: stop.rest,
        wanted: stop.wanted,
    }
}

/// Where a line stops whose instruction is too long.
///
/// An `AllocError` comes of S6 alone.
fn too_long<'a>(code: AsmCode, line: &'a str) -> Result<Stop<'a>, AllocError>
    ensures code { IfOk result (λ _. code ≢ S6) }
    ensures stop { IfOk result (λ s. s ≡ record { code = code; rest = line.entry; wanted = Wanted.Shorter }) }
{
    match code {
        AsmCode::S6 => Err(AllocError),
        _ => Ok(Stop {
            code,
            rest: line,
            wanted: Wanted::Shorter,
        }),
    }
}

/// Reads a line, and adds its instruction to a draft, unless it stops.
fn take_line<'t, 'a>(
    setting: &Setting<'t, '_>,
    buffers: &mut Buffers<'t>,
    draft: &mut Draft,
    line: &'a str,
) -> Result<Outcome<'a>, AllocError>
    requires forms { setting.now.forms.now ≡ map form_of setting.now.table.now.kinds }
    requires known { (before : List PlainInst) × Knows setting.now.definitions.now before }
    requires short { length draft.old ≤ greatest_length }
    ensures { (before : List PlainInst) → Knows setting.now.definitions.now before
        → IfOk result (λ o. IsTakenOr setting.now.table.now before line.now draft.old draft.new o) }
{
    let outcome = read_or_stop(setting, buffers, line)?;
    let Outcome::Read(kept) = outcome else {
        return Ok(outcome);
    };
    match put_instruction(draft, kept.opcode, buffers.words.as_slice()) {
        Ok(()) => Ok(Outcome::Read(kept)),
        Err(code) => {
            let stop = too_long(code, line)?;
            Ok(Outcome::Stopped(stop))
        }
    }
}

/// Why the lines behind those of the header fail; None where they are read. The draft has the header's words.
fn reason_in<'a>(
    alloc: Global,
    table: &Table,
    draft: &mut Draft,
    text: &'a str,
) -> Result<Option<TextReason<'a>>, AllocError>
    requires { length draft.old ≡ 5 }
    ensures { IfOk result (λ o. MatchOption o (HasLines table.now (lines_of text.now) draft.old draft.new)
        (λ r. StopIn table.now (lines_of text.now) r)) }
{
    let mut definitions = Definitions::new(alloc);
    let mut buffers = Buffers {
        pending: Pending::new(alloc),
        words: Vec::new(alloc),
        text: String::new(alloc),
    };
    let mut rest = text;
    let mut number = 0u32;
    while !rest.is_empty() {
        let (line, behind) = split_line(rest);
        let setting = Setting {
            table,
            forms: table.forms(),
            definitions: &definitions,
        };
        match take_line(&setting, &mut buffers, draft, line)? {
            Outcome::Read(kept) => add_line(&mut definitions, kept)?,
            Outcome::Stopped(stop) => return Ok(Some(line_reason(line, &stop, number))),
        }
        number += 1;
        rest = behind;
    }
    Ok(None)
}

/// Why a text fails: its first fault, which is that of `assemble`, where the reading of its line stopped, and what is
/// wanted there. None where the text is read.
///
/// An `AllocError` comes only where a growth of memory was refused.
pub fn reason<'a>(
    alloc: Global,
    table: &Table,
    text: &'a str,
) -> Result<Option<TextReason<'a>>, AllocError>
    ensures { IfOk result (λ o. MatchOption o ((h : words.Header) × (is : List PlainInst) × (ws : List ℕ)
        × IsReadText table.now h is ws text.now)
        (λ r. FailsFor table.now text.now r.code r.line (plain_reason r))) }
{
    let (header, rest) = match read_header(text) {
        Ok(found) => found,
        Err(error) => return Ok(Some(header_reason(text, error))),
    };
    let mut draft = Draft::new(alloc);
    let words = [
        MAGIC_NUMBER,
        header.version,
        header.generator,
        header.bound,
        header.schema,
    ];
    put_words(&mut draft, &words)?;
    reason_in(alloc, table, &mut draft, rest)
}
