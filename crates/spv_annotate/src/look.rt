//! What is written in a page for each piece.

ghost use Rattle.std.specs.Prelude.{◌≡◌, ◌≤◌, ◌+◌, ◌++◌, IfOk, IsUtf8, codes, length, map, decimal, string_bytes};
ghost use Rattle.std.specs.Prelude.{take};
ghost use Rattle.spv_table.specs.Lookups.{is_number};
ghost use Rattle.spv_module.specs.Module.{plain_inst};
ghost use Rattle.spv_module.specs.Operand.{result_in};
ghost use Rattle.spv_annotate.specs.Piece.{Comment, Line, Mark, plain_piece};
ghost use Rattle.spv_annotate.specs.Module.{inst_at};
ghost use Rattle.spv_annotate.specs.Html.{escaped};
ghost use Rattle.spv_annotate.specs.Page as page;
ghost use Rattle.spv_annotate.specs.Page.{line_class, page_of, use_links};
ghost use Rattle.spv_annotate.specs.declared.draft.TheConstants.{FULL, SIZE};
ghost use Rattle.spv_annotate.specs.inner.Draft.{IsAdded, IsDrafted, heading_begin, heading_end};
ghost use Rattle.spv_annotate.specs.inner.Look.{scene};

use crate::draft::{add_number, add_text, push_draft, push_fixed, settle};
use crate::drafted::{push_drafted, push_remark};
use crate::html::push_escaped;
use crate::linked::{Quoting, push_linked};
use crate::numbers::Numbers;
use crate::outline::opcode_at;
use crate::piece::Piece;
use crate::uses::Uses;
use spv_module::{Inst, opcode};
use std::alloc::{AllocError, Global};

/// What is known where a page is written.
#[derive(Clone, Copy)]
pub struct Look<'p, 'a> {
    /// Where texts are kept.
    pub alloc: Global,
    /// The instructions of the module.
    pub insts: &'p [Inst<'a>],
    /// Of each id the first instruction that defines it, if that is asked for.
    pub definitions: &'p Numbers,
    /// Of each id the first OpName that names it.
    pub namings: &'p Numbers,
    /// The uses of ids in what is asked for.
    pub uses: &'p Uses,
    /// The number of the instruction of the fault.
    pub fault: Option<u32>,
    /// That of the OpFunction of the function that it is of.
    pub faulty: Option<u32>,
    /// What is kept of the ids of the blocks of the walk that shows the fault, and of no other id.
    pub walk: &'p Numbers,
}

/// Adds a line of the header.
///
/// An `AllocError` comes only where a growth of memory was refused, and then nothing is said of what is left.
#[inline(never)]
fn push_header(out: &mut String, buffer: &[u8], at: usize, text: &str) -> Result<usize, AllocError>
    requires within { at ≤ length buffer.now }
    requires utf8 { IsUtf8 (take at buffer.now) }
    ensures { IfOk result (λ end. IsDrafted (codes "<div>" ++ escaped text.now) (string_bytes out.old) at buffer.now
        (string_bytes out.new) end buffer.now) }
{
    push_draft(out, buffer, at)?;
    out.push_str("<div>")?;
    push_escaped(out, text)?;
    Ok(0)
}

/// Begins the heading that a line is, if it is one, behind a place, and gives where that ends.
#[inline(always)]
fn add_heading(buffer: &mut [u8], opcode: u16, at: usize) -> usize
    requires { at + 8 ≤ length buffer.old }
    ensures low { at ≤ result }
    ensures high { result ≤ at + 8 }
    ensures added { IsAdded (heading_begin opcode) at result buffer.old buffer.new }
{
    match opcode {
        opcode::FUNCTION => add_text(buffer, "<h2>", at),
        opcode::LABEL => add_text(buffer, "<h3>", at),
        _ => at,
    }
}

/// Ends the heading that a line is, if it is one, behind a place, and gives where that ends.
#[inline(always)]
fn add_heading_end(buffer: &mut [u8], opcode: u16, at: usize) -> usize
    requires { at + 8 ≤ length buffer.old }
    ensures low { at ≤ result }
    ensures high { result ≤ at + 8 }
    ensures added { IsAdded (heading_end opcode) at result buffer.old buffer.new }
{
    match opcode {
        opcode::FUNCTION => add_text(buffer, "</h2>", at),
        opcode::LABEL => add_text(buffer, "</h3>", at),
        _ => at,
    }
}

impl<'p, 'a> Look<'p, 'a> {
    /// The opcode of an instruction.
    fn opcode(&self, inst: u32) -> u16
        ensures { result ≡ (inst_at (map plain_inst self.now.insts.now) inst).opcode }
    {
        opcode_at(self.insts, inst)
    }

    /// The result of an instruction.
    pub fn result_of(&self, inst: u32) -> Option<u32>
        ensures { result ≡ result_in (inst_at (map plain_inst self.now.insts.now) inst).operands }
    {
        match self.insts.get(inst as usize) {
            Some(inst) => inst.result_id(),
            None => None,
        }
    }

    /// Whether an instruction is that of the fault.
    #[inline(always)]
    fn is_fault(&self, inst: u32) -> bool
        ensures { result ≡ is_number inst self.now.fault }
    {
        match self.fault {
            Some(fault) => fault == inst,
            None => false,
        }
    }

    /// Whether an instruction is the label of a block of the walk.
    fn is_walked(&self, inst: u32) -> bool
        ensures { result ≡ page.is_walked (scene self.now) inst }
    {
        let Some(inst) = self.insts.get(inst as usize) else {
            return false;
        };
        if inst.opcode != opcode::LABEL {
            return false;
        }
        match inst.result_id() {
            Some(id) => self.walk.get(id).is_some(),
            None => false,
        }
    }

    /// Adds how the line of an instruction is marked, and the end of its tag, behind a place. Gives where that ends.
    fn add_class(&self, buffer: &mut [u8], inst: u32, at: usize) -> usize
        requires { at + 32 ≤ length buffer.old }
        ensures low { at ≤ result }
        ensures high { result ≤ at + 16 }
        ensures added { IsAdded (line_class (scene self.now) inst ++ codes ">") at result buffer.old buffer.new }
    {
        if self.is_fault(inst) {
            return add_text(buffer, " class=fault>", at);
        }
        if self.is_walked(inst) {
            return add_text(buffer, " class=walk>", at);
        }
        add_text(buffer, ">", at)
    }

    /// Opens the line of an instruction behind a place, and gives where that ends.
    fn add_opening(&self, buffer: &mut [u8], inst: u32, at: usize) -> usize
        requires { at + 128 ≤ length buffer.old }
        ensures high { result ≤ at + 64 }
        ensures added { IsAdded (codes "<div id=" ++ (decimal inst ++ (line_class (scene self.now) inst ++ codes ">")))
            at result buffer.old buffer.new }
    {
        let number = add_text(buffer, "<div id=", at);
        let class = add_number(buffer, inst, number);
        self.add_class(buffer, inst, class)
    }

    /// Adds links to the uses of what an instruction defines, behind a place, and gives where they end.
    fn add_uses(&self, buffer: &mut [u8], inst: u32, at: usize) -> usize
        requires { at + 1536 ≤ length buffer.old }
        ensures high { result ≤ at + 1280 }
        ensures added { IsAdded (use_links (scene self.now) inst
            (result_in (inst_at (map plain_inst self.now.insts.now) inst).operands)) at result buffer.old buffer.new }
    {
        let Some(id) = self.result_of(inst) else {
            return at;
        };
        if self.definitions.get(id) != Some(inst) {
            return at;
        }
        let begin = add_text(buffer, "<u>", at);
        let behind = self.uses.add_links(buffer, id, begin);
        add_text(buffer, "</u>", behind)
    }

    /// Adds the line of an instruction.
    ///
    /// An `AllocError` comes only where a growth of memory was refused, and then nothing is said of what is left.
    #[inline(never)]
    fn push_line(
        &self,
        out: &mut String,
        buffer: &mut [u8],
        at: usize,
        inst: u32,
        text: &str,
    ) -> Result<usize, AllocError>
        requires size { SIZE ≤ length buffer.old }
        requires at { at ≤ FULL }
        requires utf8 { IsUtf8 (take at buffer.old) }
        ensures { IfOk result (λ end. IsDrafted (page_of (scene self.now) (Line inst text.now)) (string_bytes out.old)
            at buffer.old (string_bytes out.new) end buffer.new) }
    {
        let opcode = self.opcode(inst);
        let opened = self.add_opening(buffer, inst, at);
        let begin = add_heading(buffer, opcode, opened);
        let definitions = self.definitions;
        let behind = push_drafted(out, buffer, definitions, Quoting::Outside, text, begin)?;
        let ended = add_heading_end(buffer, opcode, behind);
        let added = self.add_uses(buffer, inst, ended);
        settle(out, buffer, added)
    }

    /// Adds a comment.
    ///
    /// An `AllocError` comes only where a growth of memory was refused, and then nothing is said of what is left.
    #[inline(never)]
    fn push_comment(
        &self,
        out: &mut String,
        buffer: &mut [u8],
        at: usize,
        text: &str,
    ) -> Result<usize, AllocError>
        requires size { SIZE ≤ length buffer.old }
        requires at { at ≤ FULL }
        requires utf8 { IsUtf8 (take at buffer.old) }
        ensures { IfOk result (λ end. IsDrafted (page_of (scene self.now) (Comment text.now)) (string_bytes out.old)
            at buffer.old (string_bytes out.new) end buffer.new) }
    {
        let begin = add_text(buffer, "<i>", at);
        let behind = push_remark(out, buffer, self.definitions, text, begin)?;
        let added = add_text(buffer, "</i>", behind);
        settle(out, buffer, added)
    }

    /// Adds a line of evidence.
    ///
    /// An `AllocError` comes only where a growth of memory was refused, and then nothing is said of what is left.
    #[inline(never)]
    fn push_mark(
        &self,
        out: &mut String,
        buffer: &[u8],
        at: usize,
        text: &str,
    ) -> Result<usize, AllocError>
        requires within { at ≤ length buffer.now }
        requires utf8 { IsUtf8 (take at buffer.now) }
        ensures { IfOk result (λ end. IsDrafted (page_of (scene self.now) (Mark text.now)) (string_bytes out.old)
            at buffer.now (string_bytes out.new) end buffer.now) }
    {
        push_draft(out, buffer, at)?;
        out.push_str("<div class=fault>")?;
        push_linked(out, self.definitions, Quoting::Commented, text)?;
        Ok(0)
    }

    /// Adds what stands in the page for a piece, behind what the buffer has up to a place. Gives where in the buffer
    /// ends what is still to be added.
    ///
    /// An `AllocError` comes only where a growth of memory was refused, and then nothing is said of what is left.
    #[inline(always)]
    pub fn push(
        &self,
        out: &mut String,
        buffer: &mut [u8],
        at: usize,
        piece: Piece<'_>,
    ) -> Result<usize, AllocError>
        requires size { SIZE ≤ length buffer.old }
        requires at { at ≤ FULL }
        requires utf8 { IsUtf8 (take at buffer.old) }
        ensures { IfOk result (λ end. IsDrafted (page_of (scene self.now) (plain_piece piece.entry))
            (string_bytes out.old) at buffer.old (string_bytes out.new) end buffer.new) }
    {
        match piece {
            Piece::Header(text) => push_header(out, buffer, at, text),
            Piece::Section { .. } | Piece::Function(_) => push_fixed(out, buffer, at, "<br>\n"),
            Piece::Block(_) => Ok(at),
            Piece::Line { inst, text } => self.push_line(out, buffer, at, inst, text),
            Piece::Comment(text) => self.push_comment(out, buffer, at, text),
            Piece::Mark(text) => self.push_mark(out, buffer, at, text),
            Piece::Break => push_fixed(out, buffer, at, "</div>\n"),
        }
    }
}
