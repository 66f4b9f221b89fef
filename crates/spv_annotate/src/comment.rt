//! The comment behind the line of an instruction.

ghost use Rattle.std.specs.Prelude.{◌≡◌, ◌++◌, ◌<◌, ◌≤◌, ◌+◌, [], ℕ, List, OnOk, drop, length, map, string_bytes, true};
ghost use Rattle.spv_module.specs.Module.{plain_inst, plain_insts};
ghost use Rattle.spv_module.specs.Operand.{PlainInst};
ghost use Rattle.spv_layout.specs.Place.{first_word_of};
ghost use Rattle.spv_annotate.specs.declared.comment.TheConstants.{PLACE};
ghost use Rattle.spv_annotate.specs.Module.{inst_at};
ghost use Rattle.spv_annotate.specs.Notes.{block_note, column, comment, gap, name_notes, notes, place_text};
ghost use Rattle.spv_annotate.specs.inner.Known.{IsKnown};
ghost use Rattle.spv_annotate.specs.inner.Numbers.{kept};
ghost use Rattle.spv_annotate.specs.inner.Values.{value_in};

use crate::buffer::{put_number, put_octets};
use crate::calls::{push_call, push_note};
use crate::edges::push_predecessors;
use crate::known::Known;
use crate::names::push_names;
use spv_module::{Inst, opcode};
use std::alloc::AllocError;
use std::str::from_utf8_unchecked;

/// Spaces up to the column of comments.
const COLUMN: &str = "                                                ";

/// The size of a buffer for these spaces and two numbers with their words.
pub const PLACE: usize = 96;

/// How many of these spaces are left out behind a line of so many octets: as many, but for one that is there at least.
#[inline(always)]
pub fn left_out(count: usize) -> usize
    ensures text { drop result column ≡ gap count }
    ensures small { result < 48 }
{
    if count < 47 { count } else { 47 }
}

/// Adds the labels of the blocks whose branch goes to an instruction, where it is the OpLabel that first defines its
/// id.
fn push_block(
    out: &mut String,
    insts: &[Inst<'_>],
    known: &Known<'_>,
    at: u32,
    inst: &Inst<'_>,
) -> Result<(), AllocError>
    requires { IsKnown (map plain_inst insts.now) known.now }
    ensures { OnOk result (string_bytes out.new ≡ string_bytes out.old ++ block_note (map plain_inst insts.now) at
        (plain_inst inst.now)) }
{
    if inst.opcode != opcode::LABEL {
        return Ok(());
    }
    let Some(label) = inst.result_id() else {
        return Ok(());
    };
    if known.firsts.definitions.get(label) != Some(at) {
        return Ok(());
    }
    push_predecessors(out, &known.edges, label)
}

/// Whether it is found at once that no name stands in the comment on an instruction.
#[inline(always)]
fn is_nameless(known: &Known<'_>, inst: &Inst<'_>) -> bool
    ensures { (is : List PlainInst) → IsKnown is known.now → result ≡ true
        → name_notes is (plain_inst inst.now) ≡ [] }
{
    if inst.opcode == opcode::NAME {
        return true;
    }
    !known.named
}

/// Adds the names of the ids on the line of an instruction.
fn push_known_names(
    out: &mut String,
    insts: &[Inst<'_>],
    known: &Known<'_>,
    inst: &Inst<'_>,
) -> Result<(), AllocError>
    requires { IsKnown (map plain_inst insts.now) known.now }
    ensures { OnOk result (string_bytes out.new ≡ string_bytes out.old ++ name_notes (map plain_inst insts.now)
        (plain_inst inst.now)) }
{
    if is_nameless(known, inst) {
        return Ok(());
    }
    push_names(
        out,
        insts,
        &known.firsts.definitions,
        &known.firsts.namings,
        inst,
    )
}

/// Adds the notes on an instruction.
fn push_notes(
    out: &mut String,
    insts: &[Inst<'_>],
    known: &Known<'_>,
    at: u32,
    inst: &Inst<'_>,
) -> Result<(), AllocError>
    requires { IsKnown (map plain_inst insts.now) known.now }
    ensures { OnOk result (string_bytes out.new ≡ string_bytes out.old ++ notes (map plain_inst insts.now)
        (value_in known.now.values at) at (plain_inst inst.now)) }
{
    push_known_names(out, insts, known, inst)?;
    push_call(
        out,
        insts,
        &known.firsts.definitions,
        known.calls.as_slice(),
        inst,
    )?;
    push_note(out, known.values.of(at))?;
    push_block(out, insts, known, at, inst)
}

/// Adds the notes on the instruction of that number.
fn push_notes_at(
    out: &mut String,
    insts: &[Inst<'_>],
    known: &Known<'_>,
    at: u32,
) -> Result<(), AllocError>
    requires known { IsKnown (map plain_inst insts.now) known.now }
    requires within { at < length insts.now }
    ensures { OnOk result (string_bytes out.new ≡ string_bytes out.old ++ notes (map plain_inst insts.now)
        (value_in known.now.values at) at (inst_at (map plain_inst insts.now) at)) }
{
    push_notes(out, insts, known, at, &insts[at as usize])
}

/// Whether it is found at once that there are no notes on an instruction.
#[inline(always)]
pub fn is_bare(known: &Known<'_>, at: u32, inst: &Inst<'_>) -> bool
    ensures { (is : List PlainInst) → IsKnown is known.now → result ≡ true
        → notes is (value_in known.now.values at) at (plain_inst inst.now) ≡ [] }
{
    if !is_nameless(known, inst) {
        return false;
    }
    if inst.opcode == opcode::EXT_INST || inst.opcode == opcode::LABEL {
        return false;
    }
    known.values.of(at).is_empty()
}

/// Puts spaces up to the column of comments, and the numbers of an instruction and of its first word, at the end of a
/// buffer, and gives where they begin.
#[inline(always)]
fn put_place(buffer: &mut [u8], at: u32, word: u32) -> usize
    requires { length buffer.old ≡ PLACE }
    ensures within { result + 48 ≤ PLACE }
    ensures text { drop result buffer.new ≡ column ++ place_text at word }
{
    let last = put_number(buffer, word, PLACE);
    let between = put_octets(buffer, b" word ", last);
    let first = put_number(buffer, at, between);
    let begin = put_octets(buffer, b"; inst ", first);
    put_octets(buffer, COLUMN.as_bytes(), begin)
}

/// Puts spaces up to the column of comments but for so many, and the numbers of an instruction and of its first word,
/// at the end of a buffer.
#[inline(always)]
pub fn place_in(buffer: &mut [u8], omitted: usize, at: u32, word: u32) -> &str
    requires size { length buffer.old ≡ PLACE }
    requires few { omitted < 48 }
    ensures { result.now ≡ drop omitted column ++ place_text at word }
{
    let left = put_place(buffer, at, word);
    unsafe { from_utf8_unchecked(&buffer[left + omitted..]) }
}

/// Adds spaces up to the column of comments but for so many, and the numbers of an instruction and of its first word.
fn push_place(out: &mut String, omitted: usize, at: u32, word: u32) -> Result<(), AllocError>
    requires { omitted < 48 }
    ensures { OnOk result (string_bytes out.new
        ≡ string_bytes out.old ++ (drop omitted column ++ place_text at word)) }
{
    let mut buffer = [0u8; PLACE];
    out.push_str(place_in(&mut buffer, omitted, at, word))
}

/// Adds the comment behind the line of an instruction, which has so many octets, and the spaces before it.
///
/// An `AllocError` comes only where a growth of memory was refused, and then nothing is said of what is left.
pub fn push_comment(
    out: &mut String,
    insts: &[Inst<'_>],
    known: &Known<'_>,
    at: u32,
    word: u32,
    line: &str,
) -> Result<(), AllocError>
    requires known { IsKnown (map plain_inst insts.now) known.now }
    requires within { at < length insts.now }
    requires word { word ≡ first_word_of (map plain_inst insts.now) at }
    ensures { OnOk result (string_bytes out.new ≡ string_bytes out.old ++ comment (map plain_inst insts.now)
        (value_in known.now.values at) at line.now) }
{
    push_place(out, left_out(line.len()), at, word)?;
    push_notes_at(out, insts, known, at)
}
