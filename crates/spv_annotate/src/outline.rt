//! The sections, functions and blocks that begin in a module, by any pen.

ghost use Rattle.std.specs.Prelude.{◌≡◌, ◌+◌, ◌<◌, ℕ, List, OnOk, is_some, length, map, option_map};
ghost use Rattle.std.specs.Option.{option_to_list};
ghost use Rattle.spv_layout.specs.Place.{AreFew};
ghost use Rattle.spv_module.specs.Module.{plain_inst};
ghost use Rattle.spv_module.specs.Operand.{PlainInst};
ghost use Rattle.spv_annotate.specs.Document.{begun, is_of};
ghost use Rattle.spv_annotate.specs.Module.{function_of, inst_at, open_function, section_before};
ghost use Rattle.spv_annotate.specs.Page.{beginnings, outlined};
ghost use Rattle.spv_annotate.specs.Piece.{IsWritten, plain_piece};

use crate::piece::{Pen, Piece};
use crate::section::section_of;
use spv_module::{Inst, opcode};
use std::alloc::AllocError;

/// What the instructions before one leave.
#[derive(Clone, Copy)]
struct Before {
    /// The section before it, 0 before the first instruction.
    section: u32,
    /// The OpFunction of the function that is open.
    function: Option<u32>,
}

impl Before {
    /// Behind an instruction.
    fn behind(self, at: u32, code: u16) -> Before
        ensures section { (is : List PlainInst) → (inst_at is at).opcode ≡ code
            → result.section ≡ section_before is (at + 1) }
        ensures function { (is : List PlainInst) → (inst_at is at).opcode ≡ code
            → self.function ≡ open_function is at → result.function ≡ open_function is (at + 1) }
    {
        let function = match code {
            opcode::FUNCTION => Some(at),
            opcode::FUNCTION_END => None,
            _ => self.function,
        };
        Before {
            section: section_of(code),
            function,
        }
    }

    /// What begins with an instruction.
    fn beginning(self, at: u32, code: u16) -> Option<Piece<'static>>
        ensures { option_to_list (option_map plain_piece result)
            ≡ begun code self.section (is_some self.function) at }
    {
        if code == opcode::FUNCTION {
            return Some(Piece::Function(at));
        }
        if code == opcode::LABEL {
            return Some(Piece::Block(at));
        }
        let section = section_of(code);
        if self.function.is_some() || section == self.section {
            return None;
        }
        Some(Piece::Section { inst: at, section })
    }
}

/// The OpFunction of the function that an instruction is of, by the one that is open before it.
#[inline(always)]
pub fn function_at(before: Option<u32>, at: u32, code: u16) -> Option<u32>
    ensures { (is : List PlainInst) → (inst_at is at).opcode ≡ code → before ≡ open_function is at
        → result ≡ function_of is at }
{
    if code == opcode::FUNCTION {
        return Some(at);
    }
    before
}

/// The OpFunction of the function that is open behind an instruction, by the one that it is of.
#[inline(always)]
pub fn function_behind(function: Option<u32>, code: u16) -> Option<u32>
    ensures { (is : List PlainInst) (at : ℕ) → (inst_at is at).opcode ≡ code → function ≡ function_of is at
        → result ≡ open_function is (at + 1) }
{
    if code == opcode::FUNCTION_END {
        return None;
    }
    function
}

/// The OpFunction of the function that is open before an instruction.
fn function_before(insts: &[Inst<'_>], at: u32) -> Option<u32>
    ensures { result ≡ open_function (map plain_inst insts.now) at }
{
    let mut last = at;
    while last > 0 {
        last -= 1;
        match opcode_at(insts, last) {
            opcode::FUNCTION => return Some(last),
            opcode::FUNCTION_END => return None,
            _ => {}
        }
    }
    None
}

/// The opcode of an instruction; 0 where there is none of that number.
pub fn opcode_at(insts: &[Inst<'_>], at: u32) -> u16
    ensures { result ≡ (inst_at (map plain_inst insts.now) at).opcode }
{
    match insts.get(at as usize) {
        Some(inst) => inst.opcode,
        None => 0,
    }
}

/// The OpFunction of the function that an instruction is of.
pub fn function_in(insts: &[Inst<'_>], at: u32) -> Option<u32>
    ensures { result ≡ function_of (map plain_inst insts.now) at }
{
    function_at(function_before(insts, at), at, opcode_at(insts, at))
}

/// Whether what stands in a function, or in none, is asked for.
#[inline(always)]
pub fn is_in_asked(insts: &[Inst<'_>], asked: Option<u32>, function: Option<u32>) -> bool
    ensures { (n : ℕ) → function ≡ function_of (map plain_inst insts.now) n
        → result ≡ is_of (map plain_inst insts.now) asked n }
{
    let Some(id) = asked else {
        return true;
    };
    let Some(at) = function else {
        return false;
    };
    match insts.get(at as usize) {
        Some(inst) => inst.result_id() == Some(id),
        None => false,
    }
}

/// Writes what begins with an instruction, if it is asked for.
fn write_outlined<P: Pen>(
    pen: &mut P,
    insts: &[Inst<'_>],
    asked: Option<u32>,
    at: u32,
    before: Before,
) -> Result<(), AllocError>
    requires within { at < length insts.now }
    requires section { before.section ≡ section_before (map plain_inst insts.now) at }
    requires function { before.function ≡ open_function (map plain_inst insts.now) at }
    ensures { OnOk result (IsWritten P.text P.writes (outlined (map plain_inst insts.now) asked at) pen.old pen.new) }
{
    let code = insts[at as usize].opcode;
    if !is_in_asked(insts, asked, function_at(before.function, at, code)) {
        return Ok(());
    }
    match before.beginning(at, code) {
        Some(piece) => pen.write(piece),
        None => Ok(()),
    }
}

/// Writes the sections, functions and blocks that begin in what is asked for.
///
/// An `AllocError` comes only where a growth of memory was refused, and then nothing is said of what is left.
pub fn write_beginnings<P: Pen>(
    pen: &mut P,
    insts: &[Inst<'_>],
    asked: Option<u32>,
) -> Result<(), AllocError>
    requires { AreFew insts.now }
    ensures { OnOk result (IsWritten P.text P.writes (beginnings (map plain_inst insts.now) asked) pen.old pen.new) }
{
    let mut before = Before {
        section: 0,
        function: None,
    };
    for at in 0..insts.len() {
        write_outlined(pen, insts, asked, at as u32, before)?;
        before = before.behind(at as u32, insts[at].opcode);
    }
    Ok(())
}
