//! Where an instruction stands, by those before it.

ghost use Rattle.std.specs.Prelude.{◌≡◌, ◌≤◌, ◌<◌, ◌+◌, ℕ, List, Some, length, map};
ghost use Rattle.spv_words.specs.Header.{greatest_length};
ghost use Rattle.spv_module.specs.Module.{plain_inst, plain_operand};
ghost use Rattle.spv_module.specs.Operand.{PlainInst};
ghost use Rattle.spv_layout.specs.Place as place;
ghost use Rattle.spv_layout.specs.Place.{IsShort, word_count};
ghost use Rattle.spv_annotate.specs.Module.{inst_at, open_function};
ghost use Rattle.spv_annotate.specs.inner.Standing.{IsStanding, section_behind};

use crate::section::section_of;
use spv_module::{Inst, Operand, opcode};

/// What the instructions before one leave.
#[derive(Clone, Copy)]
pub struct Standing {
    /// The number of its first word.
    pub word: u32,
    /// The opcode of the instruction before it, if there is one.
    pub before: Option<u16>,
    /// The OpFunction of the function that is open.
    pub function: Option<u32>,
}

/// A count of words that has one for an operand, with those that the operand takes.
#[inline(always)]
fn corrected(count: usize, operand: Operand<'_>) -> usize
    requires some { 0 < count }
    requires few { count + place.operand_words (plain_operand operand) < 18446744073709551616 }
    ensures { result + 1 ≡ count + place.operand_words (plain_operand operand.entry) }
{
    match operand {
        Operand::Number { words, .. } => count - 1 + usize::from(words),
        Operand::Text(text) => count + text.len() / 4,
        _ => count,
    }
}

/// How many words an instruction has. Most operands take one.
#[inline(always)]
fn inst_words(inst: &Inst<'_>) -> u32
    requires { word_count (plain_inst inst.now) ≤ greatest_length }
    ensures { result ≡ word_count (plain_inst inst.now) }
{
    let operands = inst.operands.as_slice();
    let mut count = 1 + operands.len();
    for operand in operands {
        count = corrected(count, *operand);
    }
    count as u32
}

/// The function that is open behind the instruction of that number, by the one that is open before it.
fn function_behind(function: Option<u32>, at: u32, inst: &Inst<'_>) -> Option<u32>
    ensures { (is : List PlainInst) → inst_at is at ≡ plain_inst inst.now → function ≡ open_function is at
        → result ≡ open_function is (at + 1) }
{
    match inst.opcode {
        opcode::FUNCTION => Some(at),
        opcode::FUNCTION_END => None,
        _ => function,
    }
}

impl Standing {
    /// Before the first instruction.
    pub fn new() -> Standing
        ensures { (is : List PlainInst) → IsStanding is 0 result }
    {
        Standing {
            word: 5,
            before: None,
            function: None,
        }
    }

    /// The section before it, 0 before the first instruction.
    pub fn last_section(self) -> u32
        ensures { result ≡ section_behind self.before }
    {
        match self.before {
            Some(code) => section_of(code),
            None => 0,
        }
    }

    /// Behind the instruction of that number.
    #[inline(always)]
    pub fn behind(self, at: u32, inst: &Inst<'_>) -> Standing
        requires words { self.word + word_count (plain_inst inst.now) ≤ greatest_length }
        ensures { (is : List PlainInst) → at < length is → inst_at is at ≡ plain_inst inst.now → IsStanding is at self
            → IsStanding is (at + 1) result }
    {
        Standing {
            word: self.word + inst_words(inst),
            before: Some(inst.opcode),
            function: function_behind(self.function, at, inst),
        }
    }
}
