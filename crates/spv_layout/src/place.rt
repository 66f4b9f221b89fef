ghost use Rattle.std.specs.Prelude.{◌≡◌, ◌+◌, ◌≤◌, true, length};
ghost use Rattle.spv_layout.specs.inner.Single.{IsFront};
ghost use Rattle.spv_words.specs.Header.{greatest_length};
ghost use Rattle.spv_module.specs.Module.{plain_inst, plain_operand};
ghost use Rattle.spv_layout.specs.Place as specs;
ghost use Rattle.spv_layout.specs.inner.Kept.{early_place, late_place};

use crate::form::Row;
use crate::span::number;
use spv_module::{Inst, Operand};

/// The section of function definitions: 11 in the standard.
pub const DEFINITIONS: u8 = 13;

/// Where an instruction stands.
#[derive(Clone, Copy, PartialEq, Eq)]
pub struct Place {
    /// The place of its section's row: 1 to 6, 7a, 7b and 7c as 7 to 9, and 8 to 11 as 10 to 13.
    pub section: u8,
    /// The number of its function's OpFunction, if it is of one: from the OpFunction to the OpFunctionEnd.
    pub function: Option<u32>,
    /// The number of its block's OpLabel, if it is of one: from the OpLabel to the terminator.
    pub block: Option<u32>,
    /// The number of its first word in the module.
    pub word: u32,
}

/// What is kept of an instruction of sections 1 to 8.
#[derive(Clone, Copy)]
pub struct Early {
    pub section: u8,
    pub word: u32,
}

/// What is kept of an instruction of sections 9 to 11: the function and the block as in `Spans`.
#[derive(Clone, Copy)]
pub struct Standing {
    pub function: u32,
    pub block: u32,
    pub word: u32,
}

impl Early {
    #[inline(always)]
    pub fn place(self) -> Place
        ensures { result ≡ early_place self }
    {
        Place {
            section: self.section,
            function: None,
            block: None,
            word: self.word,
        }
    }
}

impl Standing {
    /// The place of instruction `at`, where sections 10 and 11 begin at these instructions.
    #[inline(always)]
    pub fn place(self, functions: u32, definitions: u32, at: u32) -> Place
        ensures { result ≡ late_place functions definitions at self }
    {
        let section = if at < functions {
            11
        } else if at < definitions {
            12
        } else {
            DEFINITIONS
        };
        Place {
            section,
            function: number(self.function),
            block: number(self.block),
            word: self.word,
        }
    }
}

/// How many words an operand takes.
#[inline(always)]
fn operand_words(operand: Operand<'_>) -> usize
    ensures { result ≡ specs.operand_words (plain_operand operand.entry) }
{
    match operand {
        Operand::Number { words, .. } => usize::from(words),
        Operand::Text(text) => text.len() / 4 + 1,
        _ => 1,
    }
}

/// How many words an instruction has that fits a row.
#[inline(always)]
pub fn words_of(inst: &Inst<'_>, row: &Row) -> u32
    requires words { specs.word_count (plain_inst inst.now) ≤ greatest_length }
    requires single { row.now.single ≡ true
        → specs.word_count (plain_inst inst.now) ≡ 1 + length (plain_inst inst.now).operands }
    requires front { IsFront (plain_inst inst.now).operands row.now.front }
    ensures { result ≡ specs.word_count (plain_inst inst.now) }
{
    if row.single {
        inst.operands.len() as u32 + 1
    } else {
        words_past(inst, row.front)
    }
}

/// How many words an instruction has of which so many first operands take one each.
#[inline(always)]
fn words_past(inst: &Inst<'_>, front: u8) -> u32
    requires words { specs.word_count (plain_inst inst.now) ≤ greatest_length }
    requires front { IsFront (plain_inst inst.now).operands front }
    ensures { result ≡ specs.word_count (plain_inst inst.now) }
{
    let known = usize::from(front);
    let (_, rest) = inst.operands.as_slice().split_at(known);
    let mut count = 1 + known;
    for operand in rest {
        count += operand_words(*operand);
    }
    count as u32
}

/// How many words an instruction has.
#[inline(never)]
pub fn inst_words(inst: &Inst<'_>) -> u32
    requires { specs.word_count (plain_inst inst.now) ≤ greatest_length }
    ensures { result ≡ specs.word_count (plain_inst inst.now) }
{
    let mut count = 1;
    for operand in inst.operands.as_slice() {
        count += operand_words(*operand);
    }
    count as u32
}
