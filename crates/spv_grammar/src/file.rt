//! What a grammar file holds, before kinds are numbered and codes other than J2 are looked for.

use crate::lent::{Lent, LentName};
use spv_table::{Category, Quantifier};

/// An operand of an instruction, or a parameter of an enumerant.
#[derive(Drop)]
pub struct FileOperand<'a> {
    /// The name of its kind.
    pub kind: LentName<'a>,
    /// How often it comes; none where the text is neither `?` nor `*`.
    pub quantifier: Option<Quantifier>,
}

/// An element of `instructions`.
#[derive(Drop)]
pub struct FileInstruction<'a> {
    pub name: LentName<'a>,
    /// None where the number is no whole one from 0 to 65,535.
    pub opcode: Option<u16>,
    pub operands: Lent<'a, FileOperand<'a>>,
    pub capabilities: Lent<'a, LentName<'a>>,
}

/// An element of a kind's `enumerants`.
#[derive(Drop)]
pub struct FileEnumerant<'a> {
    pub name: LentName<'a>,
    /// None where it is out of the range or form of its kind's category.
    pub value: Option<u32>,
    pub parameters: Lent<'a, FileOperand<'a>>,
    pub capabilities: Lent<'a, LentName<'a>>,
}

/// An element of `operand_kinds`.
#[derive(Drop)]
pub struct FileKind<'a> {
    pub name: LentName<'a>,
    /// None where the text names none.
    pub category: Option<Category>,
    /// Those of a BitEnum or a ValueEnum; none for others.
    pub enumerants: Lent<'a, FileEnumerant<'a>>,
    /// Those of a Composite; none for others.
    pub bases: Lent<'a, LentName<'a>>,
}

/// A grammar file.
#[derive(Drop)]
pub struct File<'a> {
    pub instructions: Lent<'a, FileInstruction<'a>>,
    pub kinds: Lent<'a, FileKind<'a>>,
}
