//! The value operands of an instruction, each with its type.

/// A value operand: its number among the operands, its id, and the type that it is declared with.
#[derive(Clone, Copy)]
pub struct Value {
    pub operand: u32,
    pub id: u32,
    pub of: u32,
}
