//! Whether instructions declare the same type.

ghost use Rattle.std.specs.Prelude.{◌≡◌, ◌↔◌, IsTrue};
ghost use Rattle.spv_module.specs.Module.{plain_inst, plain_operand, plain_operands};
ghost use Rattle.spv_type_rules.specs.inner.Repeat.{AreAlike};

use spv_module::{Inst, Operand};
use spv_type_forms::after_result;

/// Whether two operands are the same.
fn is_same(one: Operand<'_>, other: Operand<'_>) -> bool
    ensures { IsTrue result ↔ (plain_operand one.entry ≡ plain_operand other.entry) }
{
    match (one, other) {
        (Operand::OfType(x), Operand::OfType(y))
        | (Operand::Result(x), Operand::Result(y))
        | (Operand::Id(x), Operand::Id(y))
        | (Operand::Word(x), Operand::Word(y))
        | (Operand::Argument(x), Operand::Argument(y))
        | (Operand::Mention(x), Operand::Mention(y)) => x == y,
        (
            Operand::Number { low, high, words },
            Operand::Number {
                low: other_low,
                high: other_high,
                words: other_words,
            },
        ) => low == other_low && high == other_high && words == other_words,
        (Operand::Text(x), Operand::Text(y)) => x == y,
        (Operand::Value { kind: j, value: x }, Operand::Value { kind: k, value: y })
        | (Operand::Mask { kind: j, value: x }, Operand::Mask { kind: k, value: y }) => j == k
            && x == y,
        _ => false,
    }
}

/// Whether operands are the same, one by one.
fn are_same(some: &[Operand], others: &[Operand]) -> bool
    ensures { IsTrue result ↔ (plain_operands some.now ≡ plain_operands others.now) }
{
    if some.len() != others.len() {
        return false;
    }
    for k in 0..some.len() {
        if !is_same(some[k], others[k]) {
            return false;
        }
    }
    true
}

/// Whether two instructions have the same opcode and the same operands, the result aside.
pub fn are_alike(one: &Inst, other: &Inst) -> bool
    ensures { IsTrue result ↔ AreAlike (plain_inst one.now) (plain_inst other.now) }
{
    one.opcode == other.opcode
        && are_same(
            after_result(one.operands.as_slice()),
            after_result(other.operands.as_slice()),
        )
}
