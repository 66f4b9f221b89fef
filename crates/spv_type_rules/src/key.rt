//! Keys of instructions: an instruction without its result, in numbers.

ghost use Rattle.std.specs.Prelude.{◌≡◌, ◌+◌, ◌++◌, ◌∷◌, [], OnOk, IfOk, map};
ghost use Rattle.spv_module.specs.Module.{plain_inst, plain_operand};
ghost use Rattle.spv_type_rules.specs.inner.Key as spec;
ghost use Rattle.spv_type_rules.specs.inner.Key.{operand_numbers};

use spv_module::{Inst, Operand};
use spv_type_forms::after_result;
use std::alloc::{AllocError, Global};

/// Appends the octets of a text, each as a number above 0, and a 0.
fn push_text(key: &mut Vec<u32>, text: &str) -> Result<(), AllocError>
    ensures { OnOk result (key.new.items ≡ key.old.items ++ map (λ b. b + 1) text.now ++ 0 ∷ []) }
{
    key.reserve(text.len().saturating_add(1))?;
    for octet in text.as_bytes() {
        key.push(u32::from(*octet) + 1)?;
    }
    key.push(0)?;
    Ok(())
}

/// Appends two numbers.
fn push_two(key: &mut Vec<u32>, one: u32, other: u32) -> Result<(), AllocError>
    ensures { OnOk result (key.new.items ≡ key.old.items ++ one ∷ other ∷ []) }
{
    key.push(one)?;
    key.push(other)?;
    Ok(())
}

/// Appends the numbers of an operand.
fn push_operand(key: &mut Vec<u32>, operand: Operand<'_>) -> Result<(), AllocError>
    ensures { OnOk result (key.new.items ≡ key.old.items ++ operand_numbers (plain_operand operand.entry)) }
{
    match operand {
        Operand::OfType(x) => push_two(key, 0, x),
        Operand::Result(x) => push_two(key, 1, x),
        Operand::Id(x) => push_two(key, 2, x),
        Operand::Word(x) => push_two(key, 3, x),
        Operand::Number { low, high, words } => {
            push_two(key, 4, low)?;
            push_two(key, high, u32::from(words))
        }
        Operand::Text(text) => {
            key.push(5)?;
            push_text(key, text)
        }
        Operand::Value { kind, value } => {
            key.push(6)?;
            push_two(key, kind, value)
        }
        Operand::Mask { kind, value } => {
            key.push(7)?;
            push_two(key, kind, value)
        }
        Operand::Argument(x) => push_two(key, 8, x),
        Operand::Mention(x) => push_two(key, 9, x),
    }
}

/// The key of an instruction: the numbers of its opcode and its operands, the result aside.
pub fn key_of(alloc: Global, inst: &Inst<'_>) -> Result<Vec<u32>, AllocError>
    ensures { IfOk result (λ k. k.items ≡ spec.key_of (plain_inst inst.now)) }
{
    let operands = after_result(inst.operands.as_slice());
    let mut key = Vec::with_capacity(alloc, operands.len().saturating_mul(2).saturating_add(1))?;
    key.push(u32::from(inst.opcode))?;
    for operand in operands {
        push_operand(&mut key, *operand)?;
    }
    Ok(key)
}
