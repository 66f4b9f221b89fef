//! Fingerprints of instructions.

ghost use Rattle.std.specs.Prelude.{◌≡◌};
ghost use Rattle.spv_module.specs.Module.{plain_inst, plain_operand};
ghost use Rattle.spv_type_rules.specs.inner.Print as spec;

use spv_module::{Inst, Operand};
use spv_type_forms::after_result;

/// One number more in a fingerprint.
#[inline(always)]
fn mixed_with(mixed: u32, number: u32) -> u32
    ensures { result ≡ spec.mixed_with mixed number }
{
    ((u64::from(mixed) + u64::from(number)) * 16_777_619 % 4_294_967_296) as u32
}

/// The octets of a text more in a fingerprint.
fn mixed_with_text(start: u32, text: &str) -> u32
    ensures { result ≡ spec.mixed_with_all start text.now }
{
    let mut mixed = start;
    for octet in text.as_bytes() {
        mixed = mixed_with(mixed, u32::from(*octet));
    }
    mixed
}

/// An operand more in a fingerprint.
#[inline(always)]
fn mixed_with_operand(mixed: u32, operand: Operand<'_>) -> u32
    ensures { result ≡ spec.mixed_with_operand mixed (plain_operand operand.entry) }
{
    match operand {
        Operand::OfType(x)
        | Operand::Result(x)
        | Operand::Id(x)
        | Operand::Word(x)
        | Operand::Argument(x)
        | Operand::Mention(x) => mixed_with(mixed, x),
        Operand::Number { low, high, .. } => mixed_with(mixed_with(mixed, low), high),
        Operand::Text(text) => mixed_with_text(mixed, text),
        Operand::Value { value, .. } | Operand::Mask { value, .. } => mixed_with(mixed, value),
    }
}

/// A fingerprint of an instruction, the result aside. Different ones mostly have different fingerprints.
pub fn fingerprint_of(inst: &Inst<'_>) -> u32
    ensures { result ≡ spec.fingerprint_of (plain_inst inst.now) }
{
    let mut mixed = u32::from(inst.opcode);
    for operand in after_result(inst.operands.as_slice()) {
        mixed = mixed_with_operand(mixed, *operand);
    }
    mixed
}
