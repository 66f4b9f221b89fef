//! The decimal values of float constants.

ghost use Rattle.std.specs.Prelude.{◌≡◌, ◌≢◌, ◌<◌, ◌≤◌, ◌++◌, ◌%◌, ℕ, IfOk, OnOk, Some, None, codes, false, map};
ghost use Rattle.std.specs.Prelude.{string_bytes};
ghost use Rattle.std.specs.Ordering.{nat_cmp};
ghost use Rattle.std.specs.BTreeMap.{get};
ghost use Rattle.spv_lines.specs.Digits.{hex_digits};
ghost use Rattle.spv_module.specs.Module.{plain_inst, plain_operands};
ghost use Rattle.spv_layout.specs.Place.{AreFew};
ghost use Rattle.spv_annotate.specs.Module.{defined_by, definition_of};
ghost use Rattle.spv_annotate.specs.Values as specs;
ghost use Rattle.spv_annotate.specs.Values.{AreValues, IsValue, IsValueOf, float_width, hex_of};
ghost use Rattle.spv_annotate.specs.inner.Numbers.{kept};
ghost use Rattle.spv_annotate.specs.inner.Values.{text_or_none, value_in};

use crate::numbers::Numbers;
use ryu::Buffer;
use spv_lines::push_hex;
use spv_module::{Inst, Operand, opcode};
use std::alloc::{AllocError, Global};
use std::collections::BTreeMap;

/// The bits of a float: of a half one, a single one, or a double one.
#[derive(Clone, Copy)]
pub enum Bits {
    Half(u32),
    Single(u32),
    Double(u64),
}

/// The decimal values of float constants, by the numbers of their instructions.
#[derive(Drop)]
pub struct Values {
    texts: BTreeMap<u32, String>,
}

impl Values {
    /// The value of the float constant that an instruction is; nothing where it is none.
    pub fn of(&self, inst: u32) -> &str
        ensures { result.now ≡ value_in self.now inst }
    {
        match self.texts.get(&inst) {
            Some(text) => text.as_str(),
            None => "",
        }
    }
}

/// The bits of a single float whose fraction of ten bits is doubled until it is one or more.
fn raised(fraction: u32) -> u32
    requires { fraction < 1024 }
    ensures value { result ≡ specs.raised 10 113 fraction }
    ensures small { result < 2147483648 }
{
    let mut exponent: u32 = 113;
    let mut rest = fraction;
    let mut left: u32 = 10;
    while left > 0 && rest < 1024 {
        exponent -= 1;
        rest *= 2;
        left -= 1;
    }
    exponent * 8388608 + rest % 1024 * 8192
}

/// The size of a half float as that of a single one.
fn widened_size(half: u32) -> u32
    requires { half < 32768 }
    ensures value { result ≡ specs.widened_size half }
    ensures small { result < 2147483648 }
{
    if half == 0 {
        return 0;
    }
    match half / 1024 {
        0 => raised(half),
        31 => 2139095040 + half % 1024 * 8192,
        exponent => (exponent + 112) * 8388608 + half % 1024 * 8192,
    }
}

/// A half float as a single one of the same value.
fn widened(half: u32) -> u32
    ensures { result ≡ specs.widened half }
{
    half / 32768 % 2 * 2147483648 + widened_size(half % 32768)
}

/// The bits of a float of a width, by its low and high word.
fn bits_of(low: u32, high: u32, width: u32) -> Option<Bits>
    ensures { result ≡ specs.bits_of low high width }
{
    match width {
        16 => Some(Bits::Half(low % 65536)),
        32 => Some(Bits::Single(low)),
        64 => Some(Bits::Double(u64::from(low) + 4294967296 * u64::from(high))),
        _ => None,
    }
}

/// The width that an instruction tells, if it is an OpTypeFloat.
fn float_width_of(inst: &Inst<'_>) -> Option<u32>
    ensures { result ≡ float_width (plain_inst inst.now) }
{
    match (inst.opcode, inst.operands.as_slice()) {
        (opcode::TYPE_FLOAT, [Operand::Result(_), Operand::Word(width), ..]) => Some(*width),
        _ => None,
    }
}

/// The width of a float type, by the first instruction that defines its id.
fn width_by(insts: &[Inst<'_>], definition: Option<u32>) -> Option<u32>
    ensures { (x : ℕ) → definition ≡ definition_of (map plain_inst insts.now) x
        → result ≡ float_width (defined_by (map plain_inst insts.now) x) }
{
    match insts.get(definition? as usize) {
        Some(inst) => float_width_of(inst),
        None => None,
    }
}

/// The bits of the float that operands of a constant are.
fn float_in(insts: &[Inst<'_>], definitions: &Numbers, operands: &[Operand<'_>]) -> Option<Bits>
    requires { (x : ℕ) → kept definitions.now x ≡ definition_of (map plain_inst insts.now) x }
    ensures { result ≡ specs.float_in (map plain_inst insts.now) (plain_operands operands.now) }
{
    match operands {
        [
            Operand::OfType(type_id),
            Operand::Result(_),
            Operand::Number { low, high, .. },
            ..
        ] => {
            let width = width_by(insts, definitions.get(*type_id))?;
            bits_of(*low, *high, width)
        }
        _ => None,
    }
}

/// The bits of the float constant that an instruction is.
fn float_of(insts: &[Inst<'_>], definitions: &Numbers, inst: &Inst<'_>) -> Option<Bits>
    requires { (x : ℕ) → kept definitions.now x ≡ definition_of (map plain_inst insts.now) x }
    ensures { result ≡ specs.float_of (map plain_inst insts.now) (plain_inst inst.now) }
{
    match inst.opcode {
        opcode::CONSTANT | opcode::SPEC_CONSTANT => {
            float_in(insts, definitions, inst.operands.as_slice())
        }
        _ => None,
    }
}

/// Whether bits are those of no number.
fn is_nan(bits: Bits) -> bool
    ensures { result ≡ specs.is_nan bits }
{
    match bits {
        Bits::Half(bits) => bits % 32768 > 31744,
        Bits::Single(bits) => bits % 2147483648 > 2139095040,
        Bits::Double(bits) => bits % 9223372036854775808 > 9218868437227405312,
    }
}

/// Adds the last four hexadecimal digits of a number.
fn push_short_hex(out: &mut String, alloc: Global, bits: u32) -> Result<(), AllocError>
    ensures { OnOk result (string_bytes out.new ≡ string_bytes out.old ++ hex_digits 4 bits) }
{
    let mut digits = String::new(alloc);
    push_hex(&mut digits, bits)?;
    out.push_str(&digits.as_str()[4..])
}

/// Adds bits in hexadecimal, in as many digits as the width has.
fn push_bits(out: &mut String, alloc: Global, bits: Bits) -> Result<(), AllocError>
    ensures { OnOk result (string_bytes out.new ≡ string_bytes out.old ++ hex_of bits) }
{
    match bits {
        Bits::Half(bits) => push_short_hex(out, alloc, bits),
        Bits::Single(bits) => push_hex(out, bits),
        Bits::Double(bits) => {
            push_hex(out, (bits / 4294967296) as u32)?;
            push_hex(out, (bits % 4294967296) as u32)
        }
    }
}

/// The text of a float that is no number: its bits.
fn nan_text(alloc: Global, bits: Bits) -> Result<String, AllocError>
    ensures { IfOk result (λ t. string_bytes t ≡ codes "NaN 0x" ++ hex_of bits) }
{
    let mut out = String::new(alloc);
    out.push_str("NaN 0x")?;
    push_bits(&mut out, alloc, bits)?;
    Ok(out)
}

/// The value of a single float that is a number.
fn single_text(alloc: Global, bits: u32) -> Result<String, AllocError>
    requires { bits % 2147483648 ≤ 2139095040 }
    ensures { IfOk result (λ t. IsValueOf false (Bits.Single bits) (string_bytes t)) }
{
    String::from_str(alloc, Buffer::new().format(f32::from_bits(bits)))
}

/// The value of a double float that is a number.
fn double_text(alloc: Global, bits: u64) -> Result<String, AllocError>
    requires { bits % 9223372036854775808 ≤ 9218868437227405312 }
    ensures { IfOk result (λ t. IsValueOf false (Bits.Double bits) (string_bytes t)) }
{
    String::from_str(alloc, Buffer::new().format(f64::from_bits(bits)))
}

/// The value of a float.
fn value_text(alloc: Global, bits: Bits) -> Result<String, AllocError>
    ensures { IfOk result (λ t. IsValue (Some bits) (string_bytes t)) }
{
    if is_nan(bits) {
        return nan_text(alloc, bits);
    }
    match bits {
        Bits::Half(bits) => single_text(alloc, widened(bits)),
        Bits::Single(bits) => single_text(alloc, bits),
        Bits::Double(bits) => double_text(alloc, bits),
    }
}

/// Keeps the value of a float, if there is one, of the instruction of that number, of which nothing is kept yet.
fn keep(
    alloc: Global,
    texts: &mut BTreeMap<u32, String>,
    at: u32,
    bits: Option<Bits>,
) -> Result<(), AllocError>
    requires { get nat_cmp texts.old at ≡ None }
    ensures here { OnOk result (IsValue bits (text_or_none (get nat_cmp texts.new at))) }
    ensures others { OnOk result ((n : ℕ) → n ≢ at → get nat_cmp texts.new n ≡ get nat_cmp texts.old n) }
{
    let Some(bits) = bits else {
        return Ok(());
    };
    let text = value_text(alloc, bits)?;
    texts.insert(at, text)?;
    Ok(())
}

/// The values of the float constants among instructions.
///
/// An `AllocError` comes only where a growth of memory was refused.
pub fn find_values(
    alloc: Global,
    insts: &[Inst<'_>],
    definitions: &Numbers,
) -> Result<Values, AllocError>
    requires few { AreFew insts.now }
    requires definitions { (x : ℕ) → kept definitions.now x ≡ definition_of (map plain_inst insts.now) x }
    ensures { IfOk result (λ v. AreValues (map plain_inst insts.now) (value_in v)) }
{
    let mut texts = BTreeMap::new(alloc);
    for at in 0..insts.len() {
        let bits = float_of(insts, definitions, &insts[at]);
        keep(alloc, &mut texts, at as u32, bits)?;
    }
    Ok(Values { texts })
}
