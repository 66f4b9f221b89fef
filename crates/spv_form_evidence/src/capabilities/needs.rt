//! The rule C2: which entry, value, bit or type needs capabilities of which the module has none.

ghost use Rattle.std.specs.Prelude.{◌≡◌, ◌<◌, ◌/◌, ◌%◌, ◌^◌, ◌↔◌, IsTrue, MatchOption};
ghost use Rattle.std.specs.Prelude.{Some, length, slice_get};
ghost use Rattle.std.specs.List.{AllByRecursion};
ghost use Rattle.spv_module.specs.Operand.{PlainInst, Value, Mask};
ghost use Rattle.spv_module.specs.Module.{plain_inst, plain_operand, plain_operands};
ghost use Rattle.spv_capabilities.specs.Capable.{IsCapable, IsCoveredValue, IsCoveredMask, IsCoveredOperand};
ghost use Rattle.spv_capabilities.specs.Capable.{needs_of};
ghost use Rattle.spv_capabilities.specs.Asked.{HasNeeded, IsOtherKind};
ghost use Rattle.spv_form_evidence.specs.capabilities.Evidence.{IsUncovered};
ghost use Rattle.spv_form_evidence.specs.capabilities.inner.Bits.{IsSet, IsUncoveredAt, IsUncoveredBit};

use spv_capabilities::{Survey, is_capability_kind, is_covered_entry, is_covered_value};
use spv_evidence::Lister;
use spv_module::{Inst, Operand, opcode};

/// Whether the bit at a position is set in a mask.
fn is_set(mask: u32, position: u32) -> bool
    requires { position < 32 }
    ensures { IsTrue result ↔ IsSet mask position }
{
    (mask >> position) % 2 == 1
}

/// The bit at a position, if a mask has it and its enumerant is not covered.
fn uncovered_at(survey: &Survey<'_, '_>, kind: u32, mask: u32, position: u32) -> Option<u32>
    requires { position < 32 }
    ensures { MatchOption result
        (IsSet mask position → IsCoveredValue survey.now.table survey.now.insts kind (2 ^ position))
        (IsUncoveredAt survey.now.table survey.now.insts kind mask position) }
{
    let bit = 1 << position;
    if is_set(mask, position) && !is_covered_value(survey, kind, bit) {
        Some(bit)
    } else {
        None
    }
}

/// The lowest set bit of a mask whose enumerant is not covered.
fn uncovered_bit(survey: &Survey<'_, '_>, kind: u32, mask: u32) -> Option<u32>
    ensures { MatchOption result (IsCoveredMask survey.now.table survey.now.insts kind mask)
        (IsUncoveredBit survey.now.table survey.now.insts kind mask) }
{
    for position in 0..32 {
        if let Some(bit) = uncovered_at(survey, kind, mask, position) {
            return Some(bit);
        }
    }
    None
}

/// The operand of a number, if it is a value that is not covered.
fn uncovered_value(survey: &Survey<'_, '_>, operand: u32, kind: u32, value: u32) -> Option<Lister>
    ensures { MatchOption result
        (IsOtherKind survey.now.table kind → IsCoveredValue survey.now.table survey.now.insts kind value)
        (λ l. (i : PlainInst) → slice_get i.operands operand ≡ Some (Value kind value)
        → IsUncovered survey.now.table survey.now.insts i l) }
{
    if is_capability_kind(survey, kind) {
        return None;
    }
    if is_covered_value(survey, kind, value) {
        return None;
    }
    Some(Lister::Value { operand })
}

/// The operand of a number with one of its bits, if it is a mask with a bit that is not covered.
fn uncovered_mask(survey: &Survey<'_, '_>, operand: u32, kind: u32, mask: u32) -> Option<Lister>
    ensures { MatchOption result
        (IsOtherKind survey.now.table kind → IsCoveredMask survey.now.table survey.now.insts kind mask)
        (λ l. (i : PlainInst) → slice_get i.operands operand ≡ Some (Mask kind mask)
        → IsUncovered survey.now.table survey.now.insts i l) }
{
    if is_capability_kind(survey, kind) {
        return None;
    }
    let bit = uncovered_bit(survey, kind, mask)?;
    Some(Lister::Bit { operand, bit })
}

/// What lists capabilities at an operand of a number and is not covered.
fn uncovered_at_operand(
    survey: &Survey<'_, '_>,
    number: u32,
    operand: &Operand<'_>,
) -> Option<Lister>
    ensures { MatchOption result (IsCoveredOperand survey.now.table survey.now.insts (plain_operand operand.now))
        (λ l. (i : PlainInst) → slice_get i.operands number ≡ Some (plain_operand operand.now)
        → IsUncovered survey.now.table survey.now.insts i l) }
{
    match operand {
        Operand::Value { kind, value } => uncovered_value(survey, number, *kind, *value),
        Operand::Mask { kind, value } => uncovered_mask(survey, number, *kind, *value),
        _ => None,
    }
}

/// The first operand that is not covered: a value, or a mask with its first bit that is not.
fn uncovered_operand(survey: &Survey<'_, '_>, operands: &[Operand<'_>]) -> Option<Lister>
    requires { length operands.now < 4294967296 }
    ensures { MatchOption result
        (AllByRecursion (IsCoveredOperand survey.now.table survey.now.insts) (plain_operands operands.now))
        (λ l. (i : PlainInst) → i.operands ≡ plain_operands operands.now
        → IsUncovered survey.now.table survey.now.insts i l) }
{
    for number in 0..operands.len() as u32 {
        if let Some(lister) = uncovered_at_operand(survey, number, &operands[number as usize]) {
            return Some(lister);
        }
    }
    None
}

/// What a type declaration needs and the module has not.
fn unmet(survey: &Survey<'_, '_>, inst: &Inst<'_>) -> Lister
    requires { ¬ (HasNeeded survey.now.table survey.now.insts (needs_of (plain_inst inst.now))) }
    ensures { IsUncovered survey.now.table survey.now.insts (plain_inst inst.now) result }
{
    match inst.opcode {
        opcode::TYPE_SAMPLER => Lister::Type,
        opcode::TYPE_IMAGE => if survey.has(13) {
            Lister::Access
        } else {
            Lister::Type
        },
        _ => Lister::Width,
    }
}

/// What is not covered at an instruction that breaks C2: its entry, or else the first operand, or else what
/// the type that it declares needs.
pub fn lister(survey: &Survey<'_, '_>, inst: &Inst<'_>) -> Lister
    requires { ¬ (IsCapable survey.now.table survey.now.insts (plain_inst inst.now)) }
    ensures { IsUncovered survey.now.table survey.now.insts (plain_inst inst.now) result }
{
    if !is_covered_entry(survey, inst.opcode) {
        return Lister::Entry;
    }
    match uncovered_operand(survey, inst.operands.as_slice()) {
        Some(lister) => lister,
        None => unmet(survey, inst),
    }
}
