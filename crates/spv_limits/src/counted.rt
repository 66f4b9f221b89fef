//! What single instructions have too many of.

ghost use Rattle.std.specs.Prelude.{◌≡◌, ◌<◌, ◌↔◌, IsTrue, Some, count_by, length};
ghost use Rattle.spv_module.specs.Module.{plain_inst, plain_operand, plain_operands};
ghost use Rattle.spv_limits.specs.declared.table.Limit.TheVariants as limit;
ghost use Rattle.spv_limits.specs.Counted as spec;
ghost use Rattle.spv_limits.specs.Table as table;
ghost use Rattle.spv_limits.specs.inner.Alone as alone;

use crate::table::{Limit, most};
use spv_module::{Inst, Operand, opcode};

/// Whether an octet of a text begins a character.
fn begins_character(octet: u8) -> bool
    ensures { result ≡ spec.begins_character octet }
{
    octet < 128 || 191 < octet
}

/// How many characters a text has.
#[inline(never)]
fn count_characters(text: &[u8]) -> usize
    ensures { result ≡ spec.character_count text.now }
{
    let mut count = 0;
    for octet in text {
        if begins_character(*octet) {
            count += 1;
        }
    }
    count
}

/// Whether there are more than a limit allows.
fn is_over(count: usize, limit: Limit) -> bool
    ensures { IsTrue result ↔ (table.most limit < count) }
{
    count > most(limit) as usize
}

/// Whether a text has too many characters. A text has no more of them than octets.
#[inline(always)]
fn is_long(text: &str) -> bool
    ensures { IsTrue result ↔ (table.most limit.Characters < spec.character_count text.now) }
{
    if !is_over(text.len(), Limit::Characters) {
        return false;
    }
    is_over(count_characters(text.as_bytes()), Limit::Characters)
}

/// Whether an operand is a text with too many characters.
#[inline(always)]
pub fn is_long_text(operand: Operand<'_>) -> bool
    ensures { IsTrue result ↔ alone.IsLong (plain_operand operand.entry) }
{
    match operand {
        Operand::Text(text) => is_long(text),
        _ => false,
    }
}

/// Whether one of some operands is a text with too many characters.
pub fn has_long_text(operands: &[Operand<'_>]) -> bool
    ensures { IsTrue result ↔ alone.AreLong (plain_operands operands.now) }
{
    for operand in operands {
        if is_long_text(*operand) {
            return true;
        }
    }
    false
}

/// How many operands of an opcode come before its indexes, if it has some.
pub fn before_indexes(number: u16) -> Option<usize>
    ensures { result ≡ spec.before_indexes number }
{
    match number {
        opcode::ACCESS_CHAIN | opcode::IN_BOUNDS_ACCESS_CHAIN | opcode::COMPOSITE_EXTRACT => Some(
            3,
        ),
        opcode::PTR_ACCESS_CHAIN | opcode::IN_BOUNDS_PTR_ACCESS_CHAIN | opcode::COMPOSITE_INSERT =>
            Some(4),
        _ => None,
    }
}

/// Whether an instruction has more indexes than it may have.
fn has_too_many_indexes(inst: &Inst<'_>) -> bool
    ensures { IsTrue result ↔ alone.HasTooManyIndexes (plain_inst inst.now) }
{
    match before_indexes(inst.opcode) {
        Some(front) => is_over(inst.operands.len().saturating_sub(front), Limit::Indexes),
        None => false,
    }
}

/// Whether an instruction has too many members, parameters, indexes or pairs.
#[inline(always)]
pub fn has_too_many(inst: &Inst<'_>) -> bool
    ensures { IsTrue result ↔ alone.HasTooMany (plain_inst inst.now) }
{
    let count = inst.operands.len();
    match inst.opcode {
        opcode::TYPE_STRUCT => is_over(count.saturating_sub(1), Limit::Members),
        opcode::TYPE_FUNCTION => is_over(count.saturating_sub(2), Limit::Parameters),
        opcode::SWITCH => is_over(count.saturating_sub(2) / 2, Limit::Pairs),
        _ => has_too_many_indexes(inst),
    }
}

/// Whether operands behind the number of an OpExtInst are more than those of OpenCL.std may be.
pub fn has_too_many_arguments(operands: &[Operand<'_>]) -> bool
    ensures { IsTrue result ↔ (table.most limit.Arguments < spec.argument_count (plain_operands operands.now)) }
{
    is_over(operands.len().saturating_sub(4), Limit::Arguments)
}

/// The function to which an instruction gives an execution mode.
pub fn mode_of(inst: &Inst<'_>) -> Option<u32>
    ensures { result ≡ alone.mode_of (plain_inst inst.now) }
{
    if inst.opcode != opcode::EXECUTION_MODE && inst.opcode != opcode::EXECUTION_MODE_ID {
        return None;
    }
    match inst.operands.as_slice() {
        [Operand::Id(f), ..] => Some(*f),
        _ => None,
    }
}
