//! Which operands of an instruction are uses, or mentions.

ghost use Rattle.std.specs.Prelude.{◌≡◌, slice_get, take, drop};
ghost use Rattle.spv_module.specs.Module.{plain_inst, plain_operand, plain_operands};
ghost use Rattle.spv_ids.specs.inner.Test.{id_in};
ghost use Rattle.spv_ids.specs.inner.Uses as uses;

use spv_module::{Inst, Operand, opcode};

/// The first four operands, or all where they are fewer.
#[inline(always)]
fn first_four<'i, 'a>(operands: &'i [Operand<'a>]) -> &'i [Operand<'a>]
    ensures { plain_operands result.now ≡ take 4 (plain_operands operands.now) }
{
    if operands.len() > 4 {
        &operands[..4]
    } else {
        operands
    }
}

/// The operands whose ids are uses: of an OpExtInst those up to the number of its extended instruction, of any other
/// instruction all.
#[inline(always)]
pub fn seen<'i, 'a>(inst: &'i Inst<'a>) -> &'i [Operand<'a>]
    ensures { plain_operands result.now ≡ uses.seen (plain_inst inst.now) }
{
    let operands = inst.operands.as_slice();
    if inst.opcode == opcode::EXT_INST {
        first_four(operands)
    } else {
        operands
    }
}

/// The operands behind the first four.
#[inline(always)]
fn behind_four<'i, 'a>(operands: &'i [Operand<'a>]) -> &'i [Operand<'a>]
    ensures { plain_operands result.now ≡ drop 4 (plain_operands operands.now) }
{
    &operands[operands.len().min(4)..]
}

/// The operands of an OpExtInst behind the number of its extended instruction; of any other instruction none.
#[inline(always)]
pub fn behind<'i, 'a>(inst: &'i Inst<'a>) -> &'i [Operand<'a>]
    ensures { plain_operands result.now ≡ uses.behind (plain_inst inst.now) }
{
    if inst.opcode == opcode::EXT_INST {
        behind_four(inst.operands.as_slice())
    } else {
        &[]
    }
}

/// The id that an operand uses, if it is an id other than a result, and not behind the number of an OpExtInst.
#[inline(always)]
pub fn used_id(operand: Operand<'_>) -> Option<u32>
    ensures { result ≡ uses.used_id (plain_operand operand.entry) }
{
    match operand {
        Operand::OfType(id) => Some(id),
        Operand::Id(id) => Some(id),
        _ => None,
    }
}

/// The id that an operand is, if it is one other than a result. An operand up to the number of an OpExtInst is neither
/// an `Argument` nor a `Mention` where its instruction fits: these are taken along since the test takes fewer
/// instructions so.
#[inline(always)]
pub fn seen_id(operand: Operand<'_>) -> Option<u32>
    ensures { result ≡ uses.seen_id (plain_operand operand.entry) }
{
    match operand {
        Operand::OfType(id) => Some(id),
        Operand::Id(id) => Some(id),
        Operand::Argument(id) => Some(id),
        Operand::Mention(id) => Some(id),
        _ => None,
    }
}

/// The id that an operand behind the number of an OpExtInst uses, if it is looked at and its set takes it as a value.
#[inline(always)]
pub fn argument_id(operand: Operand<'_>) -> Option<u32>
    ensures { result ≡ uses.argument_id (plain_operand operand.entry) }
{
    match operand {
        Operand::Argument(id) => Some(id),
        _ => None,
    }
}

/// The id that an operand behind the number of an OpExtInst mentions, if it is looked at and its set alone knows as
/// what it takes it.
#[inline(always)]
pub fn mention_id(operand: Operand<'_>) -> Option<u32>
    ensures { result ≡ uses.mention_id (plain_operand operand.entry) }
{
    match operand {
        Operand::Mention(id) => Some(id),
        _ => None,
    }
}

/// The id that operand `n`, from 0, of an instruction is, if it is one other than a type or a result.
pub fn named_id(inst: &Inst<'_>, n: usize) -> Option<u32>
    ensures { result ≡ id_in (slice_get (plain_inst inst.now).operands n) }
{
    match inst.operands.as_slice().get(n) {
        Some(Operand::Id(id)) => Some(*id),
        _ => None,
    }
}

/// The operand at a place, if it is a result.
#[inline(always)]
fn result_at(operands: &[Operand<'_>], n: usize) -> Option<u32>
    ensures { result ≡ uses.result_at (slice_get (plain_operands operands.now) n) }
{
    match operands.get(n) {
        Some(Operand::Result(id)) => Some(*id),
        _ => None,
    }
}

/// The result of an instruction that fits its row: its first or second operand.
#[inline(always)]
pub fn result_of(inst: &Inst<'_>) -> Option<u32>
    ensures { result ≡ uses.early_result (plain_inst inst.now).operands }
{
    let operands = inst.operands.as_slice();
    match result_at(operands, 0) {
        Some(id) => Some(id),
        None => result_at(operands, 1),
    }
}
