//! Literals of extended instructions, which decoding reads as ids.

ghost use Rattle.std.specs.Prelude.{◌≡◌, ◌++◌, ℕ, OnOk, drop, if◌then◌else◌, map, string_bytes};
ghost use Rattle.std.specs.List.{list_all};
ghost use Rattle.spv_module.specs.Module.{plain_inst, plain_operand, plain_operands};
ghost use Rattle.spv_annotate.specs.declared.linked.Quoting.TheVariants.{Outside};
ghost use Rattle.spv_annotate.specs.Called as specs;
ghost use Rattle.spv_annotate.specs.Called.{literal_of, unmarked};
ghost use Rattle.spv_annotate.specs.Module.{definition_of};
ghost use Rattle.spv_annotate.specs.inner.Numbers.{kept};

use crate::calls::called_by;
use crate::linked::{Quoting, size_until_id};
use crate::numbers::Numbers;
use spv_extended::{Set, Signature, signature_of};
use spv_module::{Inst, Operand};
use std::alloc::AllocError;

/// Whether an operand is an id that decoding could not tell from a literal.
fn is_id(operand: Operand<'_>) -> bool
    ensures { result ≡ specs.is_id (plain_operand operand.entry) }
{
    match operand {
        Operand::Id(_) => true,
        _ => false,
    }
}

/// Whether all operands behind the number of an OpExtInst are such ids.
fn are_ids(operands: &[Operand<'_>]) -> bool
    ensures { result ≡ list_all specs.is_id (plain_operands operands.now) }
{
    for operand in operands {
        if !is_id(*operand) {
            return false;
        }
    }
    true
}

/// The operands behind the first four.
fn behind_number<'p, 'a>(operands: &'p [Operand<'a>]) -> &'p [Operand<'a>]
    ensures { plain_operands result.now ≡ drop 4 (plain_operands operands.now) }
{
    match operands {
        [_, _, _, _, behind @ ..] => behind,
        _ => &[],
    }
}

/// Which operands of an instruction are literals, by the set of an OpExtInst.
pub fn signature_at(insts: &[Inst<'_>], definitions: &Numbers, inst: &Inst<'_>) -> Signature
    requires { (x : ℕ) → kept definitions.now x ≡ definition_of (map plain_inst insts.now) x }
    ensures { result ≡ specs.signature_at (map plain_inst insts.now) (plain_inst inst.now) }
{
    let Some(call) = called_by(insts, definitions, inst) else {
        return signature_of(Set::Other, 0);
    };
    if are_ids(behind_number(inst.operands.as_slice())) {
        return signature_of(call.set, call.number);
    }
    signature_of(Set::Other, 0)
}

/// Whether a literal stands at a place, of all operands from 0.
#[inline(always)]
fn is_literal_at(signature: Signature, place: usize) -> bool
    ensures { result ≡ specs.is_literal_at signature place }
{
    if place < 4 {
        return false;
    }
    signature.is_literal(place - 4)
}

/// The operand at a place, of all operands from 0, as it is told: a literal is a word.
#[inline(always)]
pub fn told<'a>(signature: Signature, place: usize, operand: Operand<'a>) -> Operand<'a>
    ensures { plain_operand result ≡ (if specs.is_literal_at signature place
        then literal_of (plain_operand operand.entry) else plain_operand operand.entry) }
{
    if !is_literal_at(signature, place) {
        return operand;
    }
    match operand {
        Operand::Id(id) => Operand::Word(id),
        _ => operand,
    }
}

/// Adds the `%` of an id, before its digits and all that follows; nothing where it is a literal's.
fn push_mark(out: &mut String, literal: bool, behind: &str) -> Result<(), AllocError>
    ensures { OnOk result (string_bytes out.new ≡ string_bytes out.old ++ specs.mark_of literal behind.now) }
{
    if literal && !behind.is_empty() {
        return Ok(());
    }
    out.push_str("%")
}

/// Adds the line of an OpExtInst without the `%` of literals.
///
/// An `AllocError` comes only where a growth of memory was refused, and then nothing is said of what is left.
pub fn push_unmarked(out: &mut String, signature: Signature, line: &str) -> Result<(), AllocError>
    ensures { OnOk result (string_bytes out.new ≡ string_bytes out.old ++ unmarked signature 0 Outside line.now) }
{
    let mut rest = line;
    let mut count = 0;
    while !rest.is_empty() {
        let size = size_until_id(rest.as_bytes(), Quoting::Outside);
        out.push_str(&rest[..size])?;
        if size == rest.len() {
            return Ok(());
        }
        let behind = &rest[size + 1..];
        count += 1;
        push_mark(out, is_literal_at(signature, count), behind)?;
        rest = behind;
    }
    Ok(())
}
