//! What shows that O19 is broken: literals of OpSwitch.

ghost use Rattle.std.specs.Prelude.{◌≡◌, ◌+◌, ℕ, IfOk, OnOk, IsTrue, ◌↔◌, MatchOption, if◌then◌else◌, nat_eq};
ghost use Rattle.spv_table.specs.Table.{Table};
ghost use Rattle.spv_module.specs.Module.{plain_inst};
ghost use Rattle.spv_module.specs.declared.fault.Rule.TheVariants.{O19};
ghost use Rattle.spv_kernel_operands.specs.Switch.{HasTwice, IsMisswitched, literals_of};
ghost use Rattle.spv_standard_evidence.specs.Operands.{AreEqual, Shows, literal_at};
ghost use Rattle.spv_standard_evidence.specs.inner.Operands as inner;
ghost use Rattle.spv_limits.specs.inner.Kept.{kept};

use spv_evidence::Evidence;
use spv_kernel_operands::{is_wide, literal_in, selector_width};
use spv_module::Inst;
use spv_type_forms::Definitions;
use std::alloc::{AllocError, Global};
use std::collections::BTreeMap;

/// The literal that the operand of a number is.
fn literal_of(inst: &Inst<'_>, k: usize) -> Option<u64>
    ensures { result ≡ literal_at (plain_inst inst.now).operands k }
{
    match inst.operands.as_slice().get(k) {
        Some(operand) => literal_in(*operand),
        None => None,
    }
}

/// Whether the operand of a number is a literal that has a bit from a width up.
fn is_wide_at(inst: &Inst<'_>, k: usize, width: u32) -> bool
    ensures { IsTrue result ↔ inner.IsWider (plain_inst inst.now).operands width k }
{
    match literal_of(inst, k) {
        Some(literal) => is_wide(literal, width),
        None => false,
    }
}

/// The first literal that has a bit from a width up.
fn wide_literal(inst: &Inst<'_>, width: u32) -> Option<u32>
    ensures { MatchOption result (inner.AreNarrow (plain_inst inst.now).operands width)
        (inner.IsWider (plain_inst inst.now).operands width) }
{
    for k in 0..inst.operands.as_slice().len() {
        if is_wide_at(inst, k, width) {
            return Some(k as u32);
        }
    }
    None
}

/// What is kept under a literal: 0 where nothing is.
fn kept_at(map: &BTreeMap<u64, u32>, key: u64) -> u32
    ensures { result ≡ kept map.now key }
{
    match map.get(&key) {
        Some(number) => *number,
        None => 0,
    }
}

/// Keeps a number under a literal.
fn keep(map: &mut BTreeMap<u64, u32>, key: u64, number: u32) -> Result<(), AllocError>
    ensures { OnOk result ((k : ℕ) → kept map.new k ≡ (if nat_eq key k then number else kept map.old k)) }
{
    map.insert(key, number)?;
    Ok(())
}

/// The first two literals that are equal.
///
/// An `AllocError` comes only where a growth of memory was refused.
fn equal_literals(alloc: Global, inst: &Inst<'_>) -> Result<(u32, u32), AllocError>
    requires { HasTwice (literals_of (plain_inst inst.now).operands) }
    ensures { IfOk result (λ p. AreEqual (plain_inst inst.now).operands p.0 p.1) }
{
    let mut firsts = BTreeMap::new(alloc);
    for k in 0..inst.operands.as_slice().len() {
        if let Some(literal) = literal_of(inst, k) {
            let first = kept_at(&firsts, literal);
            if first != 0 {
                return Ok((first - 1, k as u32));
            }
            keep(&mut firsts, literal, k as u32 + 1)?;
        }
    }
    unreachable!()
}

/// O19: the first literal that is wider than the selector, or else the first two that are equal.
///
/// An `AllocError` comes only where a growth of memory was refused.
pub fn switch_evidence(
    alloc: Global,
    definitions: &Definitions,
    inst: &Inst<'_>,
) -> Result<Evidence, AllocError>
    requires { IsMisswitched definitions.now (plain_inst inst.now) }
    ensures { IfOk result (λ e. (G : Table) → Shows G definitions.now (plain_inst inst.now) O19 e) }
{
    if let Some(width) = selector_width(definitions, inst.operands.as_slice()) {
        if let Some(operand) = wide_literal(inst, width) {
            return Ok(Evidence::Operand { operand });
        }
    }
    let (first, second) = equal_literals(alloc, inst)?;
    Ok(Evidence::Pair { first, second })
}
