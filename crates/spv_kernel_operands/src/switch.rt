//! The literals of OpSwitch: O19.

ghost use Rattle.std.specs.Prelude.{◌≡◌, ◌↔◌, ◌<◌, ◌≤◌, ◌⊎◌, ◌^◌, ℕ, IfOk, IsTrue, Contains, MatchOption};
ghost use Rattle.std.specs.List.Sorted.{IsPermutation};
ghost use Rattle.spv_module.specs.Module.{plain_inst, plain_operand, plain_operands};
ghost use Rattle.spv_type_forms.specs.Types.{IsInt};
ghost use Rattle.spv_kernel_operands.specs.Switch as spec;
ghost use Rattle.spv_kernel_operands.specs.inner.Switch.{AreRising, IsSelector};

use crate::value::id_at;
use spv_module::{Inst, Operand, opcode};
use spv_type_forms::{Definitions, Form, Scalar};
use std::alloc::{AllocError, Global};

/// The number that an operand is, if it is a literal of OpSwitch.
pub fn literal_in(operand: Operand) -> Option<u64>
    ensures { result ≡ spec.literal_in (plain_operand operand.entry) }
{
    match operand {
        Operand::Number { low, high, .. } => Some(u64::from(low) + 4_294_967_296 * u64::from(high)),
        _ => None,
    }
}

/// The literals among operands, in order.
fn literals_of(alloc: Global, operands: &[Operand]) -> Result<Vec<u64>, AllocError>
    ensures { IfOk result (λ v. v.items ≡ spec.literals_of (plain_operands operands.now)) }
{
    let mut literals = Vec::new(alloc);
    for operand in operands {
        if let Some(literal) = literal_in(*operand) {
            literals.push(literal)?;
        }
    }
    Ok(literals)
}

/// The width of a type, if it is an int type.
fn int_width(definitions: &Definitions, t: u32) -> Option<u32>
    ensures { MatchOption result ((w : ℕ) → ¬ (IsInt definitions.now t w)) (λ w. IsInt definitions.now t w) }
{
    match definitions.form(t) {
        Some(Form::Scalar(Scalar::Int(width))) => Some(width),
        _ => None,
    }
}

/// How wide the selector of an OpSwitch is, in bits, if its type is an int type.
pub fn selector_width(definitions: &Definitions, operands: &[Operand]) -> Option<u32>
    ensures { MatchOption result ((w : ℕ) → ¬ (IsSelector definitions.now (plain_operands operands.now) w))
        (λ w. IsSelector definitions.now (plain_operands operands.now) w) }
{
    let selector = id_at(operands, 0)?;
    int_width(definitions, definitions.type_of(selector)?)
}

/// Whether a literal has a bit from a width up.
pub fn is_wide(literal: u64, width: u32) -> bool
    ensures { IsTrue result ↔ (2 ^ width ≤ literal) }
{
    if 64 <= width {
        return false;
    }
    literal >> width != 0
}

/// Whether one of some literals has a bit from a width up.
fn has_wide(literals: &[u64], width: u32) -> bool
    ensures { IsTrue result ↔ ((n : ℕ) × Contains literals.now n × (2 ^ width ≤ n)) }
{
    for literal in literals {
        if is_wide(*literal, width) {
            return true;
        }
    }
    false
}

/// Brings literals into order.
fn sort(literals: &mut [u64])
    ensures order { AreRising literals.new }
    ensures same { IsPermutation literals.old literals.new }
{
    literals.sort_unstable();
}

/// Whether two of some literals that are in order are equal.
fn has_equal(literals: &[u64]) -> bool
    requires { AreRising literals.now }
    ensures { IsTrue result ↔ spec.HasTwice literals.now }
{
    for at in 1..literals.len() {
        if literals[at - 1] == literals[at] {
            return true;
        }
    }
    false
}

/// Whether two of some literals are equal. It brings them into order.
fn has_twice(literals: &mut [u64]) -> bool
    ensures { IsTrue result ↔ spec.HasTwice literals.old }
{
    sort(literals);
    has_equal(literals)
}

/// Whether the operands of an OpSwitch have two equal literals, or one that is wider than the selector.
fn has_bad_literals(
    alloc: Global,
    definitions: &Definitions,
    operands: &[Operand],
) -> Result<bool, AllocError>
    ensures { IfOk result (λ b. IsTrue b ↔ (spec.HasTwice (spec.literals_of (plain_operands operands.now))
        ⊎ spec.HasWide definitions.now (plain_operands operands.now))) }
{
    let mut literals = literals_of(alloc, operands)?;
    if let Some(width) = selector_width(definitions, operands) {
        if has_wide(literals.as_slice(), width) {
            return Ok(true);
        }
    }
    Ok(has_twice(literals.as_mut_slice()))
}

/// Whether an instruction breaks O19. Time is linear in its operands, but for the logarithm of a sort.
///
/// An `AllocError` comes only where a growth of memory was refused.
pub fn is_misswitched(
    alloc: Global,
    definitions: &Definitions,
    inst: &Inst<'_>,
) -> Result<bool, AllocError>
    ensures { IfOk result (λ b. IsTrue b ↔ spec.IsMisswitched definitions.now (plain_inst inst.now)) }
{
    if inst.opcode != opcode::SWITCH {
        return Ok(false);
    }
    has_bad_literals(alloc, definitions, inst.operands.as_slice())
}
