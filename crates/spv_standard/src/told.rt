//! Operands by which an instruction breaks a rule, whatever instruction it is.

ghost use Rattle.std.specs.Prelude.{◌≡◌, ◌≤◌, ◌↔◌, IsTrue, false, length, take};
ghost use Rattle.std.specs.List.{AllByRecursion};
ghost use Rattle.spv_module.specs.Module.{plain_operand, plain_operands};
ghost use Rattle.spv_versions.specs.inner.Late.{AreFloored};
ghost use Rattle.spv_standard.specs.inner.Silent.{IsSilent};
ghost use Rattle.spv_standard.specs.inner.Told.{AreTold, IsTold};

use spv_limits::{FEW, is_long_text};
use spv_module::Operand;
use spv_versions::Late;

/// Whether an operand is a text that is too long, or a value or a mask with what the version does not have.
#[inline(always)]
fn is_told(late: &Late, operand: Operand<'_>) -> bool
    ensures { AreFloored late.now → IsTrue result ↔ IsTold late.now (plain_operand operand.entry) }
{
    if is_long_text(operand) {
        return true;
    }
    late.is_operand_missing(operand)
}

/// Whether one of some operands is so.
#[inline(always)]
fn has_told(late: &Late, operands: &[Operand<'_>]) -> bool
    ensures { AreFloored late.now → IsTrue result ↔ AreTold late.now (plain_operands operands.now) }
{
    for operand in operands {
        if is_told(late, *operand) {
            return true;
        }
    }
    false
}

/// Whether one of some operands is so, or they are more than `FEW`. Of the first `silent` it is known that none is.
#[inline(always)]
pub fn are_told(late: &Late, operands: &[Operand<'_>], silent: u8) -> bool
    ensures { AreFloored late.now → AllByRecursion IsSilent (take silent (plain_operands operands.now))
        → result ≡ false
        → (¬ (AreTold late.now (plain_operands operands.now))) × (length (plain_operands operands.now) ≤ 255) }
{
    let front = usize::from(silent);
    if operands.len() <= front {
        return false;
    }
    if FEW < operands.len() {
        return true;
    }
    has_told(late, &operands[front..])
}
