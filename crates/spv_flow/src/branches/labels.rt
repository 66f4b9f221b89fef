//! The labels among the operands of an instruction.

ghost use Rattle.std.specs.Prelude.{◌≡◌, ◌<◌, ℕ, Some, IsTrue, MatchOption, length, map, slice_get, option_and_then};
ghost use Rattle.spv_module.specs.declared.opcode.TheConstants as code;
ghost use Rattle.spv_table.specs.Table.{Table};
ghost use Rattle.spv_module.specs.Operand.{PlainInst};
ghost use Rattle.spv_module.specs.Module.{plain_inst, plain_operand, plain_operands};
ghost use Rattle.spv_layout.specs.Shape.{FitsShape, IsUse};
ghost use Rattle.spv_layout.specs.Shape as shape;
ghost use Rattle.spv_layout.specs.declared.form.Role.TheVariants as role;
ghost use Rattle.spv_flow.specs.branches.inner.Labels.{is_labelled, IsMadeOf, AreSameCases};
ghost use Rattle.spv_flow.specs.branches.inner.Labels as labels;

use spv_layout::id_of;
use spv_module::opcode::{BRANCH_CONDITIONAL, LOOP_MERGE, PHI, SWITCH};
use spv_module::{Inst, Operand};

/// Whether operand `n` is a label, of an opcode of which some operand is one.
#[inline(always)]
fn is_label_at(opcode: u16, n: usize) -> bool
    ensures { result ≡ labels.is_label_at opcode n }
{
    if opcode == SWITCH {
        n % 2 == 1
    } else if opcode == PHI {
        2 <= n && n % 2 == 1
    } else if opcode == BRANCH_CONDITIONAL {
        1 <= n && n <= 2
    } else if opcode == LOOP_MERGE {
        n <= 1
    } else {
        n == 0
    }
}

/// The id that operand `n` of a list is, if it is one.
#[inline(always)]
fn id_in(operands: &[Operand<'_>], n: usize) -> Option<u32>
    ensures { result ≡ option_and_then shape.id_of (slice_get (map plain_operand operands.now) n) }
{
    if n < operands.len() {
        id_of(operands[n])
    } else {
        None
    }
}

/// The id that operand `n` uses as a label, if it does, of the operands of an OpPhi, a merge or a terminator with
/// labels.
#[inline(always)]
pub fn label_in(opcode: u16, operands: &[Operand<'_>], n: usize) -> Option<u32>
    requires { IsTrue (is_labelled opcode) }
    ensures { (G : Table) (i : PlainInst) → IsMadeOf i opcode (plain_operands operands.now) → FitsShape G i
        → MatchOption result ((x : ℕ) → ¬ (IsUse G i n x role.Label)) (λ x. IsUse G i n x role.Label) }
{
    if is_label_at(opcode, n) {
        id_in(operands, n)
    } else {
        None
    }
}

/// The id that operand `n` of an OpPhi, a merge or a terminator with labels uses as a label, if it does.
#[inline(always)]
pub fn label(inst: &Inst<'_>, n: usize) -> Option<u32>
    requires { IsTrue (is_labelled (plain_inst inst.now).opcode) }
    ensures { (G : Table) → FitsShape G (plain_inst inst.now)
        → MatchOption result ((x : ℕ) → ¬ (IsUse G (plain_inst inst.now) n x role.Label))
        (λ x. IsUse G (plain_inst inst.now) n x role.Label) }
{
    label_in(inst.opcode, inst.operands.as_slice(), n)
}

/// Whether operand `n` of a list is that id.
#[inline(always)]
fn is_id_at(operands: &[Operand<'_>], n: usize, id: u32) -> bool
    ensures { IsTrue result → option_and_then shape.id_of (slice_get (map plain_operand operands.now) n) ≡ Some id }
{
    match operands.get(n) {
        Some(Operand::Id(found)) => *found == id,
        _ => false,
    }
}

/// The first operand after operand `n`, which is a label, that is no literal and not the same label: of the cases of an
/// OpSwitch.
#[inline(always)]
fn next_case(operands: &[Operand<'_>], n: usize, id: u32) -> usize
    requires label { IsTrue (labels.is_label_at code.SWITCH n) }
    requires below { n < length operands.now }
    ensures further { n < result }
    ensures same { AreSameCases (plain_operands operands.now) n result id }
{
    let mut next = n + 2;
    while next < operands.len() {
        if !is_id_at(operands, next, id) {
            return next;
        }
        next += 2;
    }
    next
}

/// From which operand after operand `n`, whose label is `id`, on there may be another label: the cases of an OpSwitch
/// often lead to one block.
#[inline(always)]
pub fn next_label(opcode: u16, operands: &[Operand<'_>], n: usize, id: u32) -> usize
    requires labelled { IsTrue (is_labelled opcode) }
    requires below { n < length operands.now }
    requires label { (G : Table) (i : PlainInst) → IsMadeOf i opcode (plain_operands operands.now) → FitsShape G i
        → IsUse G i n id role.Label }
    ensures further { n < result }
    ensures same { (G : Table) (i : PlainInst) (k x : ℕ) → IsMadeOf i opcode (plain_operands operands.now)
        → FitsShape G i → n < k → k < result → IsUse G i k x role.Label → IsUse G i n x role.Label }
{
    if opcode != SWITCH {
        return n + 1;
    }
    if !is_label_at(opcode, n) {
        return n + 1;
    }
    next_case(operands, n, id)
}
