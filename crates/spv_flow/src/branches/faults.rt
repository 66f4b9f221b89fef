//! What the rules F ask of an instruction.

ghost use Rattle.std.specs.Prelude.{◌≡◌, ◌<◌, ℕ, true, false, length, IsTrue, MatchBool};
ghost use Rattle.spv_table.specs.Table.{Table};
ghost use Rattle.spv_flow.specs.branches.inner.Code.{insts_of, IsCode};
ghost use Rattle.spv_flow.specs.branches.inner.Edges.{IsEdges, marked};
ghost use Rattle.spv_flow.specs.branches.inner.Graph.{AreGathered, AreEntries, CanTake, Takes, HasLabels, LacksLabel};
ghost use Rattle.spv_flow.specs.branches.inner.Graph.{IsTargetOf, AreTargets, HasSameLabels};
ghost use Rattle.spv_flow.specs.branches.inner.Graph as graph;
ghost use Rattle.spv_flow.specs.branches.inner.Labels.{is_labelled, is_jump};
ghost use Rattle.spv_flow.specs.branches.Target.{IsOp, HasParents};
ghost use Rattle.spv_flow.specs.branches.Target as target;

use crate::branches::code::Code;
use crate::branches::edges::Edges;
use crate::branches::labels::{label, label_in, next_label};
use spv_layout::id_at;
use spv_module::opcode::{BRANCH, BRANCH_CONDITIONAL};

/// What the labels of a branch are.
#[derive(Clone, Copy)]
pub enum Targets {
    /// Some label is of no OpLabel.
    Lacking,
    /// Each is of an OpLabel, and some of an entry block's.
    Entering,
    /// Each is of an OpLabel, and none of an entry block's.
    Sound,
}

/// Takes the mark from each block that an OpPhi names. Whether each had one.
fn take_parents(code: &Code<'_, '_>, marks: &mut [bool], at: u32) -> bool
    requires marks { length marks.old ≡ length code.now.insts.now }
    requires at { at < length code.now.insts.now }
    requires op { IsOp (insts_of code.now) at is_labelled }
    ensures { (G : Table) → IsCode G code.now
        → MatchBool result (Takes G (insts_of code.now) at marks.old marks.new)
        (¬ (CanTake G (insts_of code.now) at marks.old)) }
{
    let inst = &code.insts[at as usize];
    for n in 0..inst.operands.as_slice().len() {
        if let Some(id) = label(inst, n) {
            let Some(parent) = code.label_of(id) else {
                return false;
            };
            if !marks[parent as usize] {
                return false;
            }
            marks[parent as usize] = false;
        }
    }
    true
}

/// Whether the parents of an OpPhi are the predecessors of its block, each exactly once. No block is marked before, and
/// if they are, none after.
pub fn has_parents(code: &Code<'_, '_>, edges: &Edges, marks: &mut [bool], at: u32) -> bool
    requires code { (G : Table) × IsCode G code.now }
    requires edges { IsEdges edges.now }
    requires count { length edges.now.heads.items ≡ length code.now.insts.now }
    requires gathered { (G : Table) → IsCode G code.now
        → AreGathered G (insts_of code.now) edges.now (length code.now.insts.now) }
    requires marks { length marks.old ≡ length code.now.insts.now }
    requires clean { (p : ℕ) → marked marks.old p ≡ false }
    requires at { at < length code.now.insts.now }
    requires op { IsOp (insts_of code.now) at is_labelled }
    ensures clean { IsTrue result → (p : ℕ) → marked marks.new p ≡ false }
    ensures parents { (G : Table) → IsCode G code.now
        → MatchBool result (HasParents G (insts_of code.now) at) (¬ (HasParents G (insts_of code.now) at)) }
{
    let Some(block) = code.block_of(at) else {
        return false;
    };
    edges.mark(block, marks);
    if !take_parents(code, marks, at) {
        return false;
    }
    !edges.has_marked(block, marks)
}

/// Whether each label of an instruction is of an OpLabel.
pub fn has_labels(code: &Code<'_, '_>, at: u32) -> bool
    requires at { at < length code.now.insts.now }
    requires op { IsOp (insts_of code.now) at is_labelled }
    ensures { (G : Table) → IsCode G code.now
        → MatchBool result (HasLabels G (insts_of code.now) at) (LacksLabel G (insts_of code.now) at) }
{
    let inst = &code.insts[at as usize];
    for n in 0..inst.operands.as_slice().len() {
        if let Some(id) = label(inst, n) {
            if !code.has_label(id) {
                return false;
            }
        }
    }
    true
}

/// Looks at the labels of a branch, operand by operand.
#[inline(never)]
fn targets_by_operand(code: &Code<'_, '_>, entries: &[bool], at: u32) -> Targets
    requires at { at < length code.now.insts.now }
    requires op { IsOp (insts_of code.now) at is_labelled }
    requires count { length entries.now ≡ length code.now.insts.now }
    requires entries { AreEntries (insts_of code.now) entries.now (length code.now.insts.now) }
    ensures { (G : Table) → IsCode G code.now → AreTargets G (insts_of code.now) at result }
{
    let inst = &code.insts[at as usize];
    let opcode = inst.opcode;
    let operands = inst.operands.as_slice();
    let mut enters = false;
    let mut n = 0;
    while n < operands.len() {
        match label_in(opcode, operands, n) {
            Some(id) => {
                let Some(target) = code.label_of(id) else {
                    return Targets::Lacking;
                };
                if entries[target as usize] {
                    enters = true;
                }
                n = next_label(opcode, operands, n, id);
            },
            None => n += 1,
        }
    }
    if enters {
        Targets::Entering
    } else {
        Targets::Sound
    }
}

/// Looks at one label.
#[inline(always)]
fn target_of(code: &Code<'_, '_>, entries: &[bool], id: u32) -> Targets
    requires count { length entries.now ≡ length code.now.insts.now }
    requires entries { AreEntries (insts_of code.now) entries.now (length code.now.insts.now) }
    ensures { (G : Table) → IsCode G code.now → IsTargetOf (insts_of code.now) id result }
{
    let Some(target) = code.label_of(id) else {
        return Targets::Lacking;
    };
    if entries[target as usize] {
        Targets::Entering
    } else {
        Targets::Sound
    }
}

/// What two labels are together.
#[inline(always)]
fn joined(one: Targets, two: Targets) -> Targets
    ensures { result ≡ graph.joined one two }
{
    match one {
        Targets::Lacking => Targets::Lacking,
        Targets::Entering => match two {
            Targets::Lacking => Targets::Lacking,
            Targets::Entering => Targets::Entering,
            Targets::Sound => Targets::Entering,
        },
        Targets::Sound => two,
    }
}

/// Looks at the two labels of an OpBranchConditional.
#[inline(always)]
fn conditional_targets(code: &Code<'_, '_>, entries: &[bool], at: u32) -> Targets
    requires at { at < length code.now.insts.now }
    requires op { IsOp (insts_of code.now) at target.is_conditional }
    requires count { length entries.now ≡ length code.now.insts.now }
    requires entries { AreEntries (insts_of code.now) entries.now (length code.now.insts.now) }
    ensures { (G : Table) → IsCode G code.now → AreTargets G (insts_of code.now) at result }
{
    let inst = &code.insts[at as usize];
    let Some(one) = id_at(inst, 1) else {
        return targets_by_operand(code, entries, at);
    };
    let Some(two) = id_at(inst, 2) else {
        return targets_by_operand(code, entries, at);
    };
    let first = target_of(code, entries, one);
    let second = target_of(code, entries, two);
    joined(first, second)
}

/// Looks at the label of an OpBranch.
#[inline(always)]
fn jump_targets(code: &Code<'_, '_>, entries: &[bool], at: u32) -> Targets
    requires at { at < length code.now.insts.now }
    requires op { IsOp (insts_of code.now) at is_jump }
    requires count { length entries.now ≡ length code.now.insts.now }
    requires entries { AreEntries (insts_of code.now) entries.now (length code.now.insts.now) }
    ensures { (G : Table) → IsCode G code.now → AreTargets G (insts_of code.now) at result }
{
    let inst = &code.insts[at as usize];
    let Some(id) = id_at(inst, 0) else {
        return targets_by_operand(code, entries, at);
    };
    target_of(code, entries, id)
}

/// Looks at the labels of a branch.
#[inline(always)]
pub fn targets_of(code: &Code<'_, '_>, entries: &[bool], at: u32) -> Targets
    requires at { at < length code.now.insts.now }
    requires op { IsOp (insts_of code.now) at target.is_branch }
    requires count { length entries.now ≡ length code.now.insts.now }
    requires entries { AreEntries (insts_of code.now) entries.now (length code.now.insts.now) }
    ensures { (G : Table) → IsCode G code.now → AreTargets G (insts_of code.now) at result }
{
    let opcode = code.insts[at as usize].opcode;
    if opcode == BRANCH_CONDITIONAL {
        return conditional_targets(code, entries, at);
    }
    if opcode == BRANCH {
        return jump_targets(code, entries, at);
    }
    targets_by_operand(code, entries, at)
}

/// Whether two operands of an instruction are the same label.
#[inline(always)]
pub fn has_same_labels(code: &Code<'_, '_>, at: u32, one: usize, two: usize) -> bool
    requires at { at < length code.now.insts.now }
    requires op { IsOp (insts_of code.now) at is_labelled }
    ensures { (G : Table) → IsCode G code.now
        → MatchBool result (HasSameLabels G (insts_of code.now) at one two)
        (¬ (HasSameLabels G (insts_of code.now) at one two)) }
{
    let inst = &code.insts[at as usize];
    let Some(first) = label(inst, one) else {
        return false;
    };
    let Some(second) = label(inst, two) else {
        return false;
    };
    first == second
}
