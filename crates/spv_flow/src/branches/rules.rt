//! Which of the rules F is broken first at an instruction.

ghost use Rattle.std.specs.Prelude.{◌≡◌, ◌<◌, ℕ, false, length, IfNone};
ghost use Rattle.spv_table.specs.Table.{Table};
ghost use Rattle.spv_flow.specs.declared.branches.fork.Fork.{Fork};
ghost use Rattle.spv_flow.specs.branches.inner.Code.{insts_of, IsCode};
ghost use Rattle.spv_flow.specs.branches.inner.Edges.{IsEdges, marked};
ghost use Rattle.spv_flow.specs.branches.inner.Graph.{AreGathered, AreEntries, IsFirstAt};
ghost use Rattle.spv_flow.specs.branches.Target.{IsOp};
ghost use Rattle.spv_flow.specs.branches.Target as target;

use crate::branches::code::{Code, is_branch, is_merge};
use crate::branches::edges::Edges;
use crate::branches::faults::{Targets, has_labels, has_parents, has_same_labels, targets_of};
use crate::branches::fork::Fork;
use spv_module::Rule;
use spv_module::opcode::{BRANCH_CONDITIONAL, PHI};

/// The first rule that is broken at a merge.
fn merge_rule(code: &Code<'_, '_>, at: u32) -> Option<Rule>
    requires at { at < length code.now.insts.now }
    requires op { IsOp (insts_of code.now) at target.is_merge }
    ensures { (fork : Fork) (G : Table) → IsCode G code.now → IsFirstAt fork G (insts_of code.now) at result }
{
    if !has_labels(code, at) {
        return Some(Rule::F1);
    }
    None
}

/// The first rule that is broken at a terminator with labels.
fn branch_rule(code: &Code<'_, '_>, fork: Fork, entries: &[bool], at: u32) -> Option<Rule>
    requires at { at < length code.now.insts.now }
    requires op { IsOp (insts_of code.now) at target.is_branch }
    requires count { length entries.now ≡ length code.now.insts.now }
    requires entries { AreEntries (insts_of code.now) entries.now (length code.now.insts.now) }
    ensures { (G : Table) → IsCode G code.now → IsFirstAt fork G (insts_of code.now) at result }
{
    match targets_of(code, entries, at) {
        Targets::Lacking => return Some(Rule::F1),
        Targets::Entering => return Some(Rule::F2),
        Targets::Sound => {}
    }
    match fork {
        Fork::Distinct => {}
        Fork::Free => return None,
    }
    if code.has_opcode(at, BRANCH_CONDITIONAL) {
        if has_same_labels(code, at, 1, 2) {
            return Some(Rule::F4);
        }
    }
    None
}

/// The first rule that is broken at an instruction. No block is marked before, and where none is broken, none after.
#[inline(always)]
pub fn broken_at(
    code: &Code<'_, '_>,
    fork: Fork,
    edges: &Edges,
    entries: &[bool],
    marks: &mut [bool],
    at: u32,
) -> Option<Rule>
    requires code { (G : Table) × IsCode G code.now }
    requires edges { IsEdges edges.now }
    requires count { IsOp (insts_of code.now) at target.is_phi
        → length edges.now.heads.items ≡ length code.now.insts.now }
    requires gathered { (G : Table) → IsCode G code.now → IsOp (insts_of code.now) at target.is_phi
        → AreGathered G (insts_of code.now) edges.now (length code.now.insts.now) }
    requires places { length entries.now ≡ length code.now.insts.now }
    requires entries { AreEntries (insts_of code.now) entries.now (length code.now.insts.now) }
    requires marks { IsOp (insts_of code.now) at target.is_phi → length marks.old ≡ length code.now.insts.now }
    requires clean { (p : ℕ) → marked marks.old p ≡ false }
    requires at { at < length code.now.insts.now }
    ensures clean { IfNone result ((p : ℕ) → marked marks.new p ≡ false) }
    ensures rule { (G : Table) → IsCode G code.now → IsFirstAt fork G (insts_of code.now) at result }
{
    let opcode = code.insts[at as usize].opcode;
    if opcode < PHI {
        return None;
    }
    if opcode == PHI {
        if has_parents(code, edges, marks, at) {
            return None;
        }
        return Some(Rule::F3);
    }
    if is_merge(opcode) {
        return merge_rule(code, at);
    }
    if is_branch(opcode) {
        return branch_rule(code, fork, entries, at);
    }
    None
}
