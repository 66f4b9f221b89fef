//! The first of the rules F that a module breaks.

ghost use Rattle.std.specs.Prelude.{◌≡◌, ◌≤◌, ◌<◌, ◌+◌, ℕ, List, Some, false, length, map, slice_get, sum_by, IsTrue};
ghost use Rattle.std.specs.Prelude.{IfOk, IfErr, MatchOption};
ghost use Rattle.spv_table.specs.Table.{Table};
ghost use Rattle.spv_module.specs.declared.opcode.TheConstants as code;
ghost use Rattle.spv_module.specs.Module.{plain_inst, plain_insts};
ghost use Rattle.spv_module.specs.Operand.{PlainInst};
ghost use Rattle.spv_layout.specs.Stage.{of_branches};
ghost use Rattle.spv_layout.specs.First.{IsFirst, IsUnbroken};
ghost use Rattle.spv_layout.specs.Place.{word_count, IsShort};
ghost use Rattle.spv_layout.specs.Plan.{IsPlan};
ghost use Rattle.spv_ids.specs.Outcome.{AreIds};
ghost use Rattle.spv_flow.specs.branches.inner.Code.{insts_of, IsCode};
ghost use Rattle.spv_flow.specs.branches.Broken.{Broken};
ghost use Rattle.spv_flow.specs.branches.inner.Edges.{IsEdges, marked};
ghost use Rattle.spv_flow.specs.branches.inner.Graph.{AreGathered, AreEntries};
ghost use Rattle.spv_flow.specs.branches.Target.{IsOp};
ghost use Rattle.spv_flow.specs.branches.Target as target;
ghost use Rattle.spv_flow.specs.branches.Found.{IsRefusal};

use crate::branches::code::Code;
use crate::branches::edges::Edges;
use crate::branches::fork::Fork;
use crate::branches::gather::{Overview, edges_for, survey};
use crate::branches::rules::broken_at;
use spv_ids::Ids;
use spv_layout::Plan;
use spv_module::opcode::PHI;
use spv_module::{Inst, Module, Rule, Stop};
use std::alloc::{AllocError, Global};

/// A broken rule at an instruction.
#[derive(Clone, Copy)]
pub struct Found {
    pub rule: Rule,
    pub inst: u32,
}

/// A mark for each instruction, none of which is set, where some is an OpPhi: nothing else asks for them. Where none
/// is, it takes no memory.
fn marks_for(alloc: Global, count: usize, has_phis: bool) -> Result<Vec<bool>, AllocError>
    ensures count { IfOk result (λ v. IsTrue has_phis → length v.items ≡ count) }
    ensures clean { IfOk result (λ v. (p : ℕ) → marked v.items p ≡ false) }
{
    let room = if has_phis { count } else { 0 };
    vec![in alloc; false; room]
}

/// The first instruction from one on that the rules F may speak of: an OpPhi, or one of a higher opcode. Where there is
/// none, how many instructions there are.
#[inline(always)]
fn next_asked(insts: &[Inst<'_>], from: usize) -> usize
    requires { from ≤ length insts.now }
    ensures within { result ≤ length insts.now }
    ensures further { from ≤ result }
    ensures passed { (n : ℕ) (i : PlainInst) → from ≤ n → n < result
        → slice_get (map plain_inst insts.now) n ≡ Some i → i.opcode < code.PHI }
{
    let mut at = from;
    while at < insts.len() && insts[at].opcode < PHI {
        at += 1;
    }
    at
}

/// The first of the rules F that is broken. No block is marked before.
fn first_broken(
    code: &Code<'_, '_>,
    fork: Fork,
    survey: &Overview,
    edges: &Edges,
    marks: &mut [bool],
) -> Option<Found>
    requires code { (G : Table) × IsCode G code.now }
    requires places { length survey.now.entries.items ≡ length code.now.insts.now }
    requires entries { AreEntries (insts_of code.now) survey.now.entries.items (length code.now.insts.now) }
    requires phis { (n : ℕ) → n < length code.now.insts.now → IsOp (insts_of code.now) n target.is_phi
        → IsTrue survey.now.has_phis }
    requires edges { IsEdges edges.now }
    requires count { IsTrue survey.now.has_phis → length edges.now.heads.items ≡ length code.now.insts.now }
    requires gathered { IsTrue survey.now.has_phis → (G : Table) → IsCode G code.now
        → AreGathered G (insts_of code.now) edges.now (length code.now.insts.now) }
    requires marks { IsTrue survey.now.has_phis → length marks.old ≡ length code.now.insts.now }
    requires clean { (p : ℕ) → marked marks.old p ≡ false }
    ensures { (G : Table) → IsCode G code.now
        → MatchOption result (IsUnbroken (Broken fork G (insts_of code.now)) of_branches)
        (λ f. IsFirst (Broken fork G (insts_of code.now)) of_branches f.rule f.inst) }
{
    let entries = survey.entries.as_slice();
    let mut at = next_asked(code.insts, 0);
    while at < code.insts.len() {
        if let Some(rule) = broken_at(code, fork, edges, entries, marks, at as u32) {
            return Some(Found {
                rule,
                inst: at as u32,
            });
        }
        at = next_asked(code.insts, at + 1);
    }
    None
}

/// Surveys the instructions, and looks for the first of the rules F that is broken.
fn first_fault(alloc: Global, code: &Code<'_, '_>, fork: Fork) -> Result<Option<Found>, AllocError>
    requires { (G : Table) × IsCode G code.now }
    ensures { IfOk result (λ o. (G : Table) → IsCode G code.now
        → MatchOption o (IsUnbroken (Broken fork G (insts_of code.now)) of_branches)
        (λ f. IsFirst (Broken fork G (insts_of code.now)) of_branches f.rule f.inst)) }
{
    let survey = survey(alloc, code.insts)?;
    let edges = edges_for(alloc, code, survey.has_phis)?;
    let mut marks = marks_for(alloc, code.insts.len(), survey.has_phis)?;
    Ok(first_broken(code, fork, &survey, &edges, &mut marks))
}

/// Looks at the branches of a module: where they lead, and which parents each OpPhi names (SPIR-V Specification 1.6,
/// sections 2.4 and 2.16). `plan` and `ids` are what `lay_out` and `number` answered of that module, and `fork` says
/// whether F4 is asked.
///
/// Time is linear in the words of the module. A block's predecessors are the blocks with a terminator that has the
/// block's label as a target, each counted once.
///
/// A `Fault` tells the first of the rules F that is broken, with its instruction and that instruction's first word
/// (words and instructions from 0). At one instruction that rule is told which comes first in `Rule`, where each says
/// what breaks it.
///
/// `Memory` comes only where a growth of memory was refused.
pub fn check_branches(
    alloc: Global,
    module: &Module<'_>,
    plan: &Plan,
    ids: &Ids,
    fork: Fork,
) -> Result<(), Stop>
    // The condition of `lay_out`, and that the plan and the ids are what was answered, by some table.
    requires words { IsShort (plain_insts «module».now) }
    requires known { (G : Table) × IsPlan G (plain_insts «module».now) plan.now
        × AreIds G «module».now.header.bound (plain_insts «module».now) ids.now }
    ensures unbroken { (G : Table) → IsPlan G (plain_insts «module».now) plan.now
        → AreIds G «module».now.header.bound (plain_insts «module».now) ids.now
        → IfOk result (λ _. IsUnbroken (Broken fork G (plain_insts «module».now)) of_branches) }
    ensures refused { (G : Table) → IsPlan G (plain_insts «module».now) plan.now
        → AreIds G «module».now.header.bound (plain_insts «module».now) ids.now
        → IfErr result (λ s. IsRefusal fork G (plain_insts «module».now) s) }
{
    let insts = module.insts.as_slice();
    let code = Code { insts, plan, ids };
    if let Some(found) = first_fault(alloc, &code, fork)? {
        return Err(plan.stop_at(found.rule, found.inst));
    }
    Ok(())
}
