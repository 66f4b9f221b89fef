//! The evidence of a call on a cycle.

pub mod laws;

ghost use Rattle.std.specs.Prelude.{◌≡◌, ◌<◌, ℕ, List, length, map};
ghost use Rattle.std.specs.Prelude.{MatchOption, IfOk};
ghost use Rattle.spv_table.specs.Table.{Table};
ghost use Rattle.spv_module.specs.Module.{plain_insts};
ghost use Rattle.spv_module.specs.declared.fault.Rule.TheVariants.{G1};
ghost use Rattle.spv_layout.specs.Place.{IsShort, AreFew};
ghost use Rattle.spv_layout.specs.Plan.{IsPlan};
ghost use Rattle.spv_ids.specs.Outcome.{IsDefinitionOf, definition_in};
ghost use Rattle.spv_flow.specs.calls.Broken.{Broken};
ghost use Rattle.spv_graphs.specs.Way.{IsWay, IsShortest, AreWithin, AreBelow};
ghost use Rattle.spv_flow_evidence.specs.calls.Evidence.{IsEvidence};
ghost use Rattle.spv_flow_evidence.specs.calls.inner.Edges.{edge_of, IsListed, IsNotListed};

use spv_evidence::{Evidence, Listed};
use spv_flow::calls::{Call, calls_of, entries_of};
use spv_graphs::{Edge, shortest_way};
use spv_ids::Ids;
use spv_layout::Plan;
use spv_module::Module;
use std::alloc::{AllocError, Global};

/// The edges between functions that calls are.
///
/// An `AllocError` comes only where a growth of memory was refused.
pub fn edges_of(alloc: Global, calls: &[Call]) -> Result<Vec<Edge>, AllocError>
    ensures { IfOk result (λ edges. edges.items ≡ map edge_of calls.now) }
{
    calls
        .iter()
        .map(|call| Edge {
            from: call.caller,
            to: call.callee,
        })
        .collect(alloc)
}

/// The call that an instruction is.
fn find_call(calls: &[Call], inst: u32) -> Option<Call>
    ensures { MatchOption result (IsNotListed calls.now inst) (IsListed calls.now inst) }
{
    for call in calls {
        if call.inst == inst {
            return Some(*call);
        }
    }
    None
}

/// The nodes of a shortest way, where there is one.
fn way_to(
    alloc: Global,
    edges: &[Edge],
    starts: &[u32],
    closed: &[bool],
    goal: u32,
) -> Result<Listed<u32>, AllocError>
    requires within { AreWithin (length closed.now) edges.now }
    requires starts { AreBelow (length closed.now) starts.now }
    requires goal { goal < length closed.now }
    requires few { AreFew closed.now }
    requires reached { (past : List ℕ) × IsWay edges.now starts.now closed.now past goal }
    ensures { IfOk result (IsShortest edges.now starts.now closed.now goal) }
{
    match shortest_way(alloc, edges, starts, closed, goal)? {
        Some(nodes) => Ok(Listed::from_vec(nodes)),
        None => unreachable!(),
    }
}

/// The evidence that an OpFunctionCall breaks G1: functions of which each calls the next, from that of an entry point
/// to the caller, and from the callee to the caller, as few as any. `plan` and `ids` are what `lay_out` and `number`
/// answered of the module.
///
/// Time and memory are linear in the words of the module.
///
/// An `AllocError` comes only where a growth of memory was refused.
pub fn call_evidence(
    alloc: Global,
    module: &Module<'_>,
    plan: &Plan,
    ids: &Ids,
    inst: u32,
) -> Result<Evidence, AllocError>
    // The condition of `lay_out`, and that the plan and the ids are what was answered, by some table.
    requires words { IsShort (plain_insts «module».now) }
    requires plan { (G : Table) × IsPlan G (plain_insts «module».now) plan.now }
    requires ids { (x : ℕ) → IsDefinitionOf (plain_insts «module».now) x (definition_in ids.now x) }
    requires broken { Broken (plain_insts «module».now) G1 inst }
    ensures { IfOk result (IsEvidence (plain_insts «module».now) G1 inst) }
{
    let insts = module.insts.as_slice();
    let calls = calls_of(alloc, insts, plan, ids)?;
    let entries = entries_of(alloc, insts, ids)?;
    let edges = edges_of(alloc, &calls)?;
    let closed = vec![in alloc; false; insts.len()]?;
    let Some(call) = find_call(&calls, inst) else {
        unreachable!();
    };
    let to_caller = way_to(alloc, &edges, &entries, &closed, call.caller)?;
    let back = way_to(alloc, &edges, &[call.callee], &closed, call.caller)?;
    Ok(Evidence::Cycle {
        calls: to_caller,
        cycle: back,
    })
}
