//! The first call on a cycle.

ghost use Rattle.std.specs.Prelude.{◌+◌, ◌≤◌, ℕ, sum_by, IfOk, IfSome, IfNone};
ghost use Rattle.spv_table.specs.Table.{Table};
ghost use Rattle.spv_module.specs.Module.{plain_insts};
ghost use Rattle.spv_module.specs.declared.fault.Rule.TheVariants.{G1};
ghost use Rattle.spv_layout.specs.Stage.{of_calls};
ghost use Rattle.spv_layout.specs.First.{IsFirst, IsUnbroken};
ghost use Rattle.spv_layout.specs.Place.{word_count, IsShort};
ghost use Rattle.spv_layout.specs.Plan.{IsPlan};
ghost use Rattle.spv_ids.specs.Outcome.{IsDefinitionOf, definition_in};
ghost use Rattle.spv_flow.specs.calls.Broken.{Broken};

use crate::calls::cyclic::first_cyclic;
use crate::calls::gather::{calls_of, entries_of};
use crate::calls::ordered::are_ordered;
use spv_ids::Ids;
use spv_layout::Plan;
use spv_module::Module;
use std::alloc::{AllocError, Global};

/// The first OpFunctionCall that breaks G1 (own): a call in a definition f of a definition g, where a chain of calls
/// leads from the function of an OpEntryPoint to f, and one leads from g back to f. Its number among the instructions,
/// from 0; None where no call breaks the rule. `plan` and `ids` are what `lay_out` and `number` answered of the module.
///
/// Calls in blocks that no branch leads to count. A call into a cycle from outside, and a cycle that no entry point
/// leads to, break nothing.
///
/// Time is linear in the words of the module, however many cycles there are. It takes no memory where the module has no
/// call.
///
/// An `AllocError` comes only where a growth of memory was refused.
pub fn first_cycle(
    alloc: Global,
    module: &Module<'_>,
    plan: &Plan,
    ids: &Ids,
) -> Result<Option<u32>, AllocError>
    // The condition of `lay_out`, and that the plan and the ids are what was answered, by some table.
    requires words { IsShort (plain_insts «module».now) }
    requires plan { (G : Table) × IsPlan G (plain_insts «module».now) plan.now }
    requires ids { (x : ℕ) → IsDefinitionOf (plain_insts «module».now) x (definition_in ids.now x) }
    ensures none { IfOk result (λ first. IfNone first (IsUnbroken (Broken (plain_insts «module».now)) of_calls)) }
    ensures first { IfOk result (λ first. IfSome first (λ n.
        IsFirst (Broken (plain_insts «module».now)) of_calls G1 n)) }
{
    let insts = module.insts.as_slice();
    let calls = calls_of(alloc, insts, plan, ids)?;
    if are_ordered(&calls) {
        return Ok(None);
    }
    let entries = entries_of(alloc, insts, ids)?;
    match first_cyclic(alloc, insts.len(), &calls, &entries)? {
        Some(first) => Ok(Some(calls[first].inst)),
        None => Ok(None),
    }
}
