//! The first of the rules F, A and G that a module breaks.

ghost use Rattle.std.specs.Prelude.{◌≡◌, IfOk, IfErr};
ghost use Rattle.spv_table.specs.Table.{Table};
ghost use Rattle.spv_module.specs.Module.{plain_insts};
ghost use Rattle.spv_layout.specs.Place.{IsShort};
ghost use Rattle.spv_layout.specs.Plan.{IsPlan};
ghost use Rattle.spv_ids.specs.Outcome.{AreIds};
ghost use Rattle.spv_check.specs.flow.Outcome.{IsFlow, IsRefusal, definitions_in};

mod counting;
pub mod laws;

use crate::flow::counting::count_definitions;
use crate::types::Types;
use spv_flow::branches::{Fork, check_branches};
use spv_flow::calls::first_cycle;
use spv_flow::walks::check_values;
use spv_ids::Ids;
use spv_layout::Plan;
use spv_module::{Module, Rule, Stop};
use std::alloc::Global;

/// What is known of a module that breaks no rule of flow.
#[derive(Drop)]
pub struct Flow {
    /// How many function definitions there are.
    definitions: u32,
}

impl Flow {
    /// How many function definitions the module has: OpFunctions with an OpLabel before their OpFunctionEnd. It takes
    /// no memory.
    #[inline(always)]
    pub fn definitions(&self) -> u32
        ensures { result ≡ definitions_in self.now }
    {
        self.definitions
    }
}

/// Looks at the flow of a module: its branches, then its values, then its calls. `plan`, `ids` and `types` are what
/// `lay_out`, `number` and `type_check` answered of that module; of the types nothing is asked. `fork` says whether
/// F4 is asked.
///
/// A `Fault` tells the first rule that is broken, with its instruction and that instruction's first word (words and
/// instructions from 0). Each of these comes only where none of those before is broken anywhere:
/// - The rules F: where branches lead, and which parents each OpPhi names (SPIR-V Specification 1.6, sections 2.4 and
///   2.16). See
///   `check_branches`.
/// - A1: an instruction, no OpPhi, uses a local value that is not defined on some walk to it; A2: an OpPhi's pair has
///   one that
///   is not defined at the end of its parent, on some walk that came from there (2.16).
/// - G1: an OpFunctionCall on a cycle of calls that an entry point leads to (own). See `first_cycle`.
///
/// `Memory` comes only where a growth of memory was refused.
pub fn flow_check(
    alloc: Global,
    module: &Module<'_>,
    plan: &Plan,
    ids: &Ids,
    _types: &Types,
    fork: Fork,
) -> Result<Flow, Stop>
    // The condition of `lay_out`, and that the plan and the ids are what was answered, by some table.
    requires words { IsShort (plain_insts «module».now) }
    requires known { (G : Table) × IsPlan G (plain_insts «module».now) plan.now
        × AreIds G «module».now.header.bound (plain_insts «module».now) ids.now }
    ensures flow { (G : Table) → IsPlan G (plain_insts «module».now) plan.now
        → AreIds G «module».now.header.bound (plain_insts «module».now) ids.now
        → IfOk result (λ flow. IsFlow fork G (plain_insts «module».now) flow) }
    ensures refused { (G : Table) → IsPlan G (plain_insts «module».now) plan.now
        → AreIds G «module».now.header.bound (plain_insts «module».now) ids.now
        → IfErr result (λ s. IsRefusal fork G (plain_insts «module».now) s) }
{
    check_branches(alloc, module, plan, ids, fork)?;
    check_values(alloc, module, plan, ids)?;
    if let Some(call) = first_cycle(alloc, module, plan, ids)? {
        return Err(plan.stop_at(Rule::G1, call));
    }
    Ok(Flow {
        definitions: count_definitions(module, plan),
    })
}
