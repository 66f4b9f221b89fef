//! What each crate answers of its rules of stage O, in one form.

ghost use Rattle.std.specs.Prelude.{◌≡◌, ℕ, IfOk, length, map};
ghost use Rattle.spv_table.specs.Table.{Table};
ghost use Rattle.spv_module.specs.Module.{plain_inst, plain_insts};
ghost use Rattle.spv_layout.specs.First.{IsUnbroken};
ghost use Rattle.spv_layout.specs.Place.{AreFew, IsShort};
ghost use Rattle.spv_layout.specs.Plan.{IsPlan};
ghost use Rattle.spv_layout.specs.Stage.{of_branches, of_values};
ghost use Rattle.spv_ids.specs.Outcome.{AreIds, IsDefinitionOf, definition_in};
ghost use Rattle.spv_flow.specs.branches.Broken as flow;
ghost use Rattle.spv_flow.specs.declared.branches.fork.Fork.{Fork};
ghost use Rattle.spv_block_order.specs.Broken as order;
ghost use Rattle.spv_interfaces.specs.Broken as interfaces;
ghost use Rattle.spv_declarations.specs.Broken as declarations;
ghost use Rattle.spv_standard.specs.inner.First.{IsFirstIn};

use crate::found::{Found, found_by};
use spv_block_order::check_order;
use spv_capabilities::Capabilities;
use spv_declarations::first_misdeclared;
use spv_ids::Ids;
use spv_interfaces::first_misfaced;
use spv_layout::Plan;
use spv_module::{Inst, Module, Rule, Stop};
use spv_table::Memory;
use spv_type_forms::Definitions;
use std::alloc::Global;

/// The first of O1 and O2 that is broken.
pub fn in_order(
    alloc: Global,
    module: &Module<'_>,
    plan: &Plan,
    ids: &Ids,
) -> Result<Option<Found>, Memory>
    requires words { IsShort (plain_insts «module».now) }
    requires known { (fork : Fork) × (G : Table) × IsPlan G (plain_insts «module».now) plan.now
        × AreIds G «module».now.header.bound (plain_insts «module».now) ids.now
        × IsUnbroken (flow.Broken fork G (plain_insts «module».now)) of_branches
        × IsUnbroken (flow.Broken fork G (plain_insts «module».now)) of_values }
    ensures { (fork : Fork) (G : Table) → IsPlan G (plain_insts «module».now) plan.now
        → AreIds G «module».now.header.bound (plain_insts «module».now) ids.now
        → IsUnbroken (flow.Broken fork G (plain_insts «module».now)) of_branches
        → IsUnbroken (flow.Broken fork G (plain_insts «module».now)) of_values
        → IfOk result (IsFirstIn (order.Broken G (plain_insts «module».now))) }
{
    match check_order(alloc, module, plan, ids) {
        Ok(()) => Ok(None),
        Err(Stop::Fault(fault)) => Ok(Some(Found {
            rule: fault.rule,
            inst: fault.inst,
        })),
        Err(Stop::Memory) => Err(Memory),
    }
}

/// The first of O3 and O5 to O13 that is broken.
pub fn in_declarations(
    alloc: Global,
    capabilities: &Capabilities<'_, '_>,
    definitions: &Definitions<'_, '_>,
    plan: &Plan,
) -> Result<Option<Found>, Memory>
    requires few { AreFew definitions.now }
    requires plan { IsPlan capabilities.now.table definitions.now plan.now }
    requires capabilities { capabilities.now.insts ≡ definitions.now }
    ensures { IfOk result (IsFirstIn (declarations.Broken capabilities.now.table capabilities.now.insts)) }
{
    match first_misdeclared(alloc, capabilities, definitions, plan)? {
        Some(found) => Ok(Some(Found {
            rule: found.rule,
            inst: found.inst,
        })),
        None => Ok(None),
    }
}

/// Where O4 is first broken in a module of version 1.`minor`.
pub fn in_interfaces(
    alloc: Global,
    definitions: &Definitions,
    insts: &[Inst<'_>],
    plan: &Plan,
    ids: &Ids,
    minor: u8,
) -> Result<Option<Found>, Memory>
    requires few { AreFew insts.now }
    requires same { definitions.now ≡ map plain_inst insts.now }
    requires plan { (G : Table) × IsPlan G (map plain_inst insts.now) plan.now }
    requires ids { (x : ℕ) → IsDefinitionOf (map plain_inst insts.now) x (definition_in ids.now x) }
    ensures { (G : Table) → IsPlan G (map plain_inst insts.now) plan.now
        → IfOk result (IsFirstIn (interfaces.Broken G minor definitions.now)) }
{
    Ok(found_by(
        Rule::O4,
        first_misfaced(alloc, definitions, insts, plan, ids, minor)?,
    ))
}
