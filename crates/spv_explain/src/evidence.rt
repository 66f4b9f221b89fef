//! What shows a module's fault, by the stage that found it.
ghost use Rattle.std.specs.Prelude.{ℕ, IfOk};
ghost use Rattle.spv_table.specs.Table.{Table};
ghost use Rattle.spv_module.specs.Module.{plain_insts};
ghost use Rattle.spv_module.specs.declared.fault.Rule.TheVariants.{Y10};
ghost use Rattle.spv_module.specs.declared.fault.Stop.TheVariants as stops;
ghost use Rattle.spv_extended.specs.declared.reach.Reach.{Reach};
ghost use Rattle.spv_flow.specs.declared.branches.fork.Fork.{Fork};
ghost use Rattle.spv_layout.specs.Place.{IsShort};
ghost use Rattle.spv_layout.specs.Plan.{IsPlan};
ghost use Rattle.spv_ids.specs.Outcome.{AreIds, IsDefinitionOf, definition_in};
ghost use Rattle.spv_std_types.specs.Mistyped.{IsMistyped};
ghost use Rattle.spv_check.specs.Broken.{IsTold};
ghost use Rattle.spv_check.specs.Fork.{fork_of};
ghost use Rattle.spv_check.specs.Judged.{IsRefusedAt};
ghost use Rattle.spv_check.specs.flow.Outcome as flow_outcome;
ghost use Rattle.spv_check.specs.types.Outcome as type_outcome;
ghost use Rattle.spv_explain.specs.Mistyped.{IsEvidence};
ghost use Rattle.spv_explain.specs.inner.Shown.{IsShownAt};

use crate::kinds::{is_of_calls, is_of_capabilities, is_of_operations, is_of_roles, is_of_values};
use crate::standard::standard_evidence;
use spv_check::Reached;
use spv_evidence::Evidence;
use spv_extended::{Reach, profile_of};
use spv_flow_evidence::{branch_evidence, call_evidence, walk_evidence};
use spv_form_evidence::{
    capability_evidence, extended_evidence, id_evidence, layout_evidence, role_evidence,
};
use spv_ids::Ids;
use spv_layout::Plan;
use spv_module::{Fault, Module};
use spv_operation_evidence::operation_evidence;
use spv_std_types::{mistyping_at, operand_of};
use spv_table::{Memory, Table};
use spv_type_evidence::type_evidence;
use spv_type_forms::Definitions;
use std::alloc::Global;

/// What shows that a rule on roles, capabilities, entry points or types is broken at an instruction.
fn typing_evidence(
    alloc: Global,
    table: &Table,
    module: &Module<'_>,
    plan: &Plan,
    ids: &Ids,
    fault: Fault,
) -> Result<Evidence, Memory>
    requires words { IsShort (plain_insts «module».now) }
    requires plan { IsPlan table.now (plain_insts «module».now) plan.now }
    requires ids { AreIds table.now «module».now.header.bound (plain_insts «module».now) ids.now }
    requires refused { type_outcome.IsRefusal table.now (plain_insts «module».now) (stops.Fault fault) }
    ensures { (reach : Reach)
        → IfOk result (λ e. IsShownAt table.now reach «module».now.header.bound (plain_insts «module».now) fault e) }
{
    if is_of_roles(fault.rule) {
        return Ok(role_evidence(module, plan, ids, fault.inst));
    }
    if is_of_capabilities(fault.rule) {
        return capability_evidence(alloc, table, module, plan, ids, fault.rule, fault.inst);
    }
    if is_of_operations(fault.rule) {
        return Ok(operation_evidence(alloc, module, plan, ids, fault.inst)?);
    }
    Ok(type_evidence(alloc, module, plan, ids, fault.rule, fault.inst)?)
}

/// What shows that a rule on flow is broken at an instruction.
fn flow_evidence(
    alloc: Global,
    module: &Module<'_>,
    plan: &Plan,
    ids: &Ids,
    fault: Fault,
) -> Result<Evidence, Memory>
    requires words { IsShort (plain_insts «module».now) }
    requires known { (fork : Fork) × (G : Table) × IsPlan G (plain_insts «module».now) plan.now
        × AreIds G «module».now.header.bound (plain_insts «module».now) ids.now
        × flow_outcome.IsFirstOfFlow fork G (plain_insts «module».now) fault.rule fault.inst }
    ensures { (G : Table) (reach : Reach) → IsPlan G (plain_insts «module».now) plan.now
        → AreIds G «module».now.header.bound (plain_insts «module».now) ids.now
        → flow_outcome.IsFirstOfFlow (fork_of reach) G (plain_insts «module».now) fault.rule fault.inst
        → IfOk result (λ e. IsShownAt G reach «module».now.header.bound (plain_insts «module».now) fault e) }
{
    if is_of_values(fault.rule) {
        return Ok(walk_evidence(alloc, module, plan, ids, fault.rule, fault.inst)?);
    }
    if is_of_calls(fault.rule) {
        return Ok(call_evidence(alloc, module, plan, ids, fault.inst)?);
    }
    Ok(branch_evidence(alloc, module, plan, ids, fault.rule, fault.inst)?)
}

/// What shows that Y10 is broken at the instruction of a number, from 0: the operand that fails.
fn std_evidence(module: &Module<'_>, plan: &Plan, ids: &Ids, inst: u32) -> Evidence
    requires plan { (G : Table) × IsPlan G (plain_insts «module».now) plan.now }
    requires ids { (x : ℕ) → IsDefinitionOf (plain_insts «module».now) x (definition_in ids.now x) }
    requires broken { IsMistyped (plain_insts «module».now) inst }
    ensures { IsEvidence (plain_insts «module».now) Y10 inst result }
{
    let definitions = Definitions::new(module.insts.as_slice(), plan, ids);
    let Some(condition) = mistyping_at(&definitions, inst) else {
        unreachable!();
    };
    Evidence::Operand {
        operand: operand_of(condition),
    }
}

/// What shows that a fault's rule is broken at its instruction, of a module that is looked at as far as `reach` says.
/// `reached` is how far `judge` came with the module, and the instruction at which the fault is told is looked at
/// again, by the stage that found it.
///
/// `Memory` comes only where a growth of memory was refused.
pub fn evidence_of(
    alloc: Global,
    table: &Table,
    reach: Reach,
    module: &Module<'_>,
    reached: &Reached,
    fault: Fault,
) -> Result<Evidence, Memory>
    requires words { IsShort (plain_insts «module».now) }
    requires refused { IsRefusedAt table.now reach «module».now.header.bound (plain_insts «module».now) reached.now
        (stops.Fault fault) }
    requires told { IsTold table.now reach «module».now.header.bound (plain_insts «module».now) (stops.Fault fault) }
    ensures { IfOk result
        (λ e. IsShownAt table.now reach «module».now.header.bound (plain_insts «module».now) fault e) }
{
    match reached {
        Reached::Decoded => Ok(layout_evidence(
            alloc,
            profile_of(reach),
            module,
            fault.rule,
            fault.inst,
        )?),
        Reached::Placed(plan) => Ok(id_evidence(alloc, module, plan, fault.rule, fault.inst)?),
        Reached::Numbered(plan, ids) => typing_evidence(alloc, table, module, plan, ids, fault),
        Reached::Typed(plan, ids) => flow_evidence(alloc, module, plan, ids, fault),
        Reached::Sound => Ok(extended_evidence(alloc, module, fault.inst)?),
        Reached::Called(plan, ids) => Ok(std_evidence(module, plan, ids, fault.inst)),
        Reached::Settled(plan, ids) => Ok(standard_evidence(
            alloc, table, reach, module, plan, ids, fault,
        )?),
    }
}
