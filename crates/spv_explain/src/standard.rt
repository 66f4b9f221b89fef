//! What shows that a rule O is broken, by the part that it is of.
ghost use Rattle.std.specs.Prelude.{IfOk};
ghost use Rattle.spv_module.specs.Module.{plain_insts};
ghost use Rattle.spv_flow.specs.branches.Broken as flow;
ghost use Rattle.spv_layout.specs.First.{IsUnbroken};
ghost use Rattle.spv_layout.specs.Place.{IsShort};
ghost use Rattle.spv_layout.specs.Plan.{IsPlan};
ghost use Rattle.spv_layout.specs.Stage.{of_branches};
ghost use Rattle.spv_ids.specs.Outcome.{AreIds};
ghost use Rattle.spv_check.specs.Fork.{fork_of};
ghost use Rattle.spv_standard.specs.Broken as standard;
ghost use Rattle.spv_standard_evidence.specs.Evidence as found;
ghost use Rattle.spv_flow.specs.declared.branches.fork.Fork.{Fork};
ghost use Rattle.spv_explain.specs.Standard.{IsEvidence};

use crate::kinds::{Part, part_of};
use spv_evidence::Evidence;
use spv_extended::Reach;
use spv_ids::Ids;
use spv_layout::Plan;
use spv_module::{Fault, Module};
use spv_standard_evidence::{
    declaration_evidence, decoration_evidence, interface_evidence, limit_evidence,
    operand_evidence, order_evidence, placement_evidence, version_evidence,
};
use spv_table::Table;
use spv_type_forms::Definitions;
use std::alloc::{AllocError, Global};

/// What shows that a rule O is broken at an instruction of a kernel of version 1.`minor`.
fn kernel_evidence(
    alloc: Global,
    table: &Table,
    minor: u8,
    module: &Module<'_>,
    plan: &Plan,
    ids: &Ids,
    fault: Fault,
) -> Result<Evidence, AllocError>
    requires words { IsShort (plain_insts «module».now) }
    requires plan { IsPlan table.now (plain_insts «module».now) plan.now }
    requires ids { AreIds table.now «module».now.header.bound (plain_insts «module».now) ids.now }
    requires branches { (fork : Fork)
        × IsUnbroken (flow.Broken fork table.now (plain_insts «module».now)) of_branches }
    requires broken { standard.KernelBroken table.now minor (plain_insts «module».now) fault.rule fault.inst }
    ensures { IfOk result
        (λ e. found.IsEvidence table.now minor (plain_insts «module».now) fault.rule fault.inst e) }
{
    let insts = module.insts.as_slice();
    let total = insts.len() as u32;
    let definitions = Definitions::new(insts, plan, ids);
    match part_of(fault.rule) {
        Part::Order => order_evidence(alloc, module, plan, ids, fault.rule, fault.inst),
        Part::Interfaces => interface_evidence(
            alloc,
            &definitions,
            insts,
            plan,
            ids,
            minor,
            fault.inst,
        ),
        Part::Declarations => Ok(declaration_evidence(&definitions, fault.rule, fault.inst)),
        Part::Placements => placement_evidence(alloc, &definitions, total, fault.inst),
        Part::Decorations => decoration_evidence(
            alloc,
            table,
            &definitions,
            total,
            fault.rule,
            fault.inst,
        ),
        Part::Operands => operand_evidence(alloc, &definitions, fault.rule, fault.inst),
        Part::Version => Ok(version_evidence(table, &definitions, minor, total, fault.inst)),
        Part::Limits => Ok(limit_evidence(&definitions, fault.inst)),
    }
}

/// What shows that a rule O is broken at an instruction. `plan` and `ids` are what `lay_out` and `number` answered of
/// the module, in which no rule of branches is broken.
pub fn standard_evidence(
    alloc: Global,
    table: &Table,
    reach: Reach,
    module: &Module<'_>,
    plan: &Plan,
    ids: &Ids,
    fault: Fault,
) -> Result<Evidence, AllocError>
    requires words { IsShort (plain_insts «module».now) }
    requires plan { IsPlan table.now (plain_insts «module».now) plan.now }
    requires ids { AreIds table.now «module».now.header.bound (plain_insts «module».now) ids.now }
    requires branches { IsUnbroken (flow.Broken (fork_of reach) table.now (plain_insts «module».now)) of_branches }
    requires broken { standard.Broken table.now reach (plain_insts «module».now) fault.rule fault.inst }
    ensures { IfOk result
        (λ e. IsEvidence table.now reach (plain_insts «module».now) fault.rule fault.inst e) }
{
    match reach {
        Reach::OpenCl { minor } => kernel_evidence(alloc, table, minor, module, plan, ids, fault),
        _ => unreachable!(),
    }
}
