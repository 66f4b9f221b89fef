//! The first of the two rules that is broken.

ghost use Rattle.std.specs.Prelude.{IfOk, IfErr};
ghost use Rattle.spv_table.specs.Table.{Table};
ghost use Rattle.spv_module.specs.Module.{plain_insts};
ghost use Rattle.spv_layout.specs.Stage.{of_branches, of_values, of_standard};
ghost use Rattle.spv_layout.specs.First.{IsUnbroken};
ghost use Rattle.spv_layout.specs.Place.{IsShort};
ghost use Rattle.spv_layout.specs.Plan.{IsPlan};
ghost use Rattle.spv_ids.specs.Outcome.{AreIds};
ghost use Rattle.spv_flow.specs.declared.branches.fork.Fork.{Fork};
ghost use Rattle.spv_flow.specs.branches.Broken as flow;
ghost use Rattle.spv_block_order.specs.Broken.{Broken, IsRefusal};

use crate::faults::first_fault;
use spv_flow::walks::code::Code;
use spv_ids::Ids;
use spv_layout::Plan;
use spv_module::{Module, Stop};
use std::alloc::Global;

/// Looks at the order of the blocks of each definition, and of the instructions in them (SPIR-V Specification 1.6,
/// section 2.16.1). `plan` and `ids` are what `lay_out` and `number` answered of that module, in which
/// `check_branches` and `check_values` found no fault.
///
/// A `Fault` tells the first rule that is broken, with its instruction and that instruction's first word (words and
/// instructions from 0):
/// - O1, at the OpLabel of a block: some walk ends there, and each walk that does comes by a certain higher block
///   (2.16.1, order of blocks).
/// - O2: an instruction of a block, other than OpPhi, uses a local value that no lower instruction has as its result
///   (2.16.1, SSA).
///
/// Where a walk comes to each block of a function by lower instructions alone, nothing more is looked at there.
///
/// Time is linear in the words of the module, but for logarithms. `Memory` comes only where a growth of memory was
/// refused.
pub fn check_order(alloc: Global, module: &Module<'_>, plan: &Plan, ids: &Ids) -> Result<(), Stop>
    requires words { IsShort (plain_insts «module».now) }
    requires known { (fork : Fork) × (G : Table) × IsPlan G (plain_insts «module».now) plan.now
        × AreIds G «module».now.header.bound (plain_insts «module».now) ids.now
        × IsUnbroken (flow.Broken fork G (plain_insts «module».now)) of_branches
        × IsUnbroken (flow.Broken fork G (plain_insts «module».now)) of_values }
    ensures unbroken { (fork : Fork) (G : Table) → IsPlan G (plain_insts «module».now) plan.now
        → AreIds G «module».now.header.bound (plain_insts «module».now) ids.now
        → IsUnbroken (flow.Broken fork G (plain_insts «module».now)) of_branches
        → IsUnbroken (flow.Broken fork G (plain_insts «module».now)) of_values
        → IfOk result (λ _. IsUnbroken (Broken G (plain_insts «module».now)) of_standard) }
    ensures refused { (fork : Fork) (G : Table) → IsPlan G (plain_insts «module».now) plan.now
        → AreIds G «module».now.header.bound (plain_insts «module».now) ids.now
        → IsUnbroken (flow.Broken fork G (plain_insts «module».now)) of_branches
        → IsUnbroken (flow.Broken fork G (plain_insts «module».now)) of_values
        → IfErr result (λ s. IsRefusal G (plain_insts «module».now) s) }
{
    let insts = module.insts.as_slice();
    let globals = plan.before_functions();
    let code = Code {
        insts,
        plan,
        ids,
        globals,
    };
    match first_fault(alloc, &code)? {
        Some(found) => Err(plan.stop_at(found.rule, found.inst)),
        None => Ok(()),
    }
}
