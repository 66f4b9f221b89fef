//! The rules O of a module, where it is looked at so far.

ghost use Rattle.std.specs.Prelude.{◌≡◌, ℕ, IfOk, IfErr};
ghost use Rattle.spv_module.specs.Module.{plain_insts};
ghost use Rattle.spv_module.specs.declared.fault.Rule.{Rule};
ghost use Rattle.spv_layout.specs.First.{IsUnbroken};
ghost use Rattle.spv_layout.specs.Place.{IsShort};
ghost use Rattle.spv_layout.specs.Plan.{IsPlan};
ghost use Rattle.spv_layout.specs.Stage.{of_branches, of_values};
ghost use Rattle.spv_ids.specs.Outcome.{AreIds};
ghost use Rattle.spv_flow.specs.branches.Broken as flow;
ghost use Rattle.spv_flow.specs.declared.branches.fork.Fork.{Fork};
ghost use Rattle.spv_limits.specs.Depth.{AreLower};
ghost use Rattle.spv_standard.specs.Broken.{Broken, IsRefusal};

use crate::types::Types;
use spv_extended::Reach;
use spv_ids::Ids;
use spv_layout::Plan;
use spv_module::{Module, Stop};
use spv_standard::standard_check;
use std::alloc::Global;

/// What `standard_check` answers of a module, by what `type_check` found out of it.
pub fn standard_of(
    alloc: Global,
    reach: Reach,
    types: &Types,
    module: &Module<'_>,
    plan: &Plan,
    ids: &Ids,
) -> Result<(), Stop>
    requires words { IsShort (plain_insts «module».now) }
    requires types { types.now.insts ≡ plain_insts «module».now }
    requires plan { IsPlan types.now.table (plain_insts «module».now) plan.now }
    requires ids { AreIds types.now.table «module».now.header.bound (plain_insts «module».now) ids.now }
    requires flow { (fork : Fork)
        × IsUnbroken (flow.Broken fork types.now.table (plain_insts «module».now)) of_branches
        × IsUnbroken (flow.Broken fork types.now.table (plain_insts «module».now)) of_values }
    requires structs { AreLower (plain_insts «module».now) }
    ensures unbroken { IfOk result (λ _. (r : Rule) (n : ℕ)
        → ¬ (Broken types.now.table reach (plain_insts «module».now) r n)) }
    ensures refused { IfErr result (λ s. IsRefusal types.now.table reach (plain_insts «module».now) s) }
{
    let definitions = types.definitions();
    standard_check(
        alloc,
        reach,
        types.capabilities(),
        &definitions,
        module,
        plan,
        ids,
    )
}
