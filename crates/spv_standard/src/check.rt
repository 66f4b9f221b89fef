//! The first broken rule of stage O.

ghost use Rattle.std.specs.Prelude.{◌≡◌, ℕ, IfOk, IfErr};
ghost use Rattle.spv_module.specs.Module.{plain_insts};
ghost use Rattle.spv_module.specs.declared.fault.Rule.{Rule};
ghost use Rattle.spv_layout.specs.First.{IsUnbroken};
ghost use Rattle.spv_layout.specs.Place.{IsShort};
ghost use Rattle.spv_layout.specs.Plan.{IsPlan};
ghost use Rattle.spv_layout.specs.Stage.{of_branches, of_values};
ghost use Rattle.spv_ids.specs.Outcome.{AreIds};
ghost use Rattle.spv_flow.specs.branches.Broken as flow;
ghost use Rattle.spv_flow.specs.declared.branches.fork.Fork.{Fork};
ghost use Rattle.spv_limits.specs.Depth.{AreLower};
ghost use Rattle.spv_standard.specs.Broken.{Broken, KernelBroken, IsRefusal};
ghost use Rattle.spv_standard.specs.inner.First.{IsFirstIn};

use crate::alone::first_alone;
use crate::found::{Found, earlier};
use crate::passes::{in_declarations, in_interfaces, in_order};
use spv_capabilities::Capabilities;
use spv_extended::Reach;
use spv_ids::Ids;
use spv_layout::Plan;
use spv_module::{Module, Stop};
use spv_table::Memory;
use spv_type_forms::Definitions;
use spv_versions::Late;
use std::alloc::Global;

/// The first rule of stage O that a kernel of version 1.`minor` breaks: by instruction, and at one instruction by
/// number.
fn first_broken(
    alloc: Global,
    minor: u8,
    capabilities: &Capabilities<'_, '_>,
    definitions: &Definitions<'_, '_>,
    module: &Module<'_>,
    plan: &Plan,
    ids: &Ids,
) -> Result<Option<Found>, Memory>
    requires words { IsShort (plain_insts «module».now) }
    requires capabilities { capabilities.now.insts ≡ plain_insts «module».now }
    requires definitions { definitions.now ≡ plain_insts «module».now }
    requires plan { IsPlan capabilities.now.table (plain_insts «module».now) plan.now }
    requires ids { AreIds capabilities.now.table «module».now.header.bound (plain_insts «module».now) ids.now }
    requires flow { (fork : Fork)
        × IsUnbroken (flow.Broken fork capabilities.now.table (plain_insts «module».now)) of_branches
        × IsUnbroken (flow.Broken fork capabilities.now.table (plain_insts «module».now)) of_values }
    requires structs { AreLower (plain_insts «module».now) }
    ensures { IfOk result (IsFirstIn (KernelBroken capabilities.now.table minor (plain_insts «module».now))) }
{
    let insts = module.insts.as_slice();
    let count = insts.len() as u32;
    let front = plan.before_functions();
    let late = Late::of(capabilities.table(), definitions, minor, front);
    let order = in_order(alloc, module, plan, ids)?;
    let declarations = in_declarations(alloc, capabilities, definitions, plan)?;
    let interfaces = in_interfaces(alloc, definitions, insts, plan, ids, minor)?;
    let alone = first_alone(alloc, capabilities, definitions, &late, count)?;
    let found = earlier(order, declarations);
    let found = earlier(found, interfaces);
    Ok(earlier(found, alone))
}

/// Looks at what the standard asks of a kernel of OpenCL besides (SPIR-V Specification 1.6), if a module is looked at
/// so far. `plan` and `ids` are what `lay_out` and `number` answered of that module, in which no rule of an earlier
/// stage is broken; `capabilities` are its own, and `definitions` those of its ids.
///
/// A `Fault` tells the first rule of stage O that is broken, by instruction and at one instruction by number, with that
/// instruction's first word (words and instructions from 0): O1 and O2 as `check_order` tells them, O3 and O5 to O13 as
/// `first_misdeclared`, O4 as `first_misfaced`, O14 to O20 and O23 as `broken_at`, O21 as `Late`, and O22 as `Counts`.
///
/// `Memory` comes only where a growth of memory was refused.
pub fn standard_check(
    alloc: Global,
    reach: Reach,
    capabilities: &Capabilities<'_, '_>,
    definitions: &Definitions<'_, '_>,
    module: &Module<'_>,
    plan: &Plan,
    ids: &Ids,
) -> Result<(), Stop>
    // What the stages before have found: of them O1 takes that branches lead to blocks, O2 that values are defined on
    // each walk to their uses, and O22 that the structs that are members of a struct stand before it.
    requires words { IsShort (plain_insts «module».now) }
    requires capabilities { capabilities.now.insts ≡ plain_insts «module».now }
    requires definitions { definitions.now ≡ plain_insts «module».now }
    requires plan { IsPlan capabilities.now.table (plain_insts «module».now) plan.now }
    requires ids { AreIds capabilities.now.table «module».now.header.bound (plain_insts «module».now) ids.now }
    requires flow { (fork : Fork)
        × IsUnbroken (flow.Broken fork capabilities.now.table (plain_insts «module».now)) of_branches
        × IsUnbroken (flow.Broken fork capabilities.now.table (plain_insts «module».now)) of_values }
    requires structs { AreLower (plain_insts «module».now) }
    ensures unbroken { IfOk result (λ _. (r : Rule) (n : ℕ)
        → ¬ (Broken capabilities.now.table reach (plain_insts «module».now) r n)) }
    ensures refused { IfErr result (λ s. IsRefusal capabilities.now.table reach (plain_insts «module».now) s) }
{
    match reach {
        Reach::Profile => Ok(()),
        Reach::Extended => Ok(()),
        Reach::OpenCl { minor } => match first_broken(
            alloc,
            minor,
            capabilities,
            definitions,
            module,
            plan,
            ids,
        ) {
            Ok(None) => Ok(()),
            Ok(Some(found)) => Err(plan.stop_at(found.rule, found.inst)),
            Err(_) => Err(Stop::Memory),
        },
    }
}
