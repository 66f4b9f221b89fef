//! Y9 of a module, where it is looked at so far, and of a kernel of OpenCL what breaks Y10 too.

ghost use Rattle.std.specs.Prelude.{◌≡◌, ℕ, None, IfOk, IfErr, true};
ghost use Rattle.spv_table.specs.Table.{Table};
ghost use Rattle.spv_module.specs.Module.{plain_insts};
ghost use Rattle.spv_module.specs.declared.fault.Rule.{Rule};
ghost use Rattle.spv_extended.specs.Broken.{Broken};
ghost use Rattle.spv_extended.specs.Miscalled.{IsFirstMiscalled};
ghost use Rattle.spv_extended.specs.Reach as reaches;
ghost use Rattle.spv_extended.specs.declared.reach.Reach as declared;
ghost use Rattle.spv_layout.specs.Place.{IsShort};
ghost use Rattle.spv_layout.specs.Plan.{IsPlan};
ghost use Rattle.spv_std_types.specs.Broken as std_types;
ghost use Rattle.spv_std_types.specs.Mistyped.{IsFirstMistyped};
ghost use Rattle.spv_check.specs.extended.Outcome.{IsRefusal};

use crate::types::Types;
use spv_extended::{Reach, first_miscalled, opens};
use spv_layout::Plan;
use spv_module::{Module, Rule, Stop};
use spv_std_types::{asks_types, first_miscalls};
use std::alloc::Global;

/// Looks at the calls of OpenCL.std of a module for Y9 and Y10 at once: a `Fault` tells Y9, and where that is not broken
/// the answer is the number, from 0, of the first instruction that breaks Y10, if one does. It takes no memory.
fn calls_check(module: &Module<'_>, plan: &Plan, types: &Types) -> Result<Option<u32>, Stop>
    requires words { IsShort (plain_insts «module».now) }
    requires plan { (G : Table) × IsPlan G (plain_insts «module».now) plan.now }
    requires types { types.now.insts ≡ plain_insts «module».now }
    ensures none { IfOk result (λ _. IsFirstMiscalled (plain_insts «module».now) None) }
    ensures refused { IfErr result (λ s. (r : declared.Reach) → reaches.opens r ≡ true
        → IsRefusal r (plain_insts «module».now) s) }
    ensures mistyped { IfOk result (IsFirstMistyped (plain_insts «module».now)) }
{
    let insts = module.insts.as_slice();
    let definitions = types.definitions();
    let calls = first_miscalls(&definitions, insts.len() as u32);
    match calls.miscalled {
        None => Ok(calls.mistyped),
        Some(inst) => Err(plan.stop_at(Rule::Y9, inst)),
    }
}

/// Looks at the calls of extended instructions of a module, if it is looked at so far. `plan` and `types` are what
/// `lay_out` and `type_check` answered of that module. It answers the number, from 0, of the first instruction that
/// breaks Y10, if one does, where that is asked of such a module: the types of a call are looked at beside the call.
///
/// A `Fault` tells Y9 (own) at the first instruction that breaks it, with that one's first word (words and instructions
/// from 0): an OpExtInst of OpenCL.std whose number is none of the set's, or that has fewer or more operands behind it
/// than the set's instruction takes. `Memory` comes only where a growth of memory was refused.
pub fn extended_check(
    alloc: Global,
    reach: Reach,
    module: &Module<'_>,
    plan: &Plan,
    types: &Types,
) -> Result<Option<u32>, Stop>
    requires words { IsShort (plain_insts «module».now) }
    // The plan is what was answered, by some table.
    requires plan { (G : Table) × IsPlan G (plain_insts «module».now) plan.now }
    requires types { types.now.insts ≡ plain_insts «module».now }
    ensures unbroken { IfOk result (λ _. (r : Rule) (n : ℕ) → ¬ (Broken reach (plain_insts «module».now) r n)) }
    ensures refused { IfErr result (λ s. IsRefusal reach (plain_insts «module».now) s) }
    ensures mistyped { IfOk result (λ m. std_types.asks_types reach ≡ true
        → IsFirstMistyped (plain_insts «module».now) m) }
{
    if asks_types(reach) {
        return calls_check(module, plan, types);
    }
    if !opens(reach) {
        return Ok(None);
    }
    match first_miscalled(alloc, module) {
        Ok(None) => Ok(None),
        Ok(Some(inst)) => Err(plan.stop_at(Rule::Y9, inst)),
        Err(_) => Err(Stop::Memory),
    }
}
