//! Y10 of a module, where it is looked at so far.

ghost use Rattle.std.specs.Prelude.{◌≡◌, ℕ, IfOk, IfErr, true};
ghost use Rattle.spv_table.specs.Table.{Table};
ghost use Rattle.spv_module.specs.Module.{plain_insts};
ghost use Rattle.spv_module.specs.declared.fault.Rule.{Rule};
ghost use Rattle.spv_layout.specs.Plan.{IsPlan};
ghost use Rattle.spv_std_types.specs.Broken as spec;
ghost use Rattle.spv_std_types.specs.Broken.{Broken};
ghost use Rattle.spv_std_types.specs.Mistyped.{IsFirstMistyped};
ghost use Rattle.spv_check.specs.std_types.Outcome.{IsRefusal};

use spv_extended::Reach;
use spv_layout::Plan;
use spv_module::{Module, Rule, Stop};
use spv_std_types::asks_types;

/// Whether the calls of OpenCL.std of a module have their types, if it is looked at so far. `plan` is what `lay_out`
/// answered of that module, and `mistyped` the number that `extended_check` answered.
///
/// A `Fault` tells Y10 (own) at the first instruction that breaks it, with that one's first word (words and
/// instructions from 0): an OpExtInst of OpenCL.std whose result type, the type of an operand or a number among the
/// operands is not what the set's instruction asks. It takes no memory.
pub fn std_types_check(
    reach: Reach,
    module: &Module<'_>,
    plan: &Plan,
    mistyped: Option<u32>,
) -> Result<(), Stop>
    requires plan { (G : Table) × IsPlan G (plain_insts «module».now) plan.now }
    requires mistyped { spec.asks_types reach ≡ true → IsFirstMistyped (plain_insts «module».now) mistyped }
    ensures unbroken { IfOk result (λ _. (r : Rule) (n : ℕ) → ¬ (Broken reach (plain_insts «module».now) r n)) }
    ensures refused { IfErr result (λ s. IsRefusal reach (plain_insts «module».now) s) }
{
    if !asks_types(reach) {
        return Ok(());
    }
    match mistyped {
        None => Ok(()),
        Some(inst) => Err(plan.stop_at(Rule::Y10, inst)),
    }
}
