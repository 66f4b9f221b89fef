//! Evidence for Y3.

ghost use Rattle.std.specs.Prelude.{◌≡◌, Some, map, slice_get};
ghost use Rattle.spv_table.specs.Table.{Table};
ghost use Rattle.spv_module.specs.declared.fault.Rule.TheVariants.{Y3};
ghost use Rattle.spv_module.specs.Module.{plain_inst};
ghost use Rattle.spv_type_rules.specs.Repeat.{Repeats};
ghost use Rattle.spv_type_evidence.specs.types.Evidence.{Shows};

use spv_evidence::Evidence;
use spv_module::Inst;
use spv_type_rules::are_alike;

/// What shows that Y3 is broken at the instruction of a number: the first that declares the same type. `insts` are the
/// instructions of the module. Time is linear in their words.
pub fn repeat_evidence(insts: &[Inst], number: u32, inst: &Inst) -> Evidence
    requires there { slice_get (map plain_inst insts.now) number ≡ Some (plain_inst inst.now) }
    requires broken { ¬ (¬ (Repeats (map plain_inst insts.now) number (plain_inst inst.now))) }
    ensures { (G : Table) → Shows G (map plain_inst insts.now) number (plain_inst inst.now) Y3 result }
{
    for m in 0..number {
        if are_alike(inst, &insts[m as usize]) {
            return Evidence::Earlier { inst: m };
        }
    }
    unreachable!();
}
