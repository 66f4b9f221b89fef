//! What shows that D2 is broken.

ghost use Rattle.std.specs.Prelude.{◌≡◌, ◌↔◌, ℕ, Some, IsTrue, map};
ghost use Rattle.spv_table.specs.Table.{Table};
ghost use Rattle.spv_module.specs.Module.{plain_inst};
ghost use Rattle.spv_module.specs.Operand.{result_in};
ghost use Rattle.spv_module.specs.declared.fault.Rule.TheVariants.{D2};
ghost use Rattle.spv_ids.specs.Broken.{Broken};
ghost use Rattle.spv_form_evidence.specs.ids.Evidence.{IsEvidence};

use spv_evidence::Evidence;
use spv_module::Inst;

/// Whether an instruction has an id as its result.
fn has_result(inst: &Inst<'_>, id: u32) -> bool
    ensures { IsTrue result ↔ (result_in (plain_inst inst.now).operands ≡ Some id) }
{
    match inst.result_id() {
        Some(result) => result == id,
        None => false,
    }
}

/// What shows that the result of an instruction is that of an earlier one (D2): the first instruction that has it. `at`
/// is the number of the instruction, from 0.
///
/// Time is linear in the operands of the instructions before. It takes no memory.
pub fn defined_again(insts: &[Inst<'_>], at: u32) -> Evidence
    requires broken { (G : Table) × (bound : ℕ) × Broken G bound (map plain_inst insts.now) D2 at }
    ensures { (G : Table) (bound : ℕ) → IsEvidence G bound (map plain_inst insts.now) D2 at result }
{
    let Some(id) = insts[at as usize].result_id() else {
        unreachable!();
    };
    for m in 0..at {
        if has_result(&insts[m as usize], id) {
            return Evidence::Earlier { inst: m };
        }
    }
    unreachable!()
}
