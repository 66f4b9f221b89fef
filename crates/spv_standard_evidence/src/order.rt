//! What shows that O1 or O2 is broken: a block that is to stand before, or an operand.

ghost use Rattle.std.specs.Prelude.{IfOk};
ghost use Rattle.spv_table.specs.Table.{Table};
ghost use Rattle.spv_module.specs.Module.{plain_insts};
ghost use Rattle.spv_layout.specs.First.{IsUnbroken};
ghost use Rattle.spv_layout.specs.Place.{IsShort};
ghost use Rattle.spv_layout.specs.Plan.{IsPlan};
ghost use Rattle.spv_layout.specs.Stage.{of_branches};
ghost use Rattle.spv_ids.specs.Outcome.{AreIds};
ghost use Rattle.spv_flow.specs.declared.branches.fork.Fork.{Fork};
ghost use Rattle.spv_flow.specs.branches.Broken as flow;
ghost use Rattle.spv_block_order.specs.Broken.{Broken};
ghost use Rattle.spv_standard_evidence.specs.Order.{IsEvidence};

use spv_block_order::{early_operand, higher_early_block};
use spv_evidence::Evidence;
use spv_flow::walks::code::Code;
use spv_ids::Ids;
use spv_layout::Plan;
use spv_module::{Module, Rule};
use std::alloc::{AllocError, Global};

/// What shows that O1 or O2 is broken at the instruction of a number, from 0: the OpLabel of a block that stands higher
/// and is on the way to this one, or the operand and the definition of its id. `plan` and `ids` are what `lay_out` and
/// `number` answered of the module, in which no rule of branches is broken.
///
/// Time is linear in the function of the instruction, but for logarithms. An `AllocError` comes only where a growth of
/// memory was refused.
pub fn order_evidence(
    alloc: Global,
    module: &Module<'_>,
    plan: &Plan,
    ids: &Ids,
    rule: Rule,
    inst: u32,
) -> Result<Evidence, AllocError>
    requires words { IsShort (plain_insts «module».now) }
    requires known { (fork : Fork) × (G : Table) × IsPlan G (plain_insts «module».now) plan.now
        × AreIds G «module».now.header.bound (plain_insts «module».now) ids.now
        × IsUnbroken (flow.Broken fork G (plain_insts «module».now)) of_branches
        × Broken G (plain_insts «module».now) rule inst }
    ensures { (fork : Fork) (G : Table) → IsPlan G (plain_insts «module».now) plan.now
        → AreIds G «module».now.header.bound (plain_insts «module».now) ids.now
        → IsUnbroken (flow.Broken fork G (plain_insts «module».now)) of_branches
        → IfOk result (IsEvidence G (plain_insts «module».now) rule inst) }
{
    let insts = module.insts.as_slice();
    let globals = plan.before_functions();
    let code = Code {
        insts,
        plan,
        ids,
        globals,
    };
    match rule {
        Rule::O1 => Ok(Evidence::OnTheWay {
            block: higher_early_block(alloc, &code, inst)?,
        }),
        _ => {
            let (operand, inst) = early_operand(&code, inst);
            Ok(Evidence::Defined { operand, inst })
        }
    }
}
