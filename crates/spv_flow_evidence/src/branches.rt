//! What shows that a rule on branches is broken.

mod labels;
pub mod laws;
mod parents;

ghost use Rattle.std.specs.Prelude.{IfOk};
ghost use Rattle.spv_table.specs.Table.{Table};
ghost use Rattle.spv_module.specs.Module.{plain_insts};
ghost use Rattle.spv_layout.specs.First.{IsFirst};
ghost use Rattle.spv_layout.specs.Place.{IsShort};
ghost use Rattle.spv_layout.specs.Plan.{IsPlan};
ghost use Rattle.spv_layout.specs.Stage.{of_branches};
ghost use Rattle.spv_ids.specs.Outcome.{AreIds};
ghost use Rattle.spv_flow.specs.declared.branches.fork.Fork.{Fork};
ghost use Rattle.spv_flow.specs.branches.Broken.{Broken};
ghost use Rattle.spv_flow_evidence.specs.branches.Evidence.{IsEvidence};

use crate::branches::labels::{entry_evidence, label_evidence};
use crate::branches::parents::parents_evidence;
use spv_evidence::Evidence;
use spv_flow::branches::{Code, survey};
use spv_ids::Ids;
use spv_layout::Plan;
use spv_module::{Module, Rule};
use std::alloc::{AllocError, Global};

/// What shows that one of the rules F is broken at an instruction, where `check_branches` told it (SPIR-V Specification
/// 1.6, sections 2.4 and 2.16). `plan` and `ids` are what `lay_out` and `number` answered of that module.
///
/// - F1: the first operand that is a label of no OpLabel, and the instruction that defines its id.
/// - F2: the first operand that is the label of an entry block.
/// - F3: the first operand that names no predecessor, or one that an earlier operand names, with that operand; where
///   there is none, the first predecessor that no operand names; and all predecessors of the OpPhi's block.
/// - F4: operand 2, the second label.
///
/// Time is linear in the words of the module. F1 and F4 take no memory.
///
/// The error comes only where a growth of memory was refused.
#[tactic(auto, using(crate::proofs::lemmas::branches::Rules::told))]
pub fn branch_evidence(
    alloc: Global,
    module: &Module<'_>,
    plan: &Plan,
    ids: &Ids,
    rule: Rule,
    inst: u32,
) -> Result<Evidence, AllocError>
    // The conditions of `check_branches`, and that this is the first broken rule and its instruction, by some table,
    // whether F4 is asked or not.
    requires words { IsShort (plain_insts «module».now) }
    requires known { (G : Table) × IsPlan G (plain_insts «module».now) plan.now
        × AreIds G «module».now.header.bound (plain_insts «module».now) ids.now }
    requires first { (fork : Fork) × (G : Table) × IsPlan G (plain_insts «module».now) plan.now
        × IsFirst (Broken fork G (plain_insts «module».now)) of_branches rule inst }
    ensures { (fork : Fork) (G : Table) → IsPlan G (plain_insts «module».now) plan.now
        → IsFirst (Broken fork G (plain_insts «module».now)) of_branches rule inst
        → IfOk result (λ e. IsEvidence fork G (plain_insts «module».now) rule inst e) }
{
    let code = Code {
        insts: module.insts.as_slice(),
        plan,
        ids,
    };
    match rule {
        Rule::F1 => Ok(label_evidence(&code, inst)),
        Rule::F2 => {
            let survey = survey(alloc, code.insts)?;
            Ok(entry_evidence(&code, &survey.entries, inst))
        }
        Rule::F3 => parents_evidence(alloc, &code, inst),
        Rule::F4 => Ok(Evidence::Operand { operand: 2 }),
        _ => unreachable!(),
    }
}
