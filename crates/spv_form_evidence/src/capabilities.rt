//! Evidence for a broken rule.

mod entry;
mod import;
pub mod laws;
mod model;
mod needs;

ghost use Rattle.std.specs.Prelude.{◌≡◌, ℕ, IfOk, Some, length, map, slice_get};
ghost use Rattle.spv_table.specs.Table.{Table};
ghost use Rattle.spv_module.specs.Operand.{PlainInst};
ghost use Rattle.spv_module.specs.Module.{plain_inst, plain_insts};
ghost use Rattle.spv_layout.specs.Plan.{IsPlan};
ghost use Rattle.spv_layout.specs.Place.{AreFew};
ghost use Rattle.spv_ids.specs.Outcome.{IsDefinitionOf, definition_in};
ghost use Rattle.spv_capabilities.specs.Keeps.{Keeps};
ghost use Rattle.spv_form_evidence.specs.capabilities.Evidence.{IsEvidence};

use spv_capabilities::Survey;
use spv_evidence::Evidence;
use spv_ids::Ids;
use spv_layout::Plan;
use spv_module::{Inst, Module, Rule};
use spv_table::{Memory, Table};
use std::alloc::Global;

/// The evidence for a rule that is broken at the instruction of a number.
fn evidence_at(
    survey: &Survey<'_, '_>,
    insts: &[Inst<'_>],
    rule: Rule,
    number: u32,
    inst: &Inst<'_>,
) -> Evidence
    requires most { AreFew insts.now }
    requires surveyed { survey.now.insts ≡ map plain_inst insts.now }
    requires there { slice_get survey.now.insts number ≡ Some (plain_inst inst.now) }
    requires broken { ¬ (Keeps survey.now.table survey.now.insts rule number (plain_inst inst.now)) }
    ensures { IsEvidence survey.now.table survey.now.insts rule number result }
{
    match rule {
        Rule::C1 => model::capability(survey),
        Rule::C2 => Evidence::Needs {
            lister: needs::lister(survey, inst),
        },
        Rule::M1 => Evidence::Operand {
            operand: model::operand(inst.operands.as_slice()),
        },
        Rule::E1 => Evidence::NoEntry,
        Rule::E2 => Evidence::Entry {
            part: entry::part(survey, insts, number, inst),
        },
        _ => unreachable!(),
    }
}

/// The evidence for the rule C1, C2, M1, E1 or E2 that is broken at the instruction of a number, from 0. `plan` is what
/// `lay_out` answered of that module, by some table, and `ids` what `number` answered.
///
/// Time is linear in the instructions, besides what the capabilities take that are declared, and in the operands of
/// that instruction.
///
/// `Memory` comes only where a growth of memory was refused.
pub fn capability_evidence(
    alloc: Global,
    table: &Table,
    module: &Module<'_>,
    plan: &Plan,
    ids: &Ids,
    rule: Rule,
    inst: u32,
) -> Result<Evidence, Memory>
    requires most { AreFew (plain_insts «module».now) }
    requires plan { (G : Table) × IsPlan G (plain_insts «module».now) plan.now }
    requires ids { (x : ℕ) → IsDefinitionOf (plain_insts «module».now) x (definition_in ids.now x) }
    requires broken { (i : PlainInst) × (slice_get (plain_insts «module».now) inst ≡ Some i)
        × (¬ (Keeps table.now (plain_insts «module».now) rule inst i)) }
    ensures { IfOk result (λ e. IsEvidence table.now (plain_insts «module».now) rule inst e) }
{
    let insts = module.insts.as_slice();
    let survey = Survey::new(alloc, table, insts, plan, ids)?;
    Ok(evidence_at(&survey, insts, rule, inst, survey.inst(inst)))
}
