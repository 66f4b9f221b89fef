//! What shows that Y1 is broken.

ghost use Rattle.std.specs.Prelude.{◌≡◌, ℕ, slice_get, Some, MatchOption};
ghost use Rattle.spv_table.specs.Table.{Table};
ghost use Rattle.spv_module.specs.Module.{plain_inst, plain_insts};
ghost use Rattle.spv_module.specs.declared.fault.Rule.TheVariants.{Y1};
ghost use Rattle.spv_layout.specs.First.{IsUnbroken};
ghost use Rattle.spv_layout.specs.Plan.{IsPlan};
ghost use Rattle.spv_layout.specs.Shape.{FitsShape};
ghost use Rattle.spv_layout.specs.Stage.{of_ids};
ghost use Rattle.spv_ids.specs.Broken as id_rules;
ghost use Rattle.spv_ids.specs.Outcome.{IsDefinitionOf, definition_in};
ghost use Rattle.spv_type_rules.specs.roles.Broken.{Broken};
ghost use Rattle.spv_form_evidence.specs.ids.Roles.{IsEvidence};
ghost use Rattle.spv_form_evidence.specs.ids.inner.Uses.{HasUse};
ghost use Rattle.spv_form_evidence.specs.ids.inner.Casts.{IsMiscast};

use crate::ids::uses::use_at;
use spv_evidence::Evidence;
use spv_ids::Ids;
use spv_layout::Plan;
use spv_module::{Inst, Module};
use spv_type_forms::Definitions;
use spv_type_rules::roles::plays;

/// What shows that operand `k` of an instruction is not in its role, if it is a use that is not.
fn miscast_at(
    definitions: &Definitions<'_, '_>,
    ids: &Ids,
    inst: &Inst<'_>,
    k: u32,
) -> Option<Evidence>
    requires ids { (x : ℕ) → IsDefinitionOf definitions.now x (definition_in ids.now x) }
    ensures { (G : Table) (n : ℕ) → FitsShape G (plain_inst inst.now)
        → slice_get definitions.now n ≡ Some (plain_inst inst.now)
        → MatchOption result (¬ (HasUse G (plain_inst inst.now) (IsMiscast definitions.now) k))
        (λ e. IsEvidence G definitions.now Y1 n e) }
{
    let Some(used) = use_at(inst, k as usize) else {
        return None;
    };
    if plays(definitions, used.role, used.id) {
        return None;
    }
    match ids.definition(used.id) {
        Some(definition) => Some(Evidence::Miscast {
            operand: k,
            role: used.role,
            inst: definition,
        }),
        None => None,
    }
}

/// What shows that a use of an instruction is not in its role (Y1): its first operand that is such a use, the role, and
/// the instruction that defines the id. `plan` and `ids` are what `lay_out` and `number` answered of that module.
/// `inst` is the number of the instruction, from 0.
///
/// Time is linear in the operands of the instruction. It takes no memory.
pub fn role_evidence(module: &Module<'_>, plan: &Plan, ids: &Ids, inst: u32) -> Evidence
    // The definitions are those of the module; and by the table of the plan no rule on ids is broken, and Y1 is at the
    // instruction.
    requires ids { (x : ℕ) → IsDefinitionOf (plain_insts «module».now) x (definition_in ids.now x) }
    requires broken { (G : Table) × IsPlan G (plain_insts «module».now) plan.now
        × IsUnbroken (id_rules.Broken G «module».now.header.bound (plain_insts «module».now)) of_ids
        × Broken G (plain_insts «module».now) Y1 inst }
    ensures { (G : Table) → IsPlan G (plain_insts «module».now) plan.now
        → IsEvidence G (plain_insts «module».now) Y1 inst result }
{
    let insts = module.insts.as_slice();
    let definitions = Definitions::new(insts, plan, ids);
    let there = &insts[inst as usize];
    for k in 0..there.operands.as_slice().len() {
        if let Some(evidence) = miscast_at(&definitions, ids, there, k as u32) {
            return evidence;
        }
    }
    unreachable!()
}
