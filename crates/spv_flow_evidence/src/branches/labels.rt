//! What shows that F1 or F2 is broken: the first label that breaks it.

ghost use Rattle.std.specs.Prelude.{◌≡◌, ◌<◌, ◌⊎◌, ℕ, length, MatchBool};
ghost use Rattle.spv_table.specs.Table.{Table};
ghost use Rattle.spv_module.specs.declared.fault.Rule.TheVariants as rule;
ghost use Rattle.spv_flow.specs.branches.inner.Code.{insts_of, IsCode};
ghost use Rattle.spv_flow.specs.branches.inner.Graph.{AreEntries, LacksLabel, LeadsToEntry};
ghost use Rattle.spv_flow.specs.branches.Target.{IsOp};
ghost use Rattle.spv_flow.specs.branches.Target as target;
ghost use Rattle.spv_flow.specs.declared.branches.fork.Fork.TheVariants.{Free};
ghost use Rattle.spv_flow_evidence.specs.branches.Evidence.{IsEvidence};
ghost use Rattle.spv_flow_evidence.specs.branches.inner.Known.{KeepsDefinitions, IsEntryId};

use spv_evidence::Evidence;
use spv_flow::branches::{Code, label};

/// F1: the first operand of a terminator or a merge that is a label of no OpLabel, and what defines its id.
pub fn label_evidence(code: &Code<'_, '_>, at: u32) -> Evidence
    requires at { at < length code.now.insts.now }
    requires op { IsOp (insts_of code.now) at target.is_branch ⊎ IsOp (insts_of code.now) at target.is_merge }
    requires defined { (G : Table) × IsCode G code.now × KeepsDefinitions G (insts_of code.now) at }
    requires broken { (G : Table) × IsCode G code.now × LacksLabel G (insts_of code.now) at }
    ensures { (G : Table) → IsCode G code.now → IsEvidence Free G (insts_of code.now) rule.F1 at result }
{
    let inst = &code.insts[at as usize];
    for k in 0..inst.operands.as_slice().len() {
        if let Some(id) = label(inst, k) {
            if !code.has_label(id) {
                return Evidence::Defined {
                    operand: k as u32,
                    inst: code.ids.definition(id).unwrap(),
                };
            }
        }
    }
    unreachable!()
}

/// Whether an id is the label of an entry block. `entries` has which instructions are labels of entry blocks.
#[inline(always)]
fn is_entry(code: &Code<'_, '_>, entries: &[bool], id: u32) -> bool
    requires count { length entries.now ≡ length code.now.insts.now }
    requires entries { AreEntries (insts_of code.now) entries.now (length code.now.insts.now) }
    ensures { (G : Table) → IsCode G code.now
        → MatchBool result (IsEntryId (insts_of code.now) id) (¬ (IsEntryId (insts_of code.now) id)) }
{
    match code.label_of(id) {
        Some(target) => entries[target as usize],
        None => false,
    }
}

/// F2: the first operand of a terminator that is the label of an entry block.
pub fn entry_evidence(code: &Code<'_, '_>, entries: &[bool], at: u32) -> Evidence
    requires at { at < length code.now.insts.now }
    requires op { IsOp (insts_of code.now) at target.is_branch }
    requires count { length entries.now ≡ length code.now.insts.now }
    requires entries { AreEntries (insts_of code.now) entries.now (length code.now.insts.now) }
    requires broken { (G : Table) × IsCode G code.now × LeadsToEntry G (insts_of code.now) at }
    ensures { (G : Table) → IsCode G code.now → IsEvidence Free G (insts_of code.now) rule.F2 at result }
{
    let inst = &code.insts[at as usize];
    for k in 0..inst.operands.as_slice().len() {
        if let Some(id) = label(inst, k) {
            if is_entry(code, entries, id) {
                return Evidence::Operand { operand: k as u32 };
            }
        }
    }
    unreachable!()
}
