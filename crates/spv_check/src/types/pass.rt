//! The instructions of a module, one after another.

ghost use Rattle.std.specs.Prelude.{◌≡◌, IfOk, MatchOption, length, map};
ghost use Rattle.spv_module.specs.Module.{plain_inst};
ghost use Rattle.spv_layout.specs.Place.{AreFew};
ghost use Rattle.spv_layout.specs.Plan.{IsPlan};
ghost use Rattle.spv_capabilities.specs.inner.Subject as subject;
ghost use Rattle.spv_type_rules.specs.inner.Rules.{AreRules, rules_insts};
ghost use Rattle.spv_check.specs.inner.Pass.{AreKept, IsFirstFault};

use spv_capabilities::Entries;
use spv_module::{Inst, Rule};
use spv_ops::operation_holds;
use spv_table::Memory;
use spv_type_forms::{Matching, Nulls};
use spv_type_rules::{Known, Rules, Seen, is_operation, is_silent, next_count};
use std::alloc::Global;

/// A broken rule, and its instruction.
#[derive(Clone, Copy)]
pub struct Found {
    pub rule: Rule,
    pub inst: u32,
}

/// The first rule that is broken after Y1, by instruction and then by rule.
///
/// `Memory` comes only where a growth of memory was refused.
#[inline(never)]
pub fn first_fault<'a>(
    alloc: Global,
    insts: &[Inst<'a>],
    entries: &mut Entries<'_, 'a>,
    rules: &Rules<'_, 'a>,
) -> Result<Option<Found>, Memory>
    requires most { AreFew insts.now }
    requires rules { AreRules rules.now }
    requires judged { rules_insts rules.now ≡ map plain_inst insts.now }
    requires surveyed { entries.old.insts ≡ map plain_inst insts.now }
    requires plan { IsPlan entries.old.table (map plain_inst insts.now) rules.now.plan.now }
    ensures first { IfOk result (λ o. MatchOption o
        (AreKept entries.old.table (map plain_inst insts.now) (length insts.now))
        (λ f. IsFirstFault entries.old.table (map plain_inst insts.now) f.rule f.inst)) }
    ensures same { entries.new ≡ entries.old }
{
    let mut seen = Seen::new(alloc, insts)?;
    let mut nulls = Nulls::new(alloc);
    let mut matching = Matching::new(alloc);
    let mut parameters = 0;
    for n in 0..insts.len() as u32 {
        let inst = &insts[n as usize];
        if let Some(rule) = entries.first_in(n, inst)? {
            return Ok(Some(Found { rule, inst: n }));
        }
        // Of the rules Y2 to Y8 only Y5 speaks of an operation.
        if is_operation(inst.opcode) {
            if !operation_holds(alloc, rules.definitions(), &mut matching, n, inst)? {
                return Ok(Some(Found {
                    rule: Rule::Y5,
                    inst: n,
                }));
            }
        } else if !is_silent(inst.opcode) {
            let known = Known {
                repeats: seen.repeats(alloc, inst)?,
                parameters,
            };
            if let Some(broken) = rules.first_at(n, inst, known, &mut nulls)? {
                return Ok(Some(Found {
                    rule: broken,
                    inst: n,
                }));
            }
            parameters = next_count(inst, parameters);
        }
    }
    Ok(None)
}
