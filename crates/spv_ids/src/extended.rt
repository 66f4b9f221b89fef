//! The operands behind the number of an OpExtInst, where they are looked at.

ghost use Rattle.std.specs.Prelude.{◌≡◌, ◌<◌, ℕ, List, length, IsTrue, MatchBool, Some, None, slice_get};
ghost use Rattle.spv_module.specs.Operand.{PlainInst};
ghost use Rattle.spv_module.specs.Module.{plain_inst, plain_operand, plain_operands};
ghost use Rattle.spv_module.specs.declared.fault.Rule.{Rule};
ghost use Rattle.spv_module.specs.declared.fault.Rule.TheVariants.{D1};
ghost use Rattle.spv_layout.specs.Place.{IsOfFunction};
ghost use Rattle.spv_ids.specs.declared.survey.Survey as declared;
ghost use Rattle.spv_ids.specs.inner.Known.{AreAnnounced};
ghost use Rattle.spv_ids.specs.inner.Uses as uses;
ghost use Rattle.spv_ids.specs.inner.Uses.{AreBehind};
ghost use Rattle.spv_ids.specs.inner.Faulty.{IsBadUse, IsBadMention, IsBadOperand, HasBadOperand, IsFaulty, IsLeast};
ghost use Rattle.spv_ids.specs.inner.Survey.{IsSurvey, insts_of};

use crate::definitions::is_out_of_range;
use crate::notes::{NONE, Notes};
use crate::survey::{Survey, earlier, is_defined};
use crate::uses::{argument_id, behind, mention_id, seen};
use spv_module::{Inst, Operand, Rule};

/// The id that an operand behind the number uses or mentions.
#[inline(always)]
fn id_behind(operand: Operand<'_>) -> Option<u32>
    ensures { result ≡ uses.id_behind (plain_operand operand.entry) }
{
    match operand {
        Operand::Argument(id) => Some(id),
        Operand::Mention(id) => Some(id),
        _ => None,
    }
}

impl<'m, 'a> Survey<'m, 'a> {
    /// The first rule that a mention of an id breaks.
    fn mention_fault(&self, id: u32) -> Option<Rule>
        requires survey { IsSurvey self.now }
        ensures { IsLeast (IsBadMention self.now.bound (insts_of self.now) id) result }
    {
        if is_out_of_range(self.bound, id) {
            return Some(Rule::D1);
        }
        if !is_defined(self.firsts.get(id), self.later.get(id)) {
            return Some(Rule::D3);
        }
        None
    }

    /// The first rule that an operand behind the number breaks.
    fn operand_fault(&self, inst: u32, announced: &Notes, operand: Operand<'_>) -> Option<Rule>
        requires survey { IsSurvey self.now }
        requires below { inst < self.now.end }
        requires announced { AreAnnounced (insts_of self.now) inst announced.now }
        ensures { IsLeast (IsBadOperand self.now.bound (insts_of self.now) inst (plain_operand operand.entry)) result }
    {
        if let Some(id) = argument_id(operand) {
            return self.use_fault(inst, announced, id);
        }
        if let Some(id) = mention_id(operand) {
            return self.mention_fault(id);
        }
        None
    }

    /// The first rule that the operands behind the number break.
    fn operands_fault(&self, inst: u32, announced: &Notes, operands: &[Operand<'_>]) -> Option<Rule>
        requires survey { IsSurvey self.now }
        requires below { inst < self.now.end }
        requires announced { AreAnnounced (insts_of self.now) inst announced.now }
        requires operands { AreBehind (insts_of self.now) inst (plain_operands operands.now) }
        ensures { IsLeast (HasBadOperand self.now.bound (insts_of self.now) inst (length operands.now)) result }
    {
        let mut least = None;
        for operand in operands {
            if let Some(rule) = self.operand_fault(inst, announced, *operand) {
                least = Some(earlier(least, rule));
            }
        }
        least
    }

    /// The first rule that is broken at an instruction before the end of the survey: by a use, or a mention.
    #[cold]
    #[inline(never)]
    pub fn inst_fault(&self, at: u32, announced: &Notes, inst: &Inst<'_>) -> Option<Rule>
        requires survey { IsSurvey self.now }
        requires below { at < self.now.end }
        requires announced { AreAnnounced (insts_of self.now) at announced.now }
        requires there { slice_get (insts_of self.now) at ≡ Some (plain_inst inst.now) }
        ensures { IsLeast (IsFaulty self.now.bound (insts_of self.now) at) result }
    {
        let by_use = self.uses_fault(at, announced, seen(inst));
        if let Some(rule) = self.operands_fault(at, announced, behind(inst)) {
            return Some(earlier(by_use, rule));
        }
        by_use
    }

    /// Whether an operand behind the number is out of range.
    pub fn has_operand_out_of_range(&self, operands: &[Operand<'_>]) -> bool
        ensures { (is : List PlainInst) (n : ℕ) → AreBehind is n (plain_operands operands.now)
            → MatchBool result (HasBadOperand self.now.bound is n (length operands.now) D1)
            (¬ (HasBadOperand self.now.bound is n (length operands.now) D1)) }
    {
        for operand in operands {
            if let Some(id) = id_behind(*operand) {
                if is_out_of_range(self.bound, id) {
                    return true;
                }
            }
        }
        false
    }

    /// Whether a mention is sound at once: its id is defined before the end of the survey.
    #[inline(always)]
    fn is_mention_sound(&self, near: &[u32], id: u32) -> bool
        requires survey { IsSurvey self.now }
        requires near { near.now ≡ self.now.firsts.now.near.items }
        ensures { IsTrue result → IsLeast (IsBadMention self.now.bound (insts_of self.now) id) None }
    {
        self.firsts.mark(near, id) < NONE
    }

    /// Whether an operand behind the number is sound at once, as a use or a mention.
    #[inline(never)]
    fn is_behind_sound(&self, inst: u32, floor: u32, near: &[u32], operand: Operand<'_>) -> bool
        requires survey { IsSurvey self.now }
        requires near { near.now ≡ self.now.firsts.now.near.items }
        requires below { inst < self.now.end }
        requires floor { floor < 4294967295 → IsOfFunction (insts_of self.now) inst floor }
        ensures { IsTrue result
            → IsLeast (IsBadOperand self.now.bound (insts_of self.now) inst (plain_operand operand.entry)) None }
    {
        if let Some(id) = argument_id(operand) {
            return self.is_use_sound(inst, floor, near, id);
        }
        if let Some(id) = mention_id(operand) {
            return self.is_mention_sound(near, id);
        }
        true
    }

    /// Whether an operand behind the number is not looked at, or sound at once.
    #[inline(always)]
    fn is_operand_sound(&self, inst: u32, floor: u32, near: &[u32], operand: Operand<'_>) -> bool
        requires survey { IsSurvey self.now }
        requires near { near.now ≡ self.now.firsts.now.near.items }
        requires below { inst < self.now.end }
        requires floor { floor < 4294967295 → IsOfFunction (insts_of self.now) inst floor }
        ensures { IsTrue result
            → IsLeast (IsBadOperand self.now.bound (insts_of self.now) inst (plain_operand operand.entry)) None }
    {
        if let Some(_id) = id_behind(operand) {
            return self.is_behind_sound(inst, floor, near, operand);
        }
        true
    }

    /// Whether each operand behind the number is not looked at, or sound at once.
    #[inline(always)]
    fn are_operands_sound(
        &self,
        inst: u32,
        floor: u32,
        near: &[u32],
        operands: &[Operand<'_>],
    ) -> bool
        requires survey { IsSurvey self.now }
        requires near { near.now ≡ self.now.firsts.now.near.items }
        requires below { inst < self.now.end }
        requires floor { floor < 4294967295 → IsOfFunction (insts_of self.now) inst floor }
        requires operands { AreBehind (insts_of self.now) inst (plain_operands operands.now) }
        ensures { IsTrue result
            → IsLeast (HasBadOperand self.now.bound (insts_of self.now) inst (length operands.now)) None }
    {
        for operand in operands {
            if !self.is_operand_sound(inst, floor, near, *operand) {
                return false;
            }
        }
        true
    }

    /// Whether the uses and mentions of an instruction are sound at once, those behind the number of an OpExtInst too.
    /// One that is not may be sound all the same.
    #[inline(always)]
    pub fn is_extended_sound(&self, at: u32, floor: u32, near: &[u32], inst: &Inst<'_>) -> bool
        requires survey { IsSurvey self.now }
        requires near { near.now ≡ self.now.firsts.now.near.items }
        requires below { at < self.now.end }
        requires floor { floor < 4294967295 → IsOfFunction (insts_of self.now) at floor }
        requires there { slice_get (insts_of self.now) at ≡ Some (plain_inst inst.now) }
        ensures { IsTrue result → IsLeast (IsFaulty self.now.bound (insts_of self.now) at) None }
    {
        if !self.are_operands_sound(at, floor, near, behind(inst)) {
            return false;
        }
        self.are_sound(at, floor, near, seen(inst))
    }
}
