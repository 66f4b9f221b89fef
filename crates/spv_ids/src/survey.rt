//! The uses of a module, instruction by instruction.

ghost use Rattle.std.specs.Prelude.{◌≡◌, ◌≢◌, ◌+◌, ◌≤◌, ◌<◌, ◌↔◌, ℕ, List, length, map, IsTrue};
ghost use Rattle.std.specs.Prelude.{IfOk, OnOk, MatchBool, MatchOption, IfSome, slice_get, Some, None, ◌||◌};
ghost use Rattle.spv_module.specs.Operand.{PlainInst};
ghost use Rattle.spv_module.specs.Module.{plain_inst, plain_operands};
ghost use Rattle.spv_module.specs.declared.fault.Rule.{Rule};
ghost use Rattle.spv_module.specs.declared.fault.Rule.TheVariants.{D1};
ghost use Rattle.spv_module.specs.declared.opcode.TheConstants as codes;
ghost use Rattle.spv_layout.specs.First.{stage_of, rank_of};
ghost use Rattle.spv_layout.specs.Stage.{of_ids};
ghost use Rattle.spv_layout.specs.Place.{IsOfFunction, IsOfSection};
ghost use Rattle.spv_ids.specs.declared.survey.Survey as declared;
ghost use Rattle.spv_ids.specs.Definition.{IsDefinedAt, IsLocal};
ghost use Rattle.spv_ids.specs.Order.{IsInOrder, IsInScope, IsOrdered, IsScoped, Announces};
ghost use Rattle.spv_ids.specs.declared.notes.Notes.{Notes};
ghost use Rattle.spv_ids.specs.Broken.{IsOutOfRange};
ghost use Rattle.spv_ids.specs.inner.Notes.{kept};
ghost use Rattle.spv_ids.specs.inner.Known.{AreAnnounced, IsEnd, IsBadResult, IsHomeOf, IsOpen};
ghost use Rattle.spv_ids.specs.inner.Test.{lower_test, early_test, scope_test, home_test, announced_id};
ghost use Rattle.std.specs.Option.{is_some};
ghost use Rattle.spv_ids.specs.inner.Uses.{AreSeen};
ghost use Rattle.spv_ids.specs.inner.Faulty.{IsBadUse, HasBadUse, IsFaulty, IsLeast, IsEarlier, AreClean, IsFirstFault};
ghost use Rattle.spv_ids.specs.inner.Survey.{ArePlaces, IsSurvey, IsSite, insts_of};

use crate::definitions::{floor_of, home, is_out_of_range, section_of};
use crate::notes::{NONE, Notes, mark_at};
use crate::uses::{behind, named_id, result_of, seen, seen_id};
use spv_layout::Plan;
use spv_module::{Inst, Operand, Rule, opcode};
use std::alloc::{AllocError, Global};

/// The number of section 7a among the sections.
const SOURCES: u8 = 7;

/// The number of section 9 among the sections.
pub const DECLARATIONS: u8 = 11;

/// A module whose uses are looked at.
#[derive(Clone, Copy)]
pub struct Survey<'m, 'a> {
    pub insts: &'m [Inst<'a>],
    pub plan: &'m Plan,
    /// The bound of the ids.
    pub bound: u32,
    /// The first instruction whose result is out of range or has an earlier definition, or the number of instructions.
    pub end: u32,
    /// Of each id its definition before `end`.
    pub firsts: &'m Notes,
    /// Of each id its most local definition from `end` on.
    pub later: &'m Notes,
    /// An id that an instruction before this one defines is local to no function.
    pub globals: u32,
}

/// Where a use stands.
#[derive(Clone, Copy)]
pub struct Site {
    pub inst: u32,
    pub opcode: u16,
    pub section: u8,
    /// The number of the OpFunction of the function that the instruction is of.
    pub function: Option<u32>,
}

/// How far instructions were passed.
#[derive(Clone, Copy)]
struct Passed {
    /// The first one that was not passed, or the end of the survey.
    to: u32,
    /// The function that is open before it, or `NONE`.
    floor: u32,
}

/// A broken rule, and its instruction.
#[derive(Clone, Copy)]
pub struct Found {
    pub rule: Rule,
    pub inst: u32,
}

/// Whether uses come in order in a section.
#[inline(always)]
fn is_ordered(section: u8) -> bool
    ensures { (is : List PlainInst) (n : ℕ) → IsOfSection is n section → IsTrue result ↔ IsOrdered is n }
{
    section == SOURCES || section == DECLARATIONS
}

/// Whether uses come in scope in a section.
#[inline(always)]
fn is_scoped(section: u8) -> bool
    ensures { (is : List PlainInst) (n : ℕ) → IsOfSection is n section → IsTrue result ↔ IsScoped is n }
{
    section >= DECLARATIONS
}

/// Whether a definition is lower than an instruction.
#[inline(always)]
fn is_lower(first: Option<u32>, inst: u32) -> bool
    ensures { result ≡ lower_test first inst }
{
    match first {
        Some(definition) => definition < inst,
        None => false,
    }
}

/// Whether a use of an id may come before its definition. `announced` has the ids that lower instructions announce.
fn may_be_early(site: &Site, announced: &Notes, id: u32) -> bool
    ensures { result ≡ early_test site.now.section site.now.opcode (kept announced.now id) }
{
    if site.section != DECLARATIONS {
        return false;
    }
    match site.opcode {
        opcode::TYPE_FORWARD_POINTER => true,
        opcode::TYPE_STRUCT => announced.get(id).is_some(),
        _ => false,
    }
}

/// Whether there is a definition.
pub fn is_defined(first: Option<u32>, later: Option<u32>) -> bool
    ensures { result ≡ (is_some first || is_some later) }
{
    first.is_some() || later.is_some()
}

/// Whether a use is in scope, or the id is local to no function, by the function of the use and those of the
/// definitions.
fn is_scope(function: Option<u32>, first: Option<u32>, later: Option<u32>) -> bool
    ensures { result ≡ scope_test function first later }
{
    match function {
        Some(function) => is_home(first, function)
            || is_home(later, function)
            || !is_defined(first, later),
        None => !is_defined(first, later),
    }
}

/// Whether a function is that of a definition.
fn is_home(home: Option<u32>, function: u32) -> bool
    ensures { result ≡ home_test home function }
{
    match home {
        Some(home) => home == function,
        None => false,
    }
}

/// The function in which a definition stands, if there is a definition.
fn home_of(plan: &Plan, definition: Option<u32>) -> Option<u32>
    ensures { (is : List PlainInst) (x : ℕ) → ArePlaces is plan.now → IfSome definition (λ m. IsDefinedAt is x m)
        → IsHomeOf is definition result }
{
    match definition {
        Some(inst) => home(plan, inst),
        None => None,
    }
}

/// The number of a rule on ids.
fn number_of(rule: Rule) -> u8
    ensures { stage_of rule ≡ of_ids → rank_of rule ≡ result + 14 }
{
    match rule {
        Rule::D1 => 1,
        Rule::D2 => 2,
        Rule::D3 => 3,
        Rule::D4 => 4,
        Rule::D5 => 5,
        _ => 0,
    }
}

/// The earlier of two rules on ids, in the order of telling.
pub fn earlier(one: Option<Rule>, other: Rule) -> Rule
    ensures { stage_of other ≡ of_ids → IfSome one (λ r. stage_of r ≡ of_ids) → IsEarlier one other result }
{
    match one {
        Some(rule) => if number_of(rule) <= number_of(other) {
            rule
        } else {
            other
        },
        None => other,
    }
}

/// The id that an OpTypeForwardPointer names.
#[inline(always)]
fn announced_by(inst: &Inst<'_>) -> Option<u32>
    ensures { result ≡ announced_id (plain_inst inst.now) }
{
    if inst.opcode == opcode::TYPE_FORWARD_POINTER {
        named_id(inst, 0)
    } else {
        None
    }
}

/// Keeps the id that an OpTypeForwardPointer names.
fn announce(announced: &mut Notes, inst: &Inst<'_>, at: u32) -> Result<(), AllocError>
    requires { at < 4294967295 }
    ensures { OnOk result ((is : List PlainInst) → slice_get is at ≡ Some (plain_inst inst.now)
        → AreAnnounced is at announced.old → AreAnnounced is (at + 1) announced.new) }
{
    if let Some(id) = announced_by(inst) {
        announced.put(id, at)?;
    }
    Ok(())
}

/// At an instruction, the function that is open, where `floor` is the one before it.
#[inline(always)]
fn entered(inst: &Inst<'_>, floor: u32, at: u32) -> u32
    ensures { (is : List PlainInst) → slice_get is at ≡ Some (plain_inst inst.now)
        → (floor < 4294967295 → IsOpen is at floor) → result < 4294967295 → IsOfFunction is at result }
{
    if inst.opcode == opcode::FUNCTION {
        at
    } else {
        floor
    }
}

/// The function that is open after an instruction of the function `floor`, or `NONE`.
#[inline(always)]
fn left(inst: &Inst<'_>, floor: u32) -> u32
    ensures { (is : List PlainInst) (n : ℕ) → slice_get is n ≡ Some (plain_inst inst.now)
        → (floor < 4294967295 → IsOfFunction is n floor) → result < 4294967295 → IsOpen is (n + 1) result }
{
    if inst.opcode == opcode::FUNCTION_END {
        NONE
    } else {
        floor
    }
}

/// Whether an opcode is none of those that begin or end a function or announce an id, as most are.
#[inline(always)]
fn is_ordinary(code: u16) -> bool
    ensures begins { IsTrue result → code ≢ codes.FUNCTION }
    ensures ends { IsTrue result → code ≢ codes.FUNCTION_END }
    ensures announces { IsTrue result → code ≢ codes.TYPE_FORWARD_POINTER }
{
    if opcode::FUNCTION_END < code {
        return true;
    }
    code < opcode::TYPE_FORWARD_POINTER
}

impl<'m, 'a> Survey<'m, 'a> {
    /// Whether a use of an id comes in order, or stands where that is not asked for.
    fn is_in_order(&self, site: &Site, announced: &Notes, id: u32, first: Option<u32>) -> bool
        requires survey { IsSurvey self.now }
        requires site { IsSite self.now site.now }
        requires announced { AreAnnounced (insts_of self.now) site.now.inst announced.now }
        requires first { first ≡ kept self.now.firsts.now id }
        ensures { MatchBool result (IsOrdered (insts_of self.now) site.now.inst
            → IsInOrder (insts_of self.now) site.now.inst id)
            (IsOrdered (insts_of self.now) site.now.inst × ¬ (IsInOrder (insts_of self.now) site.now.inst id)) }
    {
        if !is_ordered(site.section) {
            return true;
        }
        is_lower(first, site.inst) || may_be_early(site, announced, id)
    }

    /// Whether a use of an id is in scope, or stands where that is not asked for, or the id is local to no function.
    fn is_in_scope(&self, site: &Site, id: u32, first: Option<u32>) -> bool
        requires survey { IsSurvey self.now }
        requires site { IsSite self.now site.now }
        requires first { first ≡ kept self.now.firsts.now id }
        ensures { MatchBool result (IsScoped (insts_of self.now) site.now.inst → IsLocal (insts_of self.now) id
            → IsInScope (insts_of self.now) site.now.inst id)
            (IsScoped (insts_of self.now) site.now.inst × IsLocal (insts_of self.now) id
            × ¬ (IsInScope (insts_of self.now) site.now.inst id)) }
    {
        if !is_scoped(site.section) {
            return true;
        }
        let first = home_of(self.plan, first);
        let later = home_of(self.plan, self.later.get(id));
        is_scope(site.function, first, later)
    }

    /// The first rule that a use breaks.
    fn site_fault(
        &self,
        site: &Site,
        announced: &Notes,
        id: u32,
        first: Option<u32>,
    ) -> Option<Rule>
        requires survey { IsSurvey self.now }
        requires site { IsSite self.now site.now }
        requires announced { AreAnnounced (insts_of self.now) site.now.inst announced.now }
        requires first { first ≡ kept self.now.firsts.now id }
        ensures { IsLeast (IsBadUse self.now.bound (insts_of self.now) site.now.inst id) result }
    {
        if is_out_of_range(self.bound, id) {
            return Some(Rule::D1);
        }
        if !is_defined(first, self.later.get(id)) {
            return Some(Rule::D3);
        }
        if !self.is_in_order(site, announced, id, first) {
            return Some(Rule::D4);
        }
        if !self.is_in_scope(site, id, first) {
            return Some(Rule::D5);
        }
        None
    }

    /// The first rule that a use of an id breaks.
    pub fn use_fault(&self, inst: u32, announced: &Notes, id: u32) -> Option<Rule>
        requires survey { IsSurvey self.now }
        requires below { inst < self.now.end }
        requires announced { AreAnnounced (insts_of self.now) inst announced.now }
        ensures { IsLeast (IsBadUse self.now.bound (insts_of self.now) inst id) result }
    {
        let site = self.site(inst);
        self.site_fault(&site, announced, id, self.firsts.get(id))
    }

    /// Whether a use is plainly sound: its definition is lower, and local to no function or in the function of the
    /// instruction, `floor`.
    #[inline(always)]
    fn is_plain(&self, inst: u32, floor: u32, definition: u32) -> bool
        requires survey { IsSurvey self.now }
        requires below { inst < self.now.end }
        requires floor { floor < 4294967295 → IsOfFunction (insts_of self.now) inst floor }
        ensures { (x : ℕ) → (definition < 4294967295 → kept self.now.firsts.now x ≡ Some definition)
            → IsTrue result → (q : Rule) → ¬ (IsBadUse self.now.bound (insts_of self.now) inst x q) }
    {
        if definition >= inst {
            return false;
        }
        if definition < self.globals {
            return true;
        }
        floor < definition
    }

    /// Whether no result is out of range or has an earlier definition.
    #[inline(always)]
    fn is_whole(&self) -> bool
        ensures { IsTrue result → length self.now.insts.now ≤ self.now.end }
    {
        self.insts.len() <= self.end as usize
    }

    /// Whether an instruction is of the function `floor` and its opcode none of section 7a: its uses need not come in
    /// order.
    #[inline(always)]
    fn is_inside(&self, inst: u32, floor: u32) -> bool
        requires survey { IsSurvey self.now }
        requires below { inst < self.now.end }
        requires floor { floor < 4294967295 → IsOfFunction (insts_of self.now) inst floor }
        ensures { IsTrue result → ¬ (IsOrdered (insts_of self.now) inst) }
    {
        if floor == NONE {
            return false;
        }
        // No opcode of section 7a is higher.
        opcode::STRING < self.insts[inst as usize].opcode
    }

    /// Whether the only definition of an id is in the function `floor`, that of an instruction, or in no function.
    #[inline(always)]
    fn is_own(&self, inst: u32, floor: u32, definition: u32) -> bool
        requires survey { IsSurvey self.now }
        requires whole { length self.now.insts.now ≤ self.now.end }
        requires below { definition < self.now.end }
        requires floor { floor < 4294967295 → IsOfFunction (insts_of self.now) inst floor }
        ensures { (x : ℕ) → kept self.now.firsts.now x ≡ Some definition → IsTrue result
            → IsLocal (insts_of self.now) x → IsInScope (insts_of self.now) inst x }
    {
        let own = floor_of(self.plan, definition);
        if own >= definition {
            return true;
        }
        own == floor
    }

    /// Whether a use by an instruction of the function `floor` is sound by the function of its only definition.
    #[inline(always)]
    fn is_sound(&self, inst: u32, floor: u32, definition: u32) -> bool
        requires survey { IsSurvey self.now }
        requires below { inst < self.now.end }
        requires floor { floor < 4294967295 → IsOfFunction (insts_of self.now) inst floor }
        ensures { (x : ℕ) → (definition < 4294967295 → kept self.now.firsts.now x ≡ Some definition)
            → IsTrue result → (q : Rule) → ¬ (IsBadUse self.now.bound (insts_of self.now) inst x q) }
    {
        if definition >= self.end {
            return false;
        }
        if !self.is_whole() {
            return false;
        }
        if self.is_inside(inst, floor) {
            return self.is_own(inst, floor, definition);
        }
        let section = section_of(self.plan, inst);
        if is_ordered(section) {
            return false;
        }
        if !is_scoped(section) {
            return true;
        }
        self.is_own(inst, floor, definition)
    }

    /// Whether a use is sound since its definition is the next instruction, as the label after a branch often is: both
    /// are of the function `floor`, and begin and end none.
    #[inline(always)]
    fn is_next(&self, inst: u32, floor: u32, definition: u32) -> bool
        requires survey { IsSurvey self.now }
        requires below { inst < self.now.end }
        requires floor { floor < 4294967295 → IsOfFunction (insts_of self.now) inst floor }
        ensures { (x : ℕ) → (definition < 4294967295 → kept self.now.firsts.now x ≡ Some definition)
            → IsTrue result → (q : Rule) → ¬ (IsBadUse self.now.bound (insts_of self.now) inst x q) }
    {
        if definition != inst + 1 {
            return false;
        }
        if definition >= self.end || floor == NONE {
            return false;
        }
        let there = &self.insts[inst as usize];
        if there.opcode <= opcode::FUNCTION_END {
            return false;
        }
        let next = &self.insts[definition as usize];
        opcode::FUNCTION_END < next.opcode
    }

    /// Whether each use among operands is sound at once, by an instruction of the function `floor`. One that is not may
    /// be sound all the same.
    #[inline(always)]
    pub fn are_sound(&self, inst: u32, floor: u32, near: &[u32], operands: &[Operand<'_>]) -> bool
        requires survey { IsSurvey self.now }
        requires near { near.now ≡ self.now.firsts.now.near.items }
        requires below { inst < self.now.end }
        requires floor { floor < 4294967295 → IsOfFunction (insts_of self.now) inst floor }
        requires operands { AreSeen (insts_of self.now) inst (plain_operands operands.now) }
        ensures { IsTrue result → IsLeast (HasBadUse self.now.bound (insts_of self.now) inst (length operands.now))
            None }
    {
        for operand in operands {
            if let Some(id) = seen_id(*operand) {
                if !self.is_use_sound(inst, floor, near, id) {
                    return false;
                }
            }
        }
        true
    }

    /// The same, out of the way of what is told by one look.
    #[inline(never)]
    fn are_sound_further(
        &self,
        inst: u32,
        floor: u32,
        near: &[u32],
        operands: &[Operand<'_>],
    ) -> bool
        requires survey { IsSurvey self.now }
        requires near { near.now ≡ self.now.firsts.now.near.items }
        requires below { inst < self.now.end }
        requires floor { floor < 4294967295 → IsOfFunction (insts_of self.now) inst floor }
        requires operands { AreSeen (insts_of self.now) inst (plain_operands operands.now) }
        ensures { IsTrue result → IsLeast (HasBadUse self.now.bound (insts_of self.now) inst (length operands.now))
            None }
    {
        self.are_sound(inst, floor, near, operands)
    }

    /// Whether each use among operands is plainly sound, by an instruction of the function `floor`.
    #[inline(always)]
    fn are_plain(&self, inst: u32, floor: u32, near: &[u32], operands: &[Operand<'_>]) -> bool
        requires survey { IsSurvey self.now }
        requires near { near.now ≡ self.now.firsts.now.near.items }
        requires below { inst < self.now.end }
        requires floor { floor < 4294967295 → IsOfFunction (insts_of self.now) inst floor }
        requires operands { AreSeen (insts_of self.now) inst (plain_operands operands.now) }
        ensures { IsTrue result → IsLeast (HasBadUse self.now.bound (insts_of self.now) inst (length operands.now))
            None }
    {
        for operand in operands {
            if let Some(id) = seen_id(*operand) {
                if !self.is_use_plain(inst, floor, near, id) {
                    return false;
                }
            }
        }
        true
    }

    /// Whether each use of an ordinary instruction is sound at once. Inside a function one look at the list tells it of
    /// most, but for labels and functions; before the functions come names and decorations, of which it tells little.
    #[inline(always)]
    fn are_ordinary_sound(
        &self,
        inst: u32,
        floor: u32,
        near: &[u32],
        operands: &[Operand<'_>],
    ) -> bool
        requires survey { IsSurvey self.now }
        requires near { near.now ≡ self.now.firsts.now.near.items }
        requires below { inst < self.now.end }
        requires floor { floor < 4294967295 → IsOfFunction (insts_of self.now) inst floor }
        requires operands { AreSeen (insts_of self.now) inst (plain_operands operands.now) }
        ensures { IsTrue result → IsLeast (HasBadUse self.now.bound (insts_of self.now) inst (length operands.now))
            None }
    {
        if floor == NONE {
            return self.are_sound(inst, NONE, near, operands);
        }
        let code = self.insts[inst as usize].opcode;
        if code <= opcode::FUNCTION_CALL || opcode::PHI <= code {
            return self.are_sound(inst, floor, near, operands);
        }
        if self.are_plain(inst, floor, near, operands) {
            return true;
        }
        self.are_sound_further(inst, floor, near, operands)
    }

    /// Whether a use of an id is sound at once, by an instruction of the function `floor`.
    #[inline(always)]
    pub fn is_use_sound(&self, inst: u32, floor: u32, near: &[u32], id: u32) -> bool
        requires survey { IsSurvey self.now }
        requires near { near.now ≡ self.now.firsts.now.near.items }
        requires below { inst < self.now.end }
        requires floor { floor < 4294967295 → IsOfFunction (insts_of self.now) inst floor }
        ensures { IsTrue result → IsLeast (IsBadUse self.now.bound (insts_of self.now) inst id) None }
    {
        let definition = self.firsts.mark(near, id);
        if self.is_plain(inst, floor, definition) {
            return true;
        }
        if self.is_next(inst, floor, definition) {
            return true;
        }
        self.is_sound(inst, floor, definition)
    }

    /// Whether one look at the list tells that a use of an id is sound.
    #[inline(always)]
    fn is_use_plain(&self, inst: u32, floor: u32, near: &[u32], id: u32) -> bool
        requires survey { IsSurvey self.now }
        requires near { near.now ≡ self.now.firsts.now.near.items }
        requires below { inst < self.now.end }
        requires floor { floor < 4294967295 → IsOfFunction (insts_of self.now) inst floor }
        ensures { IsTrue result → IsLeast (IsBadUse self.now.bound (insts_of self.now) inst id) None }
    {
        let place = id as usize;
        if place >= near.len() {
            return false;
        }
        self.is_plain(inst, floor, mark_at(near[place]))
    }

    /// The first rule that a use among operands breaks.
    pub fn uses_fault(&self, inst: u32, announced: &Notes, operands: &[Operand<'_>]) -> Option<Rule>
        requires survey { IsSurvey self.now }
        requires below { inst < self.now.end }
        requires announced { AreAnnounced (insts_of self.now) inst announced.now }
        requires operands { AreSeen (insts_of self.now) inst (plain_operands operands.now) }
        ensures { IsLeast (HasBadUse self.now.bound (insts_of self.now) inst (length operands.now)) result }
    {
        let mut least = None;
        for operand in operands {
            if let Some(id) = seen_id(*operand) {
                if let Some(rule) = self.use_fault(inst, announced, id) {
                    least = Some(earlier(least, rule));
                }
            }
        }
        least
    }

    /// Whether a use among operands is out of range.
    fn has_out_of_range(&self, operands: &[Operand<'_>]) -> bool
        ensures { (is : List PlainInst) (n : ℕ) → AreSeen is n (plain_operands operands.now)
            → MatchBool result (HasBadUse self.now.bound is n (length operands.now) D1)
            (¬ (HasBadUse self.now.bound is n (length operands.now) D1)) }
    {
        for operand in operands {
            if let Some(id) = seen_id(*operand) {
                if is_out_of_range(self.bound, id) {
                    return true;
                }
            }
        }
        false
    }

    /// The rule that is broken at the end of the survey, where an instruction is.
    fn end_fault(&self) -> Rule
        requires survey { IsSurvey self.now }
        requires bad { IsBadResult self.now.bound (insts_of self.now) self.now.end }
        ensures broken { IsFaulty self.now.bound (insts_of self.now) self.now.end result }
        ensures least { (q : Rule) → IsFaulty self.now.bound (insts_of self.now) self.now.end q
            → rank_of result ≤ rank_of q }
    {
        let inst = &self.insts[self.end as usize];
        let Some(id) = result_of(inst) else {
            unreachable!();
        };
        if is_out_of_range(self.bound, id) {
            return Rule::D1;
        }
        if self.has_out_of_range(seen(inst)) {
            return Rule::D1;
        }
        if self.has_operand_out_of_range(behind(inst)) {
            return Rule::D1;
        }
        Rule::D2
    }

    /// The site of an instruction before the end of the survey.
    #[inline(always)]
    fn site(&self, inst: u32) -> Site
        requires survey { IsSurvey self.now }
        requires below { inst < self.now.end }
        ensures site { IsSite self.now result }
        ensures inst { result.inst ≡ inst }
    {
        let Some(place) = self.plan.at(inst) else {
            unreachable!();
        };
        Site {
            inst,
            opcode: self.insts[inst as usize].opcode,
            section: place.section,
            function: place.function,
        }
    }

    /// The function that is open after an instruction, or `NONE`, if its uses are sound at once and it announces no id.
    /// `floor` is the function that is open before it.
    #[inline(always)]
    fn after(&self, inst: u32, floor: u32, near: &[u32]) -> Option<u32>
        requires survey { IsSurvey self.now }
        requires near { near.now ≡ self.now.firsts.now.near.items }
        requires below { inst < self.now.end }
        requires open { floor < 4294967295 → IsOpen (insts_of self.now) inst floor }
        ensures clean { IfSome result (λ f. (q : Rule) → ¬ (IsFaulty self.now.bound (insts_of self.now) inst q)) }
        ensures silent { IfSome result (λ f. (x : ℕ) → ¬ (Announces (insts_of self.now) inst x)) }
        ensures open { IfSome result (λ f. f < 4294967295 → IsOpen (insts_of self.now) (inst + 1) f) }
    {
        let there = &self.insts[inst as usize];
        if there.opcode == opcode::EXT_INST {
            if self.is_extended_sound(inst, floor, near, there) {
                return Some(floor);
            }
            return None;
        }
        if is_ordinary(there.opcode) {
            if self.are_ordinary_sound(inst, floor, near, seen(there)) {
                return Some(floor);
            }
            return None;
        }
        if there.opcode == opcode::TYPE_FORWARD_POINTER {
            return None;
        }
        let here = entered(there, floor, inst);
        if self.are_sound(inst, here, near, seen(there)) {
            return Some(left(there, here));
        }
        None
    }

    /// The instructions from one on whose uses are sound at once and that announce no id. `floor` is the function that
    /// is open before it.
    #[inline(never)]
    fn pass(&self, from: u32, floor: u32) -> Passed
        requires survey { IsSurvey self.now }
        requires within { from ≤ self.now.end }
        requires clean { AreClean self.now.bound (insts_of self.now) from }
        requires open { floor < 4294967295 → IsOpen (insts_of self.now) from floor }
        ensures within { result.to ≤ self.now.end }
        ensures further { from ≤ result.to }
        ensures clean { AreClean self.now.bound (insts_of self.now) result.to }
        ensures announced { (a : Notes) → AreAnnounced (insts_of self.now) from a
            → AreAnnounced (insts_of self.now) result.to a }
        ensures open { result.floor < 4294967295 → IsOpen (insts_of self.now) result.to result.floor }
    {
        let near = self.firsts.near();
        let mut here = floor;
        for n in from..self.end {
            let Some(after) = self.after(n, here, near) else {
                return Passed { to: n, floor: here };
            };
            here = after;
        }
        Passed {
            to: self.end,
            floor: here,
        }
    }

    /// The first broken rule of the module. Nothing is announced yet.
    ///
    /// An `AllocError` comes only where a growth of memory was refused.
    #[inline(never)]
    fn fault_from_start(&self, announced: &mut Notes) -> Result<Option<Found>, AllocError>
        requires survey { IsSurvey self.now }
        requires end { IsEnd self.now.bound (insts_of self.now) self.now.end }
        requires announced { AreAnnounced (insts_of self.now) 0 announced.old }
        ensures { IfOk result (λ o. MatchOption o
            (AreClean self.now.bound (insts_of self.now) (length (insts_of self.now)))
            (λ f. IsFirstFault self.now.bound (insts_of self.now) f.rule f.inst)) }
    {
        let mut passed = self.pass(0, NONE);
        while passed.to < self.end {
            let n = passed.to;
            let inst = &self.insts[n as usize];
            if let Some(rule) = self.inst_fault(n, announced, inst) {
                return Ok(Some(Found { rule, inst: n }));
            }
            announce(announced, inst, n)?;
            let here = entered(inst, passed.floor, n);
            passed = self.pass(n + 1, left(inst, here));
        }
        if self.end as usize == self.insts.len() {
            return Ok(None);
        }
        let rule = self.end_fault();
        Ok(Some(Found {
            rule,
            inst: self.end,
        }))
    }

    /// The first broken rule of the module.
    ///
    /// An `AllocError` comes only where a growth of memory was refused.
    pub fn first_fault(&self, alloc: Global) -> Result<Option<Found>, AllocError>
        requires survey { IsSurvey self.now }
        requires end { IsEnd self.now.bound (insts_of self.now) self.now.end }
        ensures { IfOk result (λ o. MatchOption o
            (AreClean self.now.bound (insts_of self.now) (length (insts_of self.now)))
            (λ f. IsFirstFault self.now.bound (insts_of self.now) f.rule f.inst)) }
    {
        let mut announced = Notes::new(alloc, 0)?;
        self.fault_from_start(&mut announced)
    }
}
