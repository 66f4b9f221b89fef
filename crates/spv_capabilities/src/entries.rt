//! Which of the rules is broken at an instruction.

ghost use Rattle.std.specs.Prelude.{◌≡◌, ◌↔◌, ◌<◌, ℕ, IfOk, IsTrue, Some, length, slice_get};
ghost use Rattle.spv_table.specs.Table.{Table};
ghost use Rattle.spv_module.specs.Operand.{PlainInst};
ghost use Rattle.spv_module.specs.Module.{plain_inst, plain_insts};
ghost use Rattle.spv_module.specs.declared.opcode.TheConstants as opcode;
ghost use Rattle.spv_layout.specs.Plan.{IsPlan};
ghost use Rattle.spv_ids.specs.Outcome.{IsDefinitionOf, definition_in};
ghost use Rattle.spv_capabilities.specs.inner.Capable.{IsKernel};
ghost use Rattle.spv_capabilities.specs.Memory.{IsModel};
ghost use Rattle.spv_capabilities.specs.Asked.{HasEntry};
ghost use Rattle.spv_capabilities.specs.Keeps.{IsFirstAt};
ghost use Rattle.spv_capabilities.specs.inner.Known.{IsKnown};

use crate::capable::is_kernel;
use crate::entry::{has_entry, is_model, keeps_entries, keeps_linkage};
use crate::having::Capabilities;
use crate::memo::{Memo, is_asked_more};
use crate::surveyed::Survey;
use spv_ids::Ids;
use spv_layout::Plan;
use spv_module::{Inst, Module, Rule, opcode};
use spv_table::{Memory, Table};
use std::alloc::Global;
use std::marker::Model;

/// A module whose instructions are judged by the rules C1, C2, M1, E1 and E2. Contracts see the grammar table and the
/// instructions.
///
/// What a table's entries and enumerants ask for is looked up once: at the first instruction that has one.
#[derive(Drop)]
pub struct Entries<'m, 'a> {
    survey: Survey<'m, 'a>,
    /// What was asked so far.
    memo: Memo,
}

impl<'m, 'a> Model for Entries<'m, 'a> {
    ghost use Rattle.spv_capabilities.specs.inner.Subject.{Subject};
    ghost use Rattle.spv_capabilities.specs.inner.Known.{IsKnown};

    ghost Value = { Subject };

    ghost view = { λ e. e.survey };

    ghost invariant = { λ e. IsKnown e.survey e.memo };
}

/// Surveys a module, once, before its instructions are judged. `plan` is what `lay_out` answered of that module, by
/// some table, and `ids` what `number` answered.
///
/// Time is linear in the instructions, besides what the capabilities take that are declared.
///
/// `Memory` comes only where a growth of memory was refused.
pub fn survey<'m, 'a>(
    alloc: Global,
    table: &'m Table,
    module: &'m Module<'a>,
    plan: &'m Plan,
    ids: &'m Ids,
) -> Result<Entries<'m, 'a>, Memory>
    requires plan { (G : Table) × IsPlan G (plain_insts «module».now) plan.now }
    requires ids { (x : ℕ) → IsDefinitionOf (plain_insts «module».now) x (definition_in ids.now x) }
    ensures { IfOk result (λ e. e ≡ record { table = table.now; insts = plain_insts «module».now }) }
{
    let survey = Survey::new(alloc, table, module.insts.as_slice(), plan, ids)?;
    let memo = Memo::new(alloc)?;
    Ok(Entries { survey, memo })
}

/// Whether C1 is unbroken at an instruction.
fn keeps_kernel(survey: &Survey<'_, '_>, inst: &Inst<'_>) -> bool
    ensures { IsTrue result ↔ ((plain_inst inst.now).opcode ≡ opcode.MEMORY_MODEL
        → IsKernel survey.now.table survey.now.insts) }
{
    inst.opcode != opcode::MEMORY_MODEL || is_kernel(survey)
}

/// Whether M1 is unbroken at an instruction.
fn keeps_model(inst: &Inst<'_>) -> bool
    ensures { IsTrue result ↔ ((plain_inst inst.now).opcode ≡ opcode.MEMORY_MODEL
        → IsModel (plain_inst inst.now).operands) }
{
    inst.opcode != opcode::MEMORY_MODEL || is_model(inst.operands.as_slice())
}

/// Whether E1 is unbroken at an instruction.
fn keeps_entry(survey: &Survey<'_, '_>, inst: &Inst<'_>) -> bool
    ensures { IsTrue result ↔ ((plain_inst inst.now).opcode ≡ opcode.MEMORY_MODEL
        → HasEntry survey.now.table survey.now.insts) }
{
    inst.opcode != opcode::MEMORY_MODEL || has_entry(survey)
}

/// The first of the five rules that is broken at an instruction of a number, whichever speak of it.
#[inline(never)]
fn first_of_several(
    survey: &Survey<'_, '_>,
    memo: &mut Memo,
    number: u32,
    inst: &Inst<'_>,
) -> Result<Option<Rule>, Memory>
    requires number { number < length survey.now.insts }
    requires known { IsKnown survey.now memo.old }
    ensures first { IfOk result (λ o. IsFirstAt survey.now.table survey.now.insts number (plain_inst inst.now) o) }
    ensures known { IsKnown survey.now memo.new }
{
    if !keeps_kernel(survey, inst) {
        return Ok(Some(Rule::C1));
    }
    if !memo.is_capable(survey, inst)? {
        return Ok(Some(Rule::C2));
    }
    if !keeps_model(inst) {
        return Ok(Some(Rule::M1));
    }
    if !keeps_entry(survey, inst) {
        return Ok(Some(Rule::E1));
    }
    if !keeps_entries(survey, number, inst) {
        return Ok(Some(Rule::E2));
    }
    Ok(None)
}

/// The first of the five rules that is broken at an instruction of a number. At most instructions only C2 may be, by
/// its entry and its operands, and at an OpFunction E2.
#[inline(always)]
fn first_asked(
    survey: &Survey<'_, '_>,
    memo: &mut Memo,
    number: u32,
    inst: &Inst<'_>,
) -> Result<Option<Rule>, Memory>
    requires number { number < length survey.now.insts }
    requires known { IsKnown survey.now memo.old }
    ensures first { IfOk result (λ o. IsFirstAt survey.now.table survey.now.insts number (plain_inst inst.now) o) }
    ensures known { IsKnown survey.now memo.new }
{
    if is_asked_more(inst.opcode) {
        return first_of_several(survey, memo, number, inst);
    }
    if !memo.are_covered(survey, inst)? {
        return Ok(Some(Rule::C2));
    }
    if !keeps_linkage(survey, number, inst) {
        return Ok(Some(Rule::E2));
    }
    Ok(None)
}

/// The first of the five rules that is broken at an instruction of a number. Of most opcodes it is known that none is
/// broken at any of their instructions.
#[inline(always)]
fn first_of(
    survey: &Survey<'_, '_>,
    memo: &mut Memo,
    number: u32,
    inst: &Inst<'_>,
) -> Result<Option<Rule>, Memory>
    requires inst { slice_get survey.now.insts number ≡ Some (plain_inst inst.now) }
    requires known { IsKnown survey.now memo.old }
    ensures first { IfOk result (λ o. IsFirstAt survey.now.table survey.now.insts number (plain_inst inst.now) o) }
    ensures known { IsKnown survey.now memo.new }
{
    if memo.is_free(inst.opcode) {
        return Ok(None);
    }
    first_asked(survey, memo, number, inst)
}

impl<'m, 'a> Entries<'m, 'a> {
    /// The capabilities of the module, for those who ask nothing else of it. It takes no memory.
    pub fn into_capabilities(self) -> Capabilities<'m, 'a>
        ensures { result ≡ self.entry }
    {
        let Entries { survey, .. } = self;
        survey.into_capabilities()
    }

    /// The first of the rules C1, C2, M1, E1 and E2, in this order, that is broken at the instruction of a number, from
    /// 0; or none where none of them is.
    ///
    /// - C1, at OpMemoryModel: the module has not Kernel, or it has Shader (2.16.1, 3.31).
    /// - C2: the entry of the instruction in the grammar table, or an enumerant or a set bit among its operands other
    ///   than those of kind Capability, lists capabilities of which the module has none; or the module has not the
    ///   capability of a type's width or of a vector's count, or those of an image or sampler type (3.31; those of
    ///   widths and counts own).
    /// - M1, at OpMemoryModel: the addressing model is not Physical32 or Physical64, or the memory model is not OpenCL
    ///   (own).
    /// - E1, at OpMemoryModel: there is no OpEntryPoint, and the module has not Linkage (2.16.1).
    /// - E2: an OpEntryPoint of another model than Kernel, or of a function that is no definition, does not return
    ///   void, or is called; an OpExecutionMode or OpExecutionModeId of a function that is no entry point's; an
    ///   OpFunction of a declaration that is not imported, or of a definition that is (2.4, 2.16.1, 3.17).
    ///
    /// `Memory` comes only where a growth of memory was refused: what enumerants ask for is kept.
    #[inline(always)]
    pub fn first_at(&mut self, inst: u32) -> Result<Option<Rule>, Memory>
        requires { inst < length self.old.insts }
        ensures first { IfOk result (λ o. (i : PlainInst) → slice_get self.old.insts inst ≡ Some i
            → IsFirstAt self.old.table self.old.insts inst i o) }
        ensures same { self.new ≡ self.old }
    {
        let held = self.survey.inst(inst);
        self.first_in(inst, held)
    }

    /// The same, where the instruction of that number is at hand.
    #[inline(always)]
    pub fn first_in(&mut self, number: u32, inst: &Inst<'_>) -> Result<Option<Rule>, Memory>
        requires { slice_get self.old.insts number ≡ Some (plain_inst inst.now) }
        ensures first { IfOk result (λ o. IsFirstAt self.old.table self.old.insts number (plain_inst inst.now) o) }
        ensures same { self.new ≡ self.old }
    {
        first_of(&self.survey, &mut self.memo, number, inst)
    }
}
