//! The rule E2: which part of it an OpEntryPoint, an OpExecutionMode, an OpExecutionModeId or an OpFunction breaks.

ghost use Rattle.std.specs.Prelude.{◌≡◌, ◌↔◌, ◌<◌, ℕ, IsTrue, MatchOption, Some, length};
ghost use Rattle.std.specs.Prelude.{map, slice_get};
ghost use Rattle.spv_module.specs.Operand.{PlainInst};
ghost use Rattle.spv_module.specs.Module.{plain_inst, plain_operands};
ghost use Rattle.spv_module.specs.declared.opcode.TheConstants as opcode;
ghost use Rattle.spv_layout.specs.Place.{IsDefinition, AreFew};
ghost use Rattle.spv_capabilities.specs.Entry.{IsKernelFunction, IsSoundEntry, called_by, entered_by, second_id};
ghost use Rattle.spv_capabilities.specs.Asked.{IsImported};
ghost use Rattle.spv_capabilities.specs.inner.Entry.{IsSoundLinkage};
ghost use Rattle.spv_capabilities.specs.Keeps.{KeepsEntries};
ghost use Rattle.spv_form_evidence.specs.capabilities.Evidence.{IsUnsound};
ghost use Rattle.spv_form_evidence.specs.capabilities.inner.Calls.{AreNoCalls, IsCallOf};
ghost use Rattle.spv_form_evidence.specs.capabilities.inner.Models.{HasKernelModel};

use crate::capabilities::import::first_import;
use spv_capabilities::{Survey, returns_void};
use spv_evidence::EntryPart;
use spv_module::{Inst, Operand, opcode};

/// The function that an instruction calls.
fn called(inst: &Inst<'_>) -> Option<u32>
    ensures { result ≡ called_by (plain_inst inst.now) }
{
    if inst.opcode != opcode::FUNCTION_CALL {
        return None;
    }
    match inst.operands.as_slice() {
        [
            Operand::OfType(_),
            Operand::Result(_),
            Operand::Id(function),
            ..
        ] => Some(*function),
        _ => None,
    }
}

/// Whether an instruction calls a function.
fn calls(inst: &Inst<'_>, function: u32) -> bool
    ensures { IsTrue result ↔ (called_by (plain_inst inst.now) ≡ Some function) }
{
    match called(inst) {
        Some(id) => id == function,
        None => false,
    }
}

/// The first instruction that calls a function.
fn first_call(insts: &[Inst<'_>], function: u32) -> Option<u32>
    requires { AreFew insts.now }
    ensures { MatchOption result (AreNoCalls (map plain_inst insts.now) function)
        (IsCallOf (map plain_inst insts.now) function) }
{
    for number in 0..insts.len() as u32 {
        if calls(&insts[number as usize], function) {
            return Some(number);
        }
    }
    None
}

/// The part of E2 that an OpEntryPoint of the function of an id breaks, beside its model.
fn function_part(survey: &Survey<'_, '_>, insts: &[Inst<'_>], id: u32) -> EntryPart
    requires most { AreFew insts.now }
    requires surveyed { survey.now.insts ≡ map plain_inst insts.now }
    requires broken { ¬ (IsKernelFunction survey.now.insts id) }
    ensures { (n : ℕ) (i : PlainInst) → i.opcode ≡ opcode.ENTRY_POINT → entered_by i ≡ Some id
        → IsUnsound survey.now.table survey.now.insts n i result }
{
    let Some(function) = survey.definition(id) else {
        return EntryPart::Declared;
    };
    if !survey.is_definition(function) {
        return EntryPart::Declared;
    }
    if !returns_void(survey, function) {
        return EntryPart::Returns;
    }
    let Some(inst) = first_call(insts, id) else {
        unreachable!();
    };
    EntryPart::Called { inst }
}

/// Whether the first operand is the execution model Kernel.
fn has_kernel_model(operands: &[Operand<'_>]) -> bool
    ensures { IsTrue result ↔ HasKernelModel (plain_operands operands.now) }
{
    match operands {
        [Operand::Value { value: 6, .. }, ..] => true,
        _ => false,
    }
}

/// The function that the operands of an OpEntryPoint name.
fn entered(operands: &[Operand<'_>]) -> Option<u32>
    ensures { result ≡ second_id (plain_operands operands.now) }
{
    match operands {
        [Operand::Value { .. }, Operand::Id(function), ..] => Some(*function),
        _ => None,
    }
}

/// The part of E2 that an OpEntryPoint with these operands breaks.
fn entry_part(survey: &Survey<'_, '_>, insts: &[Inst<'_>], operands: &[Operand<'_>]) -> EntryPart
    requires most { AreFew insts.now }
    requires surveyed { survey.now.insts ≡ map plain_inst insts.now }
    requires broken { ¬ (IsSoundEntry survey.now.insts (plain_operands operands.now)) }
    ensures { (n : ℕ) (i : PlainInst) → i.opcode ≡ opcode.ENTRY_POINT
        → i.operands ≡ plain_operands operands.now → IsUnsound survey.now.table survey.now.insts n i result }
{
    if !has_kernel_model(operands) {
        return EntryPart::Model;
    }
    match entered(operands) {
        Some(id) => function_part(survey, insts, id),
        None => EntryPart::Declared,
    }
}

/// Whether the OpFunction of a number is that of a definition, and is imported.
fn is_imported_definition(survey: &Survey<'_, '_>, number: u32) -> bool
    requires { number < length survey.now.insts }
    ensures { IsTrue result ↔
        (IsImported survey.now.table survey.now.insts number × IsDefinition survey.now.insts number) }
{
    survey.is_imported(number) && survey.is_definition(number)
}

/// The part of E2 that the OpFunction of a number breaks: it is a definition and imported, or neither.
fn linkage_part(survey: &Survey<'_, '_>, insts: &[Inst<'_>], number: u32) -> EntryPart
    requires most { AreFew insts.now }
    requires surveyed { survey.now.insts ≡ map plain_inst insts.now }
    requires within { number < length survey.now.insts }
    requires broken { ¬ (IsSoundLinkage survey.now.table survey.now.insts number) }
    ensures { (i : PlainInst) → i.opcode ≡ opcode.FUNCTION
        → IsUnsound survey.now.table survey.now.insts number i result }
{
    if is_imported_definition(survey, number) {
        EntryPart::Imported {
            inst: first_import(survey, insts, number),
        }
    } else {
        EntryPart::Missing
    }
}

/// The part of E2 that is broken at an instruction of a number.
pub fn part(survey: &Survey<'_, '_>, insts: &[Inst<'_>], number: u32, inst: &Inst<'_>) -> EntryPart
    requires most { AreFew insts.now }
    requires surveyed { survey.now.insts ≡ map plain_inst insts.now }
    requires there { slice_get survey.now.insts number ≡ Some (plain_inst inst.now) }
    requires broken { ¬ (KeepsEntries survey.now.table survey.now.insts number (plain_inst inst.now)) }
    ensures { IsUnsound survey.now.table survey.now.insts number (plain_inst inst.now) result }
{
    match inst.opcode {
        opcode::ENTRY_POINT => entry_part(survey, insts, inst.operands.as_slice()),
        opcode::EXECUTION_MODE => EntryPart::Unnamed,
        opcode::EXECUTION_MODE_ID => EntryPart::Unnamed,
        _ => linkage_part(survey, insts, number),
    }
}
