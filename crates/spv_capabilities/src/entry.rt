//! The memory model and the entry points: the rules M1, E1 and E2.

ghost use Rattle.std.specs.Prelude.{◌≡◌, ◌↔◌, ◌<◌, ℕ, IsTrue, length, Some};
ghost use Rattle.spv_module.specs.Module.{plain_inst, plain_operands};
ghost use Rattle.spv_module.specs.declared.opcode.TheConstants as opcode;
ghost use Rattle.spv_layout.specs.Place.{IsDefinition};
ghost use Rattle.spv_ids.specs.Definition.{IsDefinedAt};
ghost use Rattle.spv_ids.specs.Order.{HasOpcode};
ghost use Rattle.spv_capabilities.specs.Memory.{IsModel};
ghost use Rattle.spv_capabilities.specs.Entry.{ReturnsVoid, IsKernelFunction, IsSoundEntry, IsSoundMode};
ghost use Rattle.spv_capabilities.specs.Asked.{HasEntry};
ghost use Rattle.spv_capabilities.specs.inner.Entry.{IsCalled, IsEntered, IsSoundLinkage};
ghost use Rattle.spv_capabilities.specs.Keeps.{KeepsEntries};

use crate::surveyed::Survey;
use spv_module::{Inst, Operand, opcode};

/// The number of the execution model Kernel.
const KERNEL: u32 = 6;

/// Whether M1 is unbroken at an OpMemoryModel with these operands.
pub fn is_model(operands: &[Operand<'_>]) -> bool
    ensures { IsTrue result ↔ IsModel (plain_operands operands.now) }
{
    match operands {
        [
            Operand::Value { value: 1 | 2, .. },
            Operand::Value { value: 2, .. },
        ] => true,
        _ => false,
    }
}

/// Whether there is an OpEntryPoint, or the module has Linkage.
pub fn has_entry(survey: &Survey<'_, '_>) -> bool
    ensures { IsTrue result ↔ HasEntry survey.now.table survey.now.insts }
{
    survey.has_entry_point() || survey.has(5)
}

/// Whether an id is that of an OpTypeVoid.
fn is_void(survey: &Survey<'_, '_>, id: u32) -> bool
    ensures { IsTrue result ↔ ((n : ℕ) × IsDefinedAt survey.now.insts id n
        × HasOpcode survey.now.insts n opcode.TYPE_VOID) }
{
    match survey.definition(id) {
        Some(number) => survey.inst(number).opcode == opcode::TYPE_VOID,
        None => false,
    }
}

/// Whether the result type of a function is void.
pub fn returns_void(survey: &Survey<'_, '_>, function: u32) -> bool
    requires { function < length survey.now.insts }
    ensures { IsTrue result ↔ ReturnsVoid survey.now.insts function }
{
    match survey.inst(function).type_id() {
        Some(id) => is_void(survey, id),
        None => false,
    }
}

/// Whether a function may be that of an entry point.
fn may_enter(survey: &Survey<'_, '_>, function: u32) -> bool
    requires { function < length survey.now.insts }
    ensures { IsTrue result ↔ (IsDefinition survey.now.insts function × ReturnsVoid survey.now.insts function
        × (¬ (IsCalled survey.now.insts function))) }
{
    survey.is_definition(function) && returns_void(survey, function) && !survey.is_called(function)
}

/// Whether an id is that of a function that may be an entry point's.
fn is_kernel_function(survey: &Survey<'_, '_>, id: u32) -> bool
    ensures { IsTrue result ↔ IsKernelFunction survey.now.insts id }
{
    match survey.definition(id) {
        Some(function) => may_enter(survey, function),
        None => false,
    }
}

/// Whether an id is that of an entry point's function.
fn is_entered(survey: &Survey<'_, '_>, id: u32) -> bool
    ensures { IsTrue result ↔ ((f : ℕ) × IsDefinedAt survey.now.insts id f × IsEntered survey.now.insts f) }
{
    match survey.definition(id) {
        Some(function) => survey.is_entered(function),
        None => false,
    }
}

/// Whether E2 is unbroken at an OpEntryPoint with these operands.
fn is_sound_entry(survey: &Survey<'_, '_>, operands: &[Operand<'_>]) -> bool
    ensures { IsTrue result ↔ IsSoundEntry survey.now.insts (plain_operands operands.now) }
{
    match operands {
        [
            Operand::Value { value: model, .. },
            Operand::Id(function),
            ..
        ] => { *model == KERNEL && is_kernel_function(survey, *function) }
        _ => false,
    }
}

/// Whether E2 is unbroken at an OpExecutionMode or OpExecutionModeId with these operands.
fn is_sound_mode(survey: &Survey<'_, '_>, operands: &[Operand<'_>]) -> bool
    ensures { IsTrue result ↔ IsSoundMode survey.now.insts (plain_operands operands.now) }
{
    match operands {
        [Operand::Id(function), ..] => is_entered(survey, *function),
        _ => false,
    }
}

/// Whether E2 is unbroken at an OpFunction of a number.
fn is_sound_linkage(survey: &Survey<'_, '_>, number: u32) -> bool
    requires { number < length survey.now.insts }
    ensures { IsTrue result ↔ IsSoundLinkage survey.now.table survey.now.insts number }
{
    let defined = survey.is_definition(number);
    if survey.is_imported(number) {
        !defined
    } else {
        defined
    }
}

/// Whether E2 is unbroken at an instruction of a number, if that is an OpFunction.
#[inline(always)]
pub fn keeps_linkage(survey: &Survey<'_, '_>, number: u32, inst: &Inst<'_>) -> bool
    requires { number < length survey.now.insts }
    ensures { IsTrue result ↔ ((plain_inst inst.now).opcode ≡ opcode.FUNCTION
        → IsSoundLinkage survey.now.table survey.now.insts number) }
{
    inst.opcode != opcode::FUNCTION || is_sound_linkage(survey, number)
}

/// Whether E2 is unbroken at an instruction of a number.
pub fn keeps_entries(survey: &Survey<'_, '_>, number: u32, inst: &Inst<'_>) -> bool
    requires { number < length survey.now.insts }
    ensures { IsTrue result ↔ KeepsEntries survey.now.table survey.now.insts number (plain_inst inst.now) }
{
    match inst.opcode {
        opcode::ENTRY_POINT => is_sound_entry(survey, inst.operands.as_slice()),
        opcode::EXECUTION_MODE | opcode::EXECUTION_MODE_ID => is_sound_mode(
            survey,
            inst.operands.as_slice(),
        ),
        opcode::FUNCTION => is_sound_linkage(survey, number),
        _ => true,
    }
}
