//! The calls and entry points of a module.

ghost use Rattle.std.specs.Prelude.{◌≡◌, ◌≤◌, ◌↔◌, ℕ, List, Some, length, map, slice_get, IsTrue};
ghost use Rattle.std.specs.Prelude.{MatchOption, IfOk};
ghost use Rattle.spv_module.specs.Operand.{PlainInst};
ghost use Rattle.spv_module.specs.Module.{plain_inst};
ghost use Rattle.spv_layout.specs.Place.{IsDefinition, AreFew};
ghost use Rattle.spv_flow.specs.calls.Calls.{IsCall};
ghost use Rattle.spv_flow.specs.calls.inner.Found.{callee_in, entry_in, ArePlaces, IsLate, IsOfDefinition};
ghost use Rattle.spv_flow.specs.calls.inner.Found.{IsThatCall, AreCalls, AreEntries};
ghost use Rattle.spv_ids.specs.Outcome.{AreNumbered};

use crate::calls::graph::Call;
use spv_ids::{Ids, named_id};
use spv_layout::{DEFINITIONS, Plan};
use spv_module::Inst;
use spv_module::opcode::{ENTRY_POINT, FUNCTION_CALL};
use std::alloc::{AllocError, Global};

/// The function that an OpFunctionCall calls.
#[inline(always)]
fn callee_of(inst: &Inst<'_>) -> Option<u32>
    ensures { result ≡ callee_in (plain_inst inst.now) }
{
    if inst.opcode != FUNCTION_CALL {
        return None;
    }
    named_id(inst, 2)
}

/// The function that an OpEntryPoint names.
#[inline(always)]
fn entry_of(inst: &Inst<'_>) -> Option<u32>
    ensures { result ≡ entry_in (plain_inst inst.now) }
{
    if inst.opcode != ENTRY_POINT {
        return None;
    }
    named_id(inst, 1)
}

/// The definition that an instruction is of, if it is of a class of sections 9 to 11.
fn definition_of(plan: &Plan, inst: u32) -> Option<u32>
    ensures { (is : List PlainInst) → ArePlaces is plan.now
        → MatchOption result ((f : ℕ) → IsLate is inst → ¬ (IsOfDefinition is inst f))
        (IsOfDefinition is inst) }
{
    let Some(place) = plan.at(inst) else {
        return None;
    };
    if place.section == DEFINITIONS {
        place.function
    } else {
        None
    }
}

/// Whether an instruction is the OpFunction of a definition.
fn is_definition(plan: &Plan, inst: u32) -> bool
    ensures { (is : List PlainInst) → ArePlaces is plan.now → IsTrue result ↔ IsDefinition is inst }
{
    match definition_of(plan, inst) {
        Some(function) => function == inst,
        None => false,
    }
}

/// The call that an instruction is.
#[inline(always)]
fn call_at(plan: &Plan, ids: &Ids, inst: &Inst<'_>, at: u32) -> Option<Call>
    ensures { (is : List PlainInst) → ArePlaces is plan.now → AreNumbered is ids.now
        → slice_get is at ≡ Some (plain_inst inst.now)
        → MatchOption result ((f g : ℕ) → ¬ (IsCall is at f g)) (IsThatCall is at) }
{
    let Some(id) = callee_of(inst) else {
        return None;
    };
    let Some(callee) = ids.definition(id) else {
        return None;
    };
    let Some(caller) = definition_of(plan, at) else {
        return None;
    };
    if is_definition(plan, callee) {
        Some(Call {
            caller,
            callee,
            inst: at,
        })
    } else {
        None
    }
}

/// The calls of a module, in order.
///
/// An `AllocError` comes only where a growth of memory was refused.
pub fn calls_of(
    alloc: Global,
    insts: &[Inst<'_>],
    plan: &Plan,
    ids: &Ids,
) -> Result<Vec<Call>, AllocError>
    requires few { AreFew insts.now }
    requires places { ArePlaces (map plain_inst insts.now) plan.now }
    requires ids { AreNumbered (map plain_inst insts.now) ids.now }
    ensures { IfOk result (λ calls. AreCalls (map plain_inst insts.now) (length insts.now) calls.items) }
{
    let mut calls = Vec::new(alloc);
    for i in plan.before_functions()..insts.len() as u32 {
        if let Some(call) = call_at(plan, ids, &insts[i as usize], i) {
            calls.push(call)?;
        }
    }
    Ok(calls)
}

/// The functions of a module's entry points.
///
/// An `AllocError` comes only where a growth of memory was refused.
pub fn entries_of(alloc: Global, insts: &[Inst<'_>], ids: &Ids) -> Result<Vec<u32>, AllocError>
    requires { AreNumbered (map plain_inst insts.now) ids.now }
    ensures { IfOk result (λ entries. AreEntries (map plain_inst insts.now) (length insts.now) entries.items) }
{
    let mut entries = Vec::new(alloc);
    for inst in insts {
        if let Some(id) = entry_of(inst) {
            if let Some(function) = ids.definition(id) {
                entries.push(function)?;
            }
        }
    }
    Ok(entries)
}
