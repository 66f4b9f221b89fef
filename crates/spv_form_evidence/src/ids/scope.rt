//! What shows that D5 is broken.

ghost use Rattle.std.specs.Prelude.{◌≡◌, ◌↔◌, ◌+◌, ℕ, List, length, map, slice_get};
ghost use Rattle.std.specs.Prelude.{Some, IsTrue, MatchOption, OnOk, IfOk};
ghost use Rattle.spv_table.specs.Table.{Table};
ghost use Rattle.spv_module.specs.Operand.{PlainInst};
ghost use Rattle.spv_module.specs.Module.{plain_inst};
ghost use Rattle.spv_module.specs.declared.fault.Rule.TheVariants.{D5};
ghost use Rattle.spv_layout.specs.First.{IsFirst};
ghost use Rattle.spv_layout.specs.Plan.{IsPlan};
ghost use Rattle.spv_layout.specs.Shape.{FitsShape};
ghost use Rattle.spv_layout.specs.Place.{AreFew};
ghost use Rattle.spv_layout.specs.Stage.{of_ids};
ghost use Rattle.spv_ids.specs.Broken.{Broken};
ghost use Rattle.spv_ids.specs.Definition.{IsDefinedAt};
ghost use Rattle.spv_ids.specs.inner.Known.{IsHome, IsFunctionOf};
ghost use Rattle.spv_form_evidence.specs.ids.Evidence.{IsEvidence};
ghost use Rattle.spv_form_evidence.specs.ids.inner.Scope.{AreLocal, IsUnscoped};
ghost use Rattle.spv_form_evidence.specs.ids.inner.Uses.{HasUse};

use crate::ids::kept::Kept;
use crate::ids::uses::use_at;
use spv_evidence::Evidence;
use spv_layout::Plan;
use spv_module::Inst;
use std::alloc::{AllocError, Global};

/// A definition that is local to a function.
#[derive(Clone, Copy)]
pub struct Local {
    /// The number of the instruction, from 0.
    pub inst: u32,
    /// That of the function's OpFunction.
    pub function: u32,
}

/// The function that an instruction is of.
fn function_of(plan: &Plan, at: u32) -> Option<u32>
    ensures { (G : Table) (is : List PlainInst) → IsPlan G is plan.now → IsFunctionOf is at result }
{
    match plan.at(at) {
        Some(place) => place.function,
        None => None,
    }
}

/// The function to which an instruction's result is local.
fn home(plan: &Plan, at: u32) -> Option<u32>
    ensures { (G : Table) (is : List PlainInst) (x : ℕ) → IsPlan G is plan.now → IsDefinedAt is x at
        → MatchOption result ((f : ℕ) → ¬ (IsHome is at f)) (λ f. IsHome is at f) }
{
    let Some(function) = function_of(plan, at) else {
        return None;
    };
    if function == at { None } else { Some(function) }
}

/// Whether a function is there and is that one.
fn is_here(here: Option<u32>, function: u32) -> bool
    ensures { IsTrue result ↔ (here ≡ Some function) }
{
    match here {
        Some(number) => number == function,
        None => false,
    }
}

/// Keeps an instruction of its result, if that is local to the function `here`, or to another and nothing is kept yet.
///
/// An `AllocError` comes only where a growth of memory was refused.
fn keep_local(
    local: &mut Kept,
    plan: &Plan,
    here: Option<u32>,
    inst: &Inst<'_>,
    at: u32,
) -> Result<(), AllocError>
    ensures { OnOk result ((G : Table) (is : List PlainInst) (bound : ℕ) → IsPlan G is plan.now
        → slice_get is at ≡ Some (plain_inst inst.now)
        → AreLocal bound is here at local.old → AreLocal bound is here (at + 1) local.new) }
{
    let Some(id) = inst.result_id() else {
        return Ok(());
    };
    let Some(function) = home(plan, at) else {
        return Ok(());
    };
    if is_here(here, function) || local.is_free(id) {
        local.put(id, at)?;
    }
    Ok(())
}

/// Of each id below the bound a definition that is local to a function, and to the function `here` if one is.
///
/// An `AllocError` comes only where a growth of memory was refused.
fn local_definitions(
    alloc: Global,
    insts: &[Inst<'_>],
    plan: &Plan,
    bound: u32,
    here: Option<u32>,
) -> Result<Kept, AllocError>
    requires few { AreFew insts.now }
    requires plan { (G : Table) × IsPlan G (map plain_inst insts.now) plan.now }
    ensures { IfOk result (λ l. AreLocal bound (map plain_inst insts.now) here (length (map plain_inst insts.now)) l) }
{
    let mut local = Kept::new(alloc, bound, insts.len())?;
    for i in 0..insts.len() {
        keep_local(&mut local, plan, here, &insts[i], i as u32)?;
    }
    Ok(local)
}

/// A local definition of the id that operand `k` of an instruction uses, if the use is not in scope. `here` is the
/// function that the instruction is of.
fn unscoped(
    local: &Kept,
    plan: &Plan,
    here: Option<u32>,
    inst: &Inst<'_>,
    k: usize,
) -> Option<Local>
    ensures { (G : Table) (bound : ℕ) (is : List PlainInst) (n : ℕ) → IsPlan G is plan.now
        → FitsShape G (plain_inst inst.now) → IsFunctionOf is n here
        → AreLocal bound is here (length is) local.now
        → MatchOption result ((m f : ℕ) → ¬ (HasUse G (plain_inst inst.now) (IsUnscoped bound is n m f) k))
        (λ l. HasUse G (plain_inst inst.now) (IsUnscoped bound is n l.inst l.function) k) }
{
    let Some(used) = use_at(inst, k) else {
        return None;
    };
    let Some(definition) = local.get(used.id) else {
        return None;
    };
    let Some(function) = home(plan, definition) else {
        return None;
    };
    if is_here(here, function) {
        None
    } else {
        Some(Local {
            inst: definition,
            function,
        })
    }
}

/// What shows that a use of a local id stands outside each function to which it is local (D5): the first operand that
/// is such a use, a definition of the id that is local, and the function that this is local to. `at` is the number of
/// the instruction, from 0.
///
/// Time is that of the operands of the instruction and of all instructions, with a search among ids for each. Memory
/// grows with the ids that are kept, and not with the bound. An `AllocError` comes only where a growth of memory was
/// refused.
pub fn not_in_scope(
    alloc: Global,
    insts: &[Inst<'_>],
    plan: &Plan,
    bound: u32,
    at: u32,
) -> Result<Evidence, AllocError>
    requires few { AreFew insts.now }
    requires first { (G : Table) × IsPlan G (map plain_inst insts.now) plan.now
        × IsFirst (Broken G bound (map plain_inst insts.now)) of_ids D5 at }
    ensures { (G : Table) → IsPlan G (map plain_inst insts.now) plan.now
        → IfOk result (λ e. IsEvidence G bound (map plain_inst insts.now) D5 at e) }
{
    let here = function_of(plan, at);
    let local = local_definitions(alloc, insts, plan, bound, here)?;
    let inst = &insts[at as usize];
    for k in 0..inst.operands.as_slice().len() {
        if let Some(definition) = unscoped(&local, plan, here, inst, k) {
            return Ok(Evidence::Local {
                operand: k as u32,
                inst: definition.inst,
                function: definition.function,
            });
        }
    }
    unreachable!()
}
