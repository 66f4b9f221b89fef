//! The definitions of ids, as far as the first one that is out of range or comes again.

ghost use Rattle.std.specs.Prelude.{◌≡◌, ◌<◌, ◌≤◌, ◌↔◌, ℕ, List, length, map, ◌+◌, IfOk};
ghost use Rattle.std.specs.Prelude.{OnOk, IsTrue, MatchOption, MatchBool, Some, None, slice_get};
ghost use Rattle.spv_module.specs.Operand.{PlainInst};
ghost use Rattle.spv_module.specs.Module.{plain_inst};
ghost use Rattle.spv_layout.specs.Place.{AreFew, IsOfFunction, IsOfSection};
ghost use Rattle.spv_ids.specs.Definition.{IsDefinedAt};
ghost use Rattle.spv_ids.specs.Broken.{IsOutOfRange};
ghost use Rattle.spv_ids.specs.inner.Notes.{kept};
ghost use Rattle.spv_ids.specs.inner.Uses.{AreEarly};
ghost use Rattle.spv_ids.specs.inner.Known.{AreFirst, AreLater, IsEnd, IsHome, IsAsLocal, IsFunctionOf};
ghost use Rattle.spv_ids.specs.inner.Survey.{ArePlaces};

use crate::notes::{NONE, Notes};
use crate::room::sparse_room;
use crate::uses::result_of;
use spv_layout::Plan;
use spv_module::Inst;
use std::alloc::{AllocError, Global};

/// The definitions before an instruction.
#[derive(Drop)]
pub struct Firsts {
    /// Of each id the instruction before `end` that defines it.
    pub definitions: Notes,
    /// The first instruction whose result is out of range or has an earlier definition, or the number of instructions.
    pub end: u32,
    /// How many they are.
    pub count: u32,
}

/// Whether an id is 0 or not below the bound.
#[inline(always)]
pub fn is_out_of_range(bound: u32, id: u32) -> bool
    ensures { IsTrue result ↔ IsOutOfRange bound id }
{
    id == 0 || bound <= id
}

/// The definitions up to the first result that is out of range or comes again. `room` keeps nothing yet.
///
/// An `AllocError` comes only where a growth of memory was refused.
#[inline(never)]
fn first_definitions(insts: &[Inst<'_>], bound: u32, room: Notes) -> Result<Firsts, AllocError>
    requires most { AreFew insts.now }
    requires results { AreEarly (map plain_inst insts.now) }
    requires empty { (x : ℕ) → kept room x ≡ None }
    ensures firsts { IfOk result (λ f. AreFirst bound (map plain_inst insts.now) f.end f.definitions) }
    ensures end { IfOk result (λ f. IsEnd bound (map plain_inst insts.now) f.end) }
    ensures within { IfOk result (λ f. f.end ≤ length insts.now) }
{
    let mut definitions = room;
    let mut count = 0;
    for (i, inst) in insts.iter().enumerate() {
        let at = i as u32;
        if let Some(id) = result_of(inst) {
            if is_out_of_range(bound, id) || definitions.get(id).is_some() {
                return Ok(Firsts {
                    definitions,
                    end: at,
                    count,
                });
            }
            definitions.put(id, at)?;
            count += 1;
        }
    }
    Ok(Firsts {
        definitions,
        end: insts.len() as u32,
        count,
    })
}

/// The definitions up to the first result that is out of range or comes again. Where they are all, they take at most 12
/// bytes each, and 4 more.
///
/// An `AllocError` comes only where a growth of memory was refused.
#[inline(never)]
pub fn find_definitions(alloc: Global, insts: &[Inst<'_>], bound: u32) -> Result<Firsts, AllocError>
    requires most { AreFew insts.now }
    requires results { AreEarly (map plain_inst insts.now) }
    ensures firsts { IfOk result (λ f. AreFirst bound (map plain_inst insts.now) f.end f.definitions) }
    ensures end { IfOk result (λ f. IsEnd bound (map plain_inst insts.now) f.end) }
    ensures within { IfOk result (λ f. f.end ≤ length insts.now) }
{
    // A list of all ids serves where at least half of them are results, and memory is taken for it where there are so
    // many instructions.
    let half = bound as usize / 2;
    if half <= insts.len() {
        let firsts = first_definitions(insts, bound, Notes::new(alloc, bound as usize)?)?;
        if half <= firsts.count as usize || (firsts.end as usize) < insts.len() {
            return Ok(firsts);
        }
    }
    first_definitions(insts, bound, sparse_room(alloc, insts)?)
}

/// The function that an instruction is of.
#[inline(always)]
pub fn function_of(plan: &Plan, inst: u32) -> Option<u32>
    ensures { (is : List PlainInst) → ArePlaces is plan.now → IsFunctionOf is inst result }
{
    match plan.at(inst) {
        Some(place) => place.function,
        None => None,
    }
}

/// The function that an instruction is of, or `NONE`.
#[inline(always)]
pub fn floor_of(plan: &Plan, inst: u32) -> u32
    ensures function { (is : List PlainInst) → ArePlaces is plan.now → result < 4294967295
        → IsOfFunction is inst result }
    ensures home { (is : List PlainInst) (f : ℕ) → ArePlaces is plan.now → inst ≤ result
        → ¬ (IsHome is inst f) }
{
    match function_of(plan, inst) {
        Some(function) => function,
        None => NONE,
    }
}

/// The section that an instruction stands in.
#[inline(always)]
pub fn section_of(plan: &Plan, inst: u32) -> u8
    requires { inst < length plan.now }
    ensures { (is : List PlainInst) → ArePlaces is plan.now → IsOfSection is inst result }
{
    let Some(place) = plan.at(inst) else {
        unreachable!();
    };
    place.section
}

/// The function in which an instruction stands, after its OpFunction.
#[inline(always)]
pub fn home(plan: &Plan, inst: u32) -> Option<u32>
    ensures { (is : List PlainInst) → (x : ℕ) → ArePlaces is plan.now → IsDefinedAt is x inst
        → MatchOption result ((f : ℕ) → ¬ (IsHome is inst f)) (λ f. IsHome is inst f) }
{
    let Some(place) = plan.at(inst) else {
        return None;
    };
    match place.function {
        Some(function) => if function == inst {
            None
        } else {
            Some(function)
        },
        None => None,
    }
}

/// Whether one definition of an id is to be kept rather than another: where only it is local, or it is local to the
/// function `here`.
fn is_more_local(plan: &Plan, here: Option<u32>, one: u32, other: u32) -> bool
    ensures { (is : List PlainInst) (x from : ℕ) → ArePlaces is plan.now → IsFunctionOf is from here
        → IsDefinedAt is x one → IsDefinedAt is x other
        → MatchBool result (IsAsLocal is from one other) (IsAsLocal is from other one) }
{
    if other <= floor_of(plan, other) {
        return true;
    }
    let function = floor_of(plan, one);
    if one <= function {
        return false;
    }
    here == Some(function)
}

/// Keeps a definition of an id, if it is the first or more local than the one before.
fn keep_later(
    later: &mut Notes,
    plan: &Plan,
    here: Option<u32>,
    id: u32,
    at: u32,
) -> Result<(), AllocError>
    requires { at < 4294967295 }
    ensures { OnOk result ((is : List PlainInst) (from : ℕ) → ArePlaces is plan.now → IsFunctionOf is from here
        → from ≤ at → IsDefinedAt is id at
        → AreLater is from at later.old → AreLater is from (at + 1) later.new) }
{
    let keep = match later.get(id) {
        Some(other) => is_more_local(plan, here, at, other),
        None => true,
    };
    if keep {
        later.put(id, at)?;
    }
    Ok(())
}

/// The definitions from an instruction on: of each id the most local one, by the function of that instruction. `places`
/// is how many small ids are kept in a list.
///
/// An `AllocError` comes only where a growth of memory was refused.
#[inline(never)]
pub fn later_definitions(
    alloc: Global,
    insts: &[Inst<'_>],
    plan: &Plan,
    from: u32,
    places: usize,
) -> Result<Notes, AllocError>
    requires most { AreFew insts.now }
    requires places { ArePlaces (map plain_inst insts.now) plan.now }
    ensures { IfOk result (λ later. AreLater (map plain_inst insts.now) from
        (length (map plain_inst insts.now)) later) }
{
    let Some(place) = plan.at(from) else {
        return Notes::new(alloc, 0);
    };
    let mut later = Notes::new(alloc, places)?;
    for i in from as usize..insts.len() {
        if let Some(id) = result_of(&insts[i]) {
            keep_later(&mut later, plan, place.function, id, i as u32)?;
        }
    }
    Ok(later)
}
