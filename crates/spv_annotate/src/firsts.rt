//! The first instruction that defines or names an id.

ghost use Rattle.std.specs.Prelude.{◌≡◌, ◌≤◌, ◌<◌, ◌+◌, ◌&&◌, ℕ, Some, if◌then◌else◌, IfOk, OnOk, length, map};
ghost use Rattle.std.specs.Prelude.{option_and_then};
ghost use Rattle.std.specs.List.{list_any};
ghost use Rattle.spv_table.specs.Lookups.{is_number};
ghost use Rattle.spv_module.specs.Module.{plain_inst};
ghost use Rattle.spv_layout.specs.Place.{AreFew};
ghost use Rattle.spv_annotate.specs.Module as specs;
ghost use Rattle.spv_annotate.specs.Module.{definition_of, function_of, naming_of};
ghost use Rattle.spv_annotate.specs.Page.{if_asked};
ghost use Rattle.spv_annotate.specs.inner.Known.{asked_below, is_naming};
ghost use Rattle.spv_annotate.specs.inner.Numbers.{kept};

use crate::numbers::Numbers;
use crate::outline::{function_at, function_behind, is_in_asked};
use spv_module::{Inst, opcode};
use spv_names::{Naming, named};
use std::alloc::{AllocError, Global};

/// Keeps a number of an id, if there is one.
fn keep(numbers: &mut Numbers, id: Option<u32>, number: u32) -> Result<(), AllocError>
    requires { number < 4294967295 }
    ensures { OnOk result ((x : ℕ) → kept numbers.new x
        ≡ (if is_number x id then Some number else kept numbers.old x)) }
{
    match id {
        Some(id) => numbers.put(id, number),
        None => Ok(()),
    }
}

/// The id that an instruction names, if it is an OpName.
#[inline(always)]
fn named_by(inst: &Inst<'_>) -> Option<u32>
    ensures { result ≡ specs.named_by (plain_inst inst.now) }
{
    // Most are none, as is seen without a call.
    if inst.opcode != opcode::NAME {
        return None;
    }
    let (id, _) = named(Naming::Name, inst)?;
    Some(id)
}

/// Of each id the first instruction that defines it: that has it as its result.
///
/// An `AllocError` comes only where a growth of memory was refused.
pub fn find_definitions(alloc: Global, insts: &[Inst<'_>]) -> Result<Numbers, AllocError>
    requires { AreFew insts.now }
    ensures { IfOk result (λ n. (x : ℕ) → kept n x ≡ definition_of (map plain_inst insts.now) x) }
{
    let mut numbers = Numbers::new(alloc, insts.len() as u32)?;
    let mut at = insts.len();
    while at > 0 {
        at -= 1;
        keep(&mut numbers, insts[at].result_id(), at as u32)?;
    }
    Ok(numbers)
}

/// Keeps the number of an instruction of the id that it defines, if it is the first that does.
#[inline(always)]
fn keep_first(
    numbers: &mut Numbers,
    definitions: &Numbers,
    id: Option<u32>,
    number: u32,
) -> Result<(), AllocError>
    requires { number < 4294967295 }
    ensures { OnOk result ((x : ℕ) → kept numbers.new x
        ≡ (if is_number x id && is_number number (kept definitions.now x) then Some number
        else kept numbers.old x)) }
{
    match id {
        Some(id) if definitions.get(id) == Some(number) => numbers.put(id, number),
        _ => Ok(()),
    }
}

/// Keeps the number of an instruction of the id that it defines, if it is the first that does and is asked for.
/// `function` is the function that it is of.
fn keep_asked(
    numbers: &mut Numbers,
    insts: &[Inst<'_>],
    definitions: &Numbers,
    asked: Option<u32>,
    function: Option<u32>,
    at: u32,
) -> Result<(), AllocError>
    requires within { at < length insts.now }
    requires few { at < 4294967295 }
    requires definitions { (x : ℕ) → kept definitions.now x ≡ definition_of (map plain_inst insts.now) x }
    requires function { function ≡ function_of (map plain_inst insts.now) at }
    requires before { (x : ℕ) → kept numbers.old x
        ≡ asked_below (map plain_inst insts.now) asked at (definition_of (map plain_inst insts.now) x) }
    ensures { OnOk result ((x : ℕ) → kept numbers.new x
        ≡ asked_below (map plain_inst insts.now) asked (at + 1) (definition_of (map plain_inst insts.now) x)) }
{
    if !is_in_asked(insts, asked, function) {
        return Ok(());
    }
    keep_first(numbers, definitions, insts[at as usize].result_id(), at)
}

/// Of each id the first instruction that defines it, if that is asked for.
///
/// An `AllocError` comes only where a growth of memory was refused.
pub fn find_asked(
    alloc: Global,
    insts: &[Inst<'_>],
    definitions: &Numbers,
    asked: Option<u32>,
) -> Result<Numbers, AllocError>
    requires few { AreFew insts.now }
    requires definitions { (x : ℕ) → kept definitions.now x ≡ definition_of (map plain_inst insts.now) x }
    ensures { IfOk result (λ n. (x : ℕ) → kept n x
        ≡ option_and_then (if_asked (map plain_inst insts.now) asked) (definition_of (map plain_inst insts.now) x)) }
{
    let mut numbers = Numbers::new(alloc, insts.len() as u32)?;
    let mut before = None;
    for at in 0..insts.len() {
        let code = insts[at].opcode;
        let function = function_at(before, at as u32, code);
        keep_asked(&mut numbers, insts, definitions, asked, function, at as u32)?;
        before = function_behind(function, code);
    }
    Ok(numbers)
}

/// Whether one of some instructions is an OpName.
pub fn has_names(insts: &[Inst<'_>]) -> bool
    ensures { result ≡ list_any is_naming (map plain_inst insts.now) }
{
    for inst in insts {
        if inst.opcode == opcode::NAME {
            return true;
        }
    }
    false
}

/// Of each id the first OpName that names it.
///
/// An `AllocError` comes only where a growth of memory was refused.
pub fn find_namings(alloc: Global, insts: &[Inst<'_>]) -> Result<Numbers, AllocError>
    requires { AreFew insts.now }
    ensures { IfOk result (λ n. (x : ℕ) → kept n x ≡ naming_of (map plain_inst insts.now) x) }
{
    let mut numbers = Numbers::new(alloc, insts.len() as u32)?;
    let mut at = insts.len();
    while at > 0 {
        at -= 1;
        keep(&mut numbers, named_by(&insts[at]), at as u32)?;
    }
    Ok(numbers)
}
