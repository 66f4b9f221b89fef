//! The variables that all entry points have in their interfaces: these are not asked for by calls.

ghost use Rattle.std.specs.Prelude.{◌≡◌, ◌<◌, ◌^◌, ℕ, Some, IfOk, IsTrue, OnOk, length, slice_get, slice_set};
ghost use Rattle.spv_module.specs.Module.{plain_operands};
ghost use Rattle.spv_ids.specs.Definition.{IsDefinedAt};
ghost use Rattle.spv_type_forms.specs.Definitions.{IsGlobal};
ghost use Rattle.spv_interfaces.specs.inner.Counted.{AreCounts, AreRest, AreSettled, Counts, Settles};
ghost use Rattle.spv_interfaces.specs.inner.Early.{AreBetween};
ghost use Rattle.spv_interfaces.specs.inner.Entries.{Names, NamesIn};
ghost use Rattle.spv_interfaces.specs.inner.Wanted.{IsWanted};

use crate::classes::is_wanted;
use crate::entries::{entry, id_of};
use crate::used::Use;
use spv_module::{Operand, opcode};
use spv_type_forms::Definitions;
use std::alloc::{AllocError, Global};

/// Counts an entry point at an instruction: that at place `k`, where all before it are counted.
#[inline(always)]
fn count(counts: &mut Vec<usize>, number: u32, k: usize)
    requires { k < 2 ^ 63 }
    ensures { Counts k (λ v. v ≡ number) counts.old.items counts.new.items }
{
    let at = number as usize;
    if at < counts.len() && counts[at] == k {
        counts[at] = k + 1;
    }
}

/// Counts an entry point where an id is defined.
#[inline(always)]
fn count_id(counts: &mut Vec<usize>, definitions: &Definitions, x: u32, k: usize)
    requires { k < 2 ^ 63 }
    ensures { Counts k (IsDefinedAt definitions.now x) counts.old.items counts.new.items }
{
    if let Some(number) = definitions.number(x) {
        count(counts, number, k);
    }
}

/// Counts an entry point where the ids in its interface are defined.
fn count_all(
    counts: &mut Vec<usize>,
    definitions: &Definitions,
    interface: &[Operand<'_>],
    k: usize,
)
    requires { k < 2 ^ 63 }
    ensures { Counts k (NamesIn definitions.now (plain_operands interface.now)) counts.old.items counts.new.items }
{
    for operand in interface {
        if let Some(x) = id_of(*operand) {
            count_id(counts, definitions, x, k);
        }
    }
}

/// Counts an OpEntryPoint where what its interface names is defined.
fn count_entry(counts: &mut Vec<usize>, definitions: &Definitions, number: u32, k: usize)
    requires number { number < length definitions.now }
    requires k { k < 2 ^ 63 }
    ensures { Counts k (Names definitions.now number) counts.old.items counts.new.items }
{
    let Some((_, interface)) = entry(definitions.inst(number)) else {
        return;
    };
    count_all(counts, definitions, interface, k);
}

/// At each of the first so many instructions how many of some OpEntryPoints, from the first on, name what it defines.
///
/// An `AllocError` comes only where a growth of memory was refused.
pub fn counts_of(
    alloc: Global,
    definitions: &Definitions,
    end: u32,
    entries: &[u32],
) -> Result<Vec<usize>, AllocError>
    requires { (k n : ℕ) → slice_get entries.now k ≡ Some n → n < length definitions.now }
    ensures { IfOk result (λ counts. AreCounts definitions.now entries.now counts.items) }
{
    let mut counts = vec![in alloc; 0usize; end as usize]?;
    for (k, number) in entries.iter().enumerate() {
        count_entry(&mut counts, definitions, *number, k);
    }
    Ok(counts)
}

/// Whether an instruction has this count.
#[inline(always)]
fn is_full(counts: &[usize], number: u32, all: usize) -> bool
    ensures { IsTrue result → slice_get counts.now number ≡ Some all }
{
    match counts.get(number as usize) {
        Some(count) => *count == all,
        None => false,
    }
}

/// Whether an instruction has this count, or defines no variable that has to be in the interface where it is used.
#[inline(always)]
fn is_settled(
    definitions: &Definitions,
    minor: u8,
    number: u32,
    counts: &[usize],
    all: usize,
) -> bool
    requires { number < length definitions.now }
    ensures { IsTrue result → (x : ℕ) (g : IsGlobal definitions.now x) → IsWanted minor definitions.now x
        → g.place ≡ number → slice_get counts.now number ≡ Some all }
{
    let inst = definitions.inst(number);
    if inst.opcode != opcode::VARIABLE {
        return true;
    }
    if is_full(counts, number, all) {
        return true;
    }
    match inst.result_id() {
        Some(x) => !is_wanted(definitions, minor, x),
        None => true,
    }
}

/// Whether each variable that has to be in the interface where it is used has this count. The variables stand from
/// `first` on and before `end`.
pub fn are_settled(
    definitions: &Definitions,
    minor: u8,
    first: u32,
    end: u32,
    counts: &[usize],
    all: usize,
) -> bool
    requires { AreBetween definitions.now first end }
    ensures { IsTrue result → AreSettled minor definitions.now counts.now all }
{
    for number in first..end {
        if !is_settled(definitions, minor, number, counts, all) {
            return false;
        }
    }
    true
}

/// Gives an instruction this count.
#[inline(always)]
fn put_count(counts: &mut Vec<usize>, number: u32, all: usize)
    ensures { counts.new.items ≡ slice_set counts.old.items number all }
{
    let at = number as usize;
    if at < counts.len() {
        counts[at] = all;
    }
}

/// Takes a variable into a list and gives it this count, if it has another.
fn settle(
    rest: &mut Vec<u32>,
    counts: &mut Vec<usize>,
    number: u32,
    all: usize,
) -> Result<(), AllocError>
    ensures { OnOk result (Settles number all counts.old.items counts.new.items rest.old.items rest.new.items) }
{
    if is_full(counts.as_slice(), number, all) {
        return Ok(());
    }
    rest.push(number)?;
    put_count(counts, number, all);
    Ok(())
}

/// The variables that are used and have not this count, each once. They are given it.
///
/// An `AllocError` comes only where a growth of memory was refused.
pub fn rest_of(
    alloc: Global,
    uses: &[Use],
    counts: &mut Vec<usize>,
    all: usize,
) -> Result<Vec<u32>, AllocError>
    ensures { IfOk result (λ rest. AreRest uses.now counts.old.items all (length uses.now) rest.items) }
{
    let mut rest = Vec::new(alloc);
    for found in uses {
        settle(&mut rest, counts, found.variable, all)?;
    }
    Ok(rest)
}
