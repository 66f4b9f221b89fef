//! The calls of functions that entry points reach, the other way round: what a callee uses, its caller uses.

ghost use Rattle.std.specs.Prelude.{◌≡◌, ◌<◌, ℕ, IfOk, OnOk, Some, length, slice_get};
ghost use Rattle.spv_flow.specs.calls.inner.Found.{AreCalls};
ghost use Rattle.spv_interfaces.specs.inner.Entries.{Begins};
ghost use Rattle.spv_interfaces.specs.inner.Marks.{Adds};
ghost use Rattle.spv_interfaces.specs.inner.Turned.{AreBegun, AreLive, AreTurned, AreTurnedOf, Turns};

use crate::entries::entry;
use crate::marks::{blank, enter, spread, word_at};
use crate::tree::Tree;
use spv_flow::calls::Call;
use spv_type_forms::Definitions;
use std::alloc::{AllocError, Global};

/// Gives the function of an OpEntryPoint the bit 0.
fn begin_live(live: &mut Vec<u64>, definitions: &Definitions, number: u32)
    requires { number < length definitions.now }
    ensures { Adds 1 (Begins definitions.now number) live.old.items live.new.items }
{
    if let Some((f, _)) = entry(definitions.inst(number)) {
        enter(live, definitions, f, 1);
    }
}

/// Gives the functions of some OpEntryPoints the bit 0.
fn begin_all_live(live: &mut Vec<u64>, definitions: &Definitions, entries: &[u32])
    requires within { (k n : ℕ) → slice_get entries.now k ≡ Some n → n < length definitions.now }
    requires count { length live.old.items ≡ length definitions.now }
    ensures count { length live.new.items ≡ length definitions.now }
    ensures begun { AreBegun definitions.now entries.now (length entries.now) live.new.items }
{
    for number in entries {
        begin_live(live, definitions, *number);
    }
}

/// Words in which each function to which a chain of calls leads from an OpEntryPoint's has a bit.
fn live_functions(
    alloc: Global,
    definitions: &Definitions,
    total: usize,
    tree: &Tree<'_>,
    entries: &[u32],
) -> Result<Vec<u64>, AllocError>
    requires total { total ≡ length definitions.now }
    requires within { (k n : ℕ) → slice_get entries.now k ≡ Some n → n < length definitions.now }
    requires calls { AreCalls definitions.now (length definitions.now) tree.now.calls.now }
    ensures { IfOk result (λ live. AreLive definitions.now entries.now tree.now.calls.now live.items) }
{
    let mut live = blank(alloc, total)?;
    begin_all_live(&mut live, definitions, entries);
    spread(&mut live, tree.calls, tree.order);
    Ok(live)
}

/// Takes a call into a list, the other way round, if its caller has a bit.
fn turn(turned: &mut Vec<Call>, call: Call, live: &[u64]) -> Result<(), AllocError>
    ensures { OnOk result (Turns live.now call turned.old.items turned.new.items) }
{
    if word_at(live, call.caller) == 0 {
        return Ok(());
    }
    turned.push(Call {
        caller: call.callee,
        callee: call.caller,
        inst: call.inst,
    })?;
    Ok(())
}

/// The calls of functions that have a bit, the other way round.
fn turn_all(alloc: Global, calls: &[Call], live: &[u64]) -> Result<Vec<Call>, AllocError>
    ensures { IfOk result (λ turned. AreTurnedOf calls.now live.now (length calls.now) turned.items) }
{
    let mut turned = Vec::new(alloc);
    for call in calls {
        turn(&mut turned, *call, live)?;
    }
    Ok(turned)
}

/// The calls of functions that some OpEntryPoints reach, the other way round. Other functions may call one another in
/// a circle.
///
/// An `AllocError` comes only where a growth of memory was refused.
pub fn turned_calls(
    alloc: Global,
    definitions: &Definitions,
    total: usize,
    tree: &Tree<'_>,
    entries: &[u32],
) -> Result<Vec<Call>, AllocError>
    requires total { total ≡ length definitions.now }
    requires within { (k n : ℕ) → slice_get entries.now k ≡ Some n → n < length definitions.now }
    requires calls { AreCalls definitions.now (length definitions.now) tree.now.calls.now }
    ensures { IfOk result (λ turned. AreTurned definitions.now entries.now turned.items) }
{
    let live = live_functions(alloc, definitions, total, tree, entries)?;
    let turned = turn_all(alloc, tree.calls, live.as_slice())?;
    Ok(turned)
}
