//! The first entry point that does not name a variable which its call tree uses.

ghost use Rattle.std.specs.Prelude.{◌≡◌, ◌≤◌, ◌<◌, ◌∷◌, [], ◌↔◌, ℕ, IfOk, IsTrue, MatchOption, Some, length, map};
ghost use Rattle.std.specs.Prelude.{slice_get};
ghost use Rattle.spv_table.specs.Table.{Table};
ghost use Rattle.spv_module.specs.Module.{plain_inst, plain_operands};
ghost use Rattle.spv_layout.specs.Place.{AreFew};
ghost use Rattle.spv_layout.specs.Plan.{IsPlan};
ghost use Rattle.spv_ids.specs.Outcome.{IsDefinitionOf, definition_in};
ghost use Rattle.spv_flow.specs.calls.inner.Found.{AreCalls};
ghost use Rattle.spv_interfaces.specs.inner.Cleared.{AreFresh};
ghost use Rattle.spv_interfaces.specs.inner.Entries.{Begins, IsEntered, IsFirstAmong, IsUnnamed, Names, NamesIn};
ghost use Rattle.spv_interfaces.specs.inner.Lacking.{AreAll};
ghost use Rattle.spv_interfaces.specs.inner.Marks.{Adds, HasBit, IsMarked};
ghost use Rattle.spv_interfaces.specs.inner.Uses.{AreUses};

use crate::cleared::{clear_calls, end_all};
use crate::counted::{are_settled, counts_of, rest_of};
use crate::entries::{entry, id_of};
use crate::lacking::first_by_variables;
use crate::marks::{Marks, TOGETHER, bit, enter, spread};
use crate::order::callers_first;
use crate::tree::Tree;
use crate::used::{Use, first_variable, past_variables, uses_of};
use spv_flow::calls::calls_of;
use spv_ids::Ids;
use spv_layout::Plan;
use spv_module::{Inst, Operand};
use spv_type_forms::Definitions;
use std::alloc::{AllocError, Global};

/// Takes note of the ids in an interface.
fn name_all(named: &mut Vec<u64>, definitions: &Definitions, interface: &[Operand<'_>], bits: u64)
    ensures { Adds bits (NamesIn definitions.now (plain_operands interface.now)) named.old.items named.new.items }
{
    for operand in interface {
        if let Some(x) = id_of(*operand) {
            enter(named, definitions, x, bits);
        }
    }
}

/// Takes note of the function and the interface of an OpEntryPoint by bits.
fn begin(marks: &mut Marks, definitions: &Definitions, number: u32, bits: u64)
    requires { number < length definitions.now }
    ensures reached { Adds bits (Begins definitions.now number) marks.old.reached.items marks.new.reached.items }
    ensures named { Adds bits (Names definitions.now number) marks.old.named.items marks.new.named.items }
{
    let Some((f, interface)) = entry(definitions.inst(number)) else {
        return;
    };
    enter(&mut marks.reached, definitions, f, bits);
    name_all(&mut marks.named, definitions, interface, bits);
}

/// Whether a word has a bit.
fn has_bit(word: u64, k: usize) -> bool
    requires { k < 64 }
    ensures { IsTrue result ↔ HasBit word k }
{
    (word >> k) & 1 == 1
}

/// Takes note of at most 64 OpEntryPoints in marks of which none is set: the bit of each is its place among them.
fn begin_all(marks: &mut Marks, definitions: &Definitions, few: &[u32])
    requires few { length few.now ≤ 64 }
    requires within { (k n : ℕ) → slice_get few.now k ≡ Some n → n < length definitions.now }
    requires fresh { AreFresh (length definitions.now) marks.old.reached.items marks.old.named.items }
    ensures reached_count { length marks.new.reached.items ≡ length definitions.now }
    ensures named_count { length marks.new.named.items ≡ length definitions.now }
    ensures reached { (f k : ℕ) → IsMarked marks.new.reached.items f k
        ↔ IsEntered (Begins definitions.now) few.now (length few.now) f k }
    ensures named { (v k : ℕ) → IsMarked marks.new.named.items v k
        ↔ IsEntered (Names definitions.now) few.now (length few.now) v k }
{
    for (k, number) in few.iter().enumerate() {
        begin(marks, definitions, *number, bit(k));
    }
}

/// The first of at most 64 numbers whose bit is set; that of the first is the lowest.
fn first_of(few: &[u32], bits: u64) -> Option<u32>
    requires { length few.now ≤ 64 }
    ensures { MatchOption result ((k n : ℕ) → slice_get few.now k ≡ Some n → ¬ (HasBit bits k))
        (λ n. (k : ℕ) × (slice_get few.now k ≡ Some n) × HasBit bits k × ((j : ℕ) → j < k → ¬ (HasBit bits j))) }
{
    for (k, number) in few.iter().enumerate() {
        if has_bit(bits, k) {
            return Some(*number);
        }
    }
    None
}

/// The first of at most 64 OpEntryPoints that does not name a variable which its call tree uses. No mark is set before,
/// and none after.
fn first_of_few(
    marks: &mut Marks,
    definitions: &Definitions,
    tree: &Tree<'_>,
    few: &[u32],
) -> Option<u32>
    requires few { length few.now ≤ 64 }
    requires within { (k n : ℕ) → slice_get few.now k ≡ Some n → n < length definitions.now }
    requires calls { AreCalls definitions.now (length definitions.now) tree.now.calls.now }
    requires fresh { AreFresh (length definitions.now) marks.old.reached.items marks.old.named.items }
    ensures fresh { AreFresh (length definitions.now) marks.new.reached.items marks.new.named.items }
    ensures first { (G : Table) (minor : ℕ)
        → AreUses G minor definitions.now (length definitions.now) tree.now.uses.now
        → IsFirstAmong (IsUnnamed G minor definitions.now) few.now result }
{
    begin_all(marks, definitions, few);
    spread(&mut marks.reached, tree.calls, tree.order);
    let missing = marks.missing(tree.uses);
    clear_calls(&mut marks.reached, tree.calls);
    end_all(marks, definitions, few);
    first_of(few, missing)
}

/// The first of some OpEntryPoints that does not name a variable which its call tree uses. No mark is set before.
fn first_missing(
    marks: &mut Marks,
    definitions: &Definitions,
    tree: &Tree<'_>,
    entries: &[u32],
) -> Option<u32>
    requires within { (k n : ℕ) → slice_get entries.now k ≡ Some n → n < length definitions.now }
    requires calls { AreCalls definitions.now (length definitions.now) tree.now.calls.now }
    requires fresh { AreFresh (length definitions.now) marks.old.reached.items marks.old.named.items }
    ensures { (G : Table) (minor : ℕ)
        → AreUses G minor definitions.now (length definitions.now) tree.now.uses.now
        → IsFirstAmong (IsUnnamed G minor definitions.now) entries.now result }
{
    let mut at = 0;
    while at < entries.len() {
        let to = entries.len().min(at + TOGETHER);
        if let Some(number) = first_of_few(marks, definitions, tree, &entries[at..to]) {
            return Some(number);
        }
        at = to;
    }
    None
}

/// The first of some OpEntryPoints that does not name a variable which its call tree uses. `rest` has what they lack.
///
/// Time is linear in the words of the module times a 64th of the entry points, or of `rest`, whichever are fewer. An
/// `AllocError` comes only where a growth of memory was refused.
fn first_by_tree(
    alloc: Global,
    definitions: &Definitions,
    total: usize,
    tree: &Tree<'_>,
    rest: &[u32],
    entries: &[u32],
) -> Result<Option<u32>, AllocError>
    requires total { total ≡ length definitions.now }
    requires within { (k n : ℕ) → slice_get entries.now k ≡ Some n → n < length definitions.now }
    requires calls { AreCalls definitions.now (length definitions.now) tree.now.calls.now }
    ensures { (G : Table) (minor : ℕ)
        → AreUses G minor definitions.now (length definitions.now) tree.now.uses.now
        → AreAll G minor definitions.now entries.now rest.now
        → IfOk result (IsFirstAmong (IsUnnamed G minor definitions.now) entries.now) }
{
    if rest.len() / TOGETHER < entries.len() / TOGETHER {
        let found = first_by_variables(alloc, definitions, total, tree, rest, entries)?;
        return Ok(found);
    }
    let mut marks = Marks::new(alloc, total)?;
    Ok(first_missing(&mut marks, definitions, tree, entries))
}

/// The first of some OpEntryPoints that does not name a variable which its call tree uses, by all uses. `rest` has what
/// they lack.
fn first_by_calls(
    alloc: Global,
    definitions: &Definitions,
    insts: &[Inst<'_>],
    plan: &Plan,
    ids: &Ids,
    uses: &[Use],
    rest: &[u32],
    entries: &[u32],
) -> Result<Option<u32>, AllocError>
    requires few { AreFew insts.now }
    requires same { definitions.now ≡ map plain_inst insts.now }
    requires plan { (G : Table) × IsPlan G (map plain_inst insts.now) plan.now }
    requires ids { (x : ℕ) → IsDefinitionOf (map plain_inst insts.now) x (definition_in ids.now x) }
    requires within { (k n : ℕ) → slice_get entries.now k ≡ Some n → n < length definitions.now }
    ensures { (G : Table) (minor : ℕ) → AreUses G minor definitions.now (length definitions.now) uses.now
        → AreAll G minor definitions.now entries.now rest.now
        → IfOk result (IsFirstAmong (IsUnnamed G minor definitions.now) entries.now) }
{
    let calls = calls_of(alloc, insts, plan, ids)?;
    let order = callers_first(alloc, insts.len(), calls.as_slice())?;
    let tree = Tree {
        calls: calls.as_slice(),
        order: order.as_slice(),
        uses,
    };
    let found = first_by_tree(alloc, definitions, insts.len(), &tree, rest, entries)?;
    Ok(found)
}

/// The first of some OpEntryPoints that does not name a variable which its call tree uses, in a module of version
/// 1.`minor`. Where all of them name each variable, or each that is used, no call is looked at.
pub fn first_unnamed(
    alloc: Global,
    definitions: &Definitions,
    insts: &[Inst<'_>],
    plan: &Plan,
    ids: &Ids,
    minor: u8,
    entries: &[u32],
) -> Result<Option<u32>, AllocError>
    requires few { AreFew insts.now }
    requires same { definitions.now ≡ map plain_inst insts.now }
    requires plan { (G : Table) × IsPlan G (map plain_inst insts.now) plan.now }
    requires ids { (x : ℕ) → IsDefinitionOf (map plain_inst insts.now) x (definition_in ids.now x) }
    requires within { (k n : ℕ) → slice_get entries.now k ≡ Some n → n < length insts.now }
    ensures { (G : Table) → IsPlan G (map plain_inst insts.now) plan.now
        → IfOk result (IsFirstAmong (IsUnnamed G minor definitions.now) entries.now) }
{
    let start = plan.before_functions();
    let Some(first) = first_variable(definitions, start) else {
        return Ok(None);
    };
    let end = past_variables(definitions, first, start);
    let mut counts = counts_of(alloc, definitions, end, entries)?;
    let all = entries.len();
    if are_settled(definitions, minor, first, end, counts.as_slice(), all) {
        return Ok(None);
    }
    let total = insts.len() as u32;
    let uses = uses_of(alloc, definitions, minor, first, end, start, total)?;
    let rest = rest_of(alloc, uses.as_slice(), &mut counts, all)?;
    if rest.is_empty() {
        return Ok(None);
    }
    let found = first_by_calls(
        alloc,
        definitions,
        insts,
        plan,
        ids,
        uses.as_slice(),
        rest.as_slice(),
        entries,
    )?;
    Ok(found)
}
