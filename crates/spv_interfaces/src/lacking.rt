//! The first entry point that does not name a variable which its call tree uses, by the variables: each has a bit of a
//! word, which goes from the functions that use it to those that call them.

ghost use Rattle.std.specs.Prelude.{◌≡◌, ◌≤◌, ◌<◌, ◌↔◌, ℕ, IfOk, IsTrue, Some, length, slice_get};
ghost use Rattle.spv_table.specs.Table.{Table};
ghost use Rattle.spv_module.specs.Module.{plain_operands};
ghost use Rattle.spv_ids.specs.Definition.{IsDefinedAt};
ghost use Rattle.spv_flow.specs.calls.inner.Found.{AreCalls};
ghost use Rattle.spv_flow.specs.calls.inner.Graph.{AreWithin};
ghost use Rattle.spv_interfaces.specs.inner.Entries.{IsFirstAmong, IsUnnamed, NamesIn};
ghost use Rattle.spv_interfaces.specs.inner.Lacking.{AreAll, AreMarks, IsFirstPlace, IsLacking, Lacks};
ghost use Rattle.spv_interfaces.specs.inner.Marks.{HasBit, HasMarked, IsMarked};
ghost use Rattle.spv_interfaces.specs.inner.Turned.{AreTurned};
ghost use Rattle.spv_interfaces.specs.inner.Uses.{AreUses, HasUse};

use crate::entries::{entry, id_of};
use crate::marks::{Marks, TOGETHER, bit, blank, set, spread, word_at};
use crate::order::callers_first;
use crate::tree::Tree;
use crate::turned::turned_calls;
use crate::used::Use;
use spv_module::Operand;
use spv_type_forms::Definitions;
use std::alloc::{AllocError, Global};

/// Takes note of at most 64 variables in words without a bit: the bit of each is its place among them.
fn note_variables(named: &mut Vec<u64>, few: &[u32])
    requires few { length few.now ≤ 64 }
    requires blank { (v k : ℕ) → ¬ (IsMarked named.old.items v k) }
    ensures count { length named.new.items ≡ length named.old.items }
    ensures sound { (v k : ℕ) → IsMarked named.new.items v k → slice_get few.now k ≡ Some v }
    ensures complete { (v k : ℕ) → v < length named.old.items → slice_get few.now k ≡ Some v
        → IsMarked named.new.items v k }
{
    for (k, number) in few.iter().enumerate() {
        set(named, *number, bit(k));
    }
}

/// Gives each function, in words without a bit, the bits of the variables that it uses itself.
fn note_users(reached: &mut Vec<u64>, named: &[u64], uses: &[Use])
    requires { (f k : ℕ) → ¬ (IsMarked reached.old.items f k) }
    ensures count { length reached.new.items ≡ length reached.old.items }
    ensures sound { (f k : ℕ) → IsMarked reached.new.items f k → HasMarked (HasUse uses.now f) named.now k }
    ensures complete { (f v k : ℕ) → f < length reached.old.items → HasUse uses.now f v → IsMarked named.now v k
        → IsMarked reached.new.items f k }
{
    for found in uses {
        let bits = word_at(named, found.variable);
        set(reached, found.function, bits);
    }
}

/// The marks of at most 64 variables, by calls that are turned round. There are `total` instructions.
fn marks_of(alloc: Global, total: usize, tree: &Tree<'_>, few: &[u32]) -> Result<Marks, AllocError>
    requires few { length few.now ≤ 64 }
    requires within { AreWithin total tree.now.calls.now }
    ensures { IfOk result (λ marks. AreMarks total tree.now.calls.now tree.now.uses.now few.now
        marks.reached.items marks.named.items) }
{
    let mut named = blank(alloc, total)?;
    note_variables(&mut named, few);
    let mut reached = blank(alloc, total)?;
    note_users(&mut reached, named.as_slice(), tree.uses);
    spread(&mut reached, tree.calls, tree.order);
    Ok(Marks { reached, named })
}

/// The bits of where an id is defined.
#[inline(always)]
fn bits_of(words: &[u64], definitions: &Definitions, x: u32) -> u64
    ensures { (k : ℕ) → HasBit result k ↔ HasMarked (IsDefinedAt definitions.now x) words.now k }
{
    match definitions.number(x) {
        Some(number) => word_at(words, number),
        None => 0,
    }
}

/// The bits of what an interface names.
fn bits_in(words: &[u64], definitions: &Definitions, interface: &[Operand<'_>]) -> u64
    ensures { (k : ℕ) → HasBit result k
        ↔ HasMarked (NamesIn definitions.now (plain_operands interface.now)) words.now k }
{
    let mut bits = 0;
    for operand in interface {
        if let Some(x) = id_of(*operand) {
            bits |= bits_of(words, definitions, x);
        }
    }
    bits
}

/// Whether the function of an OpEntryPoint has a bit which nothing has that the interface names.
fn is_lacking(reached: &[u64], named: &[u64], definitions: &Definitions, number: u32) -> bool
    requires { number < length definitions.now }
    ensures { IsTrue result ↔ IsLacking definitions.now reached.now named.now number }
{
    let Some((f, interface)) = entry(definitions.inst(number)) else {
        return false;
    };
    let wanted = bits_of(reached, definitions, f);
    if wanted == 0 {
        return false;
    }
    let given = bits_in(named, definitions, interface);
    wanted & !given != 0
}

/// The place of the first of the first `to` OpEntryPoints whose function has a bit which nothing has that the interface
/// names; `to` where there is none.
fn first_place(
    reached: &[u64],
    named: &[u64],
    definitions: &Definitions,
    entries: &[u32],
    to: usize,
) -> usize
    requires within { (k n : ℕ) → slice_get entries.now k ≡ Some n → n < length definitions.now }
    requires to { to ≤ length entries.now }
    ensures { IsFirstPlace (IsLacking definitions.now reached.now named.now)
        (IsLacking definitions.now reached.now named.now) entries.now to result }
{
    for at in 0..to {
        if is_lacking(reached, named, definitions, entries[at]) {
            return at;
        }
    }
    to
}

/// The place of the first of the first `to` OpEntryPoints that does not name one of at most 64 variables which its call
/// tree uses; `to` where there is none. The calls are turned round.
fn place_by_few(
    alloc: Global,
    definitions: &Definitions,
    total: usize,
    tree: &Tree<'_>,
    few: &[u32],
    entries: &[u32],
    to: usize,
) -> Result<usize, AllocError>
    requires few { length few.now ≤ 64 }
    requires total { total ≡ length definitions.now }
    requires within { (k n : ℕ) → slice_get entries.now k ≡ Some n → n < length definitions.now }
    requires turned { AreTurned definitions.now entries.now tree.now.calls.now }
    requires to { to ≤ length entries.now }
    ensures within { IfOk result (λ at. at ≤ to) }
    ensures first { (G : Table) (minor : ℕ)
        → AreUses G minor definitions.now (length definitions.now) tree.now.uses.now
        → IfOk result (IsFirstPlace (Lacks G minor definitions.now few.now (length few.now))
        (IsUnnamed G minor definitions.now) entries.now to) }
{
    let marks = marks_of(alloc, total, tree, few)?;
    Ok(first_place(
        marks.reached.as_slice(),
        marks.named.as_slice(),
        definitions,
        entries,
        to,
    ))
}

/// The place of the first of some OpEntryPoints that does not name one of some variables which its call tree uses; past
/// the last where there is none. The calls are turned round.
fn place_by_all(
    alloc: Global,
    definitions: &Definitions,
    total: usize,
    tree: &Tree<'_>,
    variables: &[u32],
    entries: &[u32],
) -> Result<usize, AllocError>
    requires total { total ≡ length definitions.now }
    requires within { (k n : ℕ) → slice_get entries.now k ≡ Some n → n < length definitions.now }
    requires turned { AreTurned definitions.now entries.now tree.now.calls.now }
    ensures { (G : Table) (minor : ℕ)
        → AreUses G minor definitions.now (length definitions.now) tree.now.uses.now
        → IfOk result (IsFirstPlace (Lacks G minor definitions.now variables.now (length variables.now))
        (IsUnnamed G minor definitions.now) entries.now (length entries.now)) }
{
    let mut place = entries.len();
    let mut at = 0;
    while at < variables.len() {
        let to = variables.len().min(at + TOGETHER);
        let few = &variables[at..to];
        place = place_by_few(alloc, definitions, total, tree, few, entries, place)?;
        at = to;
    }
    Ok(place)
}

/// The first of some OpEntryPoints that does not name a variable which its call tree uses. `variables` has what they
/// lack, and there are `total` instructions.
///
/// Time is linear in the words of the module times a 64th of the variables. An `AllocError` comes only where a growth
/// of memory was refused.
pub fn first_by_variables(
    alloc: Global,
    definitions: &Definitions,
    total: usize,
    tree: &Tree<'_>,
    variables: &[u32],
    entries: &[u32],
) -> Result<Option<u32>, AllocError>
    requires total { total ≡ length definitions.now }
    requires within { (k n : ℕ) → slice_get entries.now k ≡ Some n → n < length definitions.now }
    requires calls { AreCalls definitions.now (length definitions.now) tree.now.calls.now }
    ensures { (G : Table) (minor : ℕ)
        → AreUses G minor definitions.now (length definitions.now) tree.now.uses.now
        → AreAll G minor definitions.now entries.now variables.now
        → IfOk result (IsFirstAmong (IsUnnamed G minor definitions.now) entries.now) }
{
    let turned = turned_calls(alloc, definitions, total, tree, entries)?;
    let order = callers_first(alloc, total, turned.as_slice())?;
    let back = Tree {
        calls: turned.as_slice(),
        order: order.as_slice(),
        uses: tree.uses,
    };
    let place = place_by_all(alloc, definitions, total, &back, variables, entries)?;
    Ok(number_at(entries, place))
}

/// The number at a place of a list, if there is one.
fn number_at(list: &[u32], place: usize) -> Option<u32>
    ensures { result ≡ slice_get list.now place }
{
    list.get(place).copied()
}
