//! Types that are declared twice.

ghost use Rattle.std.specs.Prelude.{◌≡◌, ◌≤◌, ◌+◌, ◌↔◌, ◌⊎◌, ℕ, List, Some, IsTrue, IfOk};
ghost use Rattle.std.specs.Prelude.{OnOk, slice_get, length, MatchBool, true};
ghost use Rattle.spv_module.specs.Operand.{PlainInst};
ghost use Rattle.spv_module.specs.Module.{plain_inst};
ghost use Rattle.spv_type_rules.specs.inner.Repeat as spec;
ghost use Rattle.spv_type_rules.specs.Repeat.{Repeats};
ghost use Rattle.spv_type_rules.specs.inner.Print as print;
ghost use Rattle.spv_type_rules.specs.inner.Slots as near;
ghost use Rattle.spv_type_rules.specs.inner.Slots.{IsHeld, IsPlace};
ghost use Rattle.spv_type_rules.specs.inner.Seen.{AreSeen, HasKey};

use crate::alike::are_alike;
use crate::concern::is_declared_once;
use crate::fingerprint::fingerprint_of;
use crate::key::key_of;
use spv_module::{Inst, opcode};
use std::alloc::{AllocError, Global};
use std::collections::BTreeSet;

/// In how many slots a declaration may lie: in the one that its fingerprint tells, and in those behind it.
const NEAR: usize = 4;

/// A slot for a declaration.
#[derive(Clone, Copy)]
struct Slot<'m, 'a> {
    /// The fingerprint of the declaration that lies in it.
    fingerprint: u32,
    /// That declaration; none where the slot is free.
    inst: Option<&'m Inst<'a>>,
}

/// What lies in a slot.
#[derive(Clone, Copy)]
enum Held {
    Nothing,
    /// A declaration that is alike to the one that is looked for.
    Alike,
    /// Another declaration.
    Other,
}

/// Where a declaration lies among the slots.
#[derive(Clone, Copy)]
enum Place {
    /// The slot of this number holds one that is alike.
    Taken(usize),
    /// No slot does, and it may lie in the one of this number, which is free.
    Free(usize),
    /// No slot does, and others have taken all those in which it may lie.
    Nowhere,
}

/// What a slot holds, looking for a declaration with a fingerprint.
#[inline(always)]
fn look_into(slot: &Slot<'_, '_>, fingerprint: u32, inst: &Inst<'_>) -> Held
    requires { fingerprint ≡ print.fingerprint_of (plain_inst inst.now) }
    ensures { IsHeld (plain_inst inst.now) slot.now result }
{
    match slot.inst {
        None => Held::Nothing,
        Some(other) => if slot.fingerprint == fingerprint && are_alike(inst, other) {
            Held::Alike
        } else {
            Held::Other
        },
    }
}

/// The first of the slots in which a declaration may lie, of so many.
#[inline(always)]
fn first_slot(slots: usize, fingerprint: u32) -> usize
    ensures first { result ≡ near.first_in slots fingerprint }
    ensures within { result ≤ slots }
{
    if slots == 0 {
        0
    } else {
        fingerprint as usize % slots
    }
}

/// The end of the slots in which a declaration may lie, of so many, by the first.
#[inline(always)]
fn end_after(slots: usize, first: usize) -> usize
    requires { first ≤ slots }
    ensures end { result ≡ near.end_after slots first }
    ensures within { result ≤ slots }
{
    if slots - first < NEAR {
        slots
    } else {
        first + NEAR
    }
}

/// Where a declaration lies among the slots, by its fingerprint.
fn place_of(slots: &[Slot<'_, '_>], fingerprint: u32, inst: &Inst<'_>) -> Place
    requires { fingerprint ≡ print.fingerprint_of (plain_inst inst.now) }
    ensures { IsPlace slots.now (plain_inst inst.now) result }
{
    let first = first_slot(slots.len(), fingerprint);
    let end = end_after(slots.len(), first);
    for at in first..end {
        match look_into(&slots[at], fingerprint, inst) {
            Held::Nothing => return Place::Free(at),
            Held::Alike => return Place::Taken(at),
            Held::Other => {}
        }
    }
    Place::Nowhere
}

/// How many instructions before the first function declare a type that may be declared once only.
fn count_declared(insts: &[Inst<'_>]) -> usize
    ensures { result ≤ length insts.now }
{
    let mut count = 0;
    for inst in insts {
        if inst.opcode == opcode::FUNCTION {
            return count;
        }
        if is_declared_once(inst.opcode) {
            count += 1;
        }
    }
    count
}

/// The types that instructions have declared so far, of those that may be declared once only.
#[derive(Drop)]
pub struct Seen<'m, 'a> {
    /// Their declarations, each near the slot that its fingerprint tells.
    slots: Vec<Slot<'m, 'a>>,
    /// The keys of those whose slots others had taken.
    others: BTreeSet<Vec<u32>>,
}

impl<'m, 'a> Seen<'m, 'a> {
    /// No types, with room for those that the instructions of a module declare.
    ///
    /// An `AllocError` comes only where a growth of memory was refused.
    pub fn new(alloc: Global, insts: &[Inst<'a>]) -> Result<Seen<'m, 'a>, AllocError>
        ensures { IfOk result (λ seen. (is : List PlainInst) → AreSeen is 0 seen) }
    {
        let room = count_declared(insts).saturating_mul(3).saturating_add(NEAR);
        Ok(Seen {
            slots: vec![in alloc; Slot {
                fingerprint: 0,
                inst: None,
            }; room]?,
            others: BTreeSet::new(alloc),
        })
    }

    /// Adds a key, and answers whether it is new.
    fn add(&mut self, key: Vec<u32>) -> Result<bool, AllocError>
        ensures added { IfOk result (λ added. MatchBool added (¬ (HasKey key.items self.old.others.keys))
            (HasKey key.items self.old.others.keys)) }
        ensures keys { OnOk result ((k : List ℕ) → HasKey k self.new.others.keys
            ↔ (HasKey k self.old.others.keys ⊎ (key.items ≡ k))) }
        ensures slots { self.new.slots ≡ self.old.slots }
    {
        let added = self.others.insert(key)?;
        Ok(added)
    }

    /// Whether an instruction declares a type again that may be declared once only. It is then among those that are
    /// declared.
    #[inline(never)]
    fn is_declared_again(&mut self, alloc: Global, inst: &'m Inst<'a>) -> Result<bool, AllocError>
        requires { spec.is_declared_once (plain_inst inst.now).opcode ≡ true }
        ensures repeats { IfOk result (λ r. (is : List PlainInst) (n : ℕ)
            → slice_get is n ≡ Some (plain_inst inst.now) → AreSeen is n self.old
            → IsTrue r ↔ Repeats is n (plain_inst inst.now)) }
        ensures seen { OnOk result ((is : List PlainInst) (n : ℕ) → slice_get is n ≡ Some (plain_inst inst.now)
            → AreSeen is n self.old → AreSeen is (n + 1) self.new) }
    {
        let fingerprint = fingerprint_of(inst);
        match place_of(self.slots.as_slice(), fingerprint, inst) {
            Place::Taken(_at) => Ok(true),
            Place::Free(at) => {
                self.slots[at] = Slot {
                    fingerprint,
                    inst: Some(inst),
                };
                Ok(false)
            }
            Place::Nowhere => {
                let key = key_of(alloc, inst)?;
                let added = self.add(key)?;
                Ok(!added)
            }
        }
    }

    /// Whether an instruction declares a type again. It is then among those that are declared.
    ///
    /// An `AllocError` comes only where a growth of memory was refused.
    #[inline(always)]
    pub fn repeats(&mut self, alloc: Global, inst: &'m Inst<'a>) -> Result<bool, AllocError>
        ensures repeats { IfOk result (λ r. (is : List PlainInst) (n : ℕ)
            → slice_get is n ≡ Some (plain_inst inst.now) → AreSeen is n self.old
            → IsTrue r ↔ Repeats is n (plain_inst inst.now)) }
        ensures seen { OnOk result ((is : List PlainInst) (n : ℕ) → slice_get is n ≡ Some (plain_inst inst.now)
            → AreSeen is n self.old → AreSeen is (n + 1) self.new) }
    {
        if !is_declared_once(inst.opcode) {
            return Ok(false);
        }
        self.is_declared_again(alloc, inst)
    }
}
