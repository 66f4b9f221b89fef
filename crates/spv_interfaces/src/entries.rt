//! Entry points, and what is wrong with an interface by what is in it.

ghost use Rattle.std.specs.Prelude.{◌≡◌, ◌↔◌, ◌⊎◌, ◌≤◌, ◌<◌, ℕ, List, IfOk, IsTrue, MatchOption, OnOk, length, not};
ghost use Rattle.std.specs.Prelude.{option_map, slice_get, Some};
ghost use Rattle.std.specs.BTreeSet.{contains};
ghost use Rattle.std.specs.Ordering.{nat_cmp};
ghost use Rattle.spv_module.specs.Module.{plain_inst, plain_operand, plain_operands};
ghost use Rattle.spv_module.specs.Operand.{Id, Plain};
ghost use Rattle.spv_interfaces.specs.Interface.{IsTwiceIn, faced_by};
ghost use Rattle.spv_interfaces.specs.inner.Early.{AreEarly};
ghost use Rattle.spv_interfaces.specs.inner.Entries.{AreUpTo, HasInner, IsEntry, IsUnsound, IsUnsoundAt, face_id};

use crate::classes::{OF_ALL, is_inner};
use spv_module::{Inst, Operand, opcode};
use spv_type_forms::Definitions;
use std::alloc::{AllocError, Global};
use std::collections::BTreeSet;

/// The ids of an interface of at most so many are compared with one another.
const FEW: usize = 8;

/// The function and the interface of an OpEntryPoint.
#[inline(always)]
pub fn entry<'m, 'a>(inst: &'m Inst<'a>) -> Option<(u32, &'m [Operand<'a>])>
    ensures { option_map (λ p. (p.0, plain_operands p.1.now)) result ≡ faced_by (plain_inst inst.now) }
{
    if inst.opcode != opcode::ENTRY_POINT {
        return None;
    }
    match inst.operands.as_slice() {
        [
            Operand::Value { .. },
            Operand::Id(f),
            Operand::Text(_),
            interface @ ..,
        ] => Some((*f, interface)),
        _ => None,
    }
}

/// The id that an operand of an interface is.
#[inline(always)]
pub fn id_of(operand: Operand<'_>) -> Option<u32>
    ensures { result ≡ face_id (plain_operand operand.entry) }
{
    match operand {
        Operand::Id(x) => Some(x),
        _ => None,
    }
}

/// Puts an id into a set; whether it was not there before.
pub fn put(seen: &mut BTreeSet<u32>, x: u32) -> Result<bool, AllocError>
    ensures fresh { IfOk result (λ fresh. fresh ≡ not (contains nat_cmp seen.old x)) }
    ensures kept { OnOk result ((y : ℕ) → IsTrue (contains nat_cmp seen.new y)
        ↔ (IsTrue (contains nat_cmp seen.old y) ⊎ (y ≡ x))) }
{
    Ok(seen.insert(x)?)
}

/// Whether an id is one of the first operands of an interface.
fn is_before(interface: &[Operand<'_>], to: usize, x: u32) -> bool
    requires { to ≤ length interface.now }
    ensures { IsTrue result ↔ ((k : ℕ) × (k < to) × (slice_get (plain_operands interface.now) k ≡ Some (Id x))) }
{
    for at in 0..to {
        if let Some(y) = id_of(interface[at]) {
            if y == x {
                return true;
            }
        }
    }
    false
}

/// Whether an id stands twice in a short interface, each compared with those before it. It takes no memory.
fn has_twice_of_few(interface: &[Operand<'_>]) -> bool
    ensures { IsTrue result ↔ ((x : ℕ) × IsTwiceIn (plain_operands interface.now) x) }
{
    for at in 0..interface.len() {
        if let Some(x) = id_of(interface[at]) {
            if is_before(interface, at, x) {
                return true;
            }
        }
    }
    false
}

/// Whether an id stands twice in a long interface.
fn has_twice_of_many(alloc: Global, interface: &[Operand<'_>]) -> Result<bool, AllocError>
    ensures { IfOk result (λ yes. IsTrue yes ↔ ((x : ℕ) × IsTwiceIn (plain_operands interface.now) x)) }
{
    let mut seen = BTreeSet::new(alloc);
    for operand in interface {
        if let Some(x) = id_of(*operand) {
            let fresh = put(&mut seen, x)?;
            if !fresh {
                return Ok(true);
            }
        }
    }
    Ok(false)
}

/// Whether an id stands twice in an interface.
fn has_twice(alloc: Global, interface: &[Operand<'_>]) -> Result<bool, AllocError>
    ensures { IfOk result (λ yes. IsTrue yes ↔ ((x : ℕ) × IsTwiceIn (plain_operands interface.now) x)) }
{
    if interface.len() <= FEW {
        Ok(has_twice_of_few(interface))
    } else {
        Ok(has_twice_of_many(alloc, interface)?)
    }
}

/// Whether a variable in an interface is neither of Input nor of Output.
fn has_inner(definitions: &Definitions, interface: &[Operand<'_>]) -> bool
    ensures { IsTrue result ↔ HasInner definitions.now (plain_operands interface.now) }
{
    for operand in interface {
        if let Some(x) = id_of(*operand) {
            if is_inner(definitions, x) {
                return true;
            }
        }
    }
    false
}

/// Whether an interface breaks O4 by what is in it.
fn is_unsound(
    alloc: Global,
    definitions: &Definitions,
    minor: u8,
    interface: &[Operand<'_>],
) -> Result<bool, AllocError>
    ensures { IfOk result (λ yes. IsTrue yes
        ↔ IsUnsound minor definitions.now (plain_operands interface.now)) }
{
    if minor >= OF_ALL {
        Ok(has_twice(alloc, interface)?)
    } else {
        Ok(has_inner(definitions, interface))
    }
}

/// Whether an OpEntryPoint breaks O4 by what is in its interface; None of another instruction.
#[inline(always)]
fn judged(
    alloc: Global,
    definitions: &Definitions,
    minor: u8,
    number: u32,
) -> Result<Option<bool>, AllocError>
    requires { number < length definitions.now }
    ensures { IfOk result (λ o. MatchOption o
        ((f : ℕ) (os : List Plain) → ¬ (IsEntry definitions.now number f os))
        (λ unsound. IsTrue unsound ↔ IsUnsoundAt minor definitions.now number)) }
{
    let Some((_, interface)) = entry(definitions.inst(number)) else {
        return Ok(None);
    };
    let unsound = is_unsound(alloc, definitions, minor, interface)?;
    Ok(Some(unsound))
}

/// What is known of the OpEntryPoints once the interface of each is looked at.
#[derive(Drop)]
pub struct EntryPoints {
    /// The numbers of those up to the first that breaks O4 by what is in its interface.
    pub sound: Vec<u32>,
    /// The number of that one.
    pub unsound: Option<u32>,
}

/// The OpEntryPoints, in order, up to the first that breaks O4 by what is in its interface; and that one. `before`
/// instructions stand before the functions: no other is looked at.
pub fn entry_points(
    alloc: Global,
    definitions: &Definitions,
    minor: u8,
    before: u32,
) -> Result<EntryPoints, AllocError>
    requires { AreEarly definitions.now before }
    ensures { IfOk result (λ found. AreUpTo minor definitions.now found.sound.items found.unsound) }
{
    let mut sound = Vec::new(alloc);
    for number in 0..before {
        if let Some(unsound) = judged(alloc, definitions, minor, number)? {
            if unsound {
                return Ok(EntryPoints {
                    sound,
                    unsound: Some(number),
                });
            }
            sound.push(number)?;
        }
    }
    Ok(EntryPoints {
        sound,
        unsound: None,
    })
}
