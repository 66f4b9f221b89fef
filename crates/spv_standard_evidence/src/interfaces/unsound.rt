//! What shows that O4 is broken by what is in an interface.

ghost use Rattle.std.specs.Prelude.{◌≡◌, ◌+◌, ◌<◌, ℕ, IfOk, MatchOption, Some, length, slice_get};
ghost use Rattle.spv_table.specs.Table.{Table};
ghost use Rattle.spv_module.specs.Module.{plain_operands};
ghost use Rattle.spv_module.specs.Operand.{Id};
ghost use Rattle.spv_interfaces.specs.Interface.{IsTwiceIn};
ghost use Rattle.spv_interfaces.specs.inner.Entries.{HasInner, IsUnsound};
ghost use Rattle.spv_evidence.specs.declared.evidence.Evidence.TheVariants as evidence;
ghost use Rattle.spv_standard_evidence.specs.Interfaces.{Shows};
ghost use Rattle.spv_standard_evidence.specs.inner.Interfaces.{IsBefore, IsRepeated};

use spv_evidence::Evidence;
use spv_interfaces::{OF_ALL, id_of, is_inner, put};
use spv_module::Operand;
use spv_type_forms::Definitions;
use std::alloc::{AllocError, Global};
use std::collections::BTreeSet;

/// The place of the first operand of an interface that is an id which one before it is too, and the id.
fn repeated(alloc: Global, interface: &[Operand<'_>]) -> Result<Option<(usize, u32)>, AllocError>
    ensures { IfOk result (λ o. MatchOption o (¬ ((x : ℕ) × IsTwiceIn (plain_operands interface.now) x))
        (λ p. (p.0 < length interface.now) × IsRepeated (plain_operands interface.now) p.0 p.1)) }
{
    let mut seen = BTreeSet::new(alloc);
    for at in 0..interface.len() {
        if let Some(x) = id_of(interface[at]) {
            let fresh = put(&mut seen, x)?;
            if !fresh {
                return Ok(Some((at, x)));
            }
        }
    }
    Ok(None)
}

/// The place of the first operand of an interface that is an id, where one before `to` is.
fn first_place(interface: &[Operand<'_>], to: usize, x: u32) -> usize
    requires to { to < length interface.now }
    requires before { IsBefore (plain_operands interface.now) to x }
    ensures before { result < to }
    ensures there { slice_get (plain_operands interface.now) result ≡ Some (Id x) }
{
    for at in 0..to {
        if let Some(y) = id_of(interface[at]) {
            if y == x {
                return at;
            }
        }
    }
    unreachable!()
}

/// Two operands that are one id; the interface begins with operand `first`.
fn equal_operands(
    alloc: Global,
    interface: &[Operand<'_>],
    first: u32,
) -> Result<Option<Evidence>, AllocError>
    requires { first + length interface.now < 4294967296 }
    ensures { IfOk result (λ o. MatchOption o (¬ ((x : ℕ) × IsTwiceIn (plain_operands interface.now) x))
        (λ e. (x : ℕ) × (t : IsTwiceIn (plain_operands interface.now) x)
        × (e ≡ evidence.Pair (first + t.first) (first + t.second)))) }
{
    let found = repeated(alloc, interface)?;
    let Some((second, x)) = found else {
        return Ok(None);
    };
    let earlier = first_place(interface, second, x);
    Ok(Some(Evidence::Pair {
        first: first + earlier as u32,
        second: first + second as u32,
    }))
}

/// The first operand that is a variable neither of Input nor of Output; the interface begins with operand `first`.
fn inner_operand(
    definitions: &Definitions,
    interface: &[Operand<'_>],
    first: u32,
) -> Option<Evidence>
    requires { first + length interface.now < 4294967296 }
    ensures { MatchOption result (¬ (HasInner definitions.now (plain_operands interface.now)))
        (λ e. (h : HasInner definitions.now (plain_operands interface.now))
        × (e ≡ evidence.Operand (first + h.named.0))) }
{
    for at in 0..interface.len() {
        if let Some(x) = id_of(interface[at]) {
            if is_inner(definitions, x) {
                return Some(Evidence::Operand {
                    operand: first + at as u32,
                });
            }
        }
    }
    None
}

/// What shows that an interface is wrong by what is in it, if it is; it begins with operand `first`, which is 3.
pub fn unsound_evidence(
    alloc: Global,
    definitions: &Definitions,
    minor: u8,
    interface: &[Operand<'_>],
    first: u32,
) -> Result<Option<Evidence>, AllocError>
    requires first { first ≡ 3 }
    requires few { first + length interface.now < 4294967296 }
    ensures { IfOk result (λ o. MatchOption o (¬ (IsUnsound minor definitions.now (plain_operands interface.now)))
        (λ e. (G : Table) (f : ℕ) → Shows G minor definitions.now f (plain_operands interface.now) e)) }
{
    if minor >= OF_ALL {
        Ok(equal_operands(alloc, interface, first)?)
    } else {
        Ok(inner_operand(definitions, interface, first))
    }
}
