//! O8: Restrict and Aliased of one id.

ghost use Rattle.std.specs.Prelude.{◌≡◌, ◌↔◌, ◌≤◌, ℕ, IfOk, IsTrue, List, OnOk, Option, false, length};
ghost use Rattle.spv_module.specs.Module.{plain_inst, plain_operands};
ghost use Rattle.spv_module.specs.Operand.{PlainInst};
ghost use Rattle.spv_declarations.specs.Decorated.{IsSecond};
ghost use Rattle.spv_declarations.specs.Given.{Gives, NamesTarget};
ghost use Rattle.spv_declarations.specs.inner.First.{IsFirstBelow};
ghost use Rattle.spv_declarations.specs.inner.Kinds.{AreKinds};
ghost use Rattle.spv_declarations.specs.inner.Said.{AreSaid, HasAt, IsKnown};
ghost use Rattle.spv_declarations.specs.inner.Sets.{Adds, AnyId, HasBoth, IsIn, IsOf};

use crate::decorated::{behind_first, given, group_of, is_group};
use crate::kinds::Kinds;
use crate::said::Said;
use crate::sets::{put, put_all};
use spv_module::{Inst, Operand, opcode};
use spv_type_forms::Definitions;
use std::alloc::{AllocError, Global};
use std::collections::BTreeSet;

/// The numbers of the decorations Restrict and Aliased.
pub const RESTRICT: u32 = 19;

pub const ALIASED: u32 = 20;

/// Adds the targets of a group that has a decoration.
fn add_targets(
    set: &mut BTreeSet<u32>,
    said: &Said,
    inst: &Inst<'_>,
    decoration: u32,
) -> Result<(), AllocError>
    ensures { OnOk result (Adds (λ x. (g : ℕ) × NamesTarget (plain_inst inst.now) g x
        × HasBoth said.now.pairs g decoration) set.old set.new) }
{
    let Some(group) = group_of(inst, opcode::GROUP_DECORATE) else {
        return Ok(());
    };
    if said.has(group, decoration) {
        return put_all(set, behind_first(inst));
    }
    Ok(())
}

/// Adds the ids that have a decoration by an instruction of the module.
pub fn add_with(
    set: &mut BTreeSet<u32>,
    definitions: &Definitions,
    said: &Said,
    inst: &Inst<'_>,
    decoration: u32,
) -> Result<(), AllocError>
    requires known { IsKnown decoration }
    requires said { (l : Option ℕ) × AreSaid l definitions.now said.now }
    requires inst { IsOf definitions.now (plain_inst inst.now) }
    ensures { OnOk result (Adds (λ x. HasAt definitions.now (Gives decoration) x (plain_inst inst.now))
        set.old set.new) }
{
    let Some((x, own)) = given(inst) else {
        return add_targets(set, said, inst, decoration);
    };
    if own == decoration && !is_group(definitions, x) {
        return put(set, x);
    }
    Ok(())
}

/// Whether an id is in both sets.
fn is_in_both(one: &BTreeSet<u32>, other: &BTreeSet<u32>, x: u32) -> bool
    ensures { IsTrue result ↔ (IsIn one.now x × IsIn other.now x) }
{
    one.contains(&x) && other.contains(&x)
}

/// Whether one of some targets is in both sets.
fn is_one_in_both(one: &BTreeSet<u32>, other: &BTreeSet<u32>, targets: &[Operand<'_>]) -> bool
    ensures { IsTrue result ↔ AnyId (λ x. IsIn one.now x × IsIn other.now x) (plain_operands targets.now) }
{
    for target in targets {
        if let Operand::Id(x) = target {
            if is_in_both(one, other, *x) {
                return true;
            }
        }
    }
    false
}

/// Whether an id that an instruction decorates is in both sets.
fn has_both(one: &BTreeSet<u32>, other: &BTreeSet<u32>, inst: &Inst<'_>) -> bool
    ensures found { IsTrue result → (x : ℕ) × IsIn one.now x × IsIn other.now x }
    ensures none { result ≡ false → (is : List PlainInst) (d x : ℕ) → HasAt is (Gives d) x (plain_inst inst.now)
        → IsIn one.now x → IsIn other.now x → ⊥ }
{
    if let Some((x, _)) = given(inst) {
        return is_in_both(one, other, x);
    }
    match group_of(inst, opcode::GROUP_DECORATE) {
        Some(_group) => is_one_in_both(one, other, behind_first(inst)),
        None => false,
    }
}

/// The first of the first `count` instructions that breaks O8 (SPIR-V Specification 1.6, section 2.18.2).
///
/// Time is near-linear in the words of these instructions. Where none of them names a group, and not both decorations
/// are given, it looks at none.
pub fn first_second(
    alloc: Global,
    definitions: &Definitions,
    kinds: &Kinds,
    said: &Said,
    count: u32,
) -> Result<Option<u32>, AllocError>
    requires count { count ≤ length definitions.now }
    requires kinds { AreKinds definitions.now count kinds.now }
    requires said { (l : Option ℕ) × AreSaid l definitions.now said.now }
    ensures { IfOk result (IsFirstBelow count (IsSecond definitions.now)) }
{
    if !(kinds.groups | (kinds.restricted & kinds.aliased)) {
        return Ok(None);
    }
    let mut restricted = BTreeSet::new(alloc);
    let mut aliased = BTreeSet::new(alloc);
    for number in 0..count {
        let inst = definitions.inst(number);
        add_with(&mut restricted, definitions, said, inst, RESTRICT)?;
        add_with(&mut aliased, definitions, said, inst, ALIASED)?;
        if has_both(&restricted, &aliased, inst) {
            return Ok(Some(number));
        }
    }
    Ok(None)
}
