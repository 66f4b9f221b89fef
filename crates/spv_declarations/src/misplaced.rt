//! O7: decorations on what they do not stand on.

ghost use Rattle.std.specs.Prelude.{◌↔◌, ◌≡◌, ◌<◌, ◌≤◌, ℕ, IfOk, IsTrue, Option, Some, length, slice_get};
ghost use Rattle.spv_module.specs.Module.{plain_inst, plain_operands};
ghost use Rattle.spv_module.specs.declared.opcode.TheConstants as opcode;
ghost use Rattle.spv_conditions.specs.Further.{IsGroup};
ghost use Rattle.spv_declarations.specs.Decorated.{IsMisplaced};
ghost use Rattle.spv_declarations.specs.Given.{Gives, HasIdBehind, NamesMember, NamesTarget, member_given_by};
ghost use Rattle.spv_declarations.specs.Table.{IsNeverOnMembers, StandsOn};
ghost use Rattle.spv_declarations.specs.inner.First.{IsFirstBelow};
ghost use Rattle.spv_declarations.specs.inner.Misplaced.{IsAnyMisplaced, IsAnyNever};
ghost use Rattle.spv_declarations.specs.inner.Said.{AreSaid};
ghost use Rattle.spv_declarations.specs.inner.Sets.{AnyId, HasBoth};
ghost use Rattle.spv_declarations.specs.inner.Spans.{AreSpans};

use crate::decorated::{
    behind_first, given, group_of, has_id_behind, is_group, is_saying, member_given,
};
use crate::pairs::has_pair;
use crate::said::Said;
use crate::spans::Spans;
use crate::stands::{is_never_on_members, stands_on};
use spv_module::{Inst, Operand, opcode};
use spv_type_forms::Definitions;
use std::alloc::{AllocError, Global};

/// Whether an instruction gives an id a decoration that does not stand on it.
fn misplaces_own(definitions: &Definitions, inst: &Inst<'_>) -> bool
    ensures { IsTrue result ↔ ((x d : ℕ) × Gives d (plain_inst inst.now) x × (¬ (StandsOn definitions.now d x))
        × (¬ (IsGroup definitions.now x))) }
{
    match given(inst) {
        Some((x, decoration)) => {
            !stands_on(definitions, decoration, x) && !is_group(definitions, x)
        }
        None => false,
    }
}

/// Whether an instruction gives a member a decoration that members never have.
fn misplaces_member(inst: &Inst<'_>) -> bool
    ensures { IsTrue result ↔ ((t k d : ℕ) × (member_given_by (plain_inst inst.now) ≡ Some (t, k, d))
        × IsNeverOnMembers d) }
{
    match member_given(inst) {
        Some((_, _, decoration)) => is_never_on_members(decoration),
        None => false,
    }
}

/// Whether one of some decorations does not stand on an id.
fn is_misplaced_on(definitions: &Definitions, decorations: &[u32], x: u32) -> bool
    ensures { IsTrue result ↔ IsAnyMisplaced definitions.now decorations.now x }
{
    for decoration in decorations {
        if !stands_on(definitions, *decoration, x) {
            return true;
        }
    }
    false
}

/// Whether one of some decorations does not stand on one of some targets.
fn is_misplaced_among(
    definitions: &Definitions,
    decorations: &[u32],
    targets: &[Operand<'_>],
) -> bool
    ensures { IsTrue result ↔ AnyId (IsAnyMisplaced definitions.now decorations.now) (plain_operands targets.now) }
{
    for target in targets {
        if let Operand::Id(x) = target {
            if is_misplaced_on(definitions, decorations, *x) {
                return true;
            }
        }
    }
    false
}

/// Whether members never have one of some decorations.
fn is_one_never(decorations: &[u32]) -> bool
    ensures { IsTrue result ↔ IsAnyNever decorations.now }
{
    for decoration in decorations {
        if is_never_on_members(*decoration) {
            return true;
        }
    }
    false
}

/// Whether an instruction gives a target a decoration by a group that does not stand on it.
fn misplaces_target(
    alloc: Global,
    definitions: &Definitions,
    said: &Said,
    inst: &Inst<'_>,
) -> Result<bool, AllocError>
    ensures { IfOk result (λ yes. IsTrue yes ↔ ((g x d : ℕ) × NamesTarget (plain_inst inst.now) g x
        × (d < 4294967295) × HasBoth said.now.pairs g d × (¬ (StandsOn definitions.now d x)))) }
{
    let Some(group) = group_of(inst, opcode::GROUP_DECORATE) else {
        return Ok(false);
    };
    let decorations = said.of(alloc, group)?;
    Ok(is_misplaced_among(definitions, decorations.as_slice(), behind_first(inst)))
}

/// Whether an instruction gives a member a decoration by a group that members never have.
fn misplaces_pair(alloc: Global, said: &Said, inst: &Inst<'_>) -> Result<bool, AllocError>
    ensures { IfOk result (λ yes. IsTrue yes ↔ ((g t k d : ℕ) × NamesMember (plain_inst inst.now) g t k
        × (d < 4294967295) × HasBoth said.now.pairs g d × IsNeverOnMembers d)) }
{
    let Some(group) = group_of(inst, opcode::GROUP_MEMBER_DECORATE) else {
        return Ok(false);
    };
    if !has_pair(behind_first(inst)) {
        return Ok(false);
    }
    let decorations = said.of(alloc, group)?;
    Ok(is_one_never(decorations.as_slice()))
}

/// Whether an instruction has an id behind the decoration of an OpDecorate.
pub fn decorates_with_id(inst: &Inst<'_>) -> bool
    ensures { IsTrue result ↔ (((plain_inst inst.now).opcode ≡ opcode.DECORATE)
        × HasIdBehind (plain_inst inst.now).operands) }
{
    inst.opcode == opcode::DECORATE && has_id_behind(inst.operands.as_slice())
}

/// Whether an instruction of the module breaks O7.
fn misplaces(
    alloc: Global,
    definitions: &Definitions,
    said: &Said,
    inst: &Inst<'_>,
) -> Result<bool, AllocError>
    requires said { (l : Option ℕ) × AreSaid l definitions.now said.now }
    ensures { IfOk result (λ yes. (n : ℕ) → slice_get definitions.now n ≡ Some (plain_inst inst.now)
        → IsTrue yes ↔ IsMisplaced definitions.now n) }
{
    if !is_saying(inst.opcode) {
        return Ok(false);
    }
    if decorates_with_id(inst) {
        return Ok(true);
    }
    if misplaces_own(definitions, inst) {
        return Ok(true);
    }
    if misplaces_member(inst) {
        return Ok(true);
    }
    if misplaces_target(alloc, definitions, said, inst)? {
        return Ok(true);
    }
    misplaces_pair(alloc, said, inst)
}

/// The first of the first `count` instructions that breaks O7 (SPIR-V Specification 1.6, section 3.20).
///
/// Time is near-linear in the words of these instructions: a group has as many decorations of which the table speaks as
/// it has, at most.
pub fn first_misplaced(
    alloc: Global,
    definitions: &Definitions,
    spans: &Spans,
    said: &Said,
    count: u32,
) -> Result<Option<u32>, AllocError>
    requires count { count ≤ length definitions.now }
    requires spans { AreSpans definitions.now count spans.now }
    requires said { (l : Option ℕ) × AreSaid l definitions.now said.now }
    ensures { IfOk result (IsFirstBelow count (IsMisplaced definitions.now)) }
{
    for number in spans.from..spans.to {
        if misplaces(alloc, definitions, said, definitions.inst(number))? {
            return Ok(Some(number));
        }
    }
    Ok(None)
}
