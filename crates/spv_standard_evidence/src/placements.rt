//! What shows that O7 is broken: a decoration that may not stand where it does.

ghost use Rattle.std.specs.Prelude.{◌≡◌, ◌↔◌, ℕ, IfOk, IsTrue, MatchOption, Some, length, slice_get};
ghost use Rattle.spv_table.specs.Table.{Table};
ghost use Rattle.spv_module.specs.declared.fault.Rule.TheVariants.{O7};
ghost use Rattle.spv_module.specs.declared.opcode.TheConstants as opcodes;
ghost use Rattle.spv_module.specs.Module.{plain_inst};
ghost use Rattle.spv_declarations.specs.Decorated.{IsMisplaced};
ghost use Rattle.spv_declarations.specs.Given.{Gives, NamesMember, group_by};
ghost use Rattle.spv_declarations.specs.Shown.{IsGivenBadly};
ghost use Rattle.spv_declarations.specs.Table.{IsNeverOnMembers};
ghost use Rattle.spv_standard_evidence.specs.Declarations.{IsEvidence, Misplaces};
ghost use Rattle.spv_standard_evidence.specs.inner.Placements as inner;

use crate::declarations::id_behind;
use spv_declarations::{
    bad_target, decorates_with_id, given, group_of, is_never_on_members, member_given,
};
use spv_evidence::Evidence;
use spv_module::{Inst, opcode};
use spv_type_forms::Definitions;
use std::alloc::{AllocError, Global};

/// The decoration that an instruction gives to an id, if it gives it one.
fn given_to(inst: &Inst<'_>, group: u32) -> Option<u32>
    ensures { MatchOption result ((d : ℕ) → ¬ (Gives d (plain_inst inst.now) group))
        (λ d. Gives d (plain_inst inst.now) group) }
{
    match given(inst) {
        Some((x, decoration)) => { if x == group { Some(decoration) } else { None } }
        None => None,
    }
}

/// The first target of a group on which a decoration of the group may not stand, and the first instruction that gives
/// the group that decoration.
///
/// An `AllocError` comes only where a growth of memory was refused.
fn target_evidence(
    alloc: Global,
    definitions: &Definitions,
    inst: &Inst<'_>,
    group: u32,
    total: u32,
) -> Result<Evidence, AllocError>
    requires total { total ≡ length definitions.now }
    requires inst { (n : ℕ) × (slice_get definitions.now n ≡ Some (plain_inst inst.now)) }
    requires group { group_by opcodes.GROUP_DECORATE (plain_inst inst.now) ≡ Some group }
    requires broken { IsGivenBadly definitions.now (plain_inst inst.now) group }
    ensures { IfOk result (Misplaces definitions.now (plain_inst inst.now)) }
{
    let target = bad_target(alloc, definitions, total, inst, group)?;
    Ok(Evidence::ByGroup {
        operand: target.operand,
        inst: target.inst,
    })
}

/// Whether an instruction gives a group a decoration that is never one of members.
fn gives_never(inst: &Inst<'_>, group: u32) -> bool
    ensures { IsTrue result ↔ ((d : ℕ) × Gives d (plain_inst inst.now) group × IsNeverOnMembers d) }
{
    match given_to(inst, group) {
        Some(decoration) => is_never_on_members(decoration),
        None => false,
    }
}

/// The first instruction that gives a group such a decoration.
fn never_place(definitions: &Definitions, group: u32, total: u32) -> u32
    requires total { total ≡ length definitions.now }
    requires broken { inner.IsGivenNever definitions.now group }
    ensures { inner.IsGivenNeverAt definitions.now group result }
{
    for number in 0..total {
        if gives_never(definitions.inst(number), group) {
            return number;
        }
    }
    unreachable!()
}

/// The first instruction that gives the group of members that an instruction names a decoration that is never one of
/// members.
fn member_evidence(definitions: &Definitions, inst: &Inst<'_>, total: u32) -> Evidence
    requires total { total ≡ length definitions.now }
    requires broken { (g t k : ℕ) × NamesMember (plain_inst inst.now) g t k × inner.IsGivenNever definitions.now g }
    ensures { Misplaces definitions.now (plain_inst inst.now) result }
{
    let Some(group) = group_of(inst, opcode::GROUP_MEMBER_DECORATE) else {
        unreachable!();
    };
    Evidence::Earlier {
        inst: never_place(definitions, group, total),
    }
}

/// O7: the id behind the decoration, the id or the member that is decorated, or what gives the decoration to a group.
/// `total` is how many instructions there are.
///
/// Time is near-linear in the words of the module: a target is looked at with the decorations of its group of which the
/// table speaks. An `AllocError` comes only where a growth of memory was refused.
pub fn placement_evidence(
    alloc: Global,
    definitions: &Definitions,
    total: u32,
    inst: u32,
) -> Result<Evidence, AllocError>
    requires total { total ≡ length definitions.now }
    requires broken { IsMisplaced definitions.now inst }
    ensures { IfOk result (λ e. (G : Table) → IsEvidence G definitions.now O7 inst e) }
{
    let own = definitions.inst(inst);
    if decorates_with_id(own) {
        return Ok(Evidence::Operand {
            operand: id_behind(own),
        });
    }
    if let Some(_given) = given(own) {
        return Ok(Evidence::Operand { operand: 0 });
    }
    if let Some(_given) = member_given(own) {
        return Ok(Evidence::Operand { operand: 2 });
    }
    if let Some(group) = group_of(own, opcode::GROUP_DECORATE) {
        return target_evidence(alloc, definitions, own, group, total);
    }
    Ok(member_evidence(definitions, own, total))
}
