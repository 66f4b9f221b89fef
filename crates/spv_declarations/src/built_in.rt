//! O11: structs with members that are built in.

ghost use Rattle.std.specs.Prelude.{◌≡◌, ◌<◌, ◌↔◌, ◌≤◌, ℕ, IfOk, IsTrue, OnOk, Option, Some, length, slice_get};
ghost use Rattle.spv_module.specs.Module.{plain_inst, plain_operands};
ghost use Rattle.spv_conditions.specs.Further.{IsMember};
ghost use Rattle.spv_declarations.specs.Decorated.{IsHalfBuiltIn};
ghost use Rattle.spv_declarations.specs.Given.{HasPair, NamesMember};
ghost use Rattle.spv_declarations.specs.inner.BuiltIn as inner;
ghost use Rattle.spv_declarations.specs.inner.BuiltIn.{AreBuiltIn, AreTheirs};
ghost use Rattle.spv_declarations.specs.inner.Early.{AreEarly};
ghost use Rattle.spv_declarations.specs.inner.First.{IsFirstBelow};
ghost use Rattle.spv_declarations.specs.inner.Kinds.{AreKinds};
ghost use Rattle.spv_declarations.specs.inner.Said.{AreSaid, BuildsIn};
ghost use Rattle.spv_declarations.specs.inner.Sets.{AddsBoth, AnyId, HasBoth, IsIn, IsOf};

use crate::decorated::{behind_first, behind_two, group_of, member_given, member_in};
use crate::kinds::Kinds;
use crate::said::Said;
use crate::sets::{put, put_member};
use spv_module::{Inst, Operand, opcode};
use spv_type_forms::{Definitions, after_result};
use std::alloc::{AllocError, Global};
use std::collections::BTreeSet;

/// The number of the decoration BuiltIn.
const BUILT_IN: u32 = 11;

/// The members of structs that have BuiltIn, and the structs that have such a member.
#[derive(Drop)]
pub struct BuiltIns {
    pub members: BTreeSet<(u32, usize)>,
    pub structs: BTreeSet<u32>,
}

/// How many members the struct has that an id declares; none where it declares none.
pub fn member_count(definitions: &Definitions, t: u32) -> usize
    ensures members { (k : ℕ) → (k < result) ↔ IsMember definitions.now t k }
    ensures few { result < 4294967296 }
{
    match definitions.definition(t) {
        Some(inst) => {
            if inst.opcode == opcode::TYPE_STRUCT {
                after_result(inst.operands.as_slice()).len()
            } else {
                0
            }
        }
        None => 0,
    }
}

/// The first operand, if it is a result.
fn struct_in(operands: &[Operand<'_>]) -> Option<u32>
    ensures { result ≡ inner.struct_in (plain_operands operands.now) }
{
    match operands {
        [Operand::Result(t), ..] => Some(*t),
        _ => None,
    }
}

/// The struct that an instruction declares.
pub fn struct_of(inst: &Inst<'_>) -> Option<u32>
    ensures { result ≡ inner.struct_by (plain_inst inst.now) }
{
    if inst.opcode == opcode::TYPE_STRUCT {
        struct_in(inst.operands.as_slice())
    } else {
        None
    }
}

impl BuiltIns {
    /// Takes note that a member has BuiltIn, if there is such a member.
    fn add(&mut self, definitions: &Definitions, t: u32, member: u32) -> Result<(), AllocError>
        ensures members { OnOk result (AddsBoth (λ u k. IsMember definitions.now u k × (u ≡ t) × (k ≡ member))
            self.old.members self.new.members) }
        ensures structs { OnOk result (AreTheirs self.old → AreTheirs self.new) }
    {
        let member = member as usize;
        if member >= member_count(definitions, t) {
            return Ok(());
        }
        put_member(&mut self.members, t, member)?;
        put(&mut self.structs, t)
    }

    /// Takes note of the members that an OpGroupMemberDecorate names in pairs.
    fn add_pairs(
        &mut self,
        definitions: &Definitions,
        pairs: &[Operand<'_>],
    ) -> Result<(), AllocError>
        ensures members { OnOk result (AddsBoth (λ t k. IsMember definitions.now t k
            × HasPair (plain_operands pairs.now) t k) self.old.members self.new.members) }
        ensures structs { OnOk result (AreTheirs self.old → AreTheirs self.new) }
    {
        let mut left = pairs;
        while let Some((t, member)) = member_in(left) {
            self.add(definitions, t, member)?;
            left = behind_two(left);
        }
        Ok(())
    }

    /// Takes note of the members that have BuiltIn by a group that an instruction names.
    fn note_pairs(
        &mut self,
        definitions: &Definitions,
        said: &Said,
        inst: &Inst<'_>,
    ) -> Result<(), AllocError>
        ensures members { OnOk result (AddsBoth (λ t k. IsMember definitions.now t k
            × ((g : ℕ) × NamesMember (plain_inst inst.now) g t k × HasBoth said.now.pairs g 11))
            self.old.members self.new.members) }
        ensures structs { OnOk result (AreTheirs self.old → AreTheirs self.new) }
    {
        let Some(group) = group_of(inst, opcode::GROUP_MEMBER_DECORATE) else {
            return Ok(());
        };
        if said.has(group, BUILT_IN) {
            return self.add_pairs(definitions, behind_first(inst));
        }
        Ok(())
    }

    /// Takes note of the members to which an instruction of the module gives BuiltIn.
    fn note(
        &mut self,
        definitions: &Definitions,
        said: &Said,
        inst: &Inst<'_>,
    ) -> Result<(), AllocError>
        requires said { (l : Option ℕ) × AreSaid l definitions.now said.now }
        requires inst { IsOf definitions.now (plain_inst inst.now) }
        ensures members { OnOk result (AddsBoth (BuildsIn definitions.now (plain_inst inst.now))
            self.old.members self.new.members) }
        ensures structs { OnOk result (AreTheirs self.old → AreTheirs self.new) }
    {
        let Some((t, member, decoration)) = member_given(inst) else {
            return self.note_pairs(definitions, said, inst);
        };
        if decoration == BUILT_IN {
            return self.add(definitions, t, member);
        }
        Ok(())
    }

    /// Whether one of so many members of a struct has no BuiltIn.
    fn lacks_one(&self, t: u32, count: usize) -> bool
        ensures { IsTrue result ↔ ((k : ℕ) × (k < count) × (¬ (HasBoth self.now.members t k))) }
    {
        for k in 0..count {
            if !self.members.contains(&(t, k)) {
                return true;
            }
        }
        false
    }

    /// Whether one of some types is a struct with a member that has BuiltIn.
    fn has_within(&self, members: &[Operand<'_>]) -> bool
        ensures { IsTrue result ↔ AnyId (IsIn self.now.structs) (plain_operands members.now) }
    {
        for member in members {
            if let Operand::Id(u) = member {
                if self.structs.contains(u) {
                    return true;
                }
            }
        }
        false
    }

    /// Whether a struct has a member with BuiltIn and another without.
    pub fn is_in_part(&self, definitions: &Definitions, t: u32) -> bool
        ensures { IsTrue result ↔ (IsIn self.now.structs t
            × ((k : ℕ) × IsMember definitions.now t k × (¬ (HasBoth self.now.members t k)))) }
    {
        self.structs.contains(&t) && self.lacks_one(t, member_count(definitions, t))
    }

    /// Whether an instruction of the module is an OpTypeStruct that breaks O11.
    fn is_half(&self, definitions: &Definitions, inst: &Inst<'_>) -> bool
        requires { AreBuiltIn definitions.now self.now }
        ensures { (n : ℕ) → slice_get definitions.now n ≡ Some (plain_inst inst.now)
            → IsTrue result ↔ IsHalfBuiltIn definitions.now n }
    {
        let Some(t) = struct_of(inst) else {
            return false;
        };
        self.is_in_part(definitions, t) || self.has_within(behind_first(inst))
    }
}

/// The members to which instructions give BuiltIn.
pub fn built_ins(
    alloc: Global,
    definitions: &Definitions,
    said: &Said,
    count: u32,
) -> Result<BuiltIns, AllocError>
    requires count { count ≤ length definitions.now }
    requires early { AreEarly definitions.now count }
    requires said { (l : Option ℕ) × AreSaid l definitions.now said.now }
    ensures { IfOk result (AreBuiltIn definitions.now) }
{
    let mut found = BuiltIns {
        members: BTreeSet::new(alloc),
        structs: BTreeSet::new(alloc),
    };
    for number in 0..count {
        found.note(definitions, said, definitions.inst(number))?;
    }
    Ok(found)
}

/// The first of the first `count` instructions that breaks O11 (SPIR-V Specification 1.6, section 2.16.1).
///
/// Time is near-linear in the words of these instructions. Where none of them names a group or a member, it looks at
/// none.
pub fn first_half_built_in(
    alloc: Global,
    definitions: &Definitions,
    kinds: &Kinds,
    said: &Said,
    count: u32,
) -> Result<Option<u32>, AllocError>
    requires count { count ≤ length definitions.now }
    requires early { AreEarly definitions.now count }
    requires kinds { AreKinds definitions.now count kinds.now }
    requires said { (l : Option ℕ) × AreSaid l definitions.now said.now }
    ensures { IfOk result (IsFirstBelow count (IsHalfBuiltIn definitions.now)) }
{
    if !(kinds.groups | kinds.members) {
        return Ok(None);
    }
    let found = built_ins(alloc, definitions, said, count)?;
    for number in 0..count {
        if found.is_half(definitions, definitions.inst(number)) {
            return Ok(Some(number));
        }
    }
    Ok(None)
}
