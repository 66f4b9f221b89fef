//! O11: members of a struct of which one has BuiltIn and another has not, or that hold such a member.

ghost use Rattle.std.specs.Prelude.{◌≡◌, ◌↔◌, ◌<◌, ℕ, IfOk, IsTrue, Some, length, slice_get};
ghost use Rattle.spv_module.specs.Module.{plain_inst};
ghost use Rattle.spv_module.specs.Operand.{Id};
ghost use Rattle.spv_declarations.specs.Decorated.{IsHalfBuiltIn};
ghost use Rattle.spv_declarations.specs.Shown.{IsHalfBy};
ghost use Rattle.spv_declarations.specs.inner.BuiltIn.{AreBuiltIn};
ghost use Rattle.spv_declarations.specs.inner.Sets.{HasBoth, IsIn};
ghost use Rattle.spv_declarations.specs.inner.Shown.{NamesStruct};

use crate::built_in::{BuiltIns, built_ins, member_count, struct_of};
use crate::said::Said;
use spv_module::{Inst, Operand};
use spv_type_forms::Definitions;
use std::alloc::{AllocError, Global};

/// What of an OpTypeStruct breaks O11.
#[derive(Clone, Copy)]
pub enum Mixture {
    /// The operands of a member that has BuiltIn (11) and of one that has not.
    Members { built_in: u32, other: u32 },
    /// The operand that is a member's type, a struct with a member that has BuiltIn.
    Within { operand: u32 },
}

/// The first of so many members of a struct that has BuiltIn.
fn built_in_member(found: &BuiltIns, t: u32, count: usize) -> u32
    requires few { count < 4294967296 }
    requires there { (k : ℕ) × (k < count) × HasBoth found.now.members t k }
    ensures { (result < count) × HasBoth found.now.members t result }
{
    for k in 0..count {
        if found.members.contains(&(t, k)) {
            return k as u32;
        }
    }
    unreachable!()
}

/// The first of so many members of a struct that has not.
fn other_member(found: &BuiltIns, t: u32, count: usize) -> u32
    requires few { count < 4294967296 }
    requires there { (k : ℕ) × (k < count) × (¬ (HasBoth found.now.members t k)) }
    ensures { (result < count) × (¬ (HasBoth found.now.members t result)) }
{
    for k in 0..count {
        if !found.members.contains(&(t, k)) {
            return k as u32;
        }
    }
    unreachable!()
}

/// Whether the operand of a number is a struct with a member that has BuiltIn.
fn is_struct_at(found: &BuiltIns, inst: &Inst<'_>, k: usize) -> bool
    ensures { IsTrue result ↔ NamesStruct found.now (plain_inst inst.now).operands k }
{
    match inst.operands.as_slice().get(k) {
        Some(Operand::Id(u)) => found.structs.contains(u),
        _ => false,
    }
}

/// The first operand that is such a struct.
fn struct_place(found: &BuiltIns, inst: &Inst<'_>) -> u32
    requires { (k : ℕ) × NamesStruct found.now (plain_inst inst.now).operands k }
    ensures { NamesStruct found.now (plain_inst inst.now).operands result }
{
    for k in 0..inst.operands.as_slice().len() {
        if is_struct_at(found, inst, k) {
            return k as u32;
        }
    }
    unreachable!()
}

/// What of an instruction of the module breaks O11.
fn half_of(found: &BuiltIns, definitions: &Definitions, inst: &Inst<'_>) -> Mixture
    requires found { AreBuiltIn definitions.now found.now }
    requires broken { (n : ℕ) × (slice_get definitions.now n ≡ Some (plain_inst inst.now))
        × IsHalfBuiltIn definitions.now n }
    ensures { (n : ℕ) → slice_get definitions.now n ≡ Some (plain_inst inst.now)
        → IsHalfBy definitions.now n result }
{
    let Some(t) = struct_of(inst) else {
        unreachable!();
    };
    if found.is_in_part(definitions, t) {
        let count = member_count(definitions, t);
        return Mixture::Members {
            built_in: built_in_member(found, t, count) + 1,
            other: other_member(found, t, count) + 1,
        };
    }
    Mixture::Within {
        operand: struct_place(found, inst),
    }
}

/// What of an OpTypeStruct at which O11 is broken breaks it. `total` is how many instructions there are.
///
/// Time is near-linear in their words. An `AllocError` comes only where a growth of memory was refused.
pub fn half_built_in(
    alloc: Global,
    definitions: &Definitions,
    total: u32,
    inst: u32,
) -> Result<Mixture, AllocError>
    requires total { total ≡ length definitions.now }
    requires broken { IsHalfBuiltIn definitions.now inst }
    ensures { IfOk result (IsHalfBy definitions.now inst) }
{
    let said = Said::gather(alloc, definitions, None, total)?;
    let found = built_ins(alloc, definitions, &said, total)?;
    Ok(half_of(&found, definitions, definitions.inst(inst)))
}
