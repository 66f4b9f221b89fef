//! The ids that an instruction decorates.

ghost use Rattle.std.specs.Prelude.{◌≡◌, ◌↔◌, ℕ, IfOk, IsTrue, Option};
ghost use Rattle.spv_module.specs.Module.{plain_inst, plain_operands};
ghost use Rattle.spv_conditions.specs.Further.{IsGroup};
ghost use Rattle.spv_declarations.specs.Given.{Gives, HasId};
ghost use Rattle.spv_declarations.specs.inner.Said.{AreSaid, HasAt, IsKnown};
ghost use Rattle.spv_declarations.specs.inner.Sets.{IsIn, IsOf};
ghost use Rattle.spv_declarations.specs.inner.Shown.{IsDecorated};

use crate::decorated::{behind_first, given, group_of, is_group};
use crate::said::Said;
use crate::sets::{put, put_all};
use spv_module::{Inst, Operand, opcode};
use spv_type_forms::Definitions;
use std::alloc::{AllocError, Global};
use std::collections::BTreeSet;

/// The ids that an instruction decorates: the one to which it gives a decoration, or the targets of a group.
///
/// Time is near-linear in its words.
pub fn decorated_ids(alloc: Global, inst: &Inst<'_>) -> Result<BTreeSet<u32>, AllocError>
    ensures { IfOk result (λ s. (x : ℕ) → IsIn s x ↔ IsDecorated (plain_inst inst.now) x) }
{
    let mut ids = BTreeSet::new(alloc);
    if let Some((x, _)) = given(inst) {
        put(&mut ids, x)?;
        return Ok(ids);
    }
    if let Some(_group) = group_of(inst, opcode::GROUP_DECORATE) {
        put_all(&mut ids, behind_first(inst))?;
    }
    Ok(ids)
}

/// Whether one of some operands is an id.
fn is_target(targets: &[Operand<'_>], x: u32) -> bool
    ensures { IsTrue result ↔ HasId (plain_operands targets.now) x }
{
    for target in targets {
        if let Operand::Id(id) = target {
            if *id == x {
                return true;
            }
        }
    }
    false
}

/// Whether an instruction decorates an id.
pub fn decorates(inst: &Inst<'_>, x: u32) -> bool
    ensures { IsTrue result ↔ IsDecorated (plain_inst inst.now) x }
{
    if let Some((id, _)) = given(inst) {
        return id == x;
    }
    match group_of(inst, opcode::GROUP_DECORATE) {
        Some(_group) => is_target(behind_first(inst), x),
        None => false,
    }
}

/// Whether an id that is given one decoration has another by that.
fn is_given(definitions: &Definitions, x: u32, own: u32, decoration: u32) -> bool
    ensures { IsTrue result ↔ ((own ≡ decoration) × (¬ (IsGroup definitions.now x))) }
{
    own == decoration && !is_group(definitions, x)
}

/// Whether the ids that an instruction of the module decorates have a decoration by it.
pub fn gives(definitions: &Definitions, said: &Said, inst: &Inst<'_>, decoration: u32) -> bool
    requires known { IsKnown decoration }
    requires said { (l : Option ℕ) × AreSaid l definitions.now said.now }
    requires inst { IsOf definitions.now (plain_inst inst.now) }
    ensures { (x : ℕ) → IsDecorated (plain_inst inst.now) x
        → IsTrue result ↔ HasAt definitions.now (Gives decoration) x (plain_inst inst.now) }
{
    if let Some((x, own)) = given(inst) {
        return is_given(definitions, x, own, decoration);
    }
    match group_of(inst, opcode::GROUP_DECORATE) {
        Some(group) => said.has(group, decoration),
        None => false,
    }
}
