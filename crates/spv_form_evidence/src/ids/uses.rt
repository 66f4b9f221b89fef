//! The uses of an instruction, and the ids that it mentions.

ghost use Rattle.std.specs.Prelude.{◌≡◌, ℕ, MatchOption, slice_get};
ghost use Rattle.spv_table.specs.Table.{Table};
ghost use Rattle.spv_module.specs.Module.{plain_inst, plain_operands};
ghost use Rattle.spv_layout.specs.Shape.{FitsShape};
ghost use Rattle.spv_form_evidence.specs.ids.inner.Uses.{IsUseOf, IsNamedAt, mention_in};

use spv_layout::{Role, id_at, role};
use spv_module::{Inst, Operand};

/// A use of an id.
#[derive(Clone, Copy)]
pub struct Use {
    pub id: u32,
    /// What the id is used as.
    pub role: Role,
}

/// The use that operand `k` of an instruction is, if it is one.
pub fn use_at(inst: &Inst<'_>, k: usize) -> Option<Use>
    ensures { (G : Table) → FitsShape G (plain_inst inst.now) → IsUseOf G (plain_inst inst.now) k result }
{
    let Some(role) = role(inst, k) else {
        return None;
    };
    let Some(id) = id_at(inst, k) else {
        return None;
    };
    Some(Use { id, role })
}

/// The id that the operand at a place mentions, if it is one that does.
fn mention_at(operands: &[Operand<'_>], k: usize) -> Option<u32>
    ensures { result ≡ mention_in (slice_get (plain_operands operands.now) k) }
{
    match operands.get(k) {
        Some(Operand::Mention(id)) => Some(*id),
        _ => None,
    }
}

/// The id that operand `k` of an instruction uses or mentions, if it does.
pub fn named_at(inst: &Inst<'_>, k: usize) -> Option<u32>
    ensures { (G : Table) → FitsShape G (plain_inst inst.now)
        → MatchOption result ((x : ℕ) → ¬ (IsNamedAt G (plain_inst inst.now) k x))
        (λ x. IsNamedAt G (plain_inst inst.now) k x) }
{
    match use_at(inst, k) {
        Some(used) => Some(used.id),
        None => mention_at(inst.operands.as_slice(), k),
    }
}
