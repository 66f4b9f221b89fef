//! The ids among the operands of an instruction.

ghost use Rattle.std.specs.Prelude.{◌≡◌, ℕ, MatchOption, map, slice_get, option_and_then};
ghost use Rattle.spv_table.specs.Table.{Table};
ghost use Rattle.spv_module.specs.Module.{plain_inst, plain_operand};
ghost use Rattle.spv_layout.specs.Shape.{FitsShape, IsUse};
ghost use Rattle.spv_ids.specs.inner.Uses as ids;
ghost use Rattle.spv_layout.specs.declared.form.Role as declared;
ghost use Rattle.spv_layout.specs.declared.form.Role.TheVariants as role;

use crate::branches;
use spv_ids::seen_id;
use spv_layout::{Role, id_at, role};
use spv_module::opcode::EXT_INST;
use spv_module::{Inst, Operand};

/// The id that operand `n` of a list is, if it is one and no result: only such operands are uses.
#[inline(always)]
pub fn use_id_in(operands: &[Operand<'_>], n: usize) -> Option<u32>
    ensures { result ≡ option_and_then ids.seen_id (slice_get (map plain_operand operands.now) n) }
{
    if n < operands.len() {
        seen_id(operands[n])
    } else {
        None
    }
}

/// The id that operand `n` of an instruction is, if it is one and no result.
pub fn use_id(inst: &Inst<'_>, n: usize) -> Option<u32>
    ensures { result ≡ option_and_then ids.seen_id (slice_get (plain_inst inst.now).operands n) }
{
    use_id_in(inst.operands.as_slice(), n)
}

/// The id that operand `n` uses as a label, if it does.
#[inline(always)]
pub fn label(inst: &Inst<'_>, n: usize) -> Option<u32>
    ensures { (G : Table) → FitsShape G (plain_inst inst.now)
        → MatchOption result ((x : ℕ) → ¬ (IsUse G (plain_inst inst.now) n x role.Label))
        (λ x. IsUse G (plain_inst inst.now) n x role.Label) }
{
    if branches::is_labelled(inst.opcode) {
        return branches::label(inst, n);
    }
    match role(inst, n) {
        Some(found) => match found {
            Role::Label => id_at(inst, n),
            _ => None,
        },
        None => None,
    }
}

/// The id that operand `n` uses as a value, if it does.
pub fn value(inst: &Inst<'_>, n: usize) -> Option<u32>
    ensures { (G : Table) → FitsShape G (plain_inst inst.now)
        → MatchOption result ((x : ℕ) → ¬ (IsUse G (plain_inst inst.now) n x role.Value))
        (λ x. IsUse G (plain_inst inst.now) n x role.Value) }
{
    match role(inst, n) {
        Some(found) => match found {
            Role::Value => id_at(inst, n),
            _ => None,
        },
        None => None,
    }
}

/// The id that operand `n` uses, in whatever role, if it does.
pub fn used(inst: &Inst<'_>, n: usize) -> Option<u32>
    ensures { (G : Table) → FitsShape G (plain_inst inst.now)
        → MatchOption result ((x : ℕ) (r : declared.Role) → ¬ (IsUse G (plain_inst inst.now) n x r))
        (λ x. (r : declared.Role) × IsUse G (plain_inst inst.now) n x r) }
{
    if inst.opcode != EXT_INST {
        // Each id but a result is a use.
        return use_id(inst, n);
    }
    match role(inst, n) {
        Some(_) => id_at(inst, n),
        None => None,
    }
}
