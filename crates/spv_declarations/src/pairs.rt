//! The members that an OpGroupMemberDecorate names.

ghost use Rattle.std.specs.Prelude.{◌↔◌, ℕ, IsTrue};
ghost use Rattle.spv_module.specs.Module.{plain_operands};
ghost use Rattle.spv_declarations.specs.Given.{HasPair};

use spv_module::Operand;

/// Whether operands begin with a struct and a member.
pub fn has_pair(pairs: &[Operand<'_>]) -> bool
    ensures { IsTrue result ↔ ((t k : ℕ) × HasPair (plain_operands pairs.now) t k) }
{
    match pairs {
        [Operand::Id(_), Operand::Word(_), ..] => true,
        _ => false,
    }
}
