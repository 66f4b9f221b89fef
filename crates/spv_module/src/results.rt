ghost use Rattle.std.specs.Prelude.{◌≡◌};
ghost use Rattle.spv_module.specs.Operand as operand;
ghost use Rattle.spv_module.specs.Module.{plain_operands};

use crate::operand::Operand;

/// The id of the result that operands have: that of the first of the kind IdResult (SPIR-V Specification 1.6, section
/// 2.2.1). None where there is none.
pub fn result_in(operands: &[Operand]) -> Option<u32>
    ensures { result ≡ operand.result_in (plain_operands operands.now) }
{
    for operand in operands {
        if let Operand::Result(id) = operand {
            return Some(*id);
        }
    }
    None
}

/// The id of the result's type that operands have: that of the first of the kind IdResultType (SPIR-V Specification
/// 1.6, section 2.2.1). None where there is none.
pub fn type_in(operands: &[Operand]) -> Option<u32>
    ensures { result ≡ operand.type_in (plain_operands operands.now) }
{
    for operand in operands {
        if let Operand::OfType(id) = operand {
            return Some(*id);
        }
    }
    None
}
