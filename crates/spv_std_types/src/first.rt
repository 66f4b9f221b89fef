//! The first condition that does not hold.

ghost use Rattle.spv_module.specs.Module.{plain_operands};
ghost use Rattle.spv_std_types.specs.Condition.{Holds};
ghost use Rattle.spv_std_types.specs.inner.Failing.{IsFirstIn};

use crate::condition::Condition;
use crate::decide::holds;
use spv_module::Operand;
use spv_type_forms::Definitions;

/// The first of some conditions that does not hold, if one does not, where r is the result type and these are the
/// operands behind the number of the instruction.
pub fn first_failing(
    definitions: &Definitions,
    r: u32,
    operands: &[Operand],
    conditions: &[Condition],
) -> Option<Condition>
    ensures { IsFirstIn (Holds definitions.now r (plain_operands operands.now)) conditions.now result }
{
    for k in 0..conditions.len() {
        let condition = conditions[k];
        if !holds(definitions, r, operands, condition) {
            return Some(condition);
        }
    }
    None
}
