//! Evidence for Y7.

ghost use Rattle.std.specs.Prelude.{◌≡◌, ◌<◌, ℕ, Some, length};
ghost use Rattle.spv_table.specs.Table.{Table};
ghost use Rattle.spv_module.specs.declared.fault.Rule.TheVariants.{Y7};
ghost use Rattle.spv_module.specs.Module.{plain_inst, plain_operands};
ghost use Rattle.spv_module.specs.Width as width;
ghost use Rattle.spv_module.specs.Operand.{PlainInst};
ghost use Rattle.spv_module.specs.declared.opcode.TheConstants as opcode;
ghost use Rattle.spv_type_rules.specs.inner.Function.{IsSoundReturn, IsSoundReturnValue};
ghost use Rattle.spv_type_evidence.specs.types.Evidence.{Shows};
ghost use Rattle.spv_type_evidence.specs.types.inner.Known.{HasFunction, ReturnsOne};
ghost use Rattle.spv_type_evidence.specs.types.Function.{ReturnsFrom};

use spv_evidence::{Evidence, Side};
use spv_module::{Inst, Operand};
use spv_type_forms::{Definitions, type_in};
use spv_type_rules::function_of;

/// The result type of the function that the instruction of a number is of.
fn returned_type(definitions: &Definitions, number: u32) -> u32
    requires within { number < length definitions.now }
    requires function { HasFunction definitions.now number }
    ensures { ReturnsFrom definitions.now number result }
{
    let Some(function) = function_of(definitions, number) else {
        unreachable!();
    };
    let Some(r) = type_in(function.inst.operands.as_slice()) else {
        unreachable!();
    };
    r
}

/// What shows that Y7 is broken at the OpReturn of a number: the type that its function returns.
pub fn return_evidence(definitions: &Definitions, number: u32) -> Evidence
    requires within { number < length definitions.now }
    requires function { HasFunction definitions.now number }
    requires broken { ¬ (IsSoundReturn definitions.now number) }
    ensures { (G : Table) (i : PlainInst) → i.opcode ≡ opcode.RETURN
        → Shows G definitions.now number i Y7 result }
{
    Evidence::Mismatch {
        side: Side::Return,
        wanted: Some(returned_type(definitions, number)),
        found: None,
        of: None,
    }
}

/// The id that the first operand is, if it is one.
fn first_id(operands: &[Operand]) -> Option<u32>
    ensures { result ≡ width.first_id (plain_operands operands.now) }
{
    match operands {
        [Operand::OfType(x) | Operand::Result(x) | Operand::Id(x), ..] => Some(*x),
        _ => None,
    }
}

/// What shows that Y7 is broken at the OpReturnValue of a number: the type that its function returns, and that of the
/// value.
pub fn value_evidence(definitions: &Definitions, number: u32, inst: &Inst) -> Evidence
    requires within { number < length definitions.now }
    requires opcode { (plain_inst inst.now).opcode ≡ opcode.RETURN_VALUE }
    requires function { HasFunction definitions.now number }
    requires shape { ReturnsOne definitions.now (plain_inst inst.now) }
    requires broken { ¬ (IsSoundReturnValue definitions.now number (plain_inst inst.now)) }
    ensures { (G : Table) → Shows G definitions.now number (plain_inst inst.now) Y7 result }
{
    let Some(x) = first_id(inst.operands.as_slice()) else {
        unreachable!();
    };
    Evidence::Mismatch {
        side: Side::Return,
        wanted: Some(returned_type(definitions, number)),
        found: definitions.type_of(x),
        of: None,
    }
}
