//! Evidence for Y6.

ghost use Rattle.std.specs.Prelude.{◌≡◌, ℕ, Some, length, map};
ghost use Rattle.spv_table.specs.Table.{Table};
ghost use Rattle.spv_module.specs.declared.fault.Rule.TheVariants.{Y6};
ghost use Rattle.spv_module.specs.Module.{plain_inst};
ghost use Rattle.spv_module.specs.Operand as operand;
ghost use Rattle.spv_module.specs.declared.opcode.TheConstants as opcode;
ghost use Rattle.spv_layout.specs.Place.{AreFew};
ghost use Rattle.spv_type_rules.specs.Function as function;
ghost use Rattle.spv_type_rules.specs.Function.{parameters_after};
ghost use Rattle.spv_type_rules.specs.inner.Function.{IsSoundFunction, IsSoundParameter};
ghost use Rattle.spv_type_evidence.specs.types.Evidence.{Shows};
ghost use Rattle.spv_type_evidence.specs.types.inner.Known.{IsFunction, HasFunction, IsTypedParameter};

use crate::types::signature::first_difference;
use spv_evidence::{Evidence, Side};
use spv_module::{Inst, opcode};
use spv_type_forms::{Definitions, type_in};
use spv_type_rules::{function_of, function_type, parameter_type};

/// What shows that Y6 is broken at the OpFunction of a number, which so many parameters follow: where its type first
/// differs from its result type and its parameters.
pub fn function_evidence(
    definitions: &Definitions,
    number: u32,
    inst: &Inst,
    count: u32,
) -> Evidence
    requires function { (plain_inst inst.now).opcode ≡ opcode.FUNCTION }
    requires shape { IsFunction definitions.now (plain_inst inst.now) }
    requires count { parameters_after definitions.now number ≡ count }
    requires broken { ¬ (IsSoundFunction definitions.now number (plain_inst inst.now)) }
    ensures { (G : Table) → Shows G definitions.now number (plain_inst inst.now) Y6 result }
{
    let Some(r) = type_in(inst.operands.as_slice()) else {
        unreachable!();
    };
    let Some(difference) = first_difference(definitions, inst, r, count) else {
        unreachable!();
    };
    difference.evidence(function_type(inst))
}

/// How many OpFunctionParameters are among instructions.
fn parameter_count(insts: &[Inst]) -> u32
    requires { AreFew insts.now }
    ensures { result ≡ function.parameter_count (map plain_inst insts.now) }
{
    let mut count = 0;
    for inst in insts {
        if inst.opcode == opcode::FUNCTION_PARAMETER {
            count += 1;
        }
    }
    count
}

/// What shows that Y6 is broken at the OpFunctionParameter of a number: the type at its place in its function's type,
/// and its own. `insts` are the instructions of the module.
pub fn parameter_evidence(
    definitions: &Definitions,
    insts: &[Inst],
    number: u32,
    inst: &Inst,
) -> Evidence
    requires insts { map plain_inst insts.now ≡ definitions.now }
    requires few { AreFew insts.now }
    requires parameter { (plain_inst inst.now).opcode ≡ opcode.FUNCTION_PARAMETER }
    requires shape { IsTypedParameter definitions.now number (plain_inst inst.now) }
    requires broken { ¬ (IsSoundParameter definitions.now number (plain_inst inst.now)) }
    ensures { (G : Table) → Shows G definitions.now number (plain_inst inst.now) Y6 result }
{
    let Some(function) = function_of(definitions, number) else {
        unreachable!();
    };
    let before = parameter_count(&insts[function.number as usize + 1..number as usize]);
    Evidence::Mismatch {
        side: Side::Parameter { number: before },
        wanted: parameter_type(definitions, function.inst, before),
        found: type_in(inst.operands.as_slice()),
        of: function_type(function.inst),
    }
}
