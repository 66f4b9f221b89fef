//! Evidence for Y8.

ghost use Rattle.std.specs.Prelude.{◌≡◌, ◌∷◌, ℕ, Some, MatchOption, length};
ghost use Rattle.spv_table.specs.Table.{Table};
ghost use Rattle.spv_module.specs.declared.fault.Rule.TheVariants.{Y8};
ghost use Rattle.spv_module.specs.Module.{plain_inst, plain_operands};
ghost use Rattle.spv_module.specs.Operand.{OfType, Result, Id};
ghost use Rattle.spv_module.specs.declared.opcode.TheConstants as opcode;
ghost use Rattle.spv_layout.specs.Place.{AreFew};
ghost use Rattle.spv_type_rules.specs.inner.Function.{IsSoundCall};
ghost use Rattle.spv_evidence.specs.declared.evidence.Side.TheVariants.{Argument};
ghost use Rattle.spv_type_evidence.specs.types.Evidence.{Shows};
ghost use Rattle.spv_type_evidence.specs.types.inner.Known.{IsFunction, CallsOne, AreOfCall};
ghost use Rattle.spv_type_evidence.specs.types.inner.Differences.{AreSame, AreOther, CallDiffers, IsCallable};

use crate::types::signature::{Difference, first_difference, split_signature};
use spv_evidence::{Evidence, Side};
use spv_module::{Inst, Operand};
use spv_readings::id_at;
use spv_type_forms::Definitions;
use spv_type_rules::{function_type, signature};

/// An argument, by its number from 0, and the types that are wanted and found there.
#[derive(Clone, Copy)]
struct Argument {
    number: u32,
    wanted: u32,
    found: u32,
}

/// The argument of a number, if it is of another type than the parameter of that number.
fn other_argument(
    definitions: &Definitions,
    parameters: &[Operand],
    arguments: &[Operand],
    number: u32,
) -> Option<Argument>
    ensures { let ps = plain_operands parameters.now in let os = plain_operands arguments.now in
        MatchOption result (AreSame definitions.now ps os number)
        (λ a. AreOther definitions.now ps os a.number a.wanted a.found) }
{
    let Some(wanted) = id_at(parameters, number as usize) else {
        return None;
    };
    let Some(argument) = id_at(arguments, number as usize) else {
        return None;
    };
    let Some(found) = definitions.type_of(argument) else {
        return None;
    };
    if found == wanted {
        return None;
    }
    Some(Argument {
        number,
        wanted,
        found,
    })
}

/// The first argument that is of another type than the parameter of its number, if one is.
fn first_argument(
    definitions: &Definitions,
    parameters: &[Operand],
    arguments: &[Operand],
) -> Option<Argument>
    requires { AreFew arguments.now }
    ensures { let ps = plain_operands parameters.now in let os = plain_operands arguments.now in
        MatchOption result ((k : ℕ) → AreSame definitions.now ps os k)
        (λ a. AreOther definitions.now ps os a.number a.wanted a.found) }
{
    for number in 0..arguments.len() as u32 {
        if let Some(argument) = other_argument(definitions, parameters, arguments, number) {
            return Some(argument);
        }
    }
    None
}

/// Where the type of a function differs from a call with a result type and arguments, if somewhere.
fn call_difference(
    definitions: &Definitions,
    callee: &Inst,
    r: u32,
    arguments: &[Operand],
) -> Option<Difference>
    requires callee { IsFunction definitions.now (plain_inst callee.now) }
    requires few { AreFew arguments.now }
    ensures { let os = plain_operands arguments.now in
        MatchOption result (IsCallable definitions.now (plain_inst callee.now) r os)
        (λ d. CallDiffers definitions.now (plain_inst callee.now) r os d.side d.wanted d.found) }
{
    if let Some(difference) = first_difference(definitions, callee, r, arguments.len() as u32) {
        return Some(difference);
    }
    let Some(signature) = signature(definitions, callee) else {
        unreachable!();
    };
    let (_, parameters) = split_signature(signature);
    let argument = first_argument(definitions, parameters, arguments)?;
    Some(Difference {
        side: Side::Argument {
            number: argument.number,
        },
        wanted: Some(argument.wanted),
        found: Some(argument.found),
    })
}

/// The operands of an OpFunctionCall.
#[derive(Clone, Copy)]
struct Call<'o, 'a> {
    result_type: u32,
    result: u32,
    callee: u32,
    arguments: &'o [Operand<'a>],
}

/// The operands of an OpFunctionCall, one by one.
fn call_of<'o, 'a>(operands: &'o [Operand<'a>]) -> Call<'o, 'a>
    requires { AreOfCall (plain_operands operands.now) }
    ensures { plain_operands operands.now
        ≡ OfType result.result_type ∷ Result result.result ∷ Id result.callee
        ∷ plain_operands result.arguments.now }
{
    let [
        Operand::OfType(result_type),
        Operand::Result(result),
        Operand::Id(callee),
        arguments @ ..,
    ] = operands
    else {
        unreachable!();
    };
    Call {
        result_type: *result_type,
        result: *result,
        callee: *callee,
        arguments,
    }
}

/// What shows that Y8 is broken at an OpFunctionCall: where the callee's type first differs from the call's result
/// type and its arguments.
pub fn call_evidence(definitions: &Definitions, inst: &Inst) -> Evidence
    requires call { (plain_inst inst.now).opcode ≡ opcode.FUNCTION_CALL }
    requires shape { CallsOne definitions.now (plain_inst inst.now) }
    requires broken { ¬ (IsSoundCall definitions.now (plain_inst inst.now)) }
    ensures { (G : Table) (n : ℕ) → Shows G definitions.now n (plain_inst inst.now) Y8 result }
{
    let call = call_of(inst.operands.as_slice());
    let Some(callee) = definitions.definition(call.callee) else {
        unreachable!();
    };
    let Some(difference) = call_difference(definitions, callee, call.result_type, call.arguments)
    else {
        unreachable!();
    };
    difference.evidence(function_type(callee))
}
