//! What shows that a rule of types other than Y5 is broken.

mod call;
mod constant;
mod declaration;
mod first;
mod function;
pub mod laws;
mod operands;
mod repeat;
mod returns;
mod signature;

ghost use Rattle.std.specs.Prelude.{◌≡◌, ◌+◌, ℕ, List, IfOk, Some, length, map, slice_get};
ghost use Rattle.spv_table.specs.Table.{Table};
ghost use Rattle.spv_module.specs.declared.fault.Rule.TheVariants.{Y6, Y7};
ghost use Rattle.spv_module.specs.Module.{plain_inst, plain_insts};
ghost use Rattle.spv_layout.specs.Place.{IsShort, AreFew};
ghost use Rattle.spv_ids.specs.Outcome.{IsDefinitionOf, definition_in};
ghost use Rattle.spv_type_rules.specs.Keeps.{KeepsFunctions, KeepsReturns};
ghost use Rattle.spv_type_evidence.specs.types.Broken.{IsBroken};
ghost use Rattle.spv_type_evidence.specs.types.Evidence.{IsEvidence, Shows};
ghost use Rattle.spv_type_evidence.specs.types.inner.Known.{IsKnown};

use crate::types::call::call_evidence;
use crate::types::constant::constant_evidence;
use crate::types::declaration::declaration_evidence;
use crate::types::function::{function_evidence, parameter_evidence};
use crate::types::repeat::repeat_evidence;
use crate::types::returns::{return_evidence, value_evidence};
use spv_evidence::Evidence;
use spv_ids::Ids;
use spv_layout::Plan;
use spv_module::{Inst, Module, Rule, opcode};
use spv_type_forms::Definitions;
use spv_type_rules::count_parameters;
use std::alloc::{AllocError, Global};

/// What shows that Y6 is broken at the OpFunction or OpFunctionParameter of a number. `insts` are the instructions of
/// the module.
fn evidence_of_function(
    definitions: &Definitions,
    insts: &[Inst],
    number: u32,
    inst: &Inst,
) -> Evidence
    requires insts { map plain_inst insts.now ≡ definitions.now }
    requires few { AreFew insts.now }
    requires known { (G : Table) × IsKnown G definitions.now }
    requires there { slice_get definitions.now number ≡ Some (plain_inst inst.now) }
    requires broken { ¬ (KeepsFunctions definitions.now number (plain_inst inst.now)) }
    ensures { (G : Table) → Shows G definitions.now number (plain_inst inst.now) Y6 result }
{
    match inst.opcode {
        opcode::FUNCTION => {
            let count = count_parameters(&insts[number as usize + 1..]);
            function_evidence(definitions, number, inst, count as u32)
        }
        opcode::FUNCTION_PARAMETER => parameter_evidence(definitions, insts, number, inst),
        _ => unreachable!(),
    }
}

/// What shows that Y7 is broken at the OpReturn or OpReturnValue of a number.
fn evidence_of_return(definitions: &Definitions, number: u32, inst: &Inst) -> Evidence
    requires known { (G : Table) × IsKnown G definitions.now }
    requires there { slice_get definitions.now number ≡ Some (plain_inst inst.now) }
    requires broken { ¬ (KeepsReturns definitions.now number (plain_inst inst.now)) }
    ensures { (G : Table) → Shows G definitions.now number (plain_inst inst.now) Y7 result }
{
    match inst.opcode {
        opcode::RETURN => return_evidence(definitions, number),
        opcode::RETURN_VALUE => value_evidence(definitions, number, inst),
        _ => unreachable!(),
    }
}

/// What shows that a rule of Y2 to Y8 other than Y5 is broken at the instruction of a number, from 0 (SPIR-V
/// Specification 1.6, section 2.16). `plan` and `ids` are what `lay_out` and `number` answered of that module; each id
/// that is used plays its role, as `roles_check` tells.
///
/// Time is linear in the words of the instruction; at a repeated type and at a function or a parameter, in those of the
/// module.
///
/// The error comes when out of memory.
pub fn type_evidence(
    alloc: Global,
    module: &Module<'_>,
    plan: &Plan,
    ids: &Ids,
    rule: Rule,
    number: u32,
) -> Result<Evidence, AllocError>
    // The condition of `lay_out`, and that the plan and the ids are what was answered of the module.
    requires words { IsShort (plain_insts «module».now) }
    requires ids { (x : ℕ) → IsDefinitionOf (plain_insts «module».now) x (definition_in ids.now x) }
    requires broken { (G : Table) × IsBroken G (plain_insts «module».now) plan.now rule number }
    ensures { (G : Table) → IsBroken G (plain_insts «module».now) plan.now rule number
        → IfOk result (λ e. IsEvidence G (plain_insts «module».now) rule number e) }
{
    let insts = module.insts.as_slice();
    let definitions = Definitions::new(insts, plan, ids);
    let inst = definitions.inst(number);
    match rule {
        Rule::Y2 => Ok(declaration_evidence(alloc, &definitions, ids, number, inst)),
        Rule::Y3 => Ok(repeat_evidence(insts, number, inst)),
        Rule::Y4 => constant_evidence(alloc, &definitions, ids, inst),
        Rule::Y6 => Ok(evidence_of_function(&definitions, insts, number, inst)),
        Rule::Y7 => Ok(evidence_of_return(&definitions, number, inst)),
        Rule::Y8 => Ok(call_evidence(&definitions, inst)),
        _ => unreachable!(),
    }
}
