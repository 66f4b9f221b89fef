//! How many function definitions a module has.

ghost use Rattle.std.specs.Prelude.{◌↔◌, ℕ, List, IsTrue, MatchOption};
ghost use Rattle.spv_module.specs.Operand.{PlainInst};
ghost use Rattle.spv_module.specs.Module.{plain_insts};
ghost use Rattle.spv_layout.specs.Place.{AreFew, IsDefinition};
ghost use Rattle.spv_flow.specs.calls.inner.Found.{ArePlaces, IsLate, IsOfDefinition};
ghost use Rattle.spv_check.specs.flow.Definitions.{CountsDefinitions};

use spv_layout::{DEFINITIONS, Plan};
use spv_module::{Module, opcode};

/// The definition that an instruction is of, if it is of a class of sections 9 to 11.
#[inline(always)]
fn definition_of(plan: &Plan, inst: u32) -> Option<u32>
    ensures { (is : List PlainInst) → ArePlaces is plan.now
        → MatchOption result ((f : ℕ) → IsLate is inst → ¬ (IsOfDefinition is inst f))
        (IsOfDefinition is inst) }
{
    let Some(place) = plan.at(inst) else {
        return None;
    };
    if place.section == DEFINITIONS {
        place.function
    } else {
        None
    }
}

/// Whether an instruction is the OpFunction of a definition.
#[inline(always)]
fn is_definition(plan: &Plan, inst: u32) -> bool
    ensures { (is : List PlainInst) → ArePlaces is plan.now → IsTrue result ↔ IsDefinition is inst }
{
    match definition_of(plan, inst) {
        Some(function) => function == inst,
        None => false,
    }
}

/// How many function definitions a module has.
pub fn count_definitions(module: &Module<'_>, plan: &Plan) -> u32
    requires few { AreFew (plain_insts «module».now) }
    requires places { ArePlaces (plain_insts «module».now) plan.now }
    ensures { CountsDefinitions (plain_insts «module».now) result }
{
    let mut count = 0;
    for inst in plan.before_functions()..module.insts.len() as u32 {
        if module.insts[inst as usize].opcode == opcode::FUNCTION {
            if is_definition(plan, inst) {
                count += 1;
            }
        }
    }
    count
}
