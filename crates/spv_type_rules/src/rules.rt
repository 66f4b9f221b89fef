//! The rules of types at an instruction, but for Y5.

ghost use Rattle.std.specs.Prelude.{◌≡◌, ◌<◌, ◌↔◌, ℕ, length, map, Some, None, IsTrue};
ghost use Rattle.std.specs.Prelude.{if◌then◌else◌, slice_get, IfOk, OnOk};
ghost use Rattle.spv_layout.specs.Place.{AreFew};
ghost use Rattle.spv_type_forms.specs.inner.Null.{AreNulls};
ghost use Rattle.spv_table.specs.Table.{Table};
ghost use Rattle.spv_module.specs.declared.opcode.TheConstants as opcode;
ghost use Rattle.spv_module.specs.Module.{plain_inst, plain_insts};
ghost use Rattle.spv_layout.specs.Place.{IsOfFunction};
ghost use Rattle.spv_layout.specs.Plan.{IsPlan};
ghost use Rattle.spv_ids.specs.Outcome.{IsDefinitionOf, definition_in};
ghost use Rattle.spv_type_rules.specs.Repeat.{Repeats};
ghost use Rattle.spv_type_rules.specs.Function.{parameters_between};
ghost use Rattle.spv_type_rules.specs.inner.Counted.{AreCounted};
ghost use Rattle.spv_type_rules.specs.Keeps.{KeepsFunctions, KeepsReturns};
ghost use Rattle.spv_type_rules.specs.inner.Keeps.{CallsAreSound};
ghost use Rattle.spv_type_rules.specs.inner.Rules.{AreRules, rules_insts, IsFirstHere};

use crate::concern::{Concern, concern_of};
use crate::constant::is_sound_constant;
use crate::declaration::is_sound_declaration;
use crate::function::{
    count_parameters, is_sound_call, is_sound_function, is_sound_parameter, is_sound_return,
    is_sound_return_value,
};
use spv_ids::Ids;
use spv_layout::Plan;
use spv_module::{Inst, Module, Rule, opcode};
use spv_type_forms::{Definitions, Nulls};
use std::alloc::AllocError;

/// A rule, unless it is kept.
#[inline(always)]
fn unless(keeps: bool, rule: Rule) -> Option<Rule>
    ensures { result ≡ (if keeps then None else Some rule) }
{
    if keeps { None } else { Some(rule) }
}

/// A module whose types are judged.
#[derive(Drop)]
pub struct Rules<'m, 'a> {
    module: &'m Module<'a>,
    plan: &'m Plan,
    ids: &'m Ids,
    definitions: Definitions<'m, 'a>,
}

/// What is known at an instruction of those before it.
#[derive(Clone, Copy)]
pub struct Known {
    /// Whether it declares a type again.
    pub repeats: bool,
    /// How many parameters stand between the last OpFunction before it and itself.
    pub parameters: u32,
}

impl<'m, 'a> Rules<'m, 'a> {
    /// The rules of a module. `plan` and `ids` are what `lay_out` and `number` answered of it, and `definitions` are
    /// its own.
    pub fn new(
        module: &'m Module<'a>,
        plan: &'m Plan,
        ids: &'m Ids,
        definitions: Definitions<'m, 'a>,
    ) -> Rules<'m, 'a>
        requires plan { (G : Table) × IsPlan G (plain_insts «module».now) plan.now }
        requires ids { (x : ℕ) → IsDefinitionOf (plain_insts «module».now) x (definition_in ids.now x) }
        requires definitions { definitions ≡ plain_insts «module».now }
        ensures rules { AreRules result }
        ensures insts { rules_insts result ≡ plain_insts «module».now }
        ensures plan { result.plan.now ≡ plan.now }
    {
        Rules {
            module,
            plan,
            ids,
            definitions,
        }
    }

    /// What the ids of the module stand for.
    #[inline(always)]
    pub fn definitions(&self) -> &Definitions<'m, 'a>
        ensures { result.now ≡ rules_insts self.now }
    {
        &self.definitions
    }

    /// Whether Y6 is unbroken at an instruction.
    #[inline(never)]
    fn keeps_functions(&self, number: u32, inst: &Inst<'a>, parameters: u32) -> bool
        requires rules { AreRules self.now }
        requires inst { slice_get (rules_insts self.now) number ≡ Some (plain_inst inst.now) }
        requires parameters { (plain_inst inst.now).opcode ≡ opcode.FUNCTION_PARAMETER → (f : ℕ)
            → IsOfFunction (rules_insts self.now) number f → parameters_between (rules_insts self.now) f number
            ≡ parameters }
        ensures { IsTrue result ↔ KeepsFunctions (rules_insts self.now) number (plain_inst inst.now) }
    {
        match inst.opcode {
            opcode::FUNCTION => {
                let rest = &self.module.insts.as_slice()[number as usize + 1..];
                is_sound_function(&self.definitions, number, inst, count_parameters(rest))
            }
            opcode::FUNCTION_PARAMETER => is_sound_parameter(
                &self.definitions,
                number,
                inst,
                parameters,
            ),
            _ => true,
        }
    }

    /// Whether Y7 is unbroken at an instruction.
    #[inline(never)]
    fn keeps_returns(&self, number: u32, inst: &Inst<'a>) -> bool
        requires rules { AreRules self.now }
        requires inst { slice_get (rules_insts self.now) number ≡ Some (plain_inst inst.now) }
        ensures { IsTrue result ↔ KeepsReturns (rules_insts self.now) number (plain_inst inst.now) }
    {
        match inst.opcode {
            opcode::RETURN => is_sound_return(&self.definitions, number),
            opcode::RETURN_VALUE => is_sound_return_value(&self.definitions, number, inst),
            _ => true,
        }
    }

    /// Whether Y8 is unbroken at an instruction.
    #[inline(never)]
    fn keeps_calls(&self, inst: &Inst<'a>) -> bool
        requires { AreRules self.now }
        ensures { IsTrue result ↔ CallsAreSound (rules_insts self.now) (plain_inst inst.now) }
    {
        if inst.opcode == opcode::FUNCTION_CALL {
            is_sound_call(&self.definitions, inst)
        } else {
            true
        }
    }

    /// The first of the rules Y2, Y3, Y4, Y6, Y7 and Y8 that is broken at the instruction of a number, by what is known
    /// of those before it: none at an operation. Time is linear in the instruction's words; at an OpFunction, in those
    /// up to its first block too, and at an OpConstantNull as `Nulls` says.
    ///
    /// An `AllocError` comes only where a growth of memory was refused.
    #[inline(always)]
    pub fn first_at(
        &self,
        number: u32,
        inst: &Inst<'a>,
        known: Known,
        nulls: &mut Nulls,
    ) -> Result<Option<Rule>, AllocError>
        requires rules { AreRules self.now }
        requires few { AreFew (rules_insts self.now) }
        requires inst { slice_get (rules_insts self.now) number ≡ Some (plain_inst inst.now) }
        requires repeats { IsTrue known.repeats ↔ Repeats (rules_insts self.now) number (plain_inst inst.now) }
        requires parameters { AreCounted (rules_insts self.now) number known.parameters }
        requires nulls { AreNulls (rules_insts self.now) nulls.old }
        ensures first { IfOk result (λ o. IsFirstHere (rules_insts self.now) number (plain_inst inst.now) o) }
        ensures nulls { OnOk result (AreNulls (rules_insts self.now) nulls.new) }
    {
        match concern_of(inst.opcode) {
            Concern::Declaration => {
                if !is_sound_declaration(&self.definitions, self.ids, number, inst) {
                    return Ok(Some(Rule::Y2));
                }
                if known.repeats {
                    return Ok(Some(Rule::Y3));
                }
                Ok(None)
            }
            Concern::Constant => {
                let keeps = is_sound_constant(&self.definitions, nulls, inst)?;
                Ok(unless(keeps, Rule::Y4))
            }
            Concern::Function => Ok(unless(
                self.keeps_functions(number, inst, known.parameters),
                Rule::Y6,
            )),
            Concern::Return => Ok(unless(self.keeps_returns(number, inst), Rule::Y7)),
            Concern::Call => Ok(unless(self.keeps_calls(inst), Rule::Y8)),
            Concern::Nothing => Ok(None),
        }
    }
}
