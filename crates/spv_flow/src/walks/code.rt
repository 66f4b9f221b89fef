//! The instructions that are looked at, with their places and ids.

ghost use Rattle.std.specs.Prelude.{◌≡◌, ◌&&◌, nat_le, is_some};
ghost use Rattle.spv_module.specs.declared.opcode.TheConstants as opcode;
ghost use Rattle.spv_flow.specs.branches.Target as target;
ghost use Rattle.spv_flow.specs.branches.inner.Target as opcodes;
ghost use Rattle.spv_module.specs.Module.{plain_operands};
ghost use Rattle.spv_module.specs.Operand as operand;

use spv_ids::Ids;
use spv_layout::Plan;
use spv_module::opcode::{BRANCH, LABEL, RETURN, SWITCH, UNREACHABLE};
use spv_module::{Inst, Operand};

/// The instructions of a module, with what `lay_out` and `number` answered of it.
#[derive(Clone, Copy)]
pub struct Code<'m, 'a> {
    pub insts: &'m [Inst<'a>],
    pub plan: &'m Plan,
    pub ids: &'m Ids,
    /// How many instructions stand before the first OpFunction.
    pub globals: u32,
}

impl Code<'_, '_> {
    ghost use Rattle.std.specs.Prelude.{◌≡◌, ◌<◌, ℕ, length, IsTrue, IfSome, MatchOption, MatchBool};
    ghost use Rattle.spv_table.specs.Table.{Table};
    ghost use Rattle.spv_flow.specs.walks.inner.Code.{insts_of, IsCode};
    ghost use Rattle.spv_flow.specs.branches.Target.{IsLabelOf};
    ghost use Rattle.spv_flow.specs.branches.Ready.{IsLocalValue};
    ghost use Rattle.spv_ids.specs.Definition.{IsDefinedAt};
    ghost use Rattle.spv_layout.specs.Place.{IsOfFunction};

    /// The OpFunction of the function that an instruction is of.
    pub fn function_of(&self, inst: u32) -> Option<u32>
        ensures { (G : Table) → IsCode G self.now → inst < length self.now.insts.now
            → MatchOption result ((f : ℕ) → ¬ (IsOfFunction (insts_of self.now) inst f))
            (λ f. IsOfFunction (insts_of self.now) inst f) }
    {
        let Some(place) = self.plan.at(inst) else {
            return None;
        };
        place.function
    }

    /// The instruction whose result an id is.
    #[inline(always)]
    pub fn definition(&self, id: u32) -> Option<u32>
        ensures there { (G : Table) → IsCode G self.now
            → MatchOption result ((d : ℕ) → ¬ (IsDefinedAt (insts_of self.now) id d))
            (λ d. IsDefinedAt (insts_of self.now) id d) }
        ensures within { IfSome result (λ d. d < length self.now.insts.now) }
    {
        let Some(place) = self.ids.definition(id) else {
            return None;
        };
        if (place as usize) < self.insts.len() {
            Some(place)
        } else {
            None
        }
    }

    /// The OpLabel whose result an id is.
    #[inline(always)]
    pub fn label_of(&self, id: u32) -> Option<u32>
        ensures label { (G : Table) → IsCode G self.now
            → MatchOption result ((m : ℕ) → ¬ (IsLabelOf (insts_of self.now) id m))
            (λ m. IsLabelOf (insts_of self.now) id m) }
        ensures within { IfSome result (λ m. m < length self.now.insts.now) }
    {
        let Some(place) = self.definition(id) else {
            return None;
        };
        if self.insts[place as usize].opcode == LABEL {
            Some(place)
        } else {
            None
        }
    }

    /// Whether an instruction stands before the first function. Its result is no local value.
    #[inline(always)]
    pub fn is_global(&self, place: u32) -> bool
        ensures { (G : Table) (x : ℕ) → IsCode G self.now → IsDefinedAt (insts_of self.now) x place
            → IsTrue result → ¬ (IsLocalValue (insts_of self.now) x) }
    {
        place < self.globals
    }

    /// Whether the result of an instruction is a local value.
    #[inline(always)]
    pub fn is_local(&self, place: u32) -> bool
        requires { place < length self.now.insts.now }
        ensures { (G : Table) (x : ℕ) → IsCode G self.now → IsDefinedAt (insts_of self.now) x place
            → MatchBool result (IsLocalValue (insts_of self.now) x) (¬ (IsLocalValue (insts_of self.now) x)) }
    {
        if place < self.globals {
            return false;
        }
        let Some(function) = self.function_of(place) else {
            return false;
        };
        function < place && has_type(self.insts[place as usize].operands.as_slice())
    }
}

/// Whether one of the operands is a result type.
pub fn has_type(operands: &[Operand<'_>]) -> bool
    ensures { result ≡ is_some (operand.type_in (plain_operands operands.now)) }
{
    for operand in operands {
        if let Operand::OfType(_) = operand {
            return true;
        }
    }
    false
}

/// Whether an opcode is that of a terminator with labels: OpBranch, OpBranchConditional or OpSwitch.
#[inline(always)]
pub fn is_branch(opcode: u16) -> bool
    ensures { result ≡ target.is_branch opcode }
{
    BRANCH <= opcode && opcode <= SWITCH
}

/// Whether an opcode is that of an OpLabel or of a terminator with labels.
#[inline(always)]
pub fn is_label_or_branch(code: u16) -> bool
    ensures { result ≡ nat_le opcode.LABEL code && nat_le code opcode.SWITCH }
{
    LABEL <= code && code <= SWITCH
}

/// Whether an opcode is that of a terminator: a branch, OpReturn, OpReturnValue or OpUnreachable.
pub fn is_terminator(opcode: u16) -> bool
    ensures { result ≡ opcodes.is_terminator opcode }
{
    is_branch(opcode) || (RETURN <= opcode && opcode <= UNREACHABLE)
}
