//! The instructions that are looked at, with their places and ids.

ghost use Rattle.std.specs.Prelude.{◌≡◌};
ghost use Rattle.spv_flow.specs.branches.Target as target;
ghost use Rattle.spv_flow.specs.branches.inner.Labels as labels;

use spv_ids::Ids;
use spv_layout::Plan;
use spv_module::Inst;
use spv_module::opcode::{BRANCH, LABEL, LOOP_MERGE, PHI, SELECTION_MERGE, SWITCH};

/// The instructions of a module, with what `lay_out` and `number` answered of it.
#[derive(Clone, Copy)]
pub struct Code<'m, 'a> {
    pub insts: &'m [Inst<'a>],
    pub plan: &'m Plan,
    pub ids: &'m Ids,
}

impl Code<'_, '_> {
    ghost use Rattle.std.specs.Prelude.{◌≡◌, ◌<◌, ℕ, length, IfSome, MatchOption, MatchBool};
    ghost use Rattle.spv_table.specs.Table.{Table};
    ghost use Rattle.spv_flow.specs.branches.inner.Code.{insts_of, IsCode};
    ghost use Rattle.spv_flow.specs.branches.Target.{is_opcode, IsLabelOf, IsOp};
    ghost use Rattle.spv_layout.specs.Place.{IsOfBlock};

    /// The OpLabel whose result an id is.
    #[inline(always)]
    pub fn label_of(&self, id: u32) -> Option<u32>
        ensures label { (G : Table) → IsCode G self.now
            → MatchOption result ((m : ℕ) → ¬ (IsLabelOf (insts_of self.now) id m))
            (λ m. IsLabelOf (insts_of self.now) id m) }
        ensures within { IfSome result (λ m. m < length self.now.insts.now) }
    {
        let Some(place) = self.ids.definition(id) else {
            return None;
        };
        if place as usize >= self.insts.len() {
            return None;
        }
        let inst = &self.insts[place as usize];
        if inst.opcode == LABEL {
            Some(place)
        } else {
            None
        }
    }

    /// Whether an id is the result of an OpLabel.
    pub fn has_label(&self, id: u32) -> bool
        ensures { (G : Table) → IsCode G self.now
            → MatchBool result ((m : ℕ) × IsLabelOf (insts_of self.now) id m)
            ((m : ℕ) → ¬ (IsLabelOf (insts_of self.now) id m)) }
    {
        self.label_of(id).is_some()
    }

    /// Whether an instruction has an opcode.
    #[inline(always)]
    pub fn has_opcode(&self, inst: u32, opcode: u16) -> bool
        requires { inst < length self.now.insts.now }
        ensures { MatchBool result (IsOp (insts_of self.now) inst (is_opcode opcode))
            (¬ (IsOp (insts_of self.now) inst (is_opcode opcode))) }
    {
        self.insts[inst as usize].opcode == opcode
    }

    /// The OpLabel of the block that an instruction is of.
    pub fn block_of(&self, inst: u32) -> Option<u32>
        ensures block { (G : Table) → IsCode G self.now → inst < length self.now.insts.now
            → MatchOption result ((b : ℕ) → ¬ (IsOfBlock (insts_of self.now) inst b))
            (λ b. IsOfBlock (insts_of self.now) inst b) }
        ensures within { (G : Table) → IsCode G self.now → inst < length self.now.insts.now
            → IfSome result (λ b. b < length self.now.insts.now) }
    {
        let Some(place) = self.plan.at(inst) else {
            return None;
        };
        place.block
    }
}

/// Whether an opcode is that of a terminator with labels: OpBranch, OpBranchConditional or OpSwitch.
#[inline(always)]
pub fn is_branch(opcode: u16) -> bool
    ensures { result ≡ target.is_branch opcode }
{
    BRANCH <= opcode && opcode <= SWITCH
}

/// Whether an opcode is that of OpLoopMerge or OpSelectionMerge.
#[inline(always)]
pub fn is_merge(opcode: u16) -> bool
    ensures { result ≡ target.is_merge opcode }
{
    LOOP_MERGE <= opcode && opcode <= SELECTION_MERGE
}

/// Whether an opcode is that of an OpPhi, a merge or a terminator with labels.
#[inline(always)]
pub fn is_labelled(opcode: u16) -> bool
    ensures { result ≡ labels.is_labelled opcode }
{
    opcode == PHI || (is_merge(opcode) || is_branch(opcode))
}
