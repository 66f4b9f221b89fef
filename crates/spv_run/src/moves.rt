//! What each instruction of a module does to a run.

ghost use Rattle.std.specs.Prelude.{◌≡◌, ◌<◌, ℕ, List, Some, slice_get};
ghost use Rattle.spv_module.specs.Operand.{PlainInst};
ghost use Rattle.spv_table.specs.Table.{Table};
ghost use Rattle.spv_module.specs.Module.{plain_inst};
ghost use Rattle.spv_layout.specs.Shape.{FitsShape};
ghost use Rattle.spv_ids.specs.Definition.{IsDefinedAt};
ghost use Rattle.spv_ids.specs.Outcome.{AreNumbered};
ghost use Rattle.spv_run.specs.Act.{Function, Call, Choose, act_of};
ghost use Rattle.spv_run.specs.At.{act_at};
ghost use Rattle.spv_run.specs.Sound.{KeepsRules};
ghost use Rattle.spv_run.specs.inner.Trace.{Tells};
ghost use Rattle.spv_run.specs.inner.Bodies.{HaveEntries};

use spv_ids::{Ids, named_id};
use spv_module::{Inst, opcode};

/// What an instruction of a function's body does to a run. Numbers are those of instructions.
#[derive(Clone, Copy)]
pub enum Move {
    /// Goes on to the next.
    On,
    /// Goes to a label.
    Branch(u32),
    /// Goes to one of its targets.
    Choose,
    /// Calls the definition whose body begins at this label.
    Call(u32),
    Return,
    Unreachable,
}

/// The instruction whose result an id is.
pub fn place_of(ids: &Ids, id: u32) -> u32
    ensures { (is : List PlainInst) (m : ℕ) → AreNumbered is ids.now → IsDefinedAt is id m → result ≡ m }
{
    match ids.definition(id) {
        Some(place) => place,
        None => 0,
    }
}

/// The label to which a choice leads at a branch with a choice, if there is one: of OpBranchConditional the targets are
/// its second operand and the one after, of OpSwitch its second operand and every other one after.
pub fn target_of(inst: &Inst<'_>, choice: u32) -> Option<u32>
    ensures { (G : Table) (c : ℕ) (xs : List ℕ) → FitsShape G (plain_inst inst.now)
        → act_of (plain_inst inst.now) ≡ Choose c xs → result ≡ slice_get xs choice }
{
    if inst.opcode == opcode::SWITCH {
        return named_id(inst, choice as usize * 2 + 1);
    }
    if choice < 2 {
        named_id(inst, choice as usize + 1)
    } else {
        None
    }
}

/// What a call of a function does, by where bodies begin.
pub fn call_by(entries: &[u32], function: u32) -> Move
    ensures { (is : List PlainInst) (G : Table) (bound x : ℕ) (xs : List ℕ) → KeepsRules G bound is
        → HaveEntries is entries.now → IsDefinedAt is x function
        → act_at is function ≡ Some Function → Tells is (Call x xs) result }
{
    let Some(entry) = entries.get(function as usize) else {
        return Move::On;
    };
    let label = *entry;
    if label == 0 {
        Move::On
    } else {
        Move::Call(label)
    }
}

/// What an instruction does to a run. `entries` has at each OpFunction where its body begins.
pub fn move_of(inst: &Inst<'_>, ids: &Ids, entries: &[u32]) -> Move
    ensures { (is : List PlainInst) (G : Table) (bound n : ℕ) → KeepsRules G bound is → AreNumbered is ids.now
        → HaveEntries is entries.now
        → slice_get is n ≡ Some (plain_inst inst.now) → Tells is (act_of (plain_inst inst.now)) result }
{
    let opcode = inst.opcode;
    if opcode == opcode::BRANCH {
        return match named_id(inst, 0) {
            Some(label) => Move::Branch(place_of(ids, label)),
            None => Move::On,
        };
    }
    if opcode == opcode::BRANCH_CONDITIONAL {
        return Move::Choose;
    }
    if opcode == opcode::SWITCH {
        return Move::Choose;
    }
    if opcode == opcode::FUNCTION_CALL {
        return match named_id(inst, 2) {
            Some(callee) => call_by(entries, place_of(ids, callee)),
            None => Move::On,
        };
    }
    if opcode == opcode::RETURN {
        return Move::Return;
    }
    if opcode == opcode::RETURN_VALUE {
        return Move::Return;
    }
    if opcode == opcode::UNREACHABLE {
        return Move::Unreachable;
    }
    Move::On
}
