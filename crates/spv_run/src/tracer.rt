//! The steps of a run, by what each instruction does.

use crate::moves::{Move, move_of, place_of, target_of};
use crate::parts::{Code, Ending, Step, Trace};
use spv_ids::Ids;
use spv_module::Inst;
use std::alloc::{AllocError, Global};

/// Where a run stands, where the calls that it is in go on, the last one last, and how many choices it took.
#[derive(Drop)]
struct Walker {
    position: u32,
    callers: Vec<u32>,
    taken: usize,
}

/// What comes of an instruction: a step, a last step, or an end before the step.
#[derive(Clone, Copy)]
enum Turn {
    Goes,
    Last(Ending),
    Before(Ending),
}

/// Where a run begins: the label of the entry block, and where the bodies of functions begin.
#[derive(Clone, Copy)]
pub struct Start<'m> {
    pub entry: u32,
    /// At each OpFunction the OpLabel with which its body begins, or 0.
    pub entries: &'m [u32],
}

impl Walker {
    ghost use Rattle.std.specs.Prelude.{◌≡◌, ◌≤◌, ◌+◌, ℕ, List, Some, length, map, slice_get, IfOk};
    ghost use Rattle.spv_table.specs.Table.{Table};
    ghost use Rattle.spv_module.specs.Operand.{PlainInst};
    ghost use Rattle.spv_module.specs.Module.{plain_inst};
    ghost use Rattle.spv_layout.specs.Place.{AreFew};
    ghost use Rattle.spv_ids.specs.Outcome.{AreNumbered};
    ghost use Rattle.spv_run.specs.Act.{Choose, act_of};
    ghost use Rattle.spv_run.specs.Sound.{KeepsRules};
    ghost use Rattle.spv_run.specs.inner.Trace.{kept, turned, IsTurn, ByChoice};

    /// Goes to the target that is chosen next, if there is one.
    fn choose(&mut self, inst: &Inst<'_>, ids: &Ids, choices: &[u32]) -> Turn
        ensures callers { self.new.callers ≡ self.old.callers }
        ensures turn { (is : List PlainInst) (G : Table) (bound n c : ℕ) (xs : List ℕ) → KeepsRules G bound is
            → AreNumbered is ids.now → slice_get is n ≡ Some (plain_inst inst.now)
            → act_of (plain_inst inst.now) ≡ Choose c xs
            → ByChoice is (kept self.old choices.now) xs (kept self.old choices.now).choices
            (turned result (kept self.new choices.now)) }
    {
        let Some(choice) = choices.get(self.taken) else {
            return Turn::Before(Ending::NoChoice);
        };
        let Some(label) = target_of(inst, *choice) else {
            return Turn::Before(Ending::BadChoice);
        };
        self.taken += 1;
        self.position = place_of(ids, label);
        Turn::Goes
    }

    /// Goes by the instruction at the position; where there is none, it goes nowhere.
    fn turn(
        &mut self,
        code: Code<'_, '_>,
        entries: &[u32],
        choices: &[u32],
    ) -> Result<Turn, AllocError>
        requires { AreFew code.insts.now }
        ensures depth { IfOk result (λ r. length self.new.callers.items ≤ length self.old.callers.items + 1) }
        ensures turn { IfOk result (λ r. IsTurn (map plain_inst code.entry.insts.now) code.entry.ids.now entries.now
            (kept self.old choices.now) (turned r (kept self.new choices.now))) }
    {
        let Some(inst) = code.insts.get(self.position as usize) else {
            return Ok(Turn::Before(Ending::Limit));
        };
        match move_of(inst, code.ids, entries) {
            Move::On => {
                self.position += 1;
            }
            Move::Branch(label) => {
                self.position = label;
            }
            Move::Choose => {
                return Ok(self.choose(inst, code.ids, choices));
            }
            Move::Call(label) => {
                self.callers.push(self.position + 1)?;
                self.position = label;
            }
            Move::Return => {
                let Some(caller) = self.callers.pop() else {
                    return Ok(Turn::Last(Ending::Finished));
                };
                self.position = caller;
            }
            Move::Unreachable => {
                return Ok(Turn::Last(Ending::Unreachable));
            }
        }
        Ok(Turn::Goes)
    }
}

ghost use Rattle.std.specs.Prelude.{map, IfOk};
ghost use Rattle.spv_module.specs.Module.{plain_inst};
ghost use Rattle.spv_layout.specs.Place.{AreFew};
ghost use Rattle.spv_run.specs.inner.Trace.{IsRun};

/// The steps of a run in at most `limit` steps, from the label where it begins, and how it ended. Memory for as many
/// frames as there are function definitions is taken at the start; a run of no more frames takes more for its steps
/// alone.
pub fn steps_of(
    alloc: Global,
    code: Code<'_, '_>,
    start: Start<'_>,
    choices: &[u32],
    limit: u32,
) -> Result<Trace, AllocError>
    requires { AreFew code.insts.now }
    ensures { IfOk result (λ t. IsRun (map plain_inst code.entry.insts.now) code.entry.ids.now start.entry.entries.now
        start.entry.entry choices.now limit t.steps.items t.ending) }
{
    let callers = Vec::with_capacity(alloc, code.definitions as usize)?;
    let mut steps = Vec::new(alloc);
    let mut walker = Walker {
        position: start.entry,
        callers,
        taken: 0,
    };
    for _done in 0..limit {
        let step = Step {
            depth: walker.callers.len() as u32,
            inst: walker.position,
        };
        match walker.turn(code, start.entries, choices)? {
            Turn::Goes => steps.push(step)?,
            Turn::Last(ending) => {
                steps.push(step)?;
                return Ok(Trace { steps, ending });
            }
            Turn::Before(ending) => return Ok(Trace { steps, ending }),
        }
    }
    Ok(Trace {
        steps,
        ending: Ending::Limit,
    })
}
