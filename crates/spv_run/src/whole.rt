//! The run of a function of a module.

ghost use Rattle.std.specs.Prelude.{ℕ, map, IfOk, IfErr};
ghost use Rattle.spv_table.specs.Table.{Table};
ghost use Rattle.spv_module.specs.Module.{plain_inst};
ghost use Rattle.spv_layout.specs.Place.{AreFew};
ghost use Rattle.spv_ids.specs.Definition.{IsDefinedAt};
ghost use Rattle.spv_ids.specs.Outcome.{AreNumbered};
ghost use Rattle.spv_flow.specs.calls.Calls.{IsEntryFunction};
ghost use Rattle.spv_run.specs.Sound.{KeepsRules};
ghost use Rattle.spv_run.specs.State.{State};
ghost use Rattle.spv_run.specs.Run.{IsStart, Run};
ghost use Rattle.spv_run.specs.Trace.{ending_of};
ghost use Rattle.spv_run.specs.Entry.{IsTraced, RefusesEntry};

use crate::bodies::entries_of;
use crate::entry::is_entry;
use crate::moves::{Move, call_by, place_of};
use crate::parts::{Code, Ending, Trace, TraceError};
use crate::tracer::{Start, steps_of};
use std::alloc::{AllocError, Global};

/// The steps of the run of a function in at most `limit` steps, and how it ended.
fn run_of(
    alloc: Global,
    code: Code<'_, '_>,
    function: u32,
    choices: &[u32],
    limit: u32,
) -> Result<Trace, AllocError>
    requires { AreFew code.insts.now }
    ensures { IfOk result (λ t. (G : Table) (bound g : ℕ) (s : State)
        → KeepsRules G bound (map plain_inst code.entry.insts.now)
        → AreNumbered (map plain_inst code.entry.insts.now) code.entry.ids.now
        → IsEntryFunction (map plain_inst code.entry.insts.now) g
        → IsDefinedAt (map plain_inst code.entry.insts.now) function g
        → IsStart (map plain_inst code.entry.insts.now) g choices.now s
        → Run G (map plain_inst code.entry.insts.now) limit s t.steps.items (ending_of t.ending)) }
{
    let entries = entries_of(alloc, code.insts)?;
    let entries = entries.as_slice();
    match call_by(entries, place_of(code.ids, function)) {
        Move::Call(entry) => steps_of(alloc, code, Start { entry, entries }, choices, limit),
        _ => Ok(Trace {
            steps: Vec::new(alloc),
            ending: Ending::Limit,
        }),
    }
}

/// The steps of the run of a function in at most `limit` steps, and how it ended, of a module on which no rule is
/// broken and whose ids are numbered. `function` is the id of an entry point's function; `choices` are the places of
/// the targets that are taken, from 0, one for each OpBranchConditional and OpSwitch that is executed.
///
/// Each step takes the time of a look-up of an id or two, whatever the instruction. Memory for as many frames as the
/// module has function definitions is taken at the start, and no run of a module on which no rule is broken has more
/// (the law `run_never_gets_stuck`), so that after that only the growth of the steps takes memory.
///
/// `NoEntry` comes exactly where the id is the function of no OpEntryPoint; `Memory` only where a growth of memory was
/// refused.
pub fn trace_function(
    alloc: Global,
    code: Code<'_, '_>,
    function: u32,
    choices: &[u32],
    limit: u32,
) -> Result<Trace, TraceError>
    // A module of at most 4,194,304 words has no more instructions.
    requires { AreFew code.insts.now }
    ensures trace { IfOk result (λ t. IsTraced
        (map plain_inst code.entry.insts.now) code.entry.ids.now function choices.now limit t) }
    ensures refused { IfErr result (λ e. RefusesEntry (map plain_inst code.entry.insts.now) function e) }
{
    if !is_entry(code.insts, function) {
        return Err(TraceError::NoEntry);
    }
    Ok(run_of(alloc, code, function, choices, limit)?)
}
