//! The run of a checked module from an entry point.
ghost use Rattle.std.specs.Prelude.{ℕ, List, IfOk, IfErr};
ghost use Rattle.spv_table.specs.Table.{Table};
ghost use Rattle.spv_extended.specs.declared.reach.Reach.{Reach};
ghost use Rattle.spv_flow.specs.calls.Calls.{IsEntryFunction};
ghost use Rattle.spv_run.specs.Entry.{RefusesEntry};
ghost use Rattle.spv_run.specs.Promise.{NeverGetsStuck};
ghost use Rattle.spv_check.specs.Broken.{IsSound};
ghost use Rattle.spv_run.specs.Tracing.{IsRunOf, IsTraceOf};

pub mod laws;

use crate::parts::{Code, Trace, TraceError};
use crate::whole::trace_function;
use spv_check::Checked;
use spv_check::laws::kept_exactly;
use std::alloc::Global;

/// The steps of a run of a checked module in at most `limit` steps, and how it ended (own). It begins at the entry
/// block of the function whose id is `function`, its parameters bound to their types; `choices` are the places of the
/// targets that are taken, from 0, one for each OpBranchConditional and OpSwitch that is executed, and those left over
/// are ignored.
///
/// Each instruction that is executed is a step, lines too. A step's `depth` is the number of frames below its own,
/// which is less than the number of the module's function definitions. Memory for as many frames is taken at the start,
/// and after that only the growth of the steps takes memory; none is taken by the limit.
///
/// `NoEntry` comes exactly where the id is the function of no OpEntryPoint (SPIR-V Specification 1.6, section 3.49.5).
/// `Memory` comes only where a growth of memory was refused.
pub fn trace(
    alloc: Global,
    checked: &Checked<'_>,
    function: u32,
    choices: &[u32],
    limit: u32,
) -> Result<Trace, TraceError>
    // It is of the run under some table by which the module is valid, and under each, however far it is looked at.
    ensures trace { IfOk result (λ t. IsTraceOf checked.now function choices.now limit t) }
    ensures each { (G : Table) (reach : Reach) → IsSound G reach checked.now.bound checked.now.insts
        → IfOk result (λ t. IsRunOf G checked.now function choices.now limit t) }
    ensures refused { IfErr result (λ e. RefusesEntry checked.now.insts function e) }
    // Whatever is answered, the module is valid under some table, as far as it was looked at. Under each by which it
    // is, however far, from each entry point's function, for all choices and numbers of steps, the run does not get
    // stuck, and bound ids have their declared types.
    ensures sound { (G : Table) × (reach : Reach) × IsSound G reach checked.now.bound checked.now.insts }
    ensures free { (G : Table) (reach : Reach) → IsSound G reach checked.now.bound checked.now.insts → (g : ℕ)
        → IsEntryFunction checked.now.insts g → (xs : List ℕ) → NeverGetsStuck G checked.now.insts g xs }
{
    kept_exactly();
    let parts = checked.parts();
    let code = Code {
        insts: parts.module.insts.as_slice(),
        ids: parts.ids,
        definitions: parts.flow.definitions(),
    };
    trace_function(alloc, code, function, choices, limit)
}
