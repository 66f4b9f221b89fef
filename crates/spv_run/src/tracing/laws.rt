//! Laws of the runs of checked modules. Each function does nothing: its contract is what is proved.

ghost use Rattle.std.specs.Prelude.{◌≡◌, ◌∷◌, [], ℕ, List};
ghost use Rattle.spv_table.specs.Table.{Table};
ghost use Rattle.spv_extended.specs.declared.reach.Reach.{Reach};
ghost use Rattle.spv_flow.specs.calls.Calls.{IsEntryFunction};
ghost use Rattle.spv_flow.specs.calls.Example.{functions};
ghost use Rattle.spv_check.specs.Checked.{IsKept};
ghost use Rattle.spv_check.specs.Program.{Program};
ghost use Rattle.spv_check.specs.Example.{kernel_program};
ghost use Rattle.spv_run.specs.Promise.{NeverGetsStuck};
ghost use Rattle.spv_run.specs.Tracing.{IsRunOf, IsTraceOf};
ghost use Rattle.spv_run.specs.declared.parts.Trace.{Trace};
ghost use Rattle.spv_run.specs.Example.{entered, step_at};
ghost use Rattle.spv_run.specs.State.{Finished};
ghost use Rattle.spv_run.specs.Trace.{ending_of};

use crate::laws::{promise_examples, run_never_gets_stuck};

/// A checked module never gets stuck, however far it is looked at: from each entry point's function, for all choices
/// and numbers of steps, the run ends otherwise, bound ids have their declared types, and there are no more frames than
/// function definitions.
pub fn never_stuck()
    ensures { (G : Table) (reach : Reach) (p : Program) → IsKept G reach p → (g : ℕ)
        → IsEntryFunction p.insts g → (choices : List ℕ) → NeverGetsStuck G p.insts g choices }
{
    run_never_gets_stuck();
}

/// A program has one trace of an id, choices and a limit, whatever the tables by which it is valid.
pub fn one_trace()
    ensures { (p : Program) (x : ℕ) (choices : List ℕ) (limit : ℕ) (t u : Trace) → IsTraceOf p x choices limit t
        → IsTraceOf p x choices limit u
        → (t.steps.items ≡ u.steps.items) × (t.ending ≡ u.ending) }
{}

/// Worked examples of traces.
pub fn trace_examples()
    // A function that only returns, which an OpEntryPoint names: its two steps, under any table.
    ensures run { (G : Table) (p : Program) (t : Trace) → p.insts ≡ entered
        → t.steps.items ≡ step_at 0 3 ∷ step_at 0 4 ∷ [] → ending_of t.ending ≡ Finished
        → IsRunOf G p 3 [] 9 t }
    // Functions that no OpEntryPoint names.
    ensures no_entry { (p : Program) (choices : List ℕ) (limit : ℕ) (t : Trace) → p.insts ≡ functions
        → ¬ (IsTraceOf p 1 choices limit t) }
    // The smallest kernel.
    ensures kernel { (t : Trace) → t.steps.items ≡ step_at 0 7 ∷ step_at 0 8 ∷ []
        → ending_of t.ending ≡ Finished → IsTraceOf kernel_program 3 [] 9 t }
{
    promise_examples();
}
