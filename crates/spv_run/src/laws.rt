//! Laws of runs. Each function does nothing: its contract is what is proved.

ghost use Rattle.std.specs.Prelude.{◌≡◌, ◌≢◌, ℕ, List, [], ◌∷◌, Some, None};
ghost use Rattle.spv_table.specs.Table.{Table};
ghost use Rattle.spv_module.specs.Operand.{PlainInst};
ghost use Rattle.spv_flow.specs.calls.Calls.{IsEntryFunction};
ghost use Rattle.spv_run.specs.declared.parts.Step.{Step};
ghost use Rattle.spv_run.specs.Sound.{KeepsRules};
ghost use Rattle.spv_type_forms.specs.Example.{inst};
ghost use Rattle.spv_type_rules.specs.Example.{small, call};
ghost use Rattle.spv_run.specs.Act.{Label, Choose, Call, ReturnValue, Misfit, act_of};
ghost use Rattle.spv_run.specs.At.{act_at};
ghost use Rattle.spv_run.specs.Head.{IsDefined, IsDeclared};
ghost use Rattle.spv_run.specs.Row.{Row};
ghost use Rattle.spv_run.specs.Example.{switch, return_value, lone, unended, standing, step_at};
ghost use Rattle.spv_run.specs.State.{Ending, Finished, Limit, Stuck, State, Outcome, Goes, Last};
ghost use Rattle.spv_run.specs.Machine.{Does};
ghost use Rattle.spv_run.specs.Run.{IsStart, Run};
ghost use Rattle.spv_run.specs.Promise.{NeverGetsStuck};
ghost use Rattle.spv_run.specs.Entry.{IsEntryId, IsOfRun};
ghost use Rattle.spv_check.specs.Kernel.{grammar, kernel};
ghost use Rattle.spv_run.specs.Trace.{ending_of};
ghost use Rattle.spv_run.specs.declared.parts.Trace.{Trace};
ghost use Rattle.spv_flow.specs.calls.Example.{functions, looped};

/// A module on which no rule is broken never gets stuck: from each entry point's function, for all choices and numbers
/// of steps, the run ends otherwise, bound ids have their declared types, and there are no more frames than function
/// definitions.
pub fn run_never_gets_stuck()
    ensures { (G : Table) (bound : ℕ) (is : List PlainInst) → KeepsRules G bound is → (g : ℕ)
        → IsEntryFunction is g → (choices : List ℕ) → NeverGetsStuck G is g choices }
{}

/// At most one thing comes of a state, where no rule is broken: under whatever table.
pub fn one_outcome()
    ensures { (G H : Table) (bound : ℕ) (is : List PlainInst) → KeepsRules G bound is
        → (s : State) (o p : Outcome) → Does G is s o → Does H is s p → o ≡ p }
{}

/// So a state has at most one run of each length.
pub fn one_run()
    ensures { (G : Table) (bound : ℕ) (is : List PlainInst) → KeepsRules G bound is
        → (n : ℕ) (s : State) (steps others : List Step) (e f : Ending)
        → Run G is n s steps e → Run G is n s others f → (steps ≡ others) × (e ≡ f) }
{}

/// So it has under any two tables, if neither run gets stuck.
pub fn one_free_run()
    ensures { (G H : Table) (bound : ℕ) (is : List PlainInst) → KeepsRules G bound is
        → (n : ℕ) (s : State) (steps others : List Step) (e f : Ending)
        → Run G is n s steps e → Run H is n s others f → e ≢ Stuck → f ≢ Stuck
        → (steps ≡ others) × (e ≡ f) }
{}

/// What instructions are to a run: an OpSwitch has its targets in order, each as often as it stands there.
pub fn act_examples()
    ensures switch { act_of switch ≡ Choose 7 (8 ∷ 9 ∷ 8 ∷ []) }
    ensures misfit { act_of (inst 249 []) ≡ Misfit }
    ensures goes_on { act_at lone 3 ≡ Some Label }
    ensures past { act_at lone 6 ≡ None }
{}

/// A function without parameters, whose body begins at instruction 3; and what is asked of the types of arguments and
/// of what is returned.
pub fn row_examples()
    ensures defined { IsDefined lone 2 3 [] }
    ensures undeclared { ¬ (IsDeclared lone 2 3 []) }
    ensures argument { Row small 4 9 call (Call 4 (5 ∷ [])) (1 ∷ []) }
    ensures other_argument { ¬ (Row small 4 9 call (Call 4 (5 ∷ [])) (2 ∷ [])) }
    ensures no_argument { ¬ (Row small 4 9 call (Call 4 (5 ∷ [])) []) }
    ensures returned { Row small 4 9 return_value (ReturnValue 9) (1 ∷ []) }
    ensures other_returned { ¬ (Row small 4 9 return_value (ReturnValue 9) (2 ∷ [])) }
{}

/// The function that only returns, from its OpLabel on, under any table: each step, and its runs.
pub fn run_examples()
    ensures label { (G : Table) → Does G lone (standing 3) (Goes (standing 4)) }
    ensures finishes { (G : Table) → Does G lone (standing 4) (Last Finished) }
    // Nothing comes of an OpFunctionEnd.
    ensures over { (G : Table) (o : Outcome) → ¬ (Does G lone (standing 5) o) }
    ensures whole { (G : Table) → Run G lone 9 (standing 3) (step_at 0 3 ∷ step_at 0 4 ∷ []) Finished }
    ensures short { (G : Table) → Run G lone 1 (standing 3) (step_at 0 3 ∷ []) Limit }
    ensures stuck { (G : Table) → Run G lone 9 (standing 5) [] Stuck }
    ensures not_stuck { (G : Table) → ¬ (Run G lone 9 (standing 3) [] Stuck) }
{}

/// Where runs begin, which ids are those of entry points, and of which functions a run is promised.
pub fn promise_examples()
    // The function of instruction 2 begins at its OpLabel, and not after that.
    ensures start { IsStart lone 2 [] (standing 3) }
    ensures no_start { ¬ (IsStart lone 2 [] (standing 4)) }
    // An OpEntryPoint names %1. Without it none does.
    ensures entry { IsEntryId looped 1 }
    ensures no_entry { ¬ (IsEntryId functions 1) }
    // All runs of the function that only returns end otherwise than stuck.
    ensures free { (G : Table) → NeverGetsStuck G lone 2 [] }
    // A block without a terminator: the run gets stuck after the OpLabel.
    ensures stuck { (G : Table) → ¬ (NeverGetsStuck G unended 2 []) }
    // A function that an entry point leads to calls itself.
    ensures unsound { (G : Table) (bound : ℕ) → ¬ (KeepsRules G bound looped) }
{
    spv_flow::calls::laws::call_examples();
}

/// Traces of the function that only returns: of at most nine steps, that of its two steps, and none without a step.
pub fn trace_examples()
    ensures of_run { (G : Table) (t : Trace) → t.steps.items ≡ step_at 0 3 ∷ step_at 0 4 ∷ []
        → ending_of t.ending ≡ Finished → IsOfRun G lone 9 (standing 3) t }
    ensures not_of_run { (G : Table) (t : Trace) → t.steps.items ≡ [] → ¬ (IsOfRun G lone 9 (standing 3) t) }
{}

/// The smallest kernel, under a small grammar table: no rule is broken on it, and so its function never gets stuck.
pub fn sound_examples()
    ensures sound { KeepsRules grammar 5 kernel }
    // Under the bound 4 the label's id is out of range.
    ensures out_of_range { ¬ (KeepsRules grammar 4 kernel) }
    ensures free { (choices : List ℕ) → NeverGetsStuck grammar kernel 6 choices }
{
    run_never_gets_stuck();
}
