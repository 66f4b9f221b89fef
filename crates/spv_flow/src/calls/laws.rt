//! Laws of calls. Each function does nothing: its contract is what is proved.

ghost use Rattle.std.specs.Prelude.{◌≡◌, ℕ, List};
ghost use Rattle.spv_module.specs.Operand.{PlainInst};
ghost use Rattle.spv_module.specs.declared.fault.Rule.{Rule};
ghost use Rattle.spv_module.specs.declared.fault.Rule.TheVariants.{G1};
ghost use Rattle.spv_layout.specs.Stage.{of_calls};
ghost use Rattle.spv_layout.specs.First.{IsFirst, IsUnbroken};
ghost use Rattle.spv_flow.specs.calls.Chain.{Chain};
ghost use Rattle.spv_flow.specs.calls.Calls.{IsCall, Calls, IsEntryFunction};
ghost use Rattle.spv_flow.specs.calls.Broken.{Broken};
ghost use Rattle.spv_flow.specs.calls.Example.{functions, looped};

/// The rule is first broken at one instruction at most.
pub fn one_fault()
    ensures { (is : List PlainInst) (q r : Rule) (m n : ℕ) → IsFirst (Broken is) of_calls q m
        → IsFirst (Broken is) of_calls r n
        → (q ≡ r) × (m ≡ n) }
{}

/// A chain that ends where another one begins goes on as that one.
pub fn chains_join()
    ensures { (is : List PlainInst) (f g h : ℕ) → Chain (Calls is) f g → Chain (Calls is) g h
        → Chain (Calls is) f h }
{}

/// Where the rule is broken nowhere, no chain leads from a callee back to its caller, if an entry point leads to the
/// caller.
pub fn no_way_back()
    ensures { (is : List PlainInst) (e f g : ℕ) → IsUnbroken (Broken is) of_calls → IsEntryFunction is e
        → Chain (Calls is) e f → Calls is f g → ¬ (Chain (Calls is) g f) }
{}

/// An entry point's function that calls one which calls itself. The numbers of their OpFunctions are 1 and 6.
pub fn call_examples()
    // An OpFunctionCall of %4 in %1, and an OpLabel.
    ensures called { IsCall looped 3 1 6 }
    ensures not_called { (f g : ℕ) → ¬ (IsCall looped 2 f g) }
    ensures calls { Calls looped 1 6 }
    ensures never_calls { ¬ (Calls looped 6 1) }
    // %1 is the function of the OpEntryPoint. Without that none is.
    ensures entry { IsEntryFunction looped 1 }
    ensures no_entry { (f : ℕ) → ¬ (IsEntryFunction functions f) }
    // From %1 to %4, and not back.
    ensures chain { Chain (Calls looped) 1 6 }
    ensures no_chain { ¬ (Chain (Calls looped) 6 1) }
    // The call of %4 in %4 breaks the rule: not so the call into the cycle from outside, or where no entry point leads
    // to it.
    ensures broken { Broken looped G1 8 }
    ensures outside { ¬ (Broken looped G1 3) }
    ensures not_reached { (n : ℕ) → ¬ (Broken functions G1 n) }
{}
