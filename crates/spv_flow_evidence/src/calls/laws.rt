//! That evidence suffices, and a worked example. Each function does nothing: its contract is what is proved.

ghost use Rattle.std.specs.Prelude.{ℕ, List, [], ◌∷◌};
ghost use Rattle.spv_module.specs.Operand.{PlainInst};
ghost use Rattle.spv_module.specs.declared.fault.Rule.{Rule};
ghost use Rattle.spv_module.specs.declared.fault.Rule.TheVariants.{G1};
ghost use Rattle.spv_evidence.specs.declared.evidence.Evidence.{Evidence};
ghost use Rattle.spv_evidence.specs.declared.evidence.Evidence.TheVariants.{Cycle};
ghost use Rattle.spv_flow.specs.calls.Broken.{Broken};
ghost use Rattle.spv_flow.specs.calls.Example.{looped};
ghost use Rattle.spv_flow_evidence.specs.calls.Evidence.{IsEvidence};

/// Evidence shows that the rule is broken at the instruction.
pub fn suffices()
    ensures { (is : List PlainInst) (r : Rule) (n : ℕ) (e : Evidence) → IsEvidence is r n e → Broken is r n }
{}

/// An entry point's function that calls one which calls itself. The numbers of their OpFunctions are 1 and 6.
pub fn evidence_examples()
    // The call of the second in itself is on a cycle, and the first calls it.
    ensures inner { IsEvidence looped G1 8 (Cycle (1 ∷ 6 ∷ []) (6 ∷ [])) }
    // No entry point names the second.
    ensures no_entry { ¬ (IsEvidence looped G1 8 (Cycle (6 ∷ []) (6 ∷ []))) }
    // Twice round is no shortest chain.
    ensures longer { ¬ (IsEvidence looped G1 8 (Cycle (1 ∷ 6 ∷ []) (6 ∷ 6 ∷ []))) }
    // The call into the cycle from outside is on none.
    ensures outside { (e : Evidence) → ¬ (IsEvidence looped G1 3 e) }
{}
