//! That evidence suffices, and worked examples. Each function does nothing: its contract is what is proved.

ghost use Rattle.std.specs.Prelude.{◌≡◌, ℕ, List, [], Some, None, IsTrue};
ghost use Rattle.spv_module.specs.Operand.{PlainInst};
ghost use Rattle.spv_module.specs.declared.fault.Rule.{Rule};
ghost use Rattle.spv_module.specs.declared.fault.Rule.TheVariants.{Y9};
ghost use Rattle.spv_extended.specs.declared.reach.Reach.{Reach};
ghost use Rattle.spv_extended.specs.Broken.{Broken};
ghost use Rattle.spv_extended.specs.Reach.{opens};
ghost use Rattle.spv_evidence.specs.declared.evidence.Evidence.{Evidence};
ghost use Rattle.spv_evidence.specs.declared.evidence.Evidence.TheVariants.{Miscalled};
ghost use Rattle.spv_form_evidence.specs.extended.Evidence.{IsEvidence, IsOutside};
ghost use Rattle.spv_form_evidence.specs.extended.Example.{calling, one, two};

/// Evidence shows that the rule is broken at the instruction, where extended instructions are looked at.
pub fn suffices()
    ensures { (reach : Reach) (is : List PlainInst) (r : Rule) (n : ℕ) (e : Evidence) → IsTrue (opens reach)
        → IsEvidence is r n e → Broken reach is r n }
{}

/// There is no other evidence at an instruction.
pub fn one_evidence()
    ensures { (is : List PlainInst) (r : Rule) (n : ℕ) (e f : Evidence)
        → IsEvidence is r n e → IsEvidence is r n f → e ≡ f }
{}

/// Counts of operands.
pub fn outside_examples()
    ensures fewer { IsOutside 2 (Some 3) (Some 4) }
    ensures not_fewer { ¬ (IsOutside 3 (Some 3) None) }
    ensures more { IsOutside 5 (Some 3) (Some 4) }
    ensures not_more { ¬ (IsOutside 4 (Some 3) (Some 4)) }
{}

/// What is evidence in small modules, and what is none.
pub fn evidence_examples()
    // vloadn (171) takes three operands.
    ensures load { IsEvidence (calling 1 171 two) Y9 2 (Miscalled 171 2 (Some 3) (Some 3)) }
    ensures not_so_many { ¬ (IsEvidence (calling 1 171 two) Y9 2 (Miscalled 171 1 (Some 3) (Some 3))) }
    ensures not_so_few { ¬ (IsEvidence (calling 1 171 two) Y9 2 (Miscalled 171 2 (Some 4) (Some 4))) }
    // printf (184) takes a format and any number of values, and there is no instruction 111.
    ensures printf { IsEvidence (calling 1 184 []) Y9 2 (Miscalled 184 0 (Some 1) None) }
    ensures no_number { IsEvidence (calling 1 111 one) Y9 2 (Miscalled 111 1 None None) }
    // Nothing shows that a printf with a format breaks a rule, or that a call of another set does.
    ensures sound { (r : Rule) (e : Evidence) → ¬ (IsEvidence (calling 1 184 one) r 2 e) }
    ensures other_set { (r : Rule) (e : Evidence) → ¬ (IsEvidence (calling 2 171 two) r 2 e) }
{}
