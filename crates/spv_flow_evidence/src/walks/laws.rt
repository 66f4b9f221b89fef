//! Laws of the definition, and worked examples. Each function does nothing: its contract is what is proved.

ghost use Rattle.std.specs.Prelude.{ℕ, List, [], ◌∷◌};
ghost use Rattle.spv_table.specs.Table.{Table};
ghost use Rattle.spv_module.specs.Example.{small};
ghost use Rattle.spv_module.specs.Operand.{PlainInst};
ghost use Rattle.spv_module.specs.declared.fault.Rule.{Rule};
ghost use Rattle.spv_module.specs.declared.fault.Rule.TheVariants.{A1, A2};
ghost use Rattle.spv_flow.specs.declared.branches.fork.Fork.{Fork};
ghost use Rattle.spv_flow.specs.branches.Broken.{Broken};
ghost use Rattle.spv_flow.specs.branches.Example.{early, valued};
ghost use Rattle.spv_evidence.specs.declared.evidence.Evidence.{Evidence};
ghost use Rattle.spv_evidence.specs.declared.evidence.Evidence.TheVariants.{Walk};
ghost use Rattle.spv_flow_evidence.specs.walks.Evidence.{IsEvidence};

/// Where there is evidence that a rule is broken, it is.
pub fn suffices()
    ensures { (fork : Fork) (G : Table) (is : List PlainInst) (r : Rule) (n : ℕ) (e : Evidence)
        → IsEvidence G is r n e → Broken fork G is r n }
{}

/// A use before the definition, and an OpPhi that pairs its own result with its parent, under a small table.
pub fn evidence_examples()
    // Operand 2 of instruction 2 uses what instruction 3 defines, and the walk to it passes the OpLabel 1.
    ensures walk { IsEvidence small early A1 2 (Walk 2 3 (1 ∷ [])) }
    // No walk comes to it past no OpLabel.
    ensures no_walk { ¬ (IsEvidence small early A1 2 (Walk 2 3 [])) }
    // Operand 2 of the OpPhi is what it defines itself. The walk comes from the OpLabel 1 to the OpLabel 3, and does
    // not end before.
    ensures pair { IsEvidence small (valued 9 1) A2 4 (Walk 2 4 (1 ∷ 3 ∷ [])) }
    ensures no_end { ¬ (IsEvidence small (valued 9 1) A2 4 (Walk 2 4 (1 ∷ []))) }
{}
