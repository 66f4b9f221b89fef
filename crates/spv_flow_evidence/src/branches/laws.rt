//! That evidence suffices, and worked examples. Each function does nothing: its contract is what is proved.

ghost use Rattle.std.specs.Prelude.{ℕ, List, [], ◌∷◌};
ghost use Rattle.spv_table.specs.Table.{Table};
ghost use Rattle.spv_module.specs.Operand.{PlainInst};
ghost use Rattle.spv_module.specs.Example.{small};
ghost use Rattle.spv_module.specs.declared.fault.Rule.{Rule};
ghost use Rattle.spv_module.specs.declared.fault.Rule.TheVariants.{F1, F2, F3, F4};
ghost use Rattle.spv_evidence.specs.declared.evidence.Evidence.{Evidence};
ghost use Rattle.spv_evidence.specs.declared.evidence.Evidence.TheVariants.{Operand, Defined, MissingParent};
ghost use Rattle.spv_flow.specs.declared.branches.fork.Fork.{Fork};
ghost use Rattle.spv_flow.specs.declared.branches.fork.Fork.TheVariants.{Distinct, Free};
ghost use Rattle.spv_flow.specs.branches.Broken.{Broken};
ghost use Rattle.spv_flow.specs.branches.Example.{branch, conditional, function, label, negation, paired, unpaired};
ghost use Rattle.spv_flow_evidence.specs.branches.Evidence.{IsEvidence};

/// Evidence shows that the rule is broken at the instruction.
pub fn suffices()
    ensures { (fork : Fork) (G : Table) (is : List PlainInst) (r : Rule) (n : ℕ) (e : Evidence)
        → IsEvidence fork G is r n e → Broken fork G is r n }
{}

/// Small functions, under a small table.
#[tactic(auto, using(crate::proofs::lemmas::branches::Rules::examples))]
pub fn evidence_examples()
    // A branch to the result of an OpNot: that defines the id, and the branch does not.
    ensures no_label { IsEvidence Distinct small (negation 1 5 ∷ branch 1 ∷ []) F1 1 (Defined 0 0) }
    ensures not_itself { ¬ (IsEvidence Distinct small (negation 1 5 ∷ branch 1 ∷ []) F1 1 (Defined 0 1)) }
    // A branch to the entry block.
    ensures to_entry { IsEvidence Distinct small (function ∷ label 1 ∷ branch 1 ∷ []) F2 2 (Operand 0) }
    // An OpPhi that names no block: its predecessor is missing, and its own block is not.
    ensures missing { IsEvidence Distinct small unpaired F3 4 (MissingParent 1 (1 ∷ [])) }
    ensures not_missing { (ps : List ℕ) → ¬ (IsEvidence Distinct small unpaired F3 4 (MissingParent 3 ps)) }
    // All predecessors of its block are told, and no block that is none.
    ensures untold { ¬ (IsEvidence Distinct small unpaired F3 4 (MissingParent 1 [])) }
    ensures stranger { ¬ (IsEvidence Distinct small unpaired F3 4 (MissingParent 1 (1 ∷ 3 ∷ []))) }
    // An OpBranchConditional with the same label twice: its operand 2 shows it, and its operand 1 does not.
    ensures same { IsEvidence Distinct small (conditional 9 2 2 ∷ []) F4 0 (Operand 2) }
    ensures not_first { ¬ (IsEvidence Distinct small (conditional 9 2 2 ∷ []) F4 0 (Operand 1)) }
    // Where F4 is not asked nothing shows it.
    ensures free { (e : Evidence) → ¬ (IsEvidence Free small (conditional 9 2 2 ∷ []) F4 0 e) }
    // Nothing shows that an OpPhi breaks F3 that names its predecessor.
    ensures parents { (e : Evidence) → ¬ (IsEvidence Distinct small (paired 1) F3 4 e) }
{}
