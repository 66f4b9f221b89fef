//! Laws of the definitions, and worked examples. Each function does nothing: its contract is what is proved.

ghost use Rattle.std.specs.Prelude.{◌≡◌, ℕ, List, [], ◌∷◌};
ghost use Rattle.spv_table.specs.Table.{Table};
ghost use Rattle.spv_module.specs.Operand.{PlainInst, Id, Argument, Mention};
ghost use Rattle.spv_module.specs.Example.{small};
ghost use Rattle.spv_module.specs.declared.fault.Rule.{Rule};
ghost use Rattle.spv_module.specs.declared.fault.Rule.TheVariants.{F1, F2, F3, F4, A1, A2};
ghost use Rattle.spv_layout.specs.First.{IsFirst};
ghost use Rattle.spv_flow.specs.branches.Target.{IsLabelOf, IsTarget, LeadsToBlock, IsPredecessor, HasParents};
ghost use Rattle.spv_flow.specs.branches.Target.{IsEntryLabel};
ghost use Rattle.spv_flow.specs.branches.Walk.{Next, IsWalk, IsResultAmong, IsLastLabel};
ghost use Rattle.spv_flow.specs.branches.Ready.{ComesFrom, IsLocalValue, IsMissing, IsPair, IsPairMissing, IsReady};
ghost use Rattle.spv_flow.specs.declared.branches.fork.Fork.{Fork};
ghost use Rattle.spv_flow.specs.declared.branches.fork.Fork.TheVariants.{Distinct, Free};
ghost use Rattle.spv_flow.specs.branches.Broken.{Broken};
ghost use Rattle.spv_flow.specs.branches.Example.{branch, conditional, label, function, two_blocks, valued, paired};
ghost use Rattle.spv_flow.specs.branches.Example.{unpaired, early, extended_early, loop_merge, looped};

/// Of each stage at most one rule is broken first, at one instruction.
pub fn one_fault()
    ensures { (fork : Fork) (G : Table) (is : List PlainInst) (stage : ℕ) (q r : Rule) (m n : ℕ)
        → IsFirst (Broken fork G is) stage q m → IsFirst (Broken fork G is) stage r n → (q ≡ r) × (m ≡ n) }
{}

/// An instruction at which a value is missing is not ready.
pub fn not_ready()
    ensures value { (G : Table) (is : List PlainInst) (n : ℕ) → IsMissing G is n → ¬ (IsReady G is n) }
    ensures pair { (G : Table) (is : List PlainInst) (n : ℕ) → IsPairMissing G is n → ¬ (IsReady G is n) }
{}

/// Small functions, under a small table.
pub fn flow_examples()
    // A branch to what no instruction defines, and one to a label.
    ensures no_label { Broken Distinct small (branch 1 ∷ []) F1 0 }
    ensures label { IsLabelOf two_blocks 2 3 }
    ensures target { IsTarget small two_blocks 2 2 }
    ensures other { ¬ (IsTarget small two_blocks 4 2) }
    // A merge whose labels no instruction defines.
    ensures no_merge_label { Broken Distinct looped (loop_merge 1 2 ∷ []) F1 0 }
    // The same label twice, and two labels.
    ensures same { Broken Distinct small (conditional 9 2 2 ∷ []) F4 0 }
    ensures two { ¬ (Broken Distinct small (conditional 9 2 3 ∷ []) F4 0) }
    ensures free { ¬ (Broken Free small (conditional 9 2 2 ∷ []) F4 0) }
    // Of two blocks the first is the entry block.
    ensures entry { IsEntryLabel two_blocks 1 }
    ensures later { ¬ (IsEntryLabel two_blocks 3) }
    // A branch goes on with its target's label, and a return with nothing.
    ensures jumps { Next small two_blocks 2 3 }
    ensures follows { Next small two_blocks 3 4 }
    ensures ends { ¬ (Next small two_blocks 4 5) }
    // Of the places of a walk, the last label, and what is defined on them.
    ensures last { IsLastLabel two_blocks (3 ∷ 2 ∷ 1 ∷ 0 ∷ []) 3 (2 ∷ 1 ∷ 0 ∷ []) }
    ensures not_last { ¬ (IsLastLabel two_blocks (2 ∷ 1 ∷ 0 ∷ []) 2 (1 ∷ 0 ∷ [])) }
    ensures defined { IsResultAmong two_blocks (2 ∷ 1 ∷ 0 ∷ []) 1 }
    ensures undefined { ¬ (IsResultAmong two_blocks (2 ∷ 1 ∷ 0 ∷ []) 2) }
    // A walk to the return, and none from the first OpLabel to the second.
    ensures walk { IsWalk small two_blocks 0 (3 ∷ 2 ∷ 1 ∷ 0 ∷ []) 4 }
    ensures no_walk { ¬ (IsWalk small two_blocks 0 (1 ∷ 0 ∷ []) 3) }
    // The first block leads to the second, and not to itself.
    ensures leads { LeadsToBlock small two_blocks 2 1 3 }
    ensures not_back { ¬ (LeadsToBlock small two_blocks 2 1 1) }
    // A branch to the entry block, and one to another.
    ensures to_entry { Broken Distinct small (function ∷ label 1 ∷ branch 1 ∷ []) F2 2 }
    ensures to_other { ¬ (Broken Distinct small two_blocks F2 2) }
{}

/// Parents of an OpPhi, and values that a walk has or misses.
pub fn ready_examples()
    // The second block has the first as its predecessor, and not itself.
    ensures predecessor { IsPredecessor small (paired 1) 3 1 }
    ensures no_predecessor { ¬ (IsPredecessor small (paired 1) 3 3) }
    // An OpPhi that names its predecessor, and one that names none.
    ensures parents { HasParents small (paired 1) 4 }
    ensures no_parents { Broken Distinct small unpaired F3 4 }
    // A use before the definition, and an instruction that uses no value.
    ensures missing { Broken Distinct small early A1 2 }
    ensures not_missing { ¬ (IsMissing small two_blocks 2) }
    // An OpExtInst before the definition of what it takes as a value, of what it names, and of an id behind its number
    // that is not looked at.
    ensures argument { Broken Distinct small (extended_early (Argument 7)) A1 2 }
    ensures mention { ¬ (IsMissing small (extended_early (Mention 7)) 2) }
    ensures unseen { ¬ (IsMissing small (extended_early (Id 7)) 2) }
    // A value with a type, defined in a function, and a label.
    ensures local { IsLocalValue early 7 }
    ensures not_local { ¬ (IsLocalValue two_blocks 2) }
{}

/// Pairs of an OpPhi, and instructions that are ready or not.
pub fn pair_examples()
    // The OpPhi pairs %5 with the first block, and not with its own.
    ensures pair { IsPair small (paired 1) 4 5 1 }
    ensures no_pair { ¬ (IsPair small (paired 1) 4 5 3) }
    // A walk to the OpPhi comes from the first block. It comes from no branch.
    ensures comes { ComesFrom small (paired 1) 4 1 (2 ∷ 1 ∷ 0 ∷ []) }
    ensures not_from { ¬ (ComesFrom small (paired 1) 4 2 (2 ∷ 1 ∷ 0 ∷ [])) }
    // An OpPhi that pairs its own result with the first block, where that was not defined; and one whose value is not
    // local.
    ensures pair_missing { Broken Distinct small (valued 9 1) A2 4 }
    ensures not_missing { ¬ (IsPairMissing small (paired 1) 4) }
    // A branch uses no value, and what is used before its definition is not ready.
    ensures ready { IsReady small two_blocks 2 }
    ensures unready { ¬ (IsReady small early 2) }
{}
