//! That evidence suffices, and worked examples. Each function does nothing: its contract is what is proved.

ghost use Rattle.std.specs.Prelude.{ℕ, List, [], ◌∷◌, Bool, true, false};
ghost use Rattle.spv_table.specs.Table.{Table};
ghost use Rattle.spv_module.specs.Operand.{PlainInst};
ghost use Rattle.spv_module.specs.Example.{small, load};
ghost use Rattle.spv_module.specs.declared.profile.Profile.{Profile};
ghost use Rattle.spv_module.specs.declared.profile.Profile.TheVariants.{Own, OpenCl};
ghost use Rattle.spv_module.specs.declared.fault.Rule.{Rule};
ghost use Rattle.spv_module.specs.declared.fault.Rule.TheVariants.{P1, L1, L2};
ghost use Rattle.spv_module.specs.declared.opcode.TheConstants as opcode;
ghost use Rattle.spv_layout.specs.Broken.{Broken};
ghost use Rattle.spv_layout.specs.Example.{load_of_word, matrix};
ghost use Rattle.spv_evidence.specs.declared.evidence.Evidence.{Evidence};
ghost use Rattle.spv_evidence.specs.declared.evidence.Evidence.TheVariants.{Shape, MayCome};
ghost use Rattle.spv_form_evidence.specs.layout.Evidence.{HasRow, AreToCome, MayFollow, IsEvidence};
ghost use Rattle.spv_form_evidence.specs.layout.Example.{after_block, after_merge, merged, unended};

/// Evidence shows that the rule is broken at the instruction.
pub fn suffices()
    ensures { (p : Profile) (G : Table) (is : List PlainInst) (r : Rule) (n : ℕ) (e : Evidence)
        → IsEvidence p G is r n e → Broken p G is r n }
{}

/// Opcodes, and what may come after small lists.
pub fn place_examples()
    // OpLoad has a row, and OpTypeMatrix has none; OpImageRead has one with OpenCL alone.
    ensures row { HasRow Own opcode.LOAD }
    ensures no_row { ¬ (HasRow Own 24) }
    ensures read { HasRow OpenCl opcode.IMAGE_READ }
    ensures not_own { ¬ (HasRow Own opcode.IMAGE_READ) }
    // After a block of a function: OpLine, OpFunctionEnd, OpLabel, OpNoLine; and no OpReturn.
    ensures label { MayFollow Own unended opcode.LABEL }
    ensures no_return { ¬ (MayFollow Own unended opcode.RETURN) }
    ensures all { AreToCome Own unended after_block false }
    // Not all of these, and no end of the module.
    ensures one_missing { ¬ (AreToCome Own unended (opcode.LINE ∷ opcode.FUNCTION_END ∷ opcode.LABEL ∷ []) false) }
    ensures no_end { ¬ (AreToCome Own unended after_block true) }
{}

/// What is evidence in small lists, and what is none, under a small table.
pub fn evidence_examples()
    // OpLoad has a row, which its operands do not fit here; OpTypeMatrix has none.
    ensures misfit { IsEvidence Own small (load_of_word ∷ []) P1 0 (Shape opcode.LOAD true) }
    ensures not_unknown { ¬ (IsEvidence Own small (load_of_word ∷ []) P1 0 (Shape opcode.LOAD false)) }
    ensures unknown { IsEvidence Own small (matrix ∷ []) P1 0 (Shape 24 false) }
    ensures not_known { ¬ (IsEvidence Own small (matrix ∷ []) P1 0 (Shape 24 true)) }
    // Nothing shows that an instruction breaks P1 that fits its row.
    ensures fits { (e : Evidence) → ¬ (IsEvidence Own small (load ∷ []) P1 0 e) }
    // After a merge there may come two branches: these show that a line may not, and one of them alone does not.
    ensures misplaced { IsEvidence Own small merged L1 4 (MayCome after_merge false) }
    ensures one_missing { ¬ (IsEvidence Own small merged L1 4 (MayCome (opcode.BRANCH ∷ []) false)) }
    // After a block of a function the module may not end.
    ensures unfinished { IsEvidence Own small unended L2 4 (MayCome after_block false) }
    ensures no_end { ¬ (IsEvidence Own small unended L2 4 (MayCome after_block true)) }
{}
