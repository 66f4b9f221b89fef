//! That evidence suffices, and worked examples. Each function does nothing: its contract is what is proved.

ghost use Rattle.std.specs.Prelude.{◌≡◌, ℕ, List, [], ◌∷◌, Some};
ghost use Rattle.spv_table.specs.Table.{Table};
ghost use Rattle.spv_module.specs.Malformed.{IsMalformedAt};
ghost use Rattle.spv_module.specs.Example.{small};
ghost use Rattle.spv_module.specs.declared.fault.Rule.{Rule};
ghost use Rattle.spv_module.specs.declared.fault.Rule.TheVariants.{I3, I4, I7};
ghost use Rattle.spv_module.specs.declared.opcode.TheConstants as opcode;
ghost use Rattle.spv_evidence.specs.declared.evidence.Evidence.{Evidence};
ghost use Rattle.spv_evidence.specs.declared.evidence.Evidence.TheVariants.{Opcode, Due};
ghost use Rattle.spv_form_evidence.specs.words.Evidence.{IsEvidence};
ghost use Rattle.spv_form_evidence.specs.words.Example.{masked};

/// Evidence shows that the instruction of that number is malformed, by that rule and at that word.
pub fn suffices()
    ensures { (G : Table) (words : List ℕ) (rule : Rule) (inst word : ℕ) (e : Evidence)
        → IsEvidence G words rule inst word e → IsMalformedAt G words rule inst word }
{}

/// There is no other evidence of a rule at an instruction and a word.
pub fn one_evidence()
    ensures { (G : Table) (words : List ℕ) (rule : Rule) (inst word : ℕ) (e f : Evidence)
        → IsEvidence G words rule inst word e → IsEvidence G words rule inst word f → e ≡ f }
{}

/// Small lists of words, under a small table.
pub fn evidence_examples()
    // Operand 3 of the OpLoad fails, a mask of the kind MemoryAccess, the table's kind 3.
    ensures mask { IsEvidence small masked I7 0 4 (Due opcode.LOAD 3 (Some 3)) }
    // The operand beside it does not show that, nor does another kind, or the opcode alone.
    ensures not_beside { ¬ (IsEvidence small masked I7 0 4 (Due opcode.LOAD 2 (Some 3))) }
    ensures not_kind { ¬ (IsEvidence small masked I7 0 4 (Due opcode.LOAD 3 (Some 2))) }
    ensures not_alone { ¬ (IsEvidence small masked I7 0 4 (Opcode opcode.LOAD)) }
    // 0x00020007 5 is an OpString without operand 1, a LiteralString, the table's kind 5.
    ensures missing { IsEvidence small (131079 ∷ 5 ∷ []) I4 0 2 (Due opcode.STRING 1 (Some 5)) }
    // 0x00010001 has an opcode that the table has not.
    ensures unknown { IsEvidence small (65537 ∷ []) I3 0 0 (Opcode 1) }
    // Nothing shows that 0x00030007 5 0x00636261, an OpString "abc", fails.
    ensures sound { (rule : Rule) (inst word : ℕ) (e : Evidence)
        → ¬ (IsEvidence small (196615 ∷ 5 ∷ 6513249 ∷ []) rule inst word e) }
{}
