//! Laws of evidence, and worked examples. Each function does nothing: its contract is what is proved.

ghost use Rattle.std.specs.Prelude.{◌≡◌, ℕ, List, [], ◌∷◌, Some, slice_get};
ghost use Rattle.spv_table.specs.Table.{Table};
ghost use Rattle.spv_module.specs.Operand.{PlainInst, OfType, Result, Id, Mask, Word};
ghost use Rattle.spv_module.specs.declared.opcode.TheConstants as opcode;
ghost use Rattle.spv_module.specs.declared.fault.Rule.{Rule};
ghost use Rattle.spv_type_forms.specs.Example.{inst};
ghost use Rattle.spv_conditions.specs.Example.{kernels};
ghost use Rattle.spv_ops.specs.Typed.{IsTyped};
ghost use Rattle.spv_type_rules.specs.Keeps.{Keeps};
ghost use Rattle.spv_evidence.specs.declared.evidence.Evidence.{Evidence};
ghost use Rattle.spv_operation_evidence.specs.Beside.{first_mask, first_odd, function_type_at, number_before};
ghost use Rattle.spv_operation_evidence.specs.Evidence.{IsEvidence};

/// What is evidence for Y5 shows that the instruction is not typed.
pub fn suffices()
    ensures { (G : Table) (is : List PlainInst) (r : Rule) (n : ℕ) (e : Evidence) → IsEvidence G is r n e
        → (i : PlainInst) → slice_get is n ≡ Some i → ¬ (Keeps (IsTyped G is) is r n i) }
{}

/// Where the first mask stands.
pub fn mask_examples()
    ensures mask { first_mask 0 (Word 3 ∷ Mask 0 2 ∷ Mask 0 4 ∷ []) ≡ Some 1 }
    ensures no_mask { ¬ (first_mask 0 (Word 3 ∷ []) ≡ Some 0) }
{}

/// Which literals name no component.
pub fn literal_examples()
    ensures odd { first_odd 4 0 (Word 3 ∷ Word 4 ∷ []) ≡ Some 1 }
    ensures not_odd { ¬ (first_odd 4 0 (Word 4294967295 ∷ []) ≡ Some 0) }
{}

/// Where the function of a block stands, of which `%7` is the first value, and its function type.
pub fn block_examples()
    ensures before { number_before (record { operand = 3; id = 7; of = 3 } ∷ []) 0 ≡ Some 2 }
    ensures not_before { ¬ (number_before (record { operand = 3; id = 7; of = 3 } ∷ []) 1 ≡ Some 2) }
    ensures signature { function_type_at kernels
        (inst opcode.GET_KERNEL_WORK_GROUP_SIZE (OfType 2 ∷ Result 9 ∷ Id 6 ∷ Id 7 ∷ [])) 0 ≡ Some 5 }
    ensures no_signature { ¬ (function_type_at kernels
        (inst opcode.GET_KERNEL_WORK_GROUP_SIZE (OfType 2 ∷ Result 9 ∷ Id 6 ∷ Id 7 ∷ [])) 1 ≡ Some 5) }
{}
