//! Worked examples. Each function does nothing: its contract is what is proved.

ghost use Rattle.std.specs.Prelude.{◌≡◌, [], ◌∷◌, Some, None};
ghost use Rattle.spv_module.specs.Operand.{Result, Id, Word, Mask};
ghost use Rattle.spv_type_kinds.specs.Operands.{words_in, ids_in, result_type_in, after_head, function_type_in};
ghost use Rattle.spv_type_kinds.specs.Example.{function};

/// The operands of %6 = OpFunction %1 None %5, and those behind the result of OpTypeVector %1 4.
pub fn operand_examples()
    ensures words { words_in (Id 1 ∷ Word 4 ∷ []) ≡ 4 ∷ [] }
    ensures ids { ids_in (Id 1 ∷ Word 4 ∷ []) ≡ 1 ∷ [] }
    ensures not_ids { ¬ (ids_in (Word 4 ∷ Id 1 ∷ []) ≡ 1 ∷ []) }
    ensures result_type { result_type_in function.operands ≡ Some 1 }
    ensures head { after_head function.operands ≡ Mask 0 0 ∷ Id 5 ∷ [] }
    ensures function_type { function_type_in function ≡ Some 5 }
    ensures not_function_type { ¬ (function_type_in function ≡ None) }
{}
