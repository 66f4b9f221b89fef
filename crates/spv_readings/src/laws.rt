//! Worked examples. Each function does nothing: its contract is what is proved.

ghost use Rattle.std.specs.Prelude.{◌≡◌, [], ◌∷◌, Some, None, false};
ghost use Rattle.spv_type_forms.specs.Example.{small};
ghost use Rattle.spv_readings.specs.Named.{named_at};
ghost use Rattle.spv_readings.specs.Reads.{reads};
ghost use Rattle.spv_readings.specs.Chain.{read_chosen, read_led};
ghost use Rattle.spv_readings.specs.Path.{path_by};
ghost use Rattle.spv_readings.specs.Example.{vector};

/// What stands beside a condition: of %9 = OpTypeVector %1 5 the id that an operand names, and the types that are read
/// where %4, a pointer to %2, is found in place of %2.
pub fn beside_examples()
    ensures named { named_at vector (Some 1) ≡ Some 1 }
    ensures not_named { ¬ (named_at vector (Some 0) ≡ Some 9) }
    ensures read { reads small (Some 2) (Some 4) ≡ 2 ∷ 4 ∷ 2 ∷ [] }
    ensures not_read { ¬ (reads small None (Some 1) ≡ []) }
{}

/// The types on the way of indexes of an access chain: %8 is a variable whose type, %7, is a pointer to the struct type
/// %6 of an int and a float; %5 is an OpConstant, of number 1.
pub fn chain_examples()
    ensures read { read_chosen small false (8 ∷ 5 ∷ 5 ∷ []) (7 ∷ 1 ∷ 1 ∷ []) 1 ≡ 7 ∷ 6 ∷ 2 ∷ [] }
    ensures not_read { ¬ (read_chosen small false (8 ∷ 5 ∷ []) (7 ∷ 1 ∷ []) 0 ≡ 7 ∷ 6 ∷ 2 ∷ []) }
    ensures read_led { read_led small false (8 ∷ 5 ∷ []) (Some 4) (7 ∷ 1 ∷ []) ≡ 4 ∷ 7 ∷ 6 ∷ 2 ∷ 2 ∷ [] }
{}

/// The types on the way of literals, in that module: %6 is a struct of %1 and %2.
pub fn path_examples()
    ensures path { path_by small (1 ∷ 0 ∷ []) 6 ≡ 6 ∷ 2 ∷ [] }
    ensures no_path { ¬ (path_by small (2 ∷ []) 6 ≡ []) }
{}
