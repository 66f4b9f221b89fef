//! Worked examples. Each function does nothing: its contract is what is proved.

ghost use Rattle.std.specs.Prelude.{◌≡◌, [], ◌∷◌, Some, None, Ok, codes};
ghost use Rattle.spv_names.specs.Chosen.{IsChosen, IsNamedFunction};
ghost use Rattle.spv_names.specs.Example.{entry, function, name};
ghost use Rattle.spv_names.specs.Names.{function_name, name_of};
ghost use Rattle.spv_names.specs.declared.chosen.Chosen.TheVariants.{Id};
ghost use Rattle.spv_names.specs.declared.naming.Naming.TheVariants as naming;

/// A function that an OpEntryPoint and an OpName name.
pub fn name_examples()
    // OpName comes first, wherever it stands.
    ensures name { function_name (entry ∷ name ∷ []) 3 ≡ Some (codes "f") }
    ensures entry { function_name (entry ∷ []) 3 ≡ Some (codes "k") }
    ensures other { function_name (entry ∷ name ∷ []) 4 ≡ None }
    ensures not_entry { ¬ (name_of naming.Name (entry ∷ []) 3 ≡ Some (codes "k")) }
{}

/// Functions that are chosen.
pub fn chosen_examples()
    // A function has its name; what has a name alone is no function, and the name of an entry point counts for nothing
    // beside an OpName.
    ensures named { IsNamedFunction (name ∷ function ∷ []) (codes "f") 3 }
    ensures no_function { ¬ (IsNamedFunction (name ∷ []) (codes "f") 3) }
    ensures other_name { ¬ (IsNamedFunction (entry ∷ name ∷ function ∷ []) (codes "k") 3) }
    // An id is taken as it is.
    ensures id { IsChosen [] (Id 3) (Ok 3) }
    ensures other_id { ¬ (IsChosen (function ∷ []) (Id 4) (Ok 3)) }
{}
