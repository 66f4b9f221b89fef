//! Worked examples of the definitions. The function does nothing: its contract is what is proved.

ghost use Rattle.std.specs.Prelude.{◌≡◌, ℕ, List, [], ◌∷◌, Some, None, codes};
ghost use Rattle.serde_json.specs.Data.{Data};
ghost use Rattle.serde_json.specs.Find.{get_member};
ghost use Rattle.json_tree.specs.View.{members_of};

/// Worked examples of what an object means.
pub fn member_examples()
    // Of equal keys the last value stays, and of other keys nothing is found.
    ensures last { (key : List ℕ) (first second : Data)
        → get_member key (members_of ((key, first) ∷ (key, second) ∷ [])) ≡ Some second }
    ensures other { (d : Data) → get_member (codes "b") (members_of ((codes "a", d) ∷ [])) ≡ None }
{}
