//! Laws of the definitions, and worked examples. Each function does nothing: its contract is what is proved.
ghost use Rattle.std.specs.Prelude.{◌≡◌, ◌≢◌, ◌≤◌, ◌<◌, ◌++◌, ℕ, List, [], ◌∷◌, Some, None, codes, true, false};
ghost use Rattle.spv_words.specs.Version.{as_1_6, version_front};
ghost use Rattle.spv_words.specs.declared.words.Order.{Order};
ghost use Rattle.spv_extended.specs.declared.reach.Reach.TheVariants as reach;
ghost use Rattle.spv_scope.specs.Minor.{minor_of, minor_place, put_at, with_minor};
ghost use Rattle.spv_scope.specs.Told.{digit_place, has_heading, text_minor, with_text_minor};
ghost use Rattle.spv_scope.specs.Scope.{own_minor, reach_of, takes_as_1_6, taken, told_text};
ghost use Rattle.spv_scope.specs.declared.scope.Scope.TheVariants.{Own, Extended, OpenCl};

/// The minor number is that of the version, in either order, and version 1.6 in place of it is what is read as 1.6.
/// What was replaced comes back.
pub fn minors()
    ensures told { (o : Order) (minor : ℕ) (rest : List ℕ) → minor ≤ 6
        → minor_of (version_front o minor ++ rest) ≡ Some minor }
    ensures newest { (bytes : List ℕ) → with_minor 6 bytes ≡ as_1_6 bytes }
    ensures back { (o : Order) (minor : ℕ) (rest : List ℕ) → minor ≤ 6
        → with_minor minor (as_1_6 (version_front o minor ++ rest)) ≡ version_front o minor ++ rest }
{}

/// Worked examples of versions of bytes.
pub fn minor_examples()
    // Version 1.4 in either order, and 1.7 and 2.4, which are none.
    ensures little { minor_of (3 ∷ 2 ∷ 35 ∷ 7 ∷ 0 ∷ 4 ∷ 1 ∷ 0 ∷ 9 ∷ []) ≡ Some 4 }
    ensures big { minor_of (7 ∷ 35 ∷ 2 ∷ 3 ∷ 0 ∷ 1 ∷ 4 ∷ 0 ∷ 9 ∷ []) ≡ Some 4 }
    ensures later { minor_of (3 ∷ 2 ∷ 35 ∷ 7 ∷ 0 ∷ 7 ∷ 1 ∷ 0 ∷ []) ≡ None }
    ensures major { minor_of (3 ∷ 2 ∷ 35 ∷ 7 ∷ 0 ∷ 4 ∷ 2 ∷ 0 ∷ []) ≡ None }
    ensures place { minor_place (3 ∷ 2 ∷ 35 ∷ 7 ∷ 0 ∷ 4 ∷ 1 ∷ 0 ∷ []) ≡ Some 5 }
    ensures no_place { minor_place (3 ∷ 2 ∷ 35 ∷ 7 ∷ 0 ∷ 4 ∷ 1 ∷ []) ≡ None }
    // Version 1.3 in place of it, and nothing where there is none of these.
    ensures replaced { with_minor 3 (7 ∷ 35 ∷ 2 ∷ 3 ∷ 0 ∷ 1 ∷ 4 ∷ 0 ∷ 9 ∷ [])
        ≡ 7 ∷ 35 ∷ 2 ∷ 3 ∷ 0 ∷ 1 ∷ 3 ∷ 0 ∷ 9 ∷ [] }
    ensures not_replaced { with_minor 3 (1 ∷ 2 ∷ []) ≡ 1 ∷ 2 ∷ [] }
    ensures put { put_at (Some 1) 9 (1 ∷ 2 ∷ 3 ∷ []) ≡ 1 ∷ 9 ∷ 3 ∷ [] }
    ensures not_put { put_at None 9 (1 ∷ 2 ∷ 3 ∷ []) ≢ 1 ∷ 9 ∷ 3 ∷ [] }
{}

/// Worked examples of versions that texts tell.
pub fn text_examples()
    ensures told { text_minor (codes "; SPIR-V\n; Version: 1.4\n; Generator: 0\n") ≡ Some 4 }
    ensures later { text_minor (codes "; SPIR-V\n; Version: 1.7\n") ≡ None }
    ensures longer { text_minor (codes "; SPIR-V\n; Version: 1.44\n") ≡ None }
    ensures heading { has_heading (codes "; SPIR-V\n; Version: 1.0\n") ≡ true }
    ensures no_heading { has_heading (codes "; Version: 1.0\n; SPIR-V\n") ≡ false }
    ensures place { digit_place (codes "; SPIR-V\n; Version: 1.0\n") ≡ Some 22 }
    ensures no_place { digit_place (codes "; SPIR-V") ≡ None }
    ensures retold { with_text_minor 2 (codes "; SPIR-V\n; Version: 1.6\n; Bound: 1\n")
        ≡ codes "; SPIR-V\n; Version: 1.2\n; Bound: 1\n" }
    ensures kept { with_text_minor 2 (codes "fault W5\n") ≡ codes "fault W5\n" }
{}

/// Worked examples of what is read and how far it is looked at.
pub fn scope_examples()
    // Version 1.4 is read as 1.6 where that is asked for, and for OpenCL, which looks at the version that was told.
    ensures newest { taken (Own true) (3 ∷ 2 ∷ 35 ∷ 7 ∷ 0 ∷ 4 ∷ 1 ∷ 0 ∷ []) ≡ 3 ∷ 2 ∷ 35 ∷ 7 ∷ 0 ∷ 6 ∷ 1 ∷ 0 ∷ [] }
    ensures as_it_is { taken (Extended false) (3 ∷ 2 ∷ 35 ∷ 7 ∷ 0 ∷ 4 ∷ 1 ∷ 0 ∷ [])
        ≡ 3 ∷ 2 ∷ 35 ∷ 7 ∷ 0 ∷ 4 ∷ 1 ∷ 0 ∷ [] }
    ensures opencl { taken OpenCl (3 ∷ 2 ∷ 35 ∷ 7 ∷ 0 ∷ 4 ∷ 1 ∷ 0 ∷ []) ≡ 3 ∷ 2 ∷ 35 ∷ 7 ∷ 0 ∷ 6 ∷ 1 ∷ 0 ∷ [] }
    ensures takes { takes_as_1_6 OpenCl ≡ true }
    ensures takes_not { takes_as_1_6 (Extended false) ≢ true }
    ensures reach { reach_of OpenCl (3 ∷ 2 ∷ 35 ∷ 7 ∷ 0 ∷ 4 ∷ 1 ∷ 0 ∷ []) ≡ reach.OpenCl 4 }
    ensures other_reach { reach_of (Own true) (3 ∷ 2 ∷ 35 ∷ 7 ∷ 0 ∷ 4 ∷ 1 ∷ 0 ∷ []) ≢ reach.OpenCl 4 }
    ensures minor { own_minor (3 ∷ 2 ∷ 35 ∷ 7 ∷ 0 ∷ 4 ∷ 1 ∷ 0 ∷ []) ≡ 4 }
    ensures no_minor { own_minor (1 ∷ 2 ∷ []) ≡ 6 }
    // The text of what was read tells that version again.
    ensures told { told_text (reach.OpenCl 4) (codes "; SPIR-V\n; Version: 1.6\n")
        ≡ codes "; SPIR-V\n; Version: 1.4\n" }
    ensures not_told { told_text reach.Extended (codes "; SPIR-V\n; Version: 1.6\n")
        ≢ codes "; SPIR-V\n; Version: 1.4\n" }
{}
