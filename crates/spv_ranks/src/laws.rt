//! Worked examples. Each function does nothing: its contract is what is proved.

ghost use Rattle.std.specs.Prelude.{◌≡◌, [], ◌∷◌, Some, None, ℕ};
ghost use Rattle.spv_ranks.specs.Rank.{rank_in, at_rank};

/// Ranks among the ids 7, 30 and 4,000.
pub fn rank_examples()
    ensures second { rank_in (7 ∷ 30 ∷ 4000 ∷ []) 30 ≡ Some 1 }
    ensures absent { rank_in (7 ∷ 30 ∷ 4000 ∷ []) 31 ≡ None }
    // What is kept by rank.
    ensures kept { ◌≡◌ {A = ℕ} (at_rank 0 (5 ∷ 6 ∷ 8 ∷ []) (7 ∷ 30 ∷ 4000 ∷ []) 30) 6 }
    ensures without { ◌≡◌ {A = ℕ} (at_rank 0 (5 ∷ 6 ∷ 8 ∷ []) (7 ∷ 30 ∷ 4000 ∷ []) 31) 0 }
{}
