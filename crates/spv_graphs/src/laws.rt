//! Laws of the definitions, and worked examples. Each function does nothing: its contract is what is proved.

ghost use Rattle.std.specs.Prelude.{◌≡◌, ℕ, List, [], ◌∷◌, Option};
ghost use Rattle.spv_graphs.specs.declared.graph.Graph.{Graph};
ghost use Rattle.spv_graphs.specs.declared.queries.Query.{Query};
ghost use Rattle.spv_graphs.specs.Graph.{Defines};
ghost use Rattle.spv_graphs.specs.Path.{IsPath, IsAvailable, IsUnavailable};
ghost use Rattle.spv_graphs.specs.First.{IsFirstUnavailable};
ghost use Rattle.spv_graphs.specs.Example.{IsDiamond};
ghost use Rattle.spv_graphs.specs.Way.{IsWay, IsShortest};
ghost use Rattle.spv_graphs.specs.Ring.{ring, all_open, second_closed};

/// A value is not both available and unavailable, and there is at most one first step.
pub fn one_answer()
    ensures not_both { (graph : Graph) (v b : ℕ) → IsUnavailable graph v b → ¬ (IsAvailable graph v b) }
    ensures one_first { (graph : Graph) (queries : List Query) (i j : Option ℕ) → IsFirstUnavailable graph queries i
        → IsFirstUnavailable graph queries j → i ≡ j }
{}

/// Paths through a diamond.
pub fn path_examples()
    ensures left { (graph : Graph) → IsDiamond graph → IsPath graph (1 ∷ 0 ∷ []) 3 }
    ensures across { (graph : Graph) → IsDiamond graph → ¬ (IsPath graph (1 ∷ 0 ∷ []) 2) }
    // What the left side alone defines is unavailable at the last block.
    ensures join { (graph : Graph) (v : ℕ) → IsDiamond graph → ¬ (Defines graph 0 v) → ¬ (Defines graph 2 v)
        → IsUnavailable graph v 3 }
    // What the first block defines is available there.
    ensures first { (graph : Graph) (v : ℕ) → IsDiamond graph → Defines graph 0 v → IsAvailable graph v 1 }
{}

/// Ways through a ring of three nodes that the first node begins.
pub fn way_examples()
    ensures round { IsWay ring (0 ∷ []) all_open (1 ∷ 0 ∷ []) 2 }
    // No edge leads from the first node to the third.
    ensures no_step { ¬ (IsWay ring (0 ∷ []) all_open (0 ∷ []) 2) }
    // A way does not begin elsewhere.
    ensures no_start { ¬ (IsWay ring (0 ∷ []) all_open [] 2) }
    // A way ends with a closed node, and goes on from none.
    ensures to_closed { IsWay ring (0 ∷ []) second_closed (0 ∷ []) 1 }
    ensures past_closed { ¬ (IsWay ring (0 ∷ []) second_closed (1 ∷ 0 ∷ []) 2) }
    ensures shortest { IsShortest ring (0 ∷ []) all_open 2 (0 ∷ 1 ∷ 2 ∷ []) }
    // Once round is no shortest way.
    ensures longer { ¬ (IsShortest ring (0 ∷ []) all_open 0 (0 ∷ 1 ∷ 2 ∷ 0 ∷ [])) }
{}
