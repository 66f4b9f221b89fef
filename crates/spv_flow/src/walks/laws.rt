//! Laws of the definitions, and worked examples. Each function does nothing: its contract is what is proved.

ghost use Rattle.std.specs.Prelude.{◌≡◌, ◌↔◌, ◌≤◌, ◌<◌, ◌+◌, ℕ, List, [], ◌∷◌};
ghost use Rattle.std.specs.Prelude.{length, slice_index, Contains};
ghost use Rattle.spv_table.specs.Table.{Table};
ghost use Rattle.spv_module.specs.Operand.{PlainInst};
ghost use Rattle.spv_layout.specs.Stage.{of_values};
ghost use Rattle.spv_layout.specs.First.{IsUnbroken};
ghost use Rattle.spv_ids.specs.Definition.{IsDefinedAt};
ghost use Rattle.spv_graphs.specs.declared.graph.Graph.{Graph};
ghost use Rattle.spv_graphs.specs.Graph.{targets_of};
ghost use Rattle.spv_graphs.specs.Path.{IsAvailable, IsUnavailable};
ghost use Rattle.spv_flow.specs.branches.Target.{IsOp};
ghost use Rattle.spv_flow.specs.branches.Target as target;
ghost use Rattle.spv_flow.specs.branches.Walk.{IsWalk, IsResultAmong};
ghost use Rattle.spv_flow.specs.branches.Ready.{ComesFrom, IsReady};
ghost use Rattle.spv_flow.specs.declared.branches.fork.Fork.{Fork};
ghost use Rattle.spv_flow.specs.branches.Broken.{Broken};
ghost use Rattle.spv_flow.specs.branches.Example.{two_blocks};
ghost use Rattle.spv_flow.specs.walks.inner.Divided.{IsIn, IsBegin, IsGraphOf};

/// Where a value's definition d does not stand before instruction n in its block b, the value is defined on every walk
/// to n where it is available in b, and on some walk it is not where it is unavailable there.
pub fn walks_are_paths()
    ensures ready { (G : Table) (is : List PlainInst) (f : ℕ) (starts : List ℕ) (graph : Graph) (b n x d : ℕ)
        (past : List ℕ) → IsGraphOf G is f starts graph → IsIn starts b n → IsDefinedAt is x d
        → IsAvailable graph d b → IsWalk G is f past n → IsResultAmong is past x }
    ensures missing { (G : Table) (is : List PlainInst) (f : ℕ) (starts : List ℕ) (graph : Graph) (b n x d : ℕ)
        → IsGraphOf G is f starts graph → IsIn starts b n → ((k : ℕ) → IsDefinedAt is x k → k ≡ d)
        → ¬ ((slice_index starts b ≤ d) × (d < n)) → IsUnavailable graph d b
        → (past : List ℕ) × IsWalk G is f past n × ¬ (IsResultAmong is past x) }
{}

/// The same of a value that an OpPhi n of block b pairs with the label of block h.
pub fn pairs_query_parents()
    ensures ready { (G : Table) (is : List PlainInst) (f : ℕ) (starts : List ℕ) (graph : Graph)
        (b h n x d parent : ℕ) (before : List ℕ) (from : ComesFrom G is n parent before)
        → IsGraphOf G is f starts graph
        → IsIn starts b n → IsOp is n target.is_phi → IsIn starts h parent → IsDefinedAt is x d
        → IsAvailable graph d h → from.function ≡ f → IsResultAmong is before x }
    ensures missing { (G : Table) (is : List PlainInst) (f : ℕ) (starts : List ℕ) (graph : Graph) (b h n x d : ℕ)
        → IsGraphOf G is f starts graph → IsIn starts b n → IsOp is n target.is_phi
        → h + 1 < length starts → IsOp is (slice_index starts h) target.is_label → Contains (targets_of graph h) b
        → ((k : ℕ) → IsDefinedAt is x k → k ≡ d) → ¬ (IsIn starts h d) → IsUnavailable graph d h
        → (before : List ℕ) × ComesFrom G is n (slice_index starts h) before × ¬ (IsResultAmong is before x) }
{}

/// Neither A1 nor A2 is broken, at any instruction, exactly where every instruction is ready.
pub fn all_ready()
    ensures { (fork : Fork) (G : Table) (is : List PlainInst)
        → IsUnbroken (Broken fork G is) of_values ↔ ((n : ℕ) → IsReady G is n) }
{}

/// A function of two blocks: OpFunction, the first block's OpLabel and its branch, the second's OpLabel and OpReturn.
pub fn block_examples()
    // The second OpLabel begins a block, and the branch before it does not.
    ensures begins { IsBegin two_blocks 3 }
    ensures inside { ¬ (IsBegin two_blocks 2) }
    // With what stands before the first OpLabel there are three blocks. The branch is of the one in the middle.
    ensures within { IsIn (0 ∷ 1 ∷ 3 ∷ 5 ∷ []) 1 2 }
    ensures outside { ¬ (IsIn (0 ∷ 1 ∷ 3 ∷ 5 ∷ []) 1 3) }
{}
