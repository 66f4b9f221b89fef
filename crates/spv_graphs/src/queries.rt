//! What is asked of a graph.

ghost use Rattle.std.specs.Prelude.{◌≡◌, ◌<◌, ◌↔◌, All, IsTrue, MatchBool};
ghost use Rattle.spv_graphs.specs.declared.queries.Query as declared;
ghost use Rattle.spv_graphs.specs.First.{AreOfBlocks, AreInOrder};

use crate::graph::Graph;

/// Asks whether a value is available where a block begins, for a step.
#[derive(Clone, Copy)]
pub struct Query {
    pub block: u32,
    pub value: u32,
    pub step: u32,
}

/// Whether queries are as `first_unavailable` takes them: each is of a block, and they stand in the order of their
/// steps.
pub fn are_queries(graph: &Graph, queries: &[Query]) -> bool
    ensures { IsTrue result ↔ (AreOfBlocks graph.now queries.now × AreInOrder queries.now) }
{
    are_of_blocks(graph.block_count(), queries) && are_in_order(queries)
}

/// Whether each query is of one of so many blocks.
fn are_of_blocks(count: usize, queries: &[Query]) -> bool
    ensures { IsTrue result ↔ All (λ (a : declared.Query). a.block < count) queries.now }
{
    queries.iter().all(|query| (query.block as usize) < count)
}

/// Whether queries stand in the order of their steps.
fn are_in_order(queries: &[Query]) -> bool
    ensures { MatchBool result (AreInOrder queries.now) (¬ (AreInOrder queries.now)) }
{
    for at in 1..queries.len() {
        if queries[at].step < queries[at - 1].step {
            return false;
        }
    }
    true
}
