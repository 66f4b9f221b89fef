//! Paths to a block on which no block defines a value.

ghost use Rattle.std.specs.Prelude.{◌≡◌, ◌<◌, ◌≤◌, ◌++◌, map, OnOk, IfOk, MatchOption};
ghost use Rattle.spv_graphs.specs.Graph.{block_count, targets_of, IsGraph};
ghost use Rattle.spv_graphs.specs.Path.{IsAvailable};
ghost use Rattle.spv_graphs.specs.inner.Edges.{edge, AreEdges, defines, IsShortestPast};

use crate::edge::Edge;
use crate::graph::Graph;
use crate::ways::shortest_way;
use std::alloc::{AllocError, Global};

/// Adds the edges from a block.
fn add_edges(graph: &Graph, block: usize, edges: &mut Vec<Edge>) -> Result<(), AllocError>
    requires graph { IsGraph graph.now }
    requires block { block < block_count graph.now }
    ensures { OnOk result (edges.new.items ≡ edges.old.items ++ map (edge block) (targets_of graph.now block)) }
{
    for target in graph.targets(block) {
        edges.push(Edge {
            from: block as u32,
            to: *target,
        })?;
    }
    Ok(())
}

/// The edges of a graph of blocks.
///
/// An `AllocError` comes only where a growth of memory was refused.
pub fn edges_of(alloc: Global, graph: &Graph) -> Result<Vec<Edge>, AllocError>
    requires { IsGraph graph.now }
    ensures { IfOk result (λ edges. AreEdges graph.now (block_count graph.now) edges.items) }
{
    let mut edges = Vec::new(alloc);
    for block in 0..graph.block_count() {
        add_edges(graph, block, &mut edges)?;
    }
    Ok(edges)
}

/// Of each block whether it defines a value.
fn defining_blocks(alloc: Global, graph: &Graph, value: u32) -> Result<Vec<bool>, AllocError>
    ensures { IfOk result (λ marks. marks.items ≡ map (defines value) graph.now.blocks.items) }
{
    graph
        .blocks
        .iter()
        .map(|block| block.first_value <= value && value < block.end_value)
        .collect(alloc)
}

/// The blocks, from the first on, of a shortest path to a block on which no block before it defines a value; None where
/// the value is available there. `edges` are those of the graph, as `edges_of` answers them.
///
/// Time and memory are linear in the blocks and the edges. An `AllocError` comes only where a growth of memory was
/// refused.
pub fn path_past(
    alloc: Global,
    graph: &Graph,
    edges: &[Edge],
    value: u32,
    block: u32,
) -> Result<Option<Vec<u32>>, AllocError>
    requires graph { IsGraph graph.now }
    requires edges { AreEdges graph.now (block_count graph.now) edges.now }
    requires block { block < block_count graph.now }
    ensures { IfOk result (λ o. MatchOption o (IsAvailable graph.now value block)
        (λ w. IsShortestPast graph.now value block w.items)) }
{
    let closed = defining_blocks(alloc, graph, value)?;
    shortest_way(alloc, edges, &[0], closed.as_slice(), block)
}
