//! The way to a block past a value.

ghost use Rattle.std.specs.Prelude.{◌≡◌, ◌<◌, length, All, IfOk};
ghost use Rattle.spv_graphs.specs.Graph.{block_count, IsGraph};
ghost use Rattle.spv_graphs.specs.Path.{IsUnavailable};
ghost use Rattle.spv_graphs.specs.inner.Edges.{IsShortestPast};
ghost use Rattle.spv_flow_evidence.specs.walks.inner.Way.{whole, labels_of};

use crate::walks::queries::Taking;
use spv_graphs::{Graph, edges_of, path_past};
use std::alloc::{AllocError, Global};

/// The blocks of a shortest path to a block on which a value is not defined before.
pub fn way_past(
    alloc: Global,
    graph: &Graph,
    value: u32,
    block: u32,
) -> Result<Vec<u32>, AllocError>
    requires graph { IsGraph graph.now }
    requires block { block < block_count graph.now }
    requires unavailable { IsUnavailable graph.now value block }
    ensures { IfOk result (λ way. IsShortestPast graph.now value block way.items) }
{
    let edges = edges_of(alloc, graph)?;
    let found = path_past(alloc, graph, edges.as_slice(), value, block)?;
    let Some(way) = found else {
        unreachable!();
    };
    Ok(way)
}

/// The way to the block of the instruction itself, of that to the block which was asked of.
pub fn whole_way(taking: Taking, block: u32, way: Vec<u32>) -> Result<Vec<u32>, AllocError>
    ensures { IfOk result (λ all. all.items ≡ whole taking block way.items) }
{
    let mut way = way;
    match taking {
        Taking::Uses => {}
        Taking::Pairs => way.push(block)?,
    }
    Ok(way)
}

/// The first instructions of the blocks of a way but its first. They are OpLabels.
pub fn labels_on(alloc: Global, starts: &[u32], way: &[u32]) -> Result<Vec<u32>, AllocError>
    requires { All (λ b. b < length starts.now) way.now }
    ensures { IfOk result (λ labels. labels.items ≡ labels_of starts.now way.now) }
{
    let mut labels = Vec::new(alloc);
    for at in 1..way.len() {
        labels.push(starts[way[at] as usize])?;
    }
    Ok(labels)
}
