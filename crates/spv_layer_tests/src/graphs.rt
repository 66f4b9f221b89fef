//! A small graph of blocks, and rows of words, with answers that were worked out by hand.

use spv_graphs::{
    Block, Graph, Query, are_queries, first_unavailable, least_unavailable, meet, open_queries,
};
use std::alloc::{AllocError, Global};
use std::test::Fail;

/// A block with the targets from one place to another, that defines the values from one number to another.
fn block(first_target: usize, end_target: usize, first_value: u32, end_value: u32) -> Block {
    Block {
        first_target,
        end_target,
        first_value,
        end_value,
    }
}

/// Four blocks: the second and the third come after the first, and the last after both. The first defines value 0, the
/// second value 1, and the last value 2.
fn diamond(alloc: Global) -> Result<Graph, AllocError> {
    let blocks = vec![in alloc;
        block(0, 2, 0, 1),
        block(2, 3, 1, 2),
        block(3, 4, 2, 2),
        block(4, 4, 2, 3),
    ]?;
    let targets = vec![in alloc; 1u32, 2, 3, 3]?;
    Ok(Graph { blocks, targets })
}

/// Asks for a value at a step, where the last block begins.
fn query(value: u32, step: u32) -> Query {
    Query {
        block: 3,
        value,
        step,
    }
}

/// Whether value 1 is missing where it is asked for, and value 0 is not.
fn is_told(alloc: Global, graph: &Graph, queries: &[Query]) -> Result<bool, AllocError> {
    if !graph.is_graph() || !are_queries(graph, queries) {
        return Ok(false);
    }
    let first = first_unavailable(alloc, graph, queries)?;
    let least = least_unavailable(alloc, graph, queries)?;
    let open = open_queries(alloc, graph, queries)?;
    Ok(first == Some(8) && least == first && open.len() == 1)
}

#[test]
fn values_in_a_diamond(rt: HostRuntime) -> Result<(), Fail> {
    let graph = diamond(rt.alloc())?;
    let queries = vec![in rt.alloc(); query(0, 7), query(1, 8)]?;
    assert!(rt; is_told(rt.alloc(), &graph, &queries)?);
    Ok(())
}

#[test]
fn common_bits(rt: HostRuntime) {
    let mut into = [0xF0F0, 1];
    assert!(rt; meet(&mut into, &[0xFF00, 1]) && into == [0xF000, 1]);
    assert!(rt; !meet(&mut into, &[0xFF00, 1]) && into == [0xF000, 1]);
    assert!(rt; !meet(&mut [], &[]));
}
