//! Edges between numbered nodes.

/// An edge from a node to a node. Nodes count from 0.
#[derive(Clone, Copy)]
pub struct Edge {
    /// The node that it leaves.
    pub from: u32,
    /// The node that it leads to.
    pub to: u32,
}
