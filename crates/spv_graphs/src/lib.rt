//! Graphs of blocks: which values are defined on every path to a block (SPIR-V Specification 1.6, section 2.16), the
//! dominator tree, and shortest ways.
#![tactic(auto)]

mod asked;
mod defined;
mod edge;
mod few;
mod first;
mod forward;
mod graph;
pub mod laws;
mod least;
mod open;
mod order;
mod paths;
mod queries;
mod rows;
mod semidominators;
mod settle;
mod spanning;
mod steps;
mod tree;
mod ways;
mod words;

pub use edge::Edge;
pub use first::first_unavailable;
pub use graph::{Block, Graph};
pub use least::least_unavailable;
pub use open::open_queries;
pub use paths::{edges_of, path_past};
pub use queries::{Query, are_queries};
pub use ways::shortest_way;
pub use words::meet;
