//! Pictures of a module, in DOT, the language of graphviz: its calls, and the blocks of a function.
#![tactic(auto)]

mod blocks;
mod calls;
mod edges;
mod function;
mod label;
pub mod laws;
mod marks;
mod names;
mod rows;

pub use blocks::block_graph;
pub use calls::call_graph;
pub use marks::Finding;
