//! Cycles of calls between the functions of a module.

mod calls;
mod components;
mod cyclic;
mod gather;
mod graph;
pub mod laws;
mod ordered;
mod reach;

pub use calls::first_cycle;
pub use cyclic::first_cyclic;
pub use gather::{calls_of, entries_of};
pub use graph::Call;
