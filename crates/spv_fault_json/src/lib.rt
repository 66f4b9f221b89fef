//! JSON of what shows a fault: each fact a member of an object, by the same keys as the lines.
#![tactic(auto)]

mod arrays;
pub mod laws;
mod members;
mod objects;
mod output;
mod quiet;

pub use members::{push_members, push_refused_members};
pub use output::Output;
