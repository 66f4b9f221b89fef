//! The ids of a module: where each is defined, and whether its uses come in order and in scope.
#![tactic(auto)]

mod definitions;
mod extended;
mod ids;
pub mod laws;
mod notes;
mod room;
mod survey;
mod uses;

pub use ids::{Ids, number};
pub use uses::{argument_id, mention_id, named_id, seen_id, used_id};
