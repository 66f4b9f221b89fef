//! Ids that are far apart, each with its rank among them.
#![tactic(auto)]

mod dense;
pub mod laws;
mod ranks;
mod sorted;

pub use dense::dense_bound;
pub use ranks::Ranks;
