//! The order of a graph's blocks: does each stand after those that are on every path to it (SPIR-V Specification 1.6,
//! section 2.16.1)?
#![tactic(auto)]

mod early;
mod higher;
mod incoming;
pub mod laws;
mod limits;
mod passed;
mod search;
mod spanning;
mod upper;

pub use early::first_early;
pub use higher::higher_block;
