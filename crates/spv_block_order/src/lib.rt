//! The order in which the blocks of a definition stand, and its instructions in them (SPIR-V Specification 1.6, section
//! 2.16.1): O1 and O2.
#![tactic(auto)]

mod blocks;
mod check;
mod faults;
mod higher;
pub mod laws;
mod operand;
mod rise;
mod uses;

pub use check::check_order;
pub use higher::higher_early_block;
pub use operand::early_operand;
