//! Which types an instruction asks for: the table of types.
#![tactic(auto)]

mod around;
mod chain;
mod common;
mod construct;
mod copy;
mod enqueue;
mod laws;
mod table;
mod typed;
mod variable;

pub use copy::operation_holds;
pub use table::{Places, asks_of};
