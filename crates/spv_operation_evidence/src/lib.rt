//! What shows that the rule on the types of operations (Y5) is broken.
#![tactic(auto)]

mod beside;
mod components;
mod laws;
mod operation;
mod rest;

pub use operation::operation_evidence;
