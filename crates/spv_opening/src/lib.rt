//! What looking further at a module changes: what a rule says of a module that is opened, it says of the module.
#![tactic(auto)]

pub mod laws;
