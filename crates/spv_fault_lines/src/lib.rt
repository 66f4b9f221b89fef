//! The lines that tell a person what shows a fault: words for facts.
#![tactic(auto)]

mod classes;
pub mod laws;
mod lines;
mod malformed;
mod parts;
mod refused;

pub use lines::push_lines;
pub use malformed::push_malformed;
pub use refused::push_refused;
