//! The codes that a verdict may tell, by name, and what each says to a person.
#![tactic(auto)]

mod errors;
pub mod laws;
mod rules;
mod table;

pub use errors::{AnyCode, ErrorCode};
pub use rules::{Code, code_at, rules_text};
