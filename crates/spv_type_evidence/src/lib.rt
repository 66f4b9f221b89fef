//! What shows that a rule on types (Y2 to Y4 and Y6 to Y8) is broken.
#![tactic(auto)]

mod types;

pub use types::type_evidence;
