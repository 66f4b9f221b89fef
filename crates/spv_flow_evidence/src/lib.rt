//! What shows that a rule on the flow of control is broken: on branches (the rules F), on the values of walks (the
//! rules A) or on calls (the rules G).
#![tactic(auto)]

mod branches;
mod calls;
mod walks;

pub use branches::branch_evidence;
pub use calls::{call_evidence, edges_of};
pub use walks::walk_evidence;
