//! The flow of a module (SPIR-V Specification 1.6, sections 2.4 and 2.16): where its branches lead, whether values are
//! defined on every walk to their uses, and cycles of calls.
#![tactic(auto)]

pub mod branches;
pub mod calls;
pub mod walks;

pub use spv_graphs::meet;
