//! The flow of a module: where branches lead, and what OpPhi names (SPIR-V Specification 1.6, sections 2.4 and 2.16).

mod branches;
mod code;
mod edges;
mod faults;
mod fork;
mod gather;
mod labels;
pub mod laws;
mod rules;

pub use branches::check_branches;
pub use code::{Code, is_labelled};
pub use edges::Edges;
pub use fork::Fork;
pub use gather::{Overview, edges_for, survey};
pub use labels::{label, label_in, next_label};
