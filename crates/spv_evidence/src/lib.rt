//! What shows that a rule is broken: the evidence that is handed out with a fault, in numbers alone.
#![tactic(auto)]

mod condition;
mod evidence;

pub use condition::Condition;
pub use evidence::{EntryPart, Evidence, Lister, Side};
pub use spv_layout::Role;
pub use spv_table::Listed;
pub use spv_type_kinds::{Kind, Relation};
