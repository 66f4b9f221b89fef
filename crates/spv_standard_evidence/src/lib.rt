//! What shows that a rule of the standard beyond the profile is broken at an instruction: O1 to O23 (SPIR-V Specification
//! 1.6).
#![tactic(auto)]

mod declarations;
mod decorations;
mod interfaces;
pub mod laws;
mod limits;
mod operands;
mod order;
mod placements;
mod versions;

pub use declarations::declaration_evidence;
pub use decorations::decoration_evidence;
pub use interfaces::interface_evidence;
pub use limits::limit_evidence;
pub use operands::operand_evidence;
pub use order::order_evidence;
pub use placements::placement_evidence;
pub use versions::version_evidence;
