//! What shows that a module is not well formed: that words spell no instruction (I1 to I12), that an instruction has
//! the wrong shape or stands in a wrong place (P1, L1 and L2); that a rule on ids or their roles is broken (D1 to D5,
//! Y1); that one on capabilities, the memory model or entry points is (C1, C2, M1, E1 and E2); or that an extended
//! instruction is called that its set does not have (Y9).
#![tactic(auto)]

mod capabilities;
mod extended;
mod ids;
mod layout;
mod words;

pub use capabilities::capability_evidence;
pub use extended::extended_evidence;
pub use ids::{id_evidence, role_evidence};
pub use layout::layout_evidence;
pub use words::word_evidence;
