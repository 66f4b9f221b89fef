//! The rules on capabilities, the memory model and entry points: C1, C2, M1, E1 and E2 (SPIR-V Specification 1.6,
//! sections 2.4, 2.16.1 and 3.31).
#![tactic(auto)]

mod capable;
mod entries;
mod entry;
mod gather;
mod having;
pub mod laws;
mod memo;
mod surveyed;

pub use capable::{is_capability_kind, is_covered_entry, is_covered_value};
pub use entries::{Entries, survey};
pub use entry::returns_void;
pub use gather::linked_id;
pub use having::Capabilities;
pub use surveyed::Survey;
