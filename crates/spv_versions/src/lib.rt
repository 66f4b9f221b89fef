//! What the version of a module's header does not have: O21 (SPIR-V Specification 1.6, section 3).
#![tactic(auto)]

mod hits;
mod kinds;
mod late;
pub mod laws;
mod lines;
mod missing;
mod shapes;
mod table;

pub use hits::{Hit, any_hit};
pub use kinds::Kinds;
pub use late::Late;
pub use missing::Missing;
pub use table::{COUNT, Kind, Line, TABLE};
