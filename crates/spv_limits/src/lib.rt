//! The universal limits of a kernel of OpenCL: O22 (SPIR-V Specification 1.6, section 2.17).
#![tactic(auto)]

mod counted;
mod depths;
mod kept;
pub mod laws;
mod past;
mod table;
mod tallies;

pub use counted::{has_long_text, is_long_text};
pub use past::{Counts, FEW, is_quiet};
pub use table::{Limit, most};
