//! From a text to its image.
#![tactic(auto)]

mod assembled;
mod examples;
mod fast;
mod header;
mod laws;
mod line;
mod operands;
mod seen;
mod stops;
mod text_reason;
mod token;

pub use assembled::assemble;
pub use examples::reason_examples;
pub use laws::{columns, decoded_assembles, one_assembling, one_reason, shown_assembles};
pub use spv_lines::{AsmCode, AsmError};
pub use text_reason::{TextReason, Wanted, reason};
