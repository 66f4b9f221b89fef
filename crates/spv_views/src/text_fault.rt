//! The lines that tell a person why a text fails.

mod cut;
mod laws;
mod lines;
mod wanted;

pub use laws::{cut_examples, line_examples};
pub use lines::reason_lines;
