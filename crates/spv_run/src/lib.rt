//! Runs of a checked module: a machine of frames, its steps, and that it never gets stuck.
#![tactic(auto)]

mod bodies;
mod entry;
pub mod laws;
mod moves;
mod parts;
mod tracer;
pub mod tracing;
mod whole;

pub use entry::is_entry;
pub use parts::{Code, Ending, Step, Trace, TraceError};
pub use tracing::trace;
pub use whole::trace_function;
