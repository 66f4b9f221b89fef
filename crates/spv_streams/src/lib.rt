//! The commands of `spv` over readers and writers: the run of one, that on several files, which are told by a trait,
//! and `show`, `trace` and `asm` alone.
#![tactic(auto)]

mod assembling;
mod each;
mod files;
pub mod laws;
mod reading;
mod runs;
mod showing;
mod tracing;
mod writing;

pub use assembling::assemble_stream;
pub use each::run_each;
pub use files::{Files, InMemory};
pub use runs::run;
pub use showing::show_stream;
pub use spv_commands::{Judging, Telling, Trouble};
pub use tracing::trace_stream;
