//! `spv` as a C library: checks, explains, shows and assembles modules, by a grammar that is kept behind a handle.
//!
//! `include/spvk.h` declares the exports for C. Each of them ends, writes only where its contract says, and answers
//! out of memory by a status.
#![tactic(auto)]

mod assembling;
mod buffer;
mod buffers;
mod checking;
mod collected;
mod explaining;
mod flags;
mod grammar_reason;
mod grammars;
mod handle;
mod image;
mod judging;
pub mod laws;
mod loose;
mod making;
mod numbers;
mod objects;
mod rules;
mod showing;
mod static_text;
mod status;
mod status_text;
mod text;
mod versions;
