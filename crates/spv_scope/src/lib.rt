//! As which version a module is read, and how far it is looked at.
//!
//! A [`Scope`] says both. Of bytes it gives those that are read, whose version is 1.6 where another is taken as that,
//! and the [`Reach`](spv_extended::Reach): for OpenCL that has the minor number of the version that the bytes told.
//! [`minor_of`] and [`put_minor`] read and replace that number in a module's bytes, [`text_minor`] and
//! [`put_text_minor`] in its text.
#![tactic(auto)]

pub mod laws;
mod minor;
mod scope;
mod told;

pub use minor::{minor_of, put_minor};
pub use scope::{Scope, tell};
pub use told::{put_text_minor, text_minor};
