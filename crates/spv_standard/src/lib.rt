//! What the standard asks of a kernel of OpenCL besides: stage O, put together of the crates that ask its rules (SPIR-V
//! Specification 1.6, sections 2.4, 2.16, 2.17 and 3).
#![tactic(auto)]

mod alone;
mod asked;
mod check;
mod found;
pub mod laws;
mod passes;
mod silent;
mod told;

pub use check::standard_check;
