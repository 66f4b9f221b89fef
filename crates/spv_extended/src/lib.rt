//! Extended instructions (SPIR-V Specification 1.6, section 3.49.4, and Khronos' sets of them): what each takes behind
//! its number, and the pass that opens a module, so that the ids there are looked at.
#![tactic(auto)]

mod call;
mod facts;
pub mod laws;
mod miscalled;
mod opening;
mod reach;
mod set;
mod signature;

pub use call::{Call, call_at};
pub use miscalled::first_miscalled;
pub use opening::open;
pub use reach::{Reach, opens, profile_of};
pub use set::{Set, import, set_named};
pub use signature::{More, Signature, signature_of};
