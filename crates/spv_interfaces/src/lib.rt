//! The interfaces of entry points of a kernel of OpenCL: the rule O4 (SPIR-V Specification 1.6, OpEntryPoint).
#![tactic(auto)]

mod classes;
mod cleared;
mod counted;
mod entries;
mod lacking;
pub mod laws;
mod marks;
mod misfaced;
mod named;
mod order;
mod tree;
mod turned;
mod used;

pub use classes::{OF_ALL, is_inner, is_wanted};
pub use entries::{entry, id_of, put};
pub use misfaced::first_misfaced;
pub use used::{definition_of, used_id};
