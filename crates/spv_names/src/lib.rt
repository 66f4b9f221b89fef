//! The names that a module gives to ids: by OpName, and to functions by OpEntryPoint.
#![tactic(auto)]

mod chosen;
mod first;
pub mod laws;
mod naming;

pub use chosen::{Chosen, NameError, function_of, has_function};
pub use first::{function_name, name_of};
pub use naming::{Naming, named};
