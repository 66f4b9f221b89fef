//! The layout of a module: which instructions the profile has and with which operands, the order of a module's
//! sections, and where each instruction stands (SPIR-V Specification 1.6, section 2.4).
#![tactic(auto)]

mod class;
mod fitting;
mod form;
mod kinds;
pub mod laws;
mod place;
mod plan;
mod profile;
mod roles;
mod rows;
mod span;
mod state;
mod unkinded;

pub use class::Class;
pub use form::{Ending, Form, Kinded, Named, Role, Row};
pub use place::{DEFINITIONS, Place};
pub use plan::{Plan, lay_out};
pub use profile::{has_row, next_under};
pub use roles::{id_at, id_of, role};
pub use rows::row;
pub use spv_module::Profile;
pub use state::{State, stops};
pub use unkinded::is_unkinded;
