//! What the standard asks of the operands of single instructions besides: O14 to O20, and O23 (SPIR-V Specification
//! 1.6, sections 2.16.1, 3.7, 3.23, 3.25, 3.27, and the entries of the instructions).
#![tactic(auto)]

mod check;
mod control;
pub mod laws;
mod objects;
mod pointers;
mod scopes;
mod seats;
mod switch;
mod value;

pub use check::{broken_at, is_quiet};
pub use scopes::{are_bad_semantics, has_bad_group, is_high};
pub use seats::{scopes_of, semantics_of};
pub use switch::{is_wide, literal_in, selector_width};
pub use value::value_at;
