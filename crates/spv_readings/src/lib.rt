//! What is told beside a condition on types that fails: the instruction that defines the id of an operand, the types
//! that are read, and where indexes lead from the type of a value.
#![tactic(auto)]

mod chain;
mod laws;
mod named;
mod path;
mod reading;
mod values;

pub use chain::{read_chosen, read_led};
pub use named::{defined_by, id_at, named_at};
pub use path::path_by;
pub use reading::{inner_of, reads, reads_within, with_type};
pub use spv_conditions::Seat;
pub use values::Value;
