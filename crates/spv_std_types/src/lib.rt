//! The types of the instructions of the set OpenCL.std (OpenCL Extended Instruction Set Specification 1.00): what each
//! asks of its result type and of its operands (Y10).
#![tactic(auto)]

mod asked;
mod calls;
mod condition;
mod decide;
mod first;
pub mod laws;
mod mistyped;
mod table;

pub use asked::asks_types;
pub use calls::{Miscalls, first_miscalls};
pub use condition::{Among, Classes, Condition, Number, Relation, Subject, Wanted, operand_of};
pub use mistyped::{is_std, mistyping_at};
pub use table::conditions_of;
