//! Instructions and modules: operands, lists of instructions, the rules of the profile, and what words spell.
#![tactic(auto)]

mod fault;
mod module;
pub mod opcode;
mod operand;
mod operands;
mod profile;
mod results;

pub use fault::{Fault, Rule, Stop};
pub use module::{Inst, Module};
pub use operand::Operand;
pub use operands::Operands;
pub use profile::Profile;
pub use results::{result_in, type_in};
pub use spv_table::Memory;
