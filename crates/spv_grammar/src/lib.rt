//! What a grammar file holds, the grammar table that it makes, and where it is refused.
#![tactic(auto)]

mod error;
mod file;
pub mod laws;
mod lent;
mod load;
mod make;
mod numbers;
mod place;
mod read;
mod rules;
mod search;
mod shared;
mod steps;

pub use error::GrammarError;
pub use file::File;
pub use load::table_of_file;
pub use place::{GrammarFault, fault_in, fault_of_text};
pub use read::read_file;
