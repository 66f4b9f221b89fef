//! The words of conditions on types: what a type is to be, how it is to stand to another, and the operands of an
//! instruction whose types they speak of.
#![tactic(auto)]

mod kinds;
mod laws;
mod operands;

pub use kinds::{Images, Kind, Object, Relation};
pub use operands::{after_head, function_type_in, has_words, id_count, result_type, word_count};
