//! From words to instructions, by a grammar table: the decoder, and the laws of what words spell.
#![tactic(auto)]

mod batch;
mod decoder;
mod definitions;
pub mod due;
mod enumerant;
mod front;
mod instruction;
mod items;
mod known;
mod laws;
mod number;
mod pairs;
mod pending;
mod plain;
mod reader;
mod repeated;
mod room;
mod singles;
mod text;
mod words;
mod written;

pub use decoder::decode;
pub use laws::{
    instruction_examples, kind_examples, list_examples, listed_or_dead, no_gap, one_death,
    one_listing, one_listing_spelling, one_reading, one_spelling, pattern_examples,
    refusal_examples, same_matches, same_misfits, width_examples,
};
pub use spv_module::{Fault, Inst, Memory, Module, Operand, Operands, Rule, Stop};
