//! Where the table of a run comes from: a grammar file, or, where none is named, the built-in grammar. What a grammar
//! file is refused for. And the grammar file of a table.
#![tactic(auto)]

mod built_in;
mod constants;
mod fault;
pub mod laws;
mod load;
mod reason;
mod source;
mod text;
mod tree;

pub use fault::fault_of;
pub use load::FromGrammar;
pub use reason::grammar_reason;
pub use source::table_of;
pub use spv_grammar::{GrammarError, GrammarFault};
pub use spv_table::{
    Category, Entry, EntryRef, Enumerant, EnumerantRef, Item, Kind, KindRef, Listed, Memory, Name,
    NameList, NameListRef, Pattern, PatternRef, Quantifier, Table,
};
pub use text::grammar_text;
