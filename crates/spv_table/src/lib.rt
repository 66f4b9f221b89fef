//! The grammar table: which instructions, operand kinds and enumerants there are, and how they are looked up.
#![tactic(auto)]

mod constants;
mod entries;
mod enumerant_list;
mod enumerant_rows;
mod enumerants;
mod error;
mod form;
mod front;
mod implied;
pub mod laws;
mod listed;
mod name;
mod name_list_ref;
mod named;
mod named_rows;
mod pattern;
mod places;
mod results;
mod row;
mod sort;
mod sorts;
mod span;
mod table;

pub use constants::Constants;
pub use entries::{Entries, EntryRef};
pub use enumerants::{EnumerantRef, EnumerantsRef};
pub use error::Memory;
pub use form::{Form, Leaf, form_in};
pub use front::{Front, Head};
pub use listed::{Listed, NameList};
pub use name::{Name, NameText};
pub use name_list_ref::NameListRef;
pub use named::{Named, Names};
pub use pattern::{Pattern, PatternRef};
pub use results::Results;
pub use row::{EntryRow, EnumerantRow, KindRow};
pub use sort::{KindRef, Sort, SortRef};
pub use sorts::Sorts;
pub use span::Span;
pub use table::{Category, Entry, Enumerant, Item, Kind, Quantifier, Table};
