//! What a table is told by that lies in the program.

use crate::form::Form;
use crate::front::Front;
use crate::results::Results;
use crate::row::{EntryRow, EnumerantRow, KindRow};
use crate::span::Span;
use crate::table::Item;

/// Rows that tell a table, what their spans are of, and where its elements are by their numbers and names.
#[derive(Clone, Copy)]
pub struct Constants {
    /// The names, one after another, in ASCII.
    pub text: &'static str,
    /// The items of patterns.
    pub items: &'static [Item],
    /// The numbers of the kinds of parameters, and of bases.
    pub numbers: &'static [u32],
    /// The names of capabilities.
    pub names: &'static [Span],
    /// The enumerants of all kinds.
    pub enumerants: &'static [EnumerantRow],
    /// Slots that find the names of the enumerants of each kind.
    pub slots: &'static [u32],
    /// For each value below 64 of a kind the place of the first enumerant that has it.
    pub near: &'static [u32],
    pub kinds: &'static [KindRow],
    /// Slots that find the names of the kinds.
    pub kind_slots: &'static [u32],
    pub entries: &'static [EntryRow],
    /// Slots that find the names of the entries.
    pub entry_slots: &'static [u32],
    /// For each opcode the place of the first entry that has it.
    pub places: &'static [u32],
    /// The form of each kind.
    pub forms: &'static [Form],
    /// Of each entry whether its pattern has a result.
    pub results: &'static [Results],
    /// The fronts of the opcodes of the profile.
    pub fronts: &'static [Front],
}
