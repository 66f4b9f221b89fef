ghost use Rattle.std.specs.Prelude.{◌≡◌, ◌<◌};
ghost use Rattle.spv_table.specs.Lookups.{number_named, is_number};
ghost use Rattle.spv_layout.specs.inner.Kinds.{place_of};
ghost use Rattle.spv_layout.specs.Row.{name_of};

use crate::form::Named;
use spv_table::Table;
use std::marker::Model;

/// How many kinds are looked up ahead: those that nearly all modules use.
const AHEAD: usize = 10;

/// A grammar table, with the numbers of the kinds that rows name: those that most modules use are looked up once.
/// Contracts see it as the table.
#[derive(Drop)]
pub struct Kinds<'a> {
    table: &'a Table,
    /// The number of each of the first kinds, if the table has it, in the order of `Named`.
    numbers: [Option<u32>; AHEAD],
}

impl<'a> Model for Kinds<'a> {
    ghost use Rattle.spv_table.specs.Table.{Table};

    ghost Value = { Table };

    ghost use Rattle.spv_layout.specs.inner.Kinds.{AreNumbered};

    ghost view = { λ k. k.table.now };

    ghost invariant = { AreNumbered };
}

/// The place of a kind in their order.
#[inline(always)]
fn place(kind: Named) -> usize
    ensures { result ≡ place_of kind }
{
    match kind {
        Named::SourceLanguage => 0,
        Named::AddressingModel => 1,
        Named::MemoryModel => 2,
        Named::ExecutionModel => 3,
        Named::ExecutionMode => 4,
        Named::Capability => 5,
        Named::StorageClass => 6,
        Named::Decoration => 7,
        Named::FunctionControl => 8,
        Named::MemoryAccess => 9,
        Named::LoopControl => 10,
        Named::SelectionControl => 11,
        Named::Dim => 12,
        Named::ImageFormat => 13,
        Named::AccessQualifier => 14,
        Named::SamplerAddressingMode => 15,
        Named::SamplerFilterMode => 16,
        Named::GroupOperation => 17,
        Named::PackedVectorFormat => 18,
        Named::ImageOperands => 19,
    }
}

/// The number of a kind, if the table has it.
#[inline(always)]
fn number_of(table: &Table, kind: Named) -> Option<u32>
    ensures { result ≡ number_named table.now (name_of kind) }
{
    match kind {
        Named::SourceLanguage => table.kind_named("SourceLanguage"),
        Named::AddressingModel => table.kind_named("AddressingModel"),
        Named::MemoryModel => table.kind_named("MemoryModel"),
        Named::ExecutionModel => table.kind_named("ExecutionModel"),
        Named::ExecutionMode => table.kind_named("ExecutionMode"),
        Named::Capability => table.kind_named("Capability"),
        Named::StorageClass => table.kind_named("StorageClass"),
        Named::Decoration => table.kind_named("Decoration"),
        Named::FunctionControl => table.kind_named("FunctionControl"),
        Named::MemoryAccess => table.kind_named("MemoryAccess"),
        Named::LoopControl => table.kind_named("LoopControl"),
        Named::SelectionControl => table.kind_named("SelectionControl"),
        Named::Dim => table.kind_named("Dim"),
        Named::ImageFormat => table.kind_named("ImageFormat"),
        Named::AccessQualifier => table.kind_named("AccessQualifier"),
        Named::SamplerAddressingMode => table.kind_named("SamplerAddressingMode"),
        Named::SamplerFilterMode => table.kind_named("SamplerFilterMode"),
        Named::GroupOperation => table.kind_named("GroupOperation"),
        Named::PackedVectorFormat => table.kind_named("PackedVectorFormat"),
        Named::ImageOperands => table.kind_named("ImageOperands"),
    }
}

impl<'a> Kinds<'a> {
    /// The kinds of a table.
    pub fn of(table: &'a Table) -> Kinds<'a>
        ensures { result ≡ table.now }
    {
        Kinds {
            table,
            numbers: [
                number_of(table, Named::SourceLanguage),
                number_of(table, Named::AddressingModel),
                number_of(table, Named::MemoryModel),
                number_of(table, Named::ExecutionModel),
                number_of(table, Named::ExecutionMode),
                number_of(table, Named::Capability),
                number_of(table, Named::StorageClass),
                number_of(table, Named::Decoration),
                number_of(table, Named::FunctionControl),
                number_of(table, Named::MemoryAccess),
            ],
        }
    }

    /// The number of a kind, if the table has it, by a look-up.
    #[cold]
    #[inline(never)]
    fn rare(&self, kind: Named) -> Option<u32>
        ensures { result ≡ number_named self.now (name_of kind) }
    {
        number_of(self.table, kind)
    }

    /// The number of a kind, if the table has it.
    #[inline(always)]
    fn number(&self, kind: Named) -> Option<u32>
        ensures { result ≡ number_named self.now (name_of kind) }
    {
        let place = place(kind);
        if place < AHEAD {
            self.numbers[place]
        } else {
            self.rare(kind)
        }
    }

    /// Whether a number is that of a kind.
    #[inline(always)]
    pub fn is_kind(&self, kind: Named, number: u32) -> bool
        ensures { result ≡ is_number number (number_named self.now (name_of kind)) }
    {
        match self.number(kind) {
            Some(found) => found == number,
            None => false,
        }
    }
}
