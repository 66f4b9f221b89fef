//! The sections of a module.

ghost use Rattle.std.specs.Prelude.{◌≡◌};
ghost use Rattle.spv_annotate.specs.Module as specs;

use spv_layout::{Class, row};

/// The section in which instructions of a class stand before the first function.
fn section_in(class: Class) -> u32
    ensures { result ≡ specs.section_in class }
{
    match class {
        Class::Capability => 1,
        Class::Extension => 2,
        Class::Import => 3,
        Class::MemoryModel => 4,
        Class::EntryPoint => 5,
        Class::ExecutionMode => 6,
        Class::Source | Class::Name | Class::Processed => 7,
        Class::Decoration => 8,
        _ => 9,
    }
}

/// The section in which instructions of an opcode stand before the first function (SPIR-V Specification 1.6, section
/// 2.4), from 1 to 9.
pub fn section_of(opcode: u16) -> u32
    ensures { result ≡ specs.section_of opcode }
{
    match row(opcode) {
        Some(row) => section_in(row.class),
        None => 9,
    }
}
