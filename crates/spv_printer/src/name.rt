//! Names of instructions, values and masks as a text shows them.

ghost use Rattle.std.specs.Prelude.{◌≡◌, ◌++◌, ◌∷◌, [], ℕ, List, Some, true, false, OnOk, IfOk};
ghost use Rattle.std.specs.Prelude.{string_bytes, option_map, is_some, if◌then◌else◌};
ghost use Rattle.spv_table.specs.Table.{entry_of, kind_of};
ghost use Rattle.spv_inst.specs.Reading.{enumerants_at};
ghost use Rattle.spv_lines.specs.Name.{by_number, first_name, joined, names_from, shown_value, shown_mask};
ghost use Rattle.spv_lines.specs.Line.{shown_name};
ghost use Rattle.spv_printer.specs.inner.Names.{AreNames};

use crate::named::Named;
use crate::names::Names;
use crate::number::push_marked;
use spv_lines::is_plain;
use spv_table::{EntryRef, Table};
use std::alloc::AllocError;

/// Whether the name of an opcode's entry is plain and looks up the opcode.
fn is_name_of(table: &Table, opcode: u16, entry: &EntryRef<'_>) -> bool
    ensures named { result ≡ true → shown_name table.now opcode entry.now ≡ entry.now.name }
    ensures nameless { result ≡ false → shown_name table.now opcode entry.now ≡ by_number opcode }
{
    let name = entry.name();
    is_plain(name) && table.named(name) == Some(opcode)
}

/// Whether an opcode is shown by the name of its entry, as was found before, or is found and kept now.
fn is_opcode_named(
    table: &Table,
    names: &mut Names,
    opcode: u16,
    entry: &EntryRef<'_>,
) -> Result<bool, AllocError>
    requires entry { entry_of table.now opcode ≡ Some entry.now }
    requires names { AreNames table.now names.old }
    ensures named { IfOk result (λ b. shown_name table.now opcode entry.now
        ≡ (if b then entry.now.name else by_number opcode)) }
    ensures names { AreNames table.now names.new }
{
    let named = Named::Opcode(opcode);
    if let Some(by_name) = names.find(named) {
        return Ok(by_name);
    }
    let by_name = is_name_of(table, opcode, entry);
    names.keep(named, by_name)?;
    Ok(by_name)
}

/// Adds the name of an opcode's entry, if it is plain and looks up the opcode, else the opcode after `#`. Where memory
/// runs out, nothing is said of what is left.
pub fn push_name(
    out: &mut String,
    table: &Table,
    names: &mut Names,
    opcode: u16,
    entry: &EntryRef<'_>,
) -> Result<(), AllocError>
    requires entry { entry_of table.now opcode ≡ Some entry.now }
    requires names { AreNames table.now names.old }
    ensures text { OnOk result (string_bytes out.new ≡ string_bytes out.old
        ++ shown_name table.now opcode entry.now) }
    ensures names { AreNames table.now names.new }
{
    if is_opcode_named(table, names, opcode, entry)? {
        out.push_str(entry.name())
    } else {
        push_marked(out, '#', u32::from(opcode))
    }
}

/// Whether the name of the first enumerant of a kind with a value is plain and looks up the value.
fn has_plain_name(table: &Table, kind: u32, value: u32) -> bool
    ensures { is_some (first_name (enumerants_at (kind_of table.now kind)) value) ≡ result }
{
    match table.enumerant(kind, value) {
        Some(enumerant) => {
            let name = enumerant.name();
            is_plain(name) && table.enumerant_named(kind, name) == Some(value)
        }
        None => false,
    }
}

/// Whether a value of a kind is shown by the name of its enumerant, as was found before, or is found and kept now.
fn is_value_named(
    table: &Table,
    names: &mut Names,
    kind: u32,
    value: u32,
) -> Result<bool, AllocError>
    requires { AreNames table.now names.old }
    ensures named { IfOk result (λ b. is_some (first_name (enumerants_at (kind_of table.now kind)) value) ≡ b) }
    ensures names { AreNames table.now names.new }
{
    let named = Named::Value { kind, value };
    if let Some(by_name) = names.find(named) {
        return Ok(by_name);
    }
    let by_name = has_plain_name(table, kind, value);
    names.keep(named, by_name)?;
    Ok(by_name)
}

/// Adds a value of a kind: its name, or the value after `#`. Where memory runs out, nothing is said of what is left.
pub fn push_value(
    out: &mut String,
    table: &Table,
    names: &mut Names,
    kind: u32,
    value: u32,
) -> Result<(), AllocError>
    requires { AreNames table.now names.old }
    ensures text { OnOk result (string_bytes out.new ≡ string_bytes out.old ++ shown_value
        (enumerants_at (kind_of table.now kind)) value) }
    ensures names { AreNames table.now names.new }
{
    if !is_value_named(table, names, kind, value)? {
        return push_marked(out, '#', value);
    }
    match table.enumerant(kind, value) {
        Some(enumerant) => out.push_str(enumerant.name()),
        None => push_marked(out, '#', value),
    }
}

/// Whether each set bit of a mask has a name to be shown. Keeps what it finds of each bit.
fn has_names(table: &Table, names: &mut Names, kind: u32, mask: u32) -> Result<bool, AllocError>
    requires { AreNames table.now names.old }
    ensures named { IfOk result (λ b. is_some (names_from (enumerants_at (kind_of table.now kind)) mask 0) ≡ b) }
    ensures names { AreNames table.now names.new }
{
    for position in 0..32u32 {
        let left = mask >> position;
        if left == 0 {
            return Ok(true);
        }
        if left % 2 == 1 && !is_value_named(table, names, kind, 1 << position)? {
            return Ok(false);
        }
    }
    Ok(true)
}

/// Whether a mask of a kind, which is not 0, is shown by the names of its set bits, as was found before, or is found
/// and kept now.
fn is_mask_named(table: &Table, names: &mut Names, kind: u32, mask: u32) -> Result<bool, AllocError>
    requires { AreNames table.now names.old }
    ensures named { IfOk result (λ b. is_some (names_from (enumerants_at (kind_of table.now kind)) mask 0) ≡ b) }
    ensures names { AreNames table.now names.new }
{
    let named = Named::Mask { kind, mask };
    if let Some(by_name) = names.find(named) {
        return Ok(by_name);
    }
    let by_name = has_names(table, names, kind, mask)?;
    names.keep(named, by_name)?;
    Ok(by_name)
}

/// Adds the `|` before each name of a mask but the first. Where memory runs out, nothing is said of what is left.
fn push_bar(out: &mut String, is_first: bool) -> Result<(), AllocError>
    ensures { OnOk result (string_bytes out.new ≡ string_bytes out.old ++ (if is_first then [] else 124 ∷ [])) }
{
    if is_first {
        return Ok(());
    }
    out.push('|')
}

/// Adds the names of the set bits of a mask, the smaller bit first, joined by `|`. Where memory runs out, nothing is
/// said of what is left.
fn push_names(
    out: &mut String,
    table: &Table,
    names: &mut Names,
    kind: u32,
    mask: u32,
) -> Result<(), AllocError>
    requires { AreNames table.now names.old }
    ensures text { (ts : List (List ℕ)) → names_from (enumerants_at (kind_of table.now kind)) mask 0 ≡ Some ts
        → OnOk result (string_bytes out.new ≡ string_bytes out.old ++ joined ts) }
    ensures names { AreNames table.now names.new }
{
    let mut is_first = true;
    for position in 0..32u32 {
        let left = mask >> position;
        if left == 0 {
            return Ok(());
        }
        if left % 2 == 1 {
            push_bar(out, is_first)?;
            push_value(out, table, names, kind, 1 << position)?;
            is_first = false;
        }
    }
    Ok(())
}

/// Adds a mask of a kind: the names of its set bits, that of 0, or the mask after `#`. Where memory runs out, nothing
/// is said of what is left.
pub fn push_mask(
    out: &mut String,
    table: &Table,
    names: &mut Names,
    kind: u32,
    mask: u32,
) -> Result<(), AllocError>
    requires { AreNames table.now names.old }
    ensures text { OnOk result (string_bytes out.new ≡ string_bytes out.old ++ shown_mask
        (enumerants_at (kind_of table.now kind)) mask) }
    ensures names { AreNames table.now names.new }
{
    if mask == 0 {
        return push_value(out, table, names, kind, 0);
    }
    if !is_mask_named(table, names, kind, mask)? {
        return push_marked(out, '#', mask);
    }
    push_names(out, table, names, kind, mask)
}
