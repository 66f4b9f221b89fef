//! The tree in JSON of a table's grammar file.

ghost use Rattle.std.specs.Prelude.{◌≡◌, ◌++◌, map, codes, false, string_bytes, IfOk, OnOk};
ghost use Rattle.std.specs.Fmt.{digits};
ghost use Rattle.serde_json.specs.Data.{string, number, unsigned, put as with_member};
ghost use Rattle.serde_json.specs.View.{view, members_view};
ghost use Rattle.spv_grammar.specs.Tree.{with_list, kind_name, with_quantifier, operand_tree, parameter_tree};
ghost use Rattle.spv_grammar.specs.Tree.{instruction_tree, value_tree, enumerant_tree, with_enumerants, with_bases};
ghost use Rattle.spv_grammar.specs.Tree.{with_parts, category_text, kind_tree, grammar_tree};

use serde_json::{Map, Value, put};
use spv_table::{
    Category, Entries, EntryRef, EnumerantRef, EnumerantsRef, Item, NameListRef, Quantifier,
    SortRef, Sorts, Table,
};
use std::alloc::{AllocError, Global};

/// Adds a text at a key.
fn put_text(
    alloc: Global,
    members: &mut Map<String, Value>,
    key: &str,
    text: &str,
) -> Result<(), AllocError>
    ensures { OnOk result (members_view members.new.entries
        ≡ with_member key.now (string text.now) (members_view members.old.entries)) }
{
    let text = Value::try_from_str(alloc, text)?;
    put(members, alloc, key, text)
}

/// Adds a list at a key, unless it is empty.
fn put_list(
    alloc: Global,
    members: &mut Map<String, Value>,
    key: &str,
    list: Vec<Value>,
) -> Result<(), AllocError>
    ensures { OnOk result (members_view members.new.entries
        ≡ with_list key.now (map view list.items) (members_view members.old.entries)) }
{
    if list.is_empty() {
        return Ok(());
    }
    put(members, alloc, key, Value::Array(list))
}

/// The names of capabilities.
fn names(alloc: Global, names: &NameListRef<'_>) -> Result<Vec<Value>, AllocError>
    ensures { IfOk result (λ v. map view v.items ≡ map string names.now) }
{
    let mut found = Vec::with_capacity(alloc, names.len())?;
    for place in 0..names.len() {
        found.push(Value::try_from_str(alloc, names.name(place))?)?;
    }
    Ok(found)
}

/// The name of the kind of a number.
fn kind_name(table: &Table, number: u32) -> &str
    ensures { result.now ≡ kind_name table.now number }
{
    match table.kind(number) {
        Some(kind) => kind.name(),
        None => "",
    }
}

/// Adds how often an operand comes, unless it comes once.
fn put_quantifier(
    alloc: Global,
    members: &mut Map<String, Value>,
    quantifier: Quantifier,
) -> Result<(), AllocError>
    ensures { OnOk result (members_view members.new.entries
        ≡ with_quantifier quantifier (members_view members.old.entries)) }
{
    match quantifier {
        Quantifier::One => Ok(()),
        Quantifier::Maybe => put_text(alloc, members, "quantifier", "?"),
        Quantifier::Many => put_text(alloc, members, "quantifier", "*"),
    }
}

/// An operand of an instruction.
fn operand(alloc: Global, table: &Table, item: &Item) -> Result<Value, AllocError>
    ensures { IfOk result (λ v. view v ≡ operand_tree table.now item.now) }
{
    let mut members = Map::new(alloc);
    put_text(alloc, &mut members, "kind", kind_name(table, item.kind))?;
    put_quantifier(alloc, &mut members, item.quantifier)?;
    Ok(Value::Object(members))
}

/// The operands of an instruction.
fn operands(alloc: Global, table: &Table, items: &[Item]) -> Result<Vec<Value>, AllocError>
    ensures { IfOk result (λ v. map view v.items ≡ map (operand_tree table.now) items.now) }
{
    let mut found = Vec::with_capacity(alloc, items.len())?;
    for item in items {
        found.push(operand(alloc, table, item)?)?;
    }
    Ok(found)
}

/// The parameters of an enumerant.
fn parameters(alloc: Global, table: &Table, kinds: &[u32]) -> Result<Vec<Value>, AllocError>
    ensures { IfOk result (λ v. map view v.items ≡ map (parameter_tree table.now) kinds.now) }
{
    let mut found = Vec::with_capacity(alloc, kinds.len())?;
    for kind in kinds {
        let item = Item {
            kind: *kind,
            quantifier: Quantifier::One,
        };
        found.push(operand(alloc, table, &item)?)?;
    }
    Ok(found)
}

/// An instruction.
fn instruction(
    alloc: Global,
    table: &Table,
    opcode: u16,
    entry: &EntryRef<'_>,
) -> Result<Value, AllocError>
    ensures { IfOk result (λ v. view v ≡ instruction_tree table.now (opcode, entry.now)) }
{
    let mut members = Map::new(alloc);
    put_text(alloc, &mut members, "opname", entry.name())?;
    put(&mut members, alloc, "opcode", Value::from(opcode))?;
    let operands = operands(alloc, table, entry.operands().as_slice())?;
    put_list(alloc, &mut members, "operands", operands)?;
    let capabilities = names(alloc, &entry.capabilities())?;
    put_list(alloc, &mut members, "capabilities", capabilities)?;
    Ok(Value::Object(members))
}

/// The instructions.
fn instructions(alloc: Global, table: &Table, entries: &Entries) -> Result<Vec<Value>, AllocError>
    ensures { IfOk result (λ v. map view v.items ≡ map (instruction_tree table.now) entries.now) }
{
    let mut found = Vec::with_capacity(alloc, entries.len())?;
    for place in 0..entries.len() {
        let Some((opcode, entry)) = entries.get(place) else {
            unreachable!();
        };
        found.push(instruction(alloc, table, opcode, &entry)?)?;
    }
    Ok(found)
}

/// A number as the value of a BitEnum's enumerant.
fn bits(alloc: Global, value: u32) -> Result<String, AllocError>
    ensures { IfOk result (λ s. string_bytes s ≡ codes "0x" ++ digits 16 false value) }
{
    format!(in alloc; "0x{value:x}")
}

/// The value of an enumerant of a kind of this category.
fn value(alloc: Global, category: Category, value: u32) -> Result<Value, AllocError>
    ensures { IfOk result (λ v. view v ≡ value_tree category value) }
{
    match category {
        Category::BitEnum => Ok(Value::String(bits(alloc, value)?)),
        _ => Ok(Value::from(value)),
    }
}

/// An enumerant of a kind of this category.
fn enumerant(
    alloc: Global,
    table: &Table,
    category: Category,
    enumerant: &EnumerantRef<'_>,
) -> Result<Value, AllocError>
    ensures { IfOk result (λ v. view v ≡ enumerant_tree table.now category enumerant.now) }
{
    let mut members = Map::new(alloc);
    put_text(alloc, &mut members, "enumerant", enumerant.name())?;
    let value = value(alloc, category, enumerant.value())?;
    put(&mut members, alloc, "value", value)?;
    let parameters = parameters(alloc, table, enumerant.parameters())?;
    put_list(alloc, &mut members, "parameters", parameters)?;
    let capabilities = names(alloc, &enumerant.capabilities())?;
    put_list(alloc, &mut members, "capabilities", capabilities)?;
    Ok(Value::Object(members))
}

/// Adds the enumerants of a kind of this category.
fn put_enumerants(
    alloc: Global,
    table: &Table,
    members: &mut Map<String, Value>,
    category: Category,
    enumerants: &EnumerantsRef<'_>,
) -> Result<(), AllocError>
    ensures { OnOk result (members_view members.new.entries
        ≡ with_enumerants table.now category enumerants.now (members_view members.old.entries)) }
{
    let mut found = Vec::with_capacity(alloc, enumerants.len())?;
    for place in 0..enumerants.len() {
        let Some(element) = enumerants.get(place) else {
            unreachable!();
        };
        found.push(enumerant(alloc, table, category, &element)?)?;
    }
    put(members, alloc, "enumerants", Value::Array(found))
}

/// Adds the bases of a Composite.
fn put_bases(
    alloc: Global,
    table: &Table,
    members: &mut Map<String, Value>,
    bases: &[u32],
) -> Result<(), AllocError>
    ensures { OnOk result (members_view members.new.entries
        ≡ with_bases table.now bases.now (members_view members.old.entries)) }
{
    let mut found = Vec::with_capacity(alloc, bases.len())?;
    for kind in bases {
        found.push(Value::try_from_str(alloc, kind_name(table, *kind))?)?;
    }
    put(members, alloc, "bases", Value::Array(found))
}

/// Adds what a kind of this category has a list of.
fn put_parts(
    alloc: Global,
    table: &Table,
    members: &mut Map<String, Value>,
    sort: &SortRef<'_>,
    category: Category,
) -> Result<(), AllocError>
    ensures { OnOk result (members_view members.new.entries
        ≡ with_parts table.now sort.now category (members_view members.old.entries)) }
{
    match category {
        Category::BitEnum | Category::ValueEnum => {
            put_enumerants(alloc, table, members, category, sort.enumerants())
        }
        Category::Composite => put_bases(alloc, table, members, sort.kind().bases()),
        Category::Id | Category::Literal => Ok(()),
    }
}

/// The text that names a category.
fn category_text(category: Category) -> &'static str
    ensures { result.now ≡ category_text category }
{
    match category {
        Category::BitEnum => "BitEnum",
        Category::ValueEnum => "ValueEnum",
        Category::Id => "Id",
        Category::Literal => "Literal",
        Category::Composite => "Composite",
    }
}

/// A kind of operands.
fn kind(alloc: Global, table: &Table, sort: &SortRef<'_>) -> Result<Value, AllocError>
    ensures { IfOk result (λ v. view v ≡ kind_tree table.now sort.now) }
{
    let mut members = Map::new(alloc);
    let category = sort.kind().category();
    put_text(alloc, &mut members, "kind", sort.kind().name())?;
    put_text(alloc, &mut members, "category", category_text(category))?;
    put_parts(alloc, table, &mut members, sort, category)?;
    Ok(Value::Object(members))
}

/// The kinds of operands.
fn kinds(alloc: Global, table: &Table, sorts: &Sorts) -> Result<Vec<Value>, AllocError>
    ensures { IfOk result (λ v. map view v.items ≡ map (kind_tree table.now) sorts.now) }
{
    let mut found = Vec::with_capacity(alloc, sorts.len())?;
    for place in 0..sorts.len() {
        let Some(sort) = sorts.get(place) else {
            unreachable!();
        };
        found.push(kind(alloc, table, &sort)?)?;
    }
    Ok(found)
}

/// The tree of a table's grammar file.
pub(crate) fn tree(alloc: Global, table: &Table) -> Result<Value, AllocError>
    ensures { IfOk result (λ v. view v ≡ grammar_tree table.now) }
{
    let mut members = Map::new(alloc);
    let kinds = kinds(alloc, table, table.sorts())?;
    put(&mut members, alloc, "operand_kinds", Value::Array(kinds))?;
    let instructions = instructions(alloc, table, table.entries())?;
    put(
        &mut members,
        alloc,
        "instructions",
        Value::Array(instructions),
    )?;
    Ok(Value::Object(members))
}
