//! The picture of a function's blocks.
ghost use Rattle.std.specs.Prelude.{◌≡◌, ◌<◌, ◌≤◌, ◌+◌, ◌^◌, ◌++◌, [], ℕ, List, Option, IfOk, OnOk, drop};
ghost use Rattle.std.specs.Prelude.{flat_map, length, option_map, string_bytes};
ghost use Rattle.std.specs.List.{find, list_any, position, range_with_len};
ghost use Rattle.spv_module.specs.Module.{plain_inst, plain_insts};
ghost use Rattle.spv_lines.specs.Text.{ShownLines};
ghost use Rattle.spv_pictures.specs.Function as function;
ghost use Rattle.spv_pictures.specs.Function.{groups};
ghost use Rattle.spv_pictures.specs.Blocks as blocks;
ghost use Rattle.spv_pictures.specs.Blocks.{block_graph_text, edge_text, edges_of, entry_edge, marked_row};
ghost use Rattle.spv_pictures.specs.Blocks.{part_id, part_mark, part_node, part_text, picture_of, row_text};
ghost use Rattle.spv_pictures.specs.inner.Adds.{Adds};
ghost use Rattle.spv_pictures.specs.inner.Marks.{AreMarks};
ghost use Rattle.spv_pictures.specs.inner.Rows.{first_part, plain_row, plain_rows, rows_at};

use crate::edges::push_edges;
use crate::function::{function_from, is_function};
use crate::label::{push_label, push_node_name, push_number};
use crate::marks::{Finding, Marks};
use crate::rows::{Row, begins_block, begins_part, count_to_block, rows_of};
use spv_module::{Inst, Module};
use spv_printer::show_insts;
use spv_table::Table;
use std::alloc::{AllocError, Global};

/// Adds the number of an instruction, and what is shown of it.
fn push_row_text(out: &mut String, row: &Row<'_, '_>) -> Result<(), AllocError>
    ensures { OnOk result (string_bytes out.new ≡ string_bytes out.old ++ row_text (plain_row row.now)) }
{
    push_number(out, u64::from(row.number))?;
    out.push_str(": ")?;
    push_label(out, row.line)
}

/// Adds the line of an instruction, in red where the fault is.
fn push_row(out: &mut String, row: &Row<'_, '_>, is_fault: bool) -> Result<(), AllocError>
    ensures { OnOk result (string_bytes out.new ≡ string_bytes out.old ++ marked_row is_fault (plain_row row.now)) }
{
    if is_fault {
        out.push_str("<FONT COLOR=\"red\">")?;
        push_row_text(out, row)?;
        return out.push_str("</FONT><BR ALIGN=\"LEFT\"/>");
    }
    push_row_text(out, row)?;
    out.push_str("<BR ALIGN=\"LEFT\"/>")
}

/// Adds the lines of instructions.
fn push_rows(out: &mut String, marks: &Marks<'_>, part: &[Row<'_, '_>]) -> Result<(), AllocError>
    ensures { OnOk result (string_bytes out.new ≡ string_bytes out.old
        ++ flat_map (λ r. marked_row (blocks.is_fault marks.now.finding r.number) r) (plain_rows part.now)) }
{
    for row in part {
        push_row(out, row, marks.is_fault(row.number))?;
    }
    Ok(())
}

/// Whether the fault is at one of some instructions.
fn has_fault(marks: &Marks<'_>, part: &[Row<'_, '_>]) -> bool
    ensures { result ≡ list_any (λ r. blocks.is_fault marks.now.finding r.number) (plain_rows part.now) }
{
    for row in part {
        if marks.is_fault(row.number) {
            return true;
        }
    }
    false
}

/// Adds what marks the part that has the fault, and a block on its walk.
fn push_part_mark(out: &mut String, has_fault: bool, is_on: bool) -> Result<(), AllocError>
    ensures { OnOk result (string_bytes out.new ≡ string_bytes out.old ++ part_mark has_fault is_on) }
{
    match (has_fault, is_on) {
        (true, _) => out.push_str(" [color=red penwidth=3]"),
        (false, true) => out.push_str(" [color=red]"),
        (false, false) => Ok(()),
    }
}

/// The id of a part: the result of its first instruction.
fn id_of(part: &[Row<'_, '_>]) -> Option<u32>
    ensures { result ≡ part_id (plain_rows part.now) }
{
    match part {
        [first, ..] => first.inst.result_id(),
        [] => None,
    }
}

/// Adds the node of a part.
fn push_node(out: &mut String, marks: &Marks<'_>, part: &[Row<'_, '_>]) -> Result<(), AllocError>
    requires { AreMarks marks.now }
    ensures { OnOk result (string_bytes out.new ≡ string_bytes out.old
        ++ part_node marks.now.finding (plain_rows part.now)) }
{
    let id = id_of(part);
    out.push_str("  ")?;
    push_node_name(out, id)?;
    out.push_str(" [label=<")?;
    push_rows(out, marks, part)?;
    out.push_str(">]")?;
    push_part_mark(out, has_fault(marks, part), marks.is_on(id))?;
    out.push_str(";\n")
}

/// Adds the edges of a part's instructions.
fn push_part_edges(
    out: &mut String,
    marks: &Marks<'_>,
    from: Option<u32>,
    part: &[Row<'_, '_>],
) -> Result<(), AllocError>
    requires { AreMarks marks.now }
    ensures { OnOk result (string_bytes out.new ≡ string_bytes out.old
        ++ flat_map (λ r. flat_map (edge_text marks.now.finding from) (edges_of r.inst)) (plain_rows part.now)) }
{
    for row in part {
        push_edges(out, marks, from, row.inst)?;
    }
    Ok(())
}

/// Adds a part, with its edges.
fn push_part(out: &mut String, marks: &Marks<'_>, part: &[Row<'_, '_>]) -> Result<(), AllocError>
    requires { AreMarks marks.now }
    ensures { OnOk result (string_bytes out.new ≡ string_bytes out.old
        ++ part_text marks.now.finding (plain_rows part.now)) }
{
    push_node(out, marks, part)?;
    push_part_edges(out, marks, id_of(part), part)
}

/// The rows of a part, from its first one on: up to where the next block begins.
fn part_of<'r, 'm, 'a>(rows: &'r [Row<'m, 'a>]) -> &'r [Row<'m, 'a>]
    requires { 0 < length rows.now }
    ensures { plain_rows result.now ≡ first_part (plain_rows rows.now) }
{
    &rows[..1 + count_to_block(&rows[1..])]
}

/// Adds the part that begins with the first of some rows; nothing where none begins there.
fn push_first(out: &mut String, marks: &Marks<'_>, rows: &[Row<'_, '_>]) -> Result<(), AllocError>
    requires marks { AreMarks marks.now }
    requires some { 0 < length rows.now }
    ensures { OnOk result (Adds (part_text marks.now.finding)
        (groups blocks.begins_part blocks.begins_block (plain_rows rows.now))
        (groups blocks.begins_part blocks.begins_block (drop 1 (plain_rows rows.now)))
        (string_bytes out.old) (string_bytes out.new)) }
{
    if !begins_part(&rows[0]) {
        return Ok(());
    }
    push_part(out, marks, part_of(rows))
}

/// Adds the parts of a function.
fn push_parts(out: &mut String, marks: &Marks<'_>, rows: &[Row<'_, '_>]) -> Result<(), AllocError>
    requires { AreMarks marks.now }
    ensures { OnOk result (string_bytes out.new ≡ string_bytes out.old
        ++ flat_map (part_text marks.now.finding)
        (groups blocks.begins_part blocks.begins_block (plain_rows rows.now))) }
{
    for at in 0..rows.len() {
        push_first(out, marks, &rows[at..])?;
    }
    Ok(())
}

/// The first row with which a block begins.
fn first_block<'r, 'm, 'a>(rows: &'r [Row<'m, 'a>]) -> Option<&'r Row<'m, 'a>>
    ensures { option_map (λ r. plain_row r.now) result ≡ find blocks.begins_block (plain_rows rows.now) }
{
    for row in rows {
        if begins_block(row) {
            return Some(row);
        }
    }
    None
}

/// Adds the edge from a function to its first block.
fn push_entry(out: &mut String, rows: &[Row<'_, '_>]) -> Result<(), AllocError>
    ensures { OnOk result (string_bytes out.new ≡ string_bytes out.old ++ entry_edge (plain_rows rows.now)) }
{
    let from = id_of(rows);
    match first_block(rows) {
        Some(row) => {
            out.push_str("  ")?;
            push_node_name(out, from)?;
            out.push_str(" -> ")?;
            push_node_name(out, row.inst.result_id())?;
            out.push_str(" [style=dashed];\n")
        }
        None => Ok(()),
    }
}

/// The picture of a function's rows.
fn draw(alloc: Global, marks: &Marks<'_>, rows: &[Row<'_, '_>]) -> Result<String, AllocError>
    requires { AreMarks marks.now }
    ensures { IfOk result (λ t. string_bytes t ≡ picture_of marks.now.finding (plain_rows rows.now)) }
{
    let mut out = String::new(alloc);
    out.push_str(
        "digraph \"blocks\" {\n  node [shape=box label=\"%\\N\" fontname=\"monospace\"];\n",
    )?;
    out.push_str("  edge [fontname=\"monospace\"];\n")?;
    push_parts(&mut out, marks, rows)?;
    push_entry(&mut out, rows)?;
    out.push_str("}\n")?;
    Ok(out)
}

/// The numbers of instructions, from one on.
fn numbers_from(alloc: Global, first: u32, count: u32) -> Result<Vec<u32>, AllocError>
    requires { first + count < 2 ^ 32 }
    ensures { IfOk result (λ v. v.items ≡ range_with_len first count) }
{
    let mut numbers = Vec::new(alloc);
    for number in first..first + count {
        numbers.push(number)?;
    }
    Ok(numbers)
}

/// The place of the OpFunction of that id; the first one, if there are several.
fn place_of(insts: &[Inst<'_>], id: u32) -> Option<usize>
    ensures { result ≡ position (λ i. function.is_function id (plain_inst i)) insts.now }
{
    insts.iter().position(|inst| is_function(id, inst))
}

/// The picture of the blocks of the function whose OpFunction stands at that place.
fn draw_at(
    alloc: Global,
    table: &Table,
    module: &Module<'_>,
    marks: &Marks<'_>,
    place: usize,
) -> Result<String, AllocError>
    requires marks { AreMarks marks.now }
    requires within { place < length «module».now.insts.items }
    requires few { length «module».now.insts.items < 2 ^ 32 }
    ensures { (lines : List (List ℕ)) → ShownLines table.now [] (plain_insts «module».now) lines
        → IfOk result (λ t. string_bytes t ≡ picture_of marks.now.finding
        (rows_at place (plain_insts «module».now) lines)) }
{
    let function = function_from(module.insts.as_slice(), place);
    let first = place as u32;
    let numbers = numbers_from(alloc, first, function.len() as u32)?;
    let shown = show_insts(alloc, table, module, numbers.as_slice())?;
    let rows = rows_of(alloc, first, function, shown.as_str())?;
    draw(alloc, marks, rows.as_slice())
}

/// The picture of the blocks of a function, in DOT: a node for each block, with the lines of its instructions as they
/// stand in the text of the whole module, each with its number before it and its control characters as `\xNN`, and an
/// edge for each way to a block, with `true`, `false`, the number of a case, or `default`. What stands before the
/// blocks, the OpFunction and its parameters, is a node of its own. The part of a finding's instruction, this line, the
/// blocks of its walk, and the edges that the walk takes are red. Of several functions with that id the first is drawn;
/// of none, nothing.
///
/// Of a module that words spell, as `decode` makes them, each instruction has such a line. Time is near-linear in the
/// words of the module.
///
/// An `AllocError` comes only where a growth of memory was refused, or for 4,294,967,296 instructions or more.
pub fn block_graph(
    alloc: Global,
    table: &Table,
    module: &Module<'_>,
    function: u32,
    finding: Option<Finding<'_>>,
) -> Result<String, AllocError>
    ensures { (lines : List (List ℕ)) → ShownLines table.now [] (plain_insts «module».now) lines
        → IfOk result (λ t. string_bytes t ≡ block_graph_text finding.entry (plain_insts «module».now) lines function) }
{
    let insts = module.insts.as_slice();
    if insts.len() > 0xffff_ffff {
        return Err(AllocError);
    }
    let marks = Marks::of(alloc, finding)?;
    match place_of(insts, function) {
        Some(place) => draw_at(alloc, table, module, &marks, place),
        None => draw(alloc, &marks, &[]),
    }
}
