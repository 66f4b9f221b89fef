//! The instructions of a function with their numbers and lines.
ghost use Rattle.std.specs.Prelude.{◌≡◌, ◌≤◌, ◌+◌, ◌^◌, IfOk, length, map};
ghost use Rattle.std.specs.List.{position_or_len};
ghost use Rattle.spv_module.specs.Module.{plain_inst};
ghost use Rattle.spv_lines.specs.Text.{lines_of};
ghost use Rattle.spv_pictures.specs.Blocks as blocks;
ghost use Rattle.spv_pictures.specs.Blocks.{rows_from};
ghost use Rattle.spv_pictures.specs.inner.Rows.{plain_row, plain_rows};

use spv_lines::split_line;
use spv_module::{Inst, opcode};
use std::alloc::{AllocError, Global};

/// An instruction of a function.
#[derive(Clone, Copy)]
pub struct Row<'m, 'a> {
    /// Its number in the module, from 0.
    pub number: u32,
    pub inst: &'m Inst<'a>,
    /// Its line in the text of the module.
    pub line: &'m str,
}

/// Instructions, the first of which has that number, with their lines.
pub fn rows_of<'m, 'a>(
    alloc: Global,
    first: u32,
    insts: &'m [Inst<'a>],
    shown: &'m str,
) -> Result<Vec<Row<'m, 'a>>, AllocError>
    requires { first + length insts.now ≤ 2 ^ 32 }
    ensures { IfOk result (λ rows. plain_rows rows.items
        ≡ rows_from first (map plain_inst insts.now) (lines_of shown.now)) }
{
    let mut rows = Vec::new(alloc);
    let mut rest = shown;
    for (at, inst) in insts.iter().enumerate() {
        if rest.is_empty() {
            return Ok(rows);
        }
        let (line, behind) = split_line(rest);
        let number = first + at as u32;
        rows.push(Row { number, inst, line })?;
        rest = behind;
    }
    Ok(rows)
}

/// Whether a block begins with an instruction.
pub fn begins_block(row: &Row<'_, '_>) -> bool
    ensures { result ≡ blocks.begins_block (plain_row row.now) }
{
    row.inst.opcode == opcode::LABEL
}

/// Whether a part of a function begins with an instruction: what stands before its blocks, or a block.
pub fn begins_part(row: &Row<'_, '_>) -> bool
    ensures { result ≡ blocks.begins_part (plain_row row.now) }
{
    matches!(row.inst.opcode, opcode::FUNCTION | opcode::LABEL)
}

/// How many rows there are before a block begins.
pub fn count_to_block(rows: &[Row<'_, '_>]) -> usize
    ensures within { result ≤ length rows.now }
    ensures count { result ≡ position_or_len blocks.begins_block (plain_rows rows.now) }
{
    let mut count = 0;
    while count < rows.len() {
        if begins_block(&rows[count]) {
            return count;
        }
        count += 1;
    }
    count
}
