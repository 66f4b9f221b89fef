//! The text for reading.

ghost use Rattle.std.specs.Prelude.{◌≡◌, IfOk, string_bytes};
ghost use Rattle.std.specs.List.{flat_map};
ghost use Rattle.spv_module.specs.Module.{plain_insts};
ghost use Rattle.spv_layout.specs.Place.{IsShort};
ghost use Rattle.spv_annotate.specs.Document.{IsSpelled, IsSubject, Subject, document};
ghost use Rattle.spv_annotate.specs.Piece.{text_of};

use crate::finding::Finding;
use crate::text_pen::TextPen;
use crate::writer::annotate_with;
use spv_extended::Reach;
use spv_module::Module;
use spv_table::Table;
use std::alloc::{AllocError, Global};

/// For how many bytes of an instruction's line and comment room is made at first: most have fewer.
const LINE_ROOM: usize = 80;

/// How many bytes room is made for at first: so many for each instruction, or none where a function is asked for.
pub fn room_for(insts: usize, function: Option<u32>, each: usize) -> usize {
    match function {
        None => insts.saturating_mul(each),
        Some(_) => 0,
    }
}

/// The text for reading of a module that words spell, in colours of a terminal or without: what `annotate_with` writes
/// by a `TextPen`.
///
/// An `AllocError` comes only where a growth of memory was refused.
pub fn annotate(
    alloc: Global,
    table: &Table,
    module: &Module<'_>,
    reach: Reach,
    finding: Option<Finding<'_>>,
    function: Option<u32>,
    color: bool,
) -> Result<String, AllocError>
    requires spelled { IsSpelled table.now (plain_insts «module».now) }
    requires words { IsShort (plain_insts «module».now) }
    // The text is that of all pieces of the document, in order.
    ensures { IfOk result (λ t. (S : Subject) × IsSubject table.now reach «module».now finding.entry function S
        × (string_bytes t ≡ flat_map (text_of color) (document S))) }
{
    let room = room_for(module.insts.len(), function, LINE_ROOM);
    let mut pen = TextPen {
        out: String::with_capacity(alloc, room)?,
        color,
    };
    annotate_with(alloc, table, module, reach, finding, function, &mut pen)?;
    let TextPen { out, .. } = pen;
    Ok(out)
}
