//! What the text of a grammar file is refused for.
ghost use Rattle.std.specs.Prelude.{IfOk};
ghost use Rattle.spv_grammar.specs.Place.{Tells};

use crate::load::parse;
use json::Scratch;
use spv_grammar::{GrammarError, GrammarFault, fault_in, fault_of_text};
use spv_table::Memory;
use std::alloc::Global;

/// What a grammar file's text is refused for, by the least of J1 to J7 that it breaks, and where; none where it breaks
/// nothing. Of several places that break the code the first that is read is told: instructions and then kinds, each
/// key in the order in which it is read.
///
/// # Errors
///
/// `Memory` where a growth of memory was refused.
pub fn fault_of(alloc: Global, text: &[u8]) -> Result<Option<GrammarFault>, Memory>
    ensures { IfOk result (Tells text.now) }
{
    let mut scratch = Scratch::new(alloc);
    let tree = match parse(alloc, text, &mut scratch) {
        Ok(tree) => tree,
        Err(GrammarError::J1) => return Ok(Some(fault_of_text(alloc, text)?)),
        Err(_) => return Err(Memory),
    };
    fault_in(alloc, &tree.root())
}
