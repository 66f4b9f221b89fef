//! The grammar file of a table.
ghost use Rattle.std.specs.Prelude.{IfOk, string_bytes};
ghost use Rattle.spv_builtin.specs.Text.{IsGrammarText};

use crate::tree::tree;
use spv_table::Table;
use std::alloc::{AllocError, Global};

/// The table as a grammar file of the least size, in the form of `spirv.core.grammar.json`: without the keys that a
/// table is not made of, without lists that are empty, and without white space. Kinds stand in the order of their
/// numbers, and instructions and enumerants in the order of the file that gave the table, without the enumerants that
/// it dropped.
///
/// # Errors
///
/// Where a growth of memory was refused; there is no other.
pub fn grammar_text(alloc: Global, table: &Table) -> Result<String, AllocError>
    ensures { IfOk result (λ s. IsGrammarText table.now (string_bytes s)) }
{
    tree(alloc, table)?.to_string(alloc)
}
