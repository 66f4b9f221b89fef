//! The table of a run.
ghost use Rattle.std.specs.Prelude.{◌≢◌, IfOk, IfErr, option_map};
ghost use Rattle.spv_grammar.specs.declared.error.GrammarError.TheVariants.{J8};
ghost use Rattle.spv_builtin.specs.Source.{IsTableOf, breaks};

use crate::built_in::built_in;
use crate::laws::one_table;
use crate::load::FromGrammar;
use spv_grammar::GrammarError;
use spv_table::Table;
use std::alloc::Global;

/// The table of a grammar file's text, in the form of `spirv.core.grammar.json`; where there is none, the built-in
/// table.
///
/// # Errors
///
/// Of J1 to J7 the least that the text breaks; J8 where a growth of memory was refused. The built-in table is never
/// refused, and takes no memory.
pub fn table_of(alloc: Global, text: Option<&[u8]>) -> Result<Table, GrammarError>
    ensures table { IfOk result (λ G. IsTableOf (option_map (λ t. t.now) text.entry) G) }
    ensures refused { IfErr result (λ e. e ≢ J8 → breaks (option_map (λ t. t.now) text.entry) e) }
{
    one_table();
    if let Some(text) = text {
        return Table::from_slice(alloc, text);
    }
    Ok(built_in())
}
