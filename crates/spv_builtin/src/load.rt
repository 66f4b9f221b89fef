//! A table from a grammar file's text, or from its tree.
ghost use Rattle.std.specs.Prelude.{◌≡◌, ◌≢◌, None, Some, IfOk, IfErr, IsErrOf, IsUtf8};
ghost use Rattle.serde_json.specs.View.{view};
ghost use Rattle.json_tree.specs.View.{view as tree_view};
ghost use Rattle.serde_json.specs.Data.{Data};
ghost use Rattle.serde_json.specs.Read.{read as read_text};
ghost use Rattle.spv_grammar.specs.File.{file_of};
ghost use Rattle.spv_grammar.specs.inner.File.{Reads};
ghost use Rattle.spv_grammar.specs.Answer.{tree_breaks, text_breaks, Gives};
ghost use Rattle.spv_grammar.specs.declared.error.GrammarError.TheVariants.{J1, J8};

use bumpalo::Bump;
use json::Scratch;
use json_tree::{Refused, Tree};
use serde_json::Value;
use spv_grammar::{File, GrammarError, read_file, table_of_file};
use spv_table::Table;
use std::alloc::Global;

/// What a grammar file gives: a `Table`.
pub trait FromGrammar: Sized {
    /// The table of a grammar file's tree, in the form of `spirv.core.grammar.json`.
    ///
    /// Of J2 to J7 the least that the tree breaks is told, and J8 where memory ran out.
    fn from_value(alloc: Global, value: &Value) -> Result<Self, GrammarError>;

    /// The table of a grammar file's text.
    ///
    /// J1 is told where the text is no JSON of at most 127 levels, and else what `from_value` tells
    /// of its tree.
    fn from_slice(alloc: Global, text: &[u8]) -> Result<Self, GrammarError>;
}

impl FromGrammar for Table {
    fn from_value(alloc: Global, value: &Value) -> Result<Table, GrammarError>
        ensures table { IfOk result (λ G. Gives (view value.now) G) }
        ensures refused { IfErr result (λ e. e ≢ J8 → tree_breaks (view value.now) ≡ Some e) }
    {
        let arena = Bump::new(alloc);
        let file = file_of_value(alloc, &arena, value)?;
        table_of_file(alloc, &file)
    }

    fn from_slice(alloc: Global, text: &[u8]) -> Result<Table, GrammarError>
        ensures table { IfOk result (λ G. (d : Data) × IsUtf8 text.now × (read_text text.now ≡ Some d)
            × Gives d G) }
        ensures refused { IfErr result (λ e. e ≢ J8 → text_breaks text.now e) }
    {
        let mut scratch = Scratch::new(alloc);
        let arena = Bump::new(alloc);
        let file = file_of_text(alloc, &arena, text, &mut scratch)?;
        table_of_file(alloc, &file)
    }
}

/// What a value holds as a grammar file. The tree is given up before a table is made.
fn file_of_value<'a>(
    alloc: Global,
    arena: &'a Bump,
    value: &'a Value,
) -> Result<File<'a>, GrammarError>
    ensures { Reads result (file_of (view value.now)) }
{
    let tree = Tree::of(alloc, value)?;
    read_file(arena, &tree.root())
}

/// What a text holds as a grammar file. The tree is given up before a table is made.
fn file_of_text<'a>(
    alloc: Global,
    arena: &'a Bump,
    text: &'a [u8],
    scratch: &'a mut Scratch,
) -> Result<File<'a>, GrammarError>
    ensures file { IfOk result (λ file. (d : Data) × IsUtf8 text.now × (read_text text.now ≡ Some d)
        × (file_of d ≡ Some file)) }
    ensures refused { IfErr result (λ e. e ≢ J8 → text_breaks text.now e) }
{
    let tree = parse(alloc, text, scratch)?;
    read_file(arena, &tree.root())
}

/// The tree that a text is in JSON: J1 where it is none, and J8 where memory ran out.
pub(crate) fn parse<'a>(
    alloc: Global,
    text: &'a [u8],
    scratch: &'a mut Scratch,
) -> Result<Tree<'a>, GrammarError>
    ensures ok { IfOk result (λ t. IsUtf8 text.now × (read_text text.now ≡ Some (tree_view t))) }
    ensures none { IsErrOf result J1 → IsUtf8 text.now → read_text text.now ≡ None }
    ensures codes { IfErr result (λ e. e ≢ J1 → e ≡ J8) }
{
    match Tree::from_slice(alloc, text, scratch) {
        Ok(tree) => Ok(tree),
        Err(Refused::Memory) => Err(GrammarError::J8),
        Err(Refused::Invalid) => Err(GrammarError::J1),
    }
}
