//! Where a grammar file is refused, and for what.

ghost use Rattle.std.specs.Prelude.{◌≡◌, ◌^◌, Some, IfOk, IfSome, option_map, string_bytes};
ghost use Rattle.json_tree.specs.View.{view};
ghost use Rattle.spv_grammar.specs.Answer.{tree_breaks};
ghost use Rattle.spv_grammar.specs.Place.{IsPlaced};
ghost use Rattle.spv_grammar.specs.declared.error.GrammarError.TheVariants.{J1};

use crate::error::GrammarError;
use crate::load::broken;
use crate::numbers::Numbers;
use crate::read::read_file;
use crate::search::{Search, Wrong};
use crate::steps::{Steps, found_shown, path_of, value_at};
use bumpalo::Bump;
use json_tree::Node;
use serde_json::Value;
use spv_table::Memory;
use std::alloc::Global;

/// What a grammar file is refused for, and where.
#[derive(Drop)]
pub struct GrammarFault {
    /// The code, J1 to J7.
    pub code: GrammarError,
    /// The path from the whole file to where it is broken, as `instructions[12].operands[0].kind`. It is empty for the
    /// whole file, and where the code is J1.
    pub path: String,
    /// What stands there: a text in quotes and as the file has it, a whole number from 0 in digits, and of another
    /// value its sort. `nothing` where the key is missing. Where the code is J1, the line and the column, from 1, at
    /// which reading stopped.
    pub found: String,
    /// What is wanted there.
    pub wanted: &'static str,
}

/// What is wanted where a file breaks a code and no place was found.
fn wanted(code: GrammarError) -> &'static str {
    match code {
        GrammarError::J1 => "JSON of at most 127 levels",
        GrammarError::J2 => "the form of spirv.core.grammar.json",
        GrammarError::J3 => "opcodes and values in their range and form",
        GrammarError::J4 => "names of kinds that the file has",
        GrammarError::J5 => "known categories and quantifiers",
        GrammarError::J6 => "result kinds that stand once, in operands",
        GrammarError::J7 => "composites of ids and literals",
        GrammarError::J8 => "memory",
    }
}

/// The fault of a code in a tree.
fn placed(
    alloc: Global,
    root: &Node<'_, '_>,
    code: GrammarError,
    wrong: Option<Wrong>,
) -> Result<GrammarFault, Memory>
    ensures code { IfOk result (λ f. f.code ≡ code) }
    ensures place { IfOk result (λ f. IsPlaced (view root.now) (string_bytes f.path) (string_bytes f.found)) }
{
    let wrong = match wrong {
        Some(wrong) => wrong,
        None => Wrong {
            steps: Steps::none(),
            wanted: wanted(code),
        },
    };
    let path = path_of(alloc, &wrong.steps.steps)?;
    let found = found_shown(alloc, &value_at(root, &wrong.steps.steps))?;
    Ok(GrammarFault {
        code,
        path,
        found,
        wanted: wrong.wanted,
    })
}

/// The fault of a tree that has not the form of a grammar file.
fn fault_of_form(alloc: Global, root: &Node<'_, '_>) -> Result<GrammarFault, Memory>
    ensures code { IfOk result (λ f. f.code ≡ GrammarError.J2) }
    ensures place { IfOk result (λ f. IsPlaced (view root.now) (string_bytes f.path) (string_bytes f.found)) }
{
    let Ok(numbers) = Numbers::new(alloc, &[]) else {
        return Err(Memory);
    };
    let search = Search {
        numbers: &numbers,
        code: GrammarError::J2,
    };
    placed(alloc, root, GrammarError::J2, search.file(root))
}

/// What the tree of a grammar file is refused for, by the least of J2 to J7 that it breaks, and where; none where it
/// breaks nothing.
///
/// # Errors
///
/// `Memory` where a growth of memory was refused.
pub fn fault_in(alloc: Global, root: &Node<'_, '_>) -> Result<Option<GrammarFault>, Memory>
    ensures code { IfOk result (λ o. option_map (λ f. f.code) o ≡ tree_breaks (view root.now)) }
    ensures place { IfOk result (λ o. IfSome o (λ f. IsPlaced (view root.now) (string_bytes f.path)
        (string_bytes f.found))) }
{
    let arena = Bump::new(alloc);
    let file = match read_file(&arena, root) {
        Ok(file) => file,
        Err(GrammarError::J8) => return Err(Memory),
        Err(_) => return Ok(Some(fault_of_form(alloc, root)?)),
    };
    let Ok(numbers) = Numbers::new(alloc, file.kinds.as_slice()) else {
        return Err(Memory);
    };
    let Some(code) = broken(&numbers, &file) else {
        return Ok(None);
    };
    let search = Search {
        numbers: &numbers,
        code,
    };
    Ok(Some(placed(alloc, root, code, search.file(root))?))
}

/// The fault of a text that is no JSON: the reader of `serde_json` tells where it stopped.
///
/// # Errors
///
/// `Memory` where a growth of memory was refused.
pub fn fault_of_text(alloc: Global, text: &[u8]) -> Result<GrammarFault, Memory>
    ensures { IfOk result (λ f. f.code ≡ J1) }
{
    let found = match Value::from_slice(alloc, text) {
        Ok(_) => String::new(alloc),
        Err(error) => {
            if error.is_memory() {
                return Err(Memory);
            }
            let line = error.line();
            let column = error.column();
            format!(in alloc; "line {line}, column {column}")?
        }
    };
    Ok(GrammarFault {
        code: GrammarError::J1,
        path: String::new(alloc),
        found,
        wanted: wanted(GrammarError::J1),
    })
}
