//! A table from what a grammar file holds.

ghost use Rattle.std.specs.Prelude.{◌≡◌, ◌≢◌, ◌<◌, ◌^◌, length, None, Some, IfOk, IfErr};
ghost use Rattle.spv_grammar.specs.Kinds.{first_kinds};
ghost use Rattle.spv_grammar.specs.Answer.{file_breaks};
ghost use Rattle.spv_grammar.specs.Made.{IsTable};
ghost use Rattle.spv_grammar.specs.declared.error.GrammarError.TheVariants.{J8};

use crate::error::GrammarError;
use crate::file::File;
use crate::numbers::Numbers;
use crate::{make, rules};
use spv_table::Table;
use std::alloc::Global;

/// The least of J3 to J7 that a file breaks.
pub(crate) fn broken(numbers: &Numbers<'_>, file: &File<'_>) -> Option<GrammarError>
    requires { numbers.now ≡ first_kinds file.now.kinds }
    ensures { result ≡ file_breaks file.now }
{
    if !rules::has_numbers(file) {
        Some(GrammarError::J3)
    } else if !rules::has_kinds(numbers, file) {
        Some(GrammarError::J4)
    } else if !rules::is_known(file) {
        Some(GrammarError::J5)
    } else if !rules::has_results(numbers, file) {
        Some(GrammarError::J6)
    } else if !rules::has_bases(numbers, file) {
        Some(GrammarError::J7)
    } else {
        None
    }
}

/// The table that an unbroken file makes. The error is that memory ran out.
fn made(alloc: Global, numbers: &Numbers<'_>, file: &File<'_>) -> Result<Table, GrammarError>
    requires numbered { numbers.now ≡ first_kinds file.now.kinds }
    requires few { length numbers.now < 2 ^ 32 }
    requires unbroken { file_breaks file.now ≡ None }
    ensures table { IfOk result (λ G. IsTable file.now G) }
    ensures memory { IfErr result (λ e. e ≡ J8) }
{
    let entries = make::entries(alloc, numbers, file.instructions.as_slice())?;
    let sorts = make::sorts(alloc, numbers)?;
    Ok(Table::new(alloc, sorts, entries)?)
}

/// The table that a file makes.
///
/// # Errors
///
/// Of J3 to J7 the least that the file breaks; J8 where a growth of memory was refused.
pub fn table_of_file(alloc: Global, file: &File<'_>) -> Result<Table, GrammarError>
    ensures table { IfOk result (λ G. (file_breaks file.now ≡ None) × IsTable file.now G) }
    ensures refused { IfErr result (λ e. e ≢ J8 → file_breaks file.now ≡ Some e) }
{
    let numbers = Numbers::new(alloc, file.kinds.as_slice())?;
    match broken(&numbers, file) {
        Some(code) => Err(code),
        None => made(alloc, &numbers, file),
    }
}
