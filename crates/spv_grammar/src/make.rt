//! Makes the parts of a table from a grammar file whose kinds are numbered.

ghost use Rattle.std.specs.Prelude.{◌≡◌};
ghost use Rattle.spv_grammar.specs.Kinds.{number_in};
ghost use Rattle.std.specs.List.{list_all, filter};
ghost use Rattle.spv_grammar.specs.Made.{all_of, item_of, entry_from, parameter_of, enumerant_from, is_kept, is_mask};
ghost use Rattle.spv_grammar.specs.Made.{fits_category, sort_from};
ghost use Rattle.spv_grammar.specs.inner.Made.{Makes};
ghost use Rattle.spv_grammar.specs.Rules.{is_one};

use crate::error::GrammarError;
use crate::file::{FileEnumerant, FileInstruction, FileKind, FileOperand};
use crate::lent::LentName;
use crate::numbers::Numbers;
use crate::rules::is_one;
use crate::shared::Lists;
use spv_table::{Category, Entry, Enumerant, Item, Kind, Listed, Pattern, Sort};
use std::alloc::Global;

/// An item of a pattern.
fn item(numbers: &Numbers<'_>, operand: &FileOperand<'_>) -> Result<Item, GrammarError>
    ensures { Makes (λ i. i) result (item_of numbers.now operand.now) }
{
    let Some(kind) = numbers.number(operand.kind.as_str()) else {
        return Err(GrammarError::J4);
    };
    let Some(quantifier) = operand.quantifier else {
        return Err(GrammarError::J5);
    };
    Ok(Item { kind, quantifier })
}

/// The pattern of an instruction.
fn items(
    alloc: Global,
    numbers: &Numbers<'_>,
    operands: &[FileOperand<'_>],
) -> Result<Pattern, GrammarError>
    ensures { Makes (λ l. l) result (all_of (item_of numbers.now) operands.now) }
{
    let mut found = Vec::with_capacity(alloc, operands.len())?;
    for operand in operands {
        found.push(item(numbers, operand)?)?;
    }
    Ok(Pattern::from_vec(found))
}

/// The entry of an instruction, with its opcode.
pub(crate) fn entry(
    alloc: Global,
    numbers: &Numbers<'_>,
    lists: &mut Lists,
    instruction: &FileInstruction<'_>,
) -> Result<(u16, Entry), GrammarError>
    ensures { Makes (λ e. e) result (entry_from numbers.now instruction.now) }
{
    let Some(opcode) = instruction.opcode else {
        return Err(GrammarError::J3);
    };
    let operands = items(alloc, numbers, instruction.operands.as_slice())?;
    let capabilities = lists.of(alloc, instruction.capabilities.as_slice())?;
    let name = instruction.name.copy(alloc)?;
    Ok((
        opcode,
        Entry {
            name,
            operands,
            capabilities,
        },
    ))
}

/// The entries of the instructions, in order.
pub(crate) fn entries(
    alloc: Global,
    numbers: &Numbers<'_>,
    instructions: &[FileInstruction<'_>],
) -> Result<Vec<(u16, Entry)>, GrammarError>
    ensures { Makes (λ v. v.items) result (all_of (entry_from numbers.now) instructions.now) }
{
    let mut lists = Lists::new(alloc)?;
    let mut found = Vec::with_capacity(alloc, instructions.len())?;
    for instruction in instructions {
        found.push(entry(alloc, numbers, &mut lists, instruction)?)?;
    }
    Ok(found)
}

/// The numbers of the kinds of parameters.
fn parameters(
    alloc: Global,
    numbers: &Numbers<'_>,
    operands: &[FileOperand<'_>],
) -> Result<Listed<u32>, GrammarError>
    ensures { Makes (λ l. l) result (all_of (parameter_of numbers.now) operands.now) }
{
    let mut found = Vec::with_capacity(alloc, operands.len())?;
    for operand in operands {
        let Some(kind) = numbers.number(operand.kind.as_str()) else {
            return Err(GrammarError::J4);
        };
        found.push(kind)?;
    }
    Ok(Listed::from_vec(found))
}

/// The numbers of kinds that are named.
fn bases(
    alloc: Global,
    numbers: &Numbers<'_>,
    names: &[LentName<'_>],
) -> Result<Listed<u32>, GrammarError>
    ensures { Makes (λ l. l) result (all_of (number_in numbers.now) names.now) }
{
    let mut found = Vec::with_capacity(alloc, names.len())?;
    for name in names {
        let Some(kind) = numbers.number(name.as_str()) else {
            return Err(GrammarError::J4);
        };
        found.push(kind)?;
    }
    Ok(Listed::from_vec(found))
}

/// An enumerant, with its parameters' kinds numbered.
fn enumerant(
    alloc: Global,
    numbers: &Numbers<'_>,
    lists: &mut Lists,
    enumerant: &FileEnumerant<'_>,
) -> Result<Enumerant, GrammarError>
    ensures { Makes (λ e. e) result (enumerant_from numbers.now enumerant.now) }
{
    let Some(value) = enumerant.value else {
        return Err(GrammarError::J3);
    };
    let parameters = parameters(alloc, numbers, enumerant.parameters.as_slice())?;
    let capabilities = lists.of(alloc, enumerant.capabilities.as_slice())?;
    let name = enumerant.name.copy(alloc)?;
    Ok(Enumerant {
        name,
        value,
        parameters,
        capabilities,
    })
}

/// Whether each parameter comes once.
fn are_ones(operands: &[FileOperand<'_>]) -> bool
    ensures { result ≡ list_all (λ o. is_one o.quantifier) operands.now }
{
    operands.iter().all(|o| is_one(o.quantifier))
}

/// Whether a value is 0 or one bit.
fn is_mask(value: Option<u32>) -> bool
    ensures { result ≡ is_mask value }
{
    match value {
        Some(value) => value == 0 || value.is_power_of_two(),
        None => false,
    }
}

/// Whether an enumerant's value is one that its kind's category keeps.
fn fits_category(category: Option<Category>, enumerant: &FileEnumerant<'_>) -> bool
    ensures { result ≡ fits_category category enumerant.now }
{
    match category {
        Some(Category::BitEnum) => is_mask(enumerant.value),
        _ => true,
    }
}

/// Whether an enumerant is not dropped.
fn is_kept(category: Option<Category>, enumerant: &FileEnumerant<'_>) -> bool
    ensures { result ≡ is_kept category enumerant.now }
{
    are_ones(enumerant.parameters.as_slice()) && fits_category(category, enumerant)
}

/// The enumerants of a kind of this category that are not dropped, in order.
fn enumerants(
    alloc: Global,
    numbers: &Numbers<'_>,
    lists: &mut Lists,
    category: Option<Category>,
    elements: &[FileEnumerant<'_>],
) -> Result<Vec<Enumerant>, GrammarError>
    ensures { Makes (λ v. v.items) result (all_of (enumerant_from numbers.now)
        (filter (is_kept category) elements.now)) }
{
    let mut found = Vec::with_capacity(alloc, elements.len())?;
    for element in elements {
        if is_kept(category, element) {
            found.push(enumerant(alloc, numbers, lists, element)?)?;
        }
    }
    Ok(found)
}

/// A kind with its enumerants.
fn sort(
    alloc: Global,
    numbers: &Numbers<'_>,
    lists: &mut Lists,
    kind: &FileKind<'_>,
) -> Result<Sort, GrammarError>
    ensures { Makes (λ s. s) result (sort_from numbers.now kind.now) }
{
    let Some(category) = kind.category else {
        return Err(GrammarError::J5);
    };
    let bases = bases(alloc, numbers, kind.bases.as_slice())?;
    let enumerants = enumerants(
        alloc,
        numbers,
        lists,
        kind.category,
        kind.enumerants.as_slice(),
    )?;
    let name = kind.name.copy(alloc)?;
    let kind = Kind {
        name,
        category,
        bases,
    };
    Ok(Sort::new(alloc, kind, enumerants)?)
}

/// The kinds of the table, in the order of their numbers.
pub(crate) fn sorts(alloc: Global, numbers: &Numbers<'_>) -> Result<Vec<Sort>, GrammarError>
    ensures { Makes (λ v. v.items) result (all_of (sort_from numbers.now) numbers.now) }
{
    let mut lists = Lists::new(alloc)?;
    let mut found = Vec::with_capacity(alloc, numbers.len())?;
    for number in 0..numbers.len() {
        found.push(sort(alloc, numbers, &mut lists, numbers.nth(number))?)?;
    }
    Ok(found)
}
