//! The rules that a grammar file has to keep once it was read. They take no memory.

ghost use Rattle.std.specs.Prelude.{◌≡◌, is_some, not, option_map};
ghost use Rattle.std.specs.List.{list_all};
ghost use Rattle.spv_grammar.specs.Rules.{has_opcodes, has_values, has_numbers, are_named, have_named, are_kinds};
ghost use Rattle.spv_grammar.specs.Rules.{names_kinds, has_kinds, are_quantified, have_quantified, is_known_kind};
ghost use Rattle.spv_grammar.specs.Rules.{is_known, is_one, is_result_named, comes_once, is_plain, places_results};
ghost use Rattle.spv_grammar.specs.Rules.{are_no_results, has_no_results, has_results, are_parts, composes};
ghost use Rattle.spv_grammar.specs.Rules.{is_composed, has_bases};
ghost use Rattle.spv_grammar.specs.Kinds.{kind_named, is_part_category, is_id_category, is_result};

use crate::file::{File, FileEnumerant, FileInstruction, FileKind, FileOperand};
use crate::lent::LentName;
use crate::numbers::Numbers;
use spv_table::{Category, Quantifier};

/// Whether each opcode is in its range.
fn has_opcodes(instructions: &[FileInstruction<'_>]) -> bool
    ensures { result ≡ has_opcodes instructions.now }
{
    instructions.iter().all(|i| i.opcode.is_some())
}

/// Whether each value of a kind is in its range and form.
fn has_values(kind: &FileKind<'_>) -> bool
    ensures { result ≡ has_values kind.now }
{
    kind.enumerants.as_slice().iter().all(|e| e.value.is_some())
}

/// Whether each value of the kinds is in its range and form.
fn have_values(kinds: &[FileKind<'_>]) -> bool
    ensures { result ≡ list_all has_values kinds.now }
{
    kinds.iter().all(|k| has_values(k))
}

/// Whether the file keeps J3.
pub(crate) fn has_numbers(file: &File<'_>) -> bool
    ensures { result ≡ has_numbers file.now }
{
    has_opcodes(file.instructions.as_slice()) && have_values(file.kinds.as_slice())
}

/// Whether each operand names a kind.
fn are_named(numbers: &Numbers<'_>, operands: &[FileOperand<'_>]) -> bool
    ensures { result ≡ are_named numbers.now operands.now }
{
    operands
        .iter()
        .all(|o| numbers.number(o.kind.as_str()).is_some())
}

/// Whether each parameter of the enumerants names a kind.
fn have_named(numbers: &Numbers<'_>, enumerants: &[FileEnumerant<'_>]) -> bool
    ensures { result ≡ have_named numbers.now enumerants.now }
{
    enumerants
        .iter()
        .all(|e| are_named(numbers, e.parameters.as_slice()))
}

/// Whether each name is that of a kind.
fn are_kinds(numbers: &Numbers<'_>, names: &[LentName<'_>]) -> bool
    ensures { result ≡ are_kinds numbers.now names.now }
{
    names
        .iter()
        .all(|name| numbers.number(name.as_str()).is_some())
}

/// Whether the parameters and the bases of a kind name kinds.
fn names_kinds(numbers: &Numbers<'_>, kind: &FileKind<'_>) -> bool
    ensures { result ≡ names_kinds numbers.now kind.now }
{
    have_named(numbers, kind.enumerants.as_slice()) && are_kinds(numbers, kind.bases.as_slice())
}

/// Whether the operands of the instructions name kinds.
fn instructions_name_kinds(numbers: &Numbers<'_>, instructions: &[FileInstruction<'_>]) -> bool
    ensures { result ≡ list_all (λ i. are_named numbers.now i.operands) instructions.now }
{
    instructions
        .iter()
        .all(|i| are_named(numbers, i.operands.as_slice()))
}

/// Whether the parameters and the bases of the kinds name kinds.
fn kinds_name_kinds(numbers: &Numbers<'_>, kinds: &[FileKind<'_>]) -> bool
    ensures { result ≡ list_all (names_kinds numbers.now) kinds.now }
{
    kinds.iter().all(|k| names_kinds(numbers, k))
}

/// Whether the file keeps J4.
pub(crate) fn has_kinds(numbers: &Numbers<'_>, file: &File<'_>) -> bool
    ensures { result ≡ has_kinds numbers.now file.now }
{
    instructions_name_kinds(numbers, file.instructions.as_slice())
        && kinds_name_kinds(numbers, file.kinds.as_slice())
}

/// Whether each operand's quantifier is known.
fn are_quantified(operands: &[FileOperand<'_>]) -> bool
    ensures { result ≡ are_quantified operands.now }
{
    operands.iter().all(|o| o.quantifier.is_some())
}

/// Whether each parameter's quantifier is known.
fn have_quantified(enumerants: &[FileEnumerant<'_>]) -> bool
    ensures { result ≡ have_quantified enumerants.now }
{
    enumerants
        .iter()
        .all(|e| are_quantified(e.parameters.as_slice()))
}

/// Whether a kind's category and its parameters' quantifiers are known.
fn is_known_kind(kind: &FileKind<'_>) -> bool
    ensures { result ≡ is_known_kind kind.now }
{
    kind.category.is_some() && have_quantified(kind.enumerants.as_slice())
}

/// Whether the quantifiers of the instructions are known.
fn instructions_are_known(instructions: &[FileInstruction<'_>]) -> bool
    ensures { result ≡ list_all (λ i. are_quantified i.operands) instructions.now }
{
    instructions
        .iter()
        .all(|i| are_quantified(i.operands.as_slice()))
}

/// Whether the categories and quantifiers of the kinds are known.
fn kinds_are_known(kinds: &[FileKind<'_>]) -> bool
    ensures { result ≡ list_all is_known_kind kinds.now }
{
    kinds.iter().all(|k| is_known_kind(k))
}

/// Whether the file keeps J5.
pub(crate) fn is_known(file: &File<'_>) -> bool
    ensures { result ≡ is_known file.now }
{
    instructions_are_known(file.instructions.as_slice()) && kinds_are_known(file.kinds.as_slice())
}

/// Whether an operand comes once.
pub(crate) fn is_one(quantifier: Option<Quantifier>) -> bool
    ensures { result ≡ is_one quantifier }
{
    match quantifier {
        Some(Quantifier::One) => true,
        _ => false,
    }
}

/// Whether the category is Id.
fn is_id(category: Option<Category>) -> bool
    ensures { result ≡ is_id_category category }
{
    match category {
        Some(Category::Id) => true,
        _ => false,
    }
}

/// Whether the category is Id or Literal.
fn is_part(category: Option<Category>) -> bool
    ensures { result ≡ is_part_category category }
{
    match category {
        Some(Category::Id | Category::Literal) => true,
        _ => false,
    }
}

/// Whether a name is that of a kind of category Id.
fn names_id(numbers: &Numbers<'_>, name: &str) -> bool
    ensures { result ≡ Rattle.spv_grammar.specs.Kinds.is_id (kind_named numbers.now name.now) }
{
    match numbers.kind(name) {
        Some(kind) => is_id(kind.category),
        None => false,
    }
}

/// Whether a name is that of a kind of category Id or Literal.
pub(crate) fn names_part(numbers: &Numbers<'_>, name: &str) -> bool
    ensures { result ≡ Rattle.spv_grammar.specs.Kinds.is_part (kind_named numbers.now name.now) }
{
    match numbers.kind(name) {
        Some(kind) => is_part(kind.category),
        None => false,
    }
}

/// Whether a name is that of a result kind.
pub(crate) fn is_result(numbers: &Numbers<'_>, name: &str) -> bool
    ensures { result ≡ is_result numbers.now name.now }
{
    (name == "IdResultType" || name == "IdResult") && names_id(numbers, name)
}

/// Whether an operand is of the result kind of this name.
fn is_result_named(numbers: &Numbers<'_>, name: &str, operand: &FileOperand<'_>) -> bool
    ensures { result ≡ is_result_named numbers.now name.now operand.now }
{
    operand.kind.as_str() == name && is_result(numbers, operand.kind.as_str())
}

/// Whether the result kind of this name comes at most once.
fn comes_once(numbers: &Numbers<'_>, name: &str, operands: &[FileOperand<'_>]) -> bool
    ensures { result ≡ comes_once numbers.now name.now operands.now }
{
    operands
        .iter()
        .filter(|o| is_result_named(numbers, name, o))
        .count()
        <= 1
}

/// Whether an operand is of no result kind or comes once.
fn is_plain(numbers: &Numbers<'_>, operand: &FileOperand<'_>) -> bool
    ensures { result ≡ is_plain numbers.now operand.now }
{
    !is_result(numbers, operand.kind.as_str()) || is_one(operand.quantifier)
}

/// Whether each operand is of no result kind or comes once.
fn are_plain(numbers: &Numbers<'_>, operands: &[FileOperand<'_>]) -> bool
    ensures { result ≡ list_all (is_plain numbers.now) operands.now }
{
    operands.iter().all(|o| is_plain(numbers, o))
}

/// Whether the result kinds stand in an instruction as they may.
fn places_results(numbers: &Numbers<'_>, operands: &[FileOperand<'_>]) -> bool
    ensures { result ≡ places_results numbers.now operands.now }
{
    comes_once(numbers, "IdResultType", operands)
        && comes_once(numbers, "IdResult", operands)
        && are_plain(numbers, operands)
}

/// Whether no parameter is of a result kind.
fn are_no_results(numbers: &Numbers<'_>, operands: &[FileOperand<'_>]) -> bool
    ensures { result ≡ are_no_results numbers.now operands.now }
{
    operands
        .iter()
        .all(|o| !is_result(numbers, o.kind.as_str()))
}

/// Whether no enumerant has a parameter of a result kind.
fn have_no_results(numbers: &Numbers<'_>, enumerants: &[FileEnumerant<'_>]) -> bool
    ensures { result ≡ list_all (λ e. are_no_results numbers.now e.parameters) enumerants.now }
{
    enumerants
        .iter()
        .all(|e| are_no_results(numbers, e.parameters.as_slice()))
}

/// Whether no name is that of a result kind.
fn name_no_results(numbers: &Numbers<'_>, names: &[LentName<'_>]) -> bool
    ensures { result ≡ list_all (λ name. not (Rattle.spv_grammar.specs.Kinds.is_result numbers.now name)) names.now }
{
    names.iter().all(|name| !is_result(numbers, name.as_str()))
}

/// Whether no parameter or base of a kind is a result kind.
fn has_no_results(numbers: &Numbers<'_>, kind: &FileKind<'_>) -> bool
    ensures { result ≡ has_no_results numbers.now kind.now }
{
    have_no_results(numbers, kind.enumerants.as_slice())
        && name_no_results(numbers, kind.bases.as_slice())
}

/// Whether the result kinds stand in the instructions as they may.
fn instructions_place_results(numbers: &Numbers<'_>, instructions: &[FileInstruction<'_>]) -> bool
    ensures { result ≡ list_all (λ i. places_results numbers.now i.operands) instructions.now }
{
    instructions
        .iter()
        .all(|i| places_results(numbers, i.operands.as_slice()))
}

/// Whether no parameter or base of the kinds is a result kind.
fn kinds_have_no_results(numbers: &Numbers<'_>, kinds: &[FileKind<'_>]) -> bool
    ensures { result ≡ list_all (has_no_results numbers.now) kinds.now }
{
    kinds.iter().all(|k| has_no_results(numbers, k))
}

/// Whether the file keeps J6.
pub(crate) fn has_results(numbers: &Numbers<'_>, file: &File<'_>) -> bool
    ensures { result ≡ has_results numbers.now file.now }
{
    instructions_place_results(numbers, file.instructions.as_slice())
        && kinds_have_no_results(numbers, file.kinds.as_slice())
}

/// Whether each name is that of a kind of category Id or Literal.
fn name_parts(numbers: &Numbers<'_>, names: &[LentName<'_>]) -> bool
    ensures { result ≡ list_all (λ name. Rattle.spv_grammar.specs.Kinds.is_part (kind_named numbers.now name))
        names.now }
{
    names.iter().all(|name| names_part(numbers, name.as_str()))
}

/// Whether there are names, each that of a kind of category Id or Literal.
fn are_parts(numbers: &Numbers<'_>, names: &[LentName<'_>]) -> bool
    ensures { result ≡ are_parts numbers.now names.now }
{
    !names.is_empty() && name_parts(numbers, names)
}

/// Whether a kind that is a Composite has the bases that it may have.
fn is_composed(numbers: &Numbers<'_>, kind: &FileKind<'_>) -> bool
    ensures { result ≡ is_composed numbers.now kind.now }
{
    match kind.category {
        Some(Category::Composite) => are_parts(numbers, kind.bases.as_slice()),
        _ => true,
    }
}

/// Whether the file keeps J7.
pub(crate) fn has_bases(numbers: &Numbers<'_>, file: &File<'_>) -> bool
    ensures { result ≡ has_bases numbers.now file.now }
{
    file.kinds
        .as_slice()
        .iter()
        .all(|k| is_composed(numbers, k))
}
