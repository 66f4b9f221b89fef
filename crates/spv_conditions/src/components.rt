//! The components of vectors, and the literals that are their numbers.

ghost use Rattle.std.specs.Prelude.{◌≡◌, ◌↔◌, ℕ, IsTrue, IsSomeAnd, length};
ghost use Rattle.std.specs.List.{AllByRecursion};
ghost use Rattle.spv_module.specs.Module.{plain_operands};
ghost use Rattle.spv_type_forms.specs.Form.{form_of};
ghost use Rattle.spv_type_kinds.specs.Operands.{words_in};
ghost use Rattle.spv_type_forms.specs.Types.{IsVector};
ghost use Rattle.spv_conditions.specs.Rest as spec;
ghost use Rattle.spv_conditions.specs.Rest.{IsComponent};

use spv_module::Operand;
use spv_type_forms::{Definitions, Form, word_count};

/// How many components a vector type has.
fn size_of(definitions: &Definitions, t: u32) -> u32
    ensures { result ≡ spec.size_in (form_of definitions.now t) }
{
    match definitions.form(t) {
        Some(Form::Vector { count, .. }) => count,
        _ => 0,
    }
}

/// How many components the first two types, vectors, have together.
pub fn both_sizes(definitions: &Definitions, types: &[u32]) -> u64
    ensures { result ≡ spec.both_sizes definitions.now types.now }
{
    match types {
        [first, second, ..] => {
            u64::from(size_of(definitions, *first)) + u64::from(size_of(definitions, *second))
        }
        _ => 0,
    }
}

/// Whether a type is a vector of as many components as there are literals among the operands.
fn has_word_count(definitions: &Definitions, t: u32, operands: &[Operand]) -> bool
    ensures { IsTrue result ↔ ((c : ℕ)
        × IsVector definitions.now t c (length (words_in (plain_operands operands.now)))) }
{
    match definitions.form(t) {
        Some(Form::Vector { count, .. }) => count as usize == word_count(operands),
        _ => false,
    }
}

/// Whether the result type is one.
pub fn has_component_count(definitions: &Definitions, r: Option<u32>, operands: &[Operand]) -> bool
    ensures { IsTrue result ↔ IsSomeAnd r (λ t. (c : ℕ)
        × IsVector definitions.now t c (length (words_in (plain_operands operands.now)))) }
{
    match r {
        Some(t) => has_word_count(definitions, t, operands),
        None => false,
    }
}

/// Whether each literal among the operands is below a number, or undefined.
pub fn are_components(n: u64, operands: &[Operand]) -> bool
    ensures { IsTrue result ↔ AllByRecursion (IsComponent n) (words_in (plain_operands operands.now)) }
{
    for operand in operands {
        if let Operand::Word(k) = operand {
            if u64::from(*k) >= n && *k != u32::MAX {
                return false;
            }
        }
    }
    true
}
