ghost use Rattle.std.specs.Prelude.{◌≡◌, map, IfOk};
ghost use Rattle.spv_table.specs.Table.{Table, kind_of};
ghost use Rattle.spv_table.specs.inner.Form.{form_of, form_at, id_leaf, literal_leaf, category_form};

use crate::sort::Sort;
use crate::table::{Category, Kind};
use std::alloc::{AllocError, Global};

/// What a kind of one operand asks for (SPIR-V Specification 1.6, section 2.2.1).
#[derive(Clone, Copy)]
pub enum Leaf {
    /// The id of the result's type: IdResultType.
    ResultType,
    /// The id of the result: IdResult.
    Result,
    /// Another id.
    Id,
    /// A LiteralInteger: a word, or in a pair of OpSwitch a number of one or two words.
    Integer,
    /// A literal of one word: LiteralFloat or LiteralExtInstInteger.
    Word,
    /// A number of one or two words, as wide as the instruction's result type: LiteralContextDependentNumber.
    ContextNumber,
    /// A text of one word or more: LiteralString.
    Text,
    /// The value of an enumerant of the kind.
    Value,
    /// A mask of enumerants of the kind.
    Mask,
    /// What nothing spells: a literal of another name, or a kind that the table has not.
    Nothing,
}

/// What a kind asks for, as far as its category and name tell.
#[derive(Clone, Copy)]
pub enum Form {
    /// One operand, and after it those of its parameters.
    Leaf(Leaf),
    /// A Composite: the operands of its bases, in order. `paired` tells whether it is PairLiteralIntegerIdRef, the
    /// pairs of a literal and a label of OpSwitch.
    Parts { paired: bool },
}

/// What an Id kind of a name asks for.
fn id_leaf_of(name: &str) -> Leaf
    ensures { result ≡ id_leaf name.now }
{
    match name {
        "IdResultType" => Leaf::ResultType,
        "IdResult" => Leaf::Result,
        _ => Leaf::Id,
    }
}

/// What a Literal kind of a name asks for.
fn literal_leaf_of(name: &str) -> Leaf
    ensures { result ≡ literal_leaf name.now }
{
    match name {
        "LiteralInteger" => Leaf::Integer,
        "LiteralFloat" | "LiteralExtInstInteger" => Leaf::Word,
        "LiteralString" => Leaf::Text,
        "LiteralContextDependentNumber" => Leaf::ContextNumber,
        _ => Leaf::Nothing,
    }
}

/// The form of a kind.
fn form_of_kind(kind: &Kind) -> Form
    ensures { result ≡ category_form kind.now.name kind.now.category }
{
    let name = kind.name.as_str();
    match kind.category {
        Category::Id => Form::Leaf(id_leaf_of(name)),
        Category::Literal => Form::Leaf(literal_leaf_of(name)),
        Category::ValueEnum => Form::Leaf(Leaf::Value),
        Category::BitEnum => Form::Leaf(Leaf::Mask),
        Category::Composite => Form::Parts {
            paired: name == "PairLiteralIntegerIdRef",
        },
    }
}

/// The form of each kind, in order.
pub(crate) fn forms_of(alloc: Global, sorts: &[Sort]) -> Result<Vec<Form>, AllocError>
    ensures { IfOk result (λ v. v.items ≡ map form_of sorts.now) }
{
    let mut forms = Vec::with_capacity(alloc, sorts.len())?;
    for sort in sorts {
        forms.push(form_of_kind(sort.kind()))?;
    }
    Ok(forms)
}

/// What the kind of a number, from 0, asks for, by the forms of all kinds. A kind that the table has not asks for what
/// nothing spells.
pub fn form_in(forms: &[Form], kind: u32) -> Form
    ensures { (G : Table) → forms.now ≡ map form_of G.kinds → result ≡ form_at (kind_of G kind) }
{
    match forms.get(kind as usize) {
        Some(form) => *form,
        None => Form::Leaf(Leaf::Nothing),
    }
}
