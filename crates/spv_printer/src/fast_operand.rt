//! Operands, added to a line in a buffer straight from their words.

ghost use Rattle.std.specs.Prelude.{◌≡◌, ◌<◌, ◌≤◌, ◌+◌, ◌∷◌, [], ℕ, Some, true};
ghost use Rattle.std.specs.Prelude.{IfSome, length};
ghost use Rattle.spv_table.specs.Table as grammar;
ghost use Rattle.spv_table.specs.Table.{kind_of};
ghost use Rattle.spv_inst.specs.declared.definitions.Definitions as known;
ghost use Rattle.spv_table.specs.declared.form.Form.TheVariants.{Leaf as LeafForm};
ghost use Rattle.spv_table.specs.declared.form.Leaf.TheVariants as leaf;
ghost use Rattle.spv_inst.specs.Reading.{enumerants_at};
ghost use Rattle.spv_table.specs.inner.Form.{form_at};
ghost use Rattle.spv_inst.specs.inner.Reading.{between};
ghost use Rattle.spv_module.specs.Spelling.{parameters_of, mask_parameters, set_bits};
ghost use Rattle.spv_lines.specs.Name.{shown_mask, shown_value};
ghost use Rattle.spv_printer.specs.inner.Fast.{IsAdded, IsFront, IsNamed, IsNamedBy};
ghost use Rattle.spv_printer.specs.inner.Names.{AreNames};
ghost use Rattle.spv_printer.specs.inner.Printer.{IsReady};

use crate::buffer::{add_id, add_name, add_word};
use crate::fast_text::add_quoted;
use crate::named::Named;
use crate::names::Names;
use crate::printer::Printer;
use spv_inst::due::{Definitions, Form, Leaf, form_in};
use spv_lines::is_narrow;
use spv_table::Table;
use spv_words::{Image, word};

/// The room of the buffer that is asked for an operand.
pub const ROOM: usize = 96;

/// The operands of a line that are in the buffer.
#[derive(Clone, Copy)]
pub struct Draft {
    /// Where they end.
    pub at: usize,
    /// The result, which stands in front of the line, if it was among them.
    pub result: Option<u32>,
    /// The first result type.
    pub type_id: Option<u32>,
}

/// The operands of a line with one more, which takes so many words, and the kinds of its parameters, which are due
/// after it.
#[derive(Clone, Copy)]
pub struct Added<'t> {
    pub draft: Draft,
    pub words: u32,
    pub kinds: &'t [u32],
}

/// What stands in a line for a word, and the kinds of the parameters that are due after it.
#[derive(Clone, Copy)]
pub struct Label<'t> {
    pub name: &'t str,
    pub kinds: &'t [u32],
}

/// Adds the operand that a word is, where a kind asks for an id or a literal of one word, or for a number of the
/// instruction's type, which is one word and stands in decimal. None where it asks for another operand, or for a second
/// result.
#[inline(always)]
fn add_plain(
    buffer: &mut [u8],
    definitions: &Definitions,
    leaf: Leaf,
    word: u32,
    draft: Draft,
) -> Option<Draft>
    requires { draft.at + 96 ≤ length buffer.old }
    ensures { (G : grammar.Table) (kind : ℕ) → form_at (kind_of G kind) ≡ LeafForm leaf
        → IfSome result (λ d. IsAdded G definitions.now kind (word ∷ []) [] draft d buffer.old buffer.new) }
{
    match leaf {
        Leaf::ResultType => Some(Draft {
            at: add_id(buffer, word, draft.at),
            type_id: draft.type_id.or(Some(word)),
            ..draft
        }),
        Leaf::Id => Some(Draft {
            at: add_id(buffer, word, draft.at),
            ..draft
        }),
        Leaf::Integer | Leaf::Word => Some(Draft {
            at: add_word(buffer, word, draft.at),
            ..draft
        }),
        Leaf::ContextNumber => {
            if !is_narrow(definitions, draft.type_id) {
                return None;
            }
            Some(Draft {
                at: add_word(buffer, word, draft.at),
                ..draft
            })
        },
        Leaf::Result => match draft.result {
            Some(_) => None,
            None => Some(Draft {
                result: Some(word),
                ..draft
            }),
        },
        _ => None,
    }
}

/// Adds the text at the front of the words from `at` up to `end`, both counted in words of the module from 0. None as
/// of `add_quoted`.
#[inline(always)]
fn add_text<'t>(
    buffer: &mut [u8],
    image: &Image,
    at: u32,
    end: u32,
    draft: Draft,
) -> Option<Added<'t>>
    requires room { draft.at + 96 ≤ length buffer.old }
    requires order { at ≤ end }
    requires fits { end ≤ length image.now }
    ensures { (G : grammar.Table) (d : known.Definitions) (kind : ℕ)
        → form_at (kind_of G kind) ≡ LeafForm leaf.Text
        → IfSome result (λ a. IsFront G d kind (between image.now at end) draft a buffer.old buffer.new) }
{
    // The length bounds how many octets there are.
    let _ = image.len();
    let octets = &image.octets()[at as usize * 4..end as usize * 4];
    let quoted = add_quoted(buffer, octets, draft.at)?;
    Some(Added {
        draft: Draft {
            at: quoted.at,
            ..draft
        },
        words: quoted.words,
        kinds: &[],
    })
}

/// Whether a mask has one bit, one of the lowest six.
#[inline(always)]
fn is_low_bit(mask: u32) -> bool
    ensures { result ≡ true → set_bits mask ≡ mask ∷ [] }
{
    match mask {
        1 => true,
        2 => true,
        4 => true,
        8 => true,
        16 => true,
        32 => true,
        _ => false,
    }
}

/// The enumerant of a value or of a bit, as what stands for it.
#[inline(always)]
fn enumerant_label<'t>(table: &'t Table, kind: u32, word: u32) -> Option<Label<'t>>
    ensures { IfSome result (λ n. IsNamedBy (enumerants_at (kind_of table.now kind)) word n.name.now n.kinds.now) }
{
    let enumerant = table.enumerant(kind, word)?;
    Some(Label {
        name: enumerant.name(),
        kinds: enumerant.parameters(),
    })
}

/// What stands for a value of a kind. None where it is not known that the value is shown by name.
#[inline(always)]
pub fn value_label<'t>(table: &'t Table, names: &Names, kind: u32, value: u32) -> Option<Label<'t>>
    requires { AreNames table.now names.now }
    ensures { IfSome result (λ n. (shown_value (enumerants_at (kind_of table.now kind)) value ≡ n.name.now)
        × (parameters_of (enumerants_at (kind_of table.now kind)) value ≡ Some n.kinds.now)) }
{
    if !names.has(Named::Value { kind, value }) {
        return None;
    }
    enumerant_label(table, kind, value)
}

/// What stands for a mask of a kind. None where the mask has more bits than one, or a bit above the lowest six, and
/// where it is not known that it is shown by name.
#[inline(always)]
pub fn mask_label<'t>(table: &'t Table, names: &Names, kind: u32, mask: u32) -> Option<Label<'t>>
    requires { AreNames table.now names.now }
    ensures { IfSome result (λ n. (shown_mask (enumerants_at (kind_of table.now kind)) mask ≡ n.name.now)
        × (mask_parameters (enumerants_at (kind_of table.now kind)) mask ≡ Some n.kinds.now)) }
{
    if mask == 0 {
        let label = value_label(table, names, kind, 0)?;
        return Some(Label {
            name: label.name,
            kinds: &[],
        });
    }
    if !is_low_bit(mask) || !names.has(Named::Mask { kind, mask }) {
        return None;
    }
    enumerant_label(table, kind, mask)
}

/// What stands for a word, where a kind asks for a value or a mask. None where it asks for another operand, and as of
/// `value_label` and `mask_label`.
#[inline(always)]
fn label_of<'t>(
    table: &'t Table,
    names: &Names,
    leaf: Leaf,
    kind: u32,
    word: u32,
) -> Option<Label<'t>>
    requires { AreNames table.now names.now }
    ensures { form_at (kind_of table.now kind) ≡ LeafForm leaf
        → IfSome result (λ n. IsNamed table.now kind word n.name.now n.kinds.now) }
{
    match leaf {
        Leaf::Value => value_label(table, names, kind, word),
        Leaf::Mask => mask_label(table, names, kind, word),
        _ => None,
    }
}

/// Adds the operand for a kind that is due at the front of the words from `at` up to `end`, both counted in words of
/// the module from 0. None where there is no room, and as of `add_plain`, `add_text`, `label_of` and `add_name`.
#[inline(always)]
pub fn add_operand<'t>(
    buffer: &mut [u8],
    table: &'t Table,
    image: &Image,
    printer: &Printer<'t>,
    kind: u32,
    at: u32,
    end: u32,
    draft: Draft,
) -> Option<Added<'t>>
    requires ready { IsReady table.now printer.now }
    requires some { at < end }
    requires fits { end ≤ length image.now }
    ensures { IfSome result (λ a. IsFront table.now printer.now.definitions kind (between image.now at end) draft a
        buffer.old buffer.new) }
{
    if buffer.len() < ROOM || draft.at > buffer.len() - ROOM {
        return None;
    }
    let Form::Leaf(leaf) = form_in(printer.forms, kind) else {
        return None;
    };
    if let Leaf::Text = leaf {
        return add_text(buffer, image, at, end, draft);
    }
    let word = word(image, at);
    if let Leaf::Value | Leaf::Mask = leaf {
        let label = label_of(table, &printer.names, leaf, kind, word)?;
        let at = add_name(buffer, label.name, draft.at)?;
        return Some(Added {
            draft: Draft { at, ..draft },
            words: 1,
            kinds: label.kinds,
        });
    }
    let draft = add_plain(buffer, &printer.definitions, leaf, word, draft)?;
    Some(Added {
        draft,
        words: 1,
        kinds: &[],
    })
}
