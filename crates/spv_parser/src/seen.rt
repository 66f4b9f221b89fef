//! Values and masks by their tokens, and the last one that was read.

ghost use Rattle.std.specs.Prelude.{◌≡◌, ◌∷◌, [], Bool, IfSome, None};
ghost use Rattle.spv_table.specs.Table.{kind_of};
ghost use Rattle.spv_table.specs.declared.form.Form.TheVariants.{Leaf as LeafForm};
ghost use Rattle.spv_table.specs.inner.Form.{form_at};
ghost use Rattle.spv_inst.specs.inner.Pending.{opened_kinds};
ghost use Rattle.spv_inst.specs.inner.Written.{operand_words};
ghost use Rattle.spv_module.specs.Module.{plain_operand};
ghost use Rattle.spv_module.specs.Operand.{Context, result_in, type_in};
ghost use Rattle.spv_module.specs.Shape.{alone, shape_of};
ghost use Rattle.spv_lines.specs.inner.Answer.{IsTaken};
ghost use Rattle.spv_parser.specs.inner.Seen.{IsSeen, StandsFor};

use spv_inst::due::{Leaf, mask_kinds, value_kinds};
use spv_lines::{read_mask, read_value};
use spv_module::Operand;
use spv_table::Table;

/// A value or a mask that was read, and the octets of its token.
#[derive(Clone, Copy)]
pub struct Seen<'t, 'a> {
    kind: u32,
    token: &'a [u8],
    word: u32,
    /// The kinds of its parameters, in order.
    kinds: &'t [u32],
}

/// The value or the mask that a token is. None where it is none of its kind, and for other kinds.
fn read_named(table: &Table, leaf: Leaf, kind: u32, token: &str) -> Option<Operand<'static>>
    ensures { form_at (kind_of table.now kind) ≡ LeafForm leaf
        → IfSome result
        (λ o. (c : Context) (hex : Bool) → IsTaken table.now hex kind (shape_of table.now c (alone kind)) token.now
        (plain_operand o)) }
{
    match leaf {
        Leaf::Value => match read_value(table, kind, token) {
            Ok(operand) => Some(operand),
            Err(_) => None,
        },
        Leaf::Mask => match read_mask(table, kind, token) {
            Ok(operand) => Some(operand),
            Err(_) => None,
        },
        _ => None,
    }
}

/// The kinds of the parameters of a value or a mask, in order. None where no one list has them, and for other operands.
fn kinds_behind<'t>(table: &'t Table, operand: &Operand) -> Option<&'t [u32]>
    ensures kinds { IfSome result (λ ks. opened_kinds table.now (plain_operand operand.now) ≡ ks.now) }
    ensures plain { IfSome result (λ _. (result_in (plain_operand operand.now ∷ []) ≡ None)
        × (type_in (plain_operand operand.now ∷ []) ≡ None)) }
{
    match operand {
        Operand::Value { kind, value } => value_kinds(table, *kind, *value),
        Operand::Mask { kind, value } => mask_kinds(table, *kind, *value),
        _ => None,
    }
}

/// The word of a value or a mask.
fn word_of(operand: &Operand) -> Option<u32>
    ensures { IfSome result (λ x. operand_words (plain_operand operand.now) ≡ x ∷ []) }
{
    match operand {
        Operand::Value { value, .. } | Operand::Mask { value, .. } => Some(*value),
        _ => None,
    }
}

/// The word of the value or the mask of a kind that a token is, and the kinds of its parameters, by the last one that
/// was read first. None where it is none of its kind, or no one list has the kinds of its parameters.
pub fn find_named<'t, 'a>(
    table: &'t Table,
    seen: &mut Option<Seen<'t, 'a>>,
    leaf: Leaf,
    kind: u32,
    token: &'a str,
) -> Option<(u32, &'t [u32])>
    requires form { form_at (kind_of table.now kind) ≡ LeafForm leaf }
    requires seen { IsSeen table.now seen.old }
    ensures found { IfSome result (λ p. StandsFor table.now kind token.now p.0 p.1.now) }
    ensures seen { IsSeen table.now seen.new }
{
    let octets = token.as_bytes();
    if let Some(last) = *seen {
        if last.kind == kind && last.token == octets {
            return Some((last.word, last.kinds));
        }
    }
    let Some(operand) = read_named(table, leaf, kind, token) else {
        return None;
    };
    let Some(kinds) = kinds_behind(table, &operand) else {
        return None;
    };
    let Some(word) = word_of(&operand) else {
        return None;
    };
    *seen = Some(Seen {
        kind,
        token: octets,
        word,
        kinds,
    });
    Some((word, kinds))
}
