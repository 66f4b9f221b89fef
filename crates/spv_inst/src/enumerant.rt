ghost use Rattle.std.specs.Prelude.{◌≡◌, ℕ, List, [], ◌∷◌, ◌++◌, Some, map, is_some, option_map};
ghost use Rattle.std.specs.Prelude.{IfOk, IfErr, IfSome, unwrap_or};
ghost use Rattle.spv_table.specs.Table.{kind_of};
ghost use Rattle.spv_module.specs.Shape.{alone, AsValue, AsMask};
ghost use Rattle.spv_module.specs.Spelling.{Takes, parameters_of, mask_parameters};
ghost use Rattle.spv_module.specs.Refusal.{ShapeRefuses};
ghost use Rattle.spv_module.specs.Module.{plain_operand};
ghost use Rattle.spv_inst.specs.Reading.{enumerants_at};
ghost use Rattle.spv_inst.specs.inner.Reading.{parameter_kinds};

use crate::reader::{Refusal, Taken};
use spv_module::{Operand, Rule};
use spv_table::Table;

/// Whether the kind of a number, from 0, has an enumerant of a value. A kind that the table has not has none.
#[inline(always)]
pub fn knows(table: &Table, kind: u32, value: u32) -> bool
    ensures { result ≡ is_some (parameters_of (enumerants_at (kind_of table.now kind)) value) }
{
    table.enumerant(kind, value).is_some()
}

/// The kinds of the parameters of an enumerant, by the number of its kind, from 0, and its value. None where the kind
/// has no such enumerant.
#[inline(always)]
pub fn value_kinds<'t>(table: &'t Table, kind: u32, value: u32) -> Option<&'t [u32]>
    ensures { option_map (λ ks. ks.now) result ≡ parameters_of (enumerants_at (kind_of table.now kind)) value }
{
    match table.enumerant(kind, value) {
        Some(enumerant) => Some(enumerant.parameters()),
        None => None,
    }
}

/// One list of kinds after another, where one of the two is empty.
#[inline(always)]
pub fn joined<'t>(first: &'t [u32], second: &'t [u32]) -> Option<&'t [u32]>
    ensures { IfSome result (λ ks. ks.now ≡ first.now ++ second.now) }
{
    if first.is_empty() {
        return Some(second);
    }
    if second.is_empty() {
        return Some(first);
    }
    None
}

/// The kinds of the parameters of a mask of a kind, those of the smaller bit first, where no more than one of its set
/// bits has parameters. None where more of them have, or where one of them is the value of no enumerant.
#[inline(never)]
fn kinds_of_bits<'t>(table: &'t Table, kind: u32, mask: u32) -> Option<&'t [u32]>
    ensures { IfSome result (λ ks. mask_parameters (enumerants_at (kind_of table.now kind)) mask ≡ Some ks.now) }
{
    let mut kinds: &'t [u32] = &[];
    for position in 0..32u32 {
        let left = mask >> position;
        if left == 0 {
            return Some(kinds);
        }
        if left % 2 == 1 {
            let Some(more) = value_kinds(table, kind, 1 << position) else {
                return None;
            };
            let Some(all) = joined(kinds, more) else {
                return None;
            };
            kinds = all;
        }
    }
    Some(kinds)
}

/// The same. Masks of no bit and of one, which most are, are told without a loop over bits.
#[inline(always)]
pub fn mask_kinds<'t>(table: &'t Table, kind: u32, mask: u32) -> Option<&'t [u32]>
    ensures { IfSome result (λ ks. mask_parameters (enumerants_at (kind_of table.now kind)) mask ≡ Some ks.now) }
{
    if mask == 0 {
        return Some(&[]);
    }
    let position = mask.trailing_zeros();
    if 1 << position == mask {
        return value_kinds(table, kind, mask);
    }
    kinds_of_bits(table, kind, mask)
}

/// Takes a value of a kind: a word that is the value of one of the kind's enumerants. The enumerant's parameters are
/// due after it. The `Refusal` of a value that no enumerant has is I6 at word 0.
pub fn take_value<'a>(table: &Table, kind: u32, value: u32) -> Result<Taken<'a>, Refusal>
    ensures taken { IfOk result (λ t. Takes kind (AsValue (enumerants_at (kind_of table.now kind)))
        (plain_operand t.operand) (value ∷ []) (map alone (parameter_kinds table.now (plain_operand t.operand)))) }
    ensures words { IfOk result (λ t. t.words ≡ 1) }
    ensures refused { (us : List ℕ) → IfErr result
        (λ e. ShapeRefuses (AsValue (enumerants_at (kind_of table.now kind))) (value ∷ us) e.rule e.word) }
{
    if !knows(table, kind, value) {
        return Err(Refusal::new(Rule::I6, 0));
    }
    let operand = Operand::Value { kind, value };
    Ok(Taken { operand, words: 1 })
}

/// Whether each set bit of a mask is the value of an enumerant of the kind of a number, from 0. It is so for the mask
/// 0.
pub fn knows_bits(table: &Table, kind: u32, mask: u32) -> bool
    ensures { result ≡ is_some (mask_parameters (enumerants_at (kind_of table.now kind)) mask) }
{
    for position in 0..32u32 {
        let left = mask >> position;
        if left == 0 {
            return true;
        }
        if left % 2 == 1 && !knows(table, kind, 1 << position) {
            return false;
        }
    }
    true
}

/// Takes a mask of a kind: a word whose set bits are each the value of one of the kind's enumerants; so 0 is always
/// taken. The bits' parameters are due after it, those of the smaller bit first. The `Refusal` of a mask with a set bit
/// that no enumerant has is I7 at word 0.
pub fn take_mask<'a>(table: &Table, kind: u32, mask: u32) -> Result<Taken<'a>, Refusal>
    ensures taken { IfOk result (λ t. Takes kind (AsMask (enumerants_at (kind_of table.now kind)))
        (plain_operand t.operand) (mask ∷ []) (map alone (parameter_kinds table.now (plain_operand t.operand)))) }
    ensures words { IfOk result (λ t. t.words ≡ 1) }
    ensures refused { (us : List ℕ) → IfErr result
        (λ e. ShapeRefuses (AsMask (enumerants_at (kind_of table.now kind))) (mask ∷ us) e.rule e.word) }
{
    if !knows_bits(table, kind, mask) {
        return Err(Refusal::new(Rule::I7, 0));
    }
    let operand = Operand::Mask { kind, value: mask };
    Ok(Taken { operand, words: 1 })
}
