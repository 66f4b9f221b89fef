//! Operands that break no rule by themselves, by the row of an opcode.

ghost use Rattle.std.specs.Prelude.{◌≡◌, Some, take};
ghost use Rattle.std.specs.List.{AllByRecursion};
ghost use Rattle.spv_table.specs.Table.{Table};
ghost use Rattle.spv_module.specs.Operand.{PlainInst};
ghost use Rattle.spv_layout.specs.Rows.{row_of};
ghost use Rattle.spv_layout.specs.Shape.{FitsShape};
ghost use Rattle.spv_layout.specs.inner.Row.{plain_ending, plain_row};
ghost use Rattle.spv_standard.specs.inner.Silent as spec;
ghost use Rattle.spv_standard.specs.inner.Silent.{IsSilent};

use spv_layout::{Ending, Form, Row, row};

/// Whether no operand of a form is a text, a value or a mask.
fn is_form_silent(form: Form) -> bool
    ensures { result ≡ spec.is_silent form }
{
    !matches!(form, Form::Text | Form::Kind(_) | Form::Other)
}

/// Whether no operand of any of these forms is one.
fn are_silent(forms: &[Form]) -> bool
    ensures { result ≡ spec.are_silent forms.now }
{
    for form in forms {
        if !is_form_silent(*form) {
            return false;
        }
    }
    true
}

/// Of how many of the first forms no operand is one.
fn silent_front(forms: &[Form]) -> usize
    ensures { result ≡ spec.silent_front forms.now }
{
    for (count, form) in forms.iter().enumerate() {
        if !is_form_silent(*form) {
            return count;
        }
    }
    forms.len()
}

/// Whether no operand that an ending allows is one.
fn is_ending_silent(ending: Ending) -> bool
    ensures { result ≡ spec.is_silent_ending (plain_ending ending) }
{
    match ending {
        Ending::Closed => true,
        Ending::Maybe(form) => is_form_silent(form),
        Ending::Repeated(forms) => are_silent(forms),
        Ending::MaybeRepeated(first, other) => is_form_silent(first) && is_form_silent(other),
        Ending::FileAndText | Ending::Others | Ending::MaybeOthers(_) => false,
    }
}

/// Of how many operands at the beginning of an instruction that fits a row none is a text, a value or a mask: `u8::MAX`
/// where no operand is one.
fn silent_in(row: &Row) -> u8
    ensures { (G : Table) (i : PlainInst) → FitsShape G i → row_of i.opcode ≡ Some (plain_row row.now)
        → AllByRecursion IsSilent (take result i.operands) }
{
    let front = silent_front(row.fixed);
    if front == row.fixed.len() && is_ending_silent(row.ending) {
        return u8::MAX;
    }
    match u8::try_from(front) {
        Ok(count) => count,
        Err(_) => 0,
    }
}

/// Of how many operands at the beginning of an instruction of an opcode, which fits its row, none is a text, a value or
/// a mask: these need not be looked at.
pub fn silent_of(opcode: u16) -> u8
    ensures { (G : Table) (i : PlainInst) → FitsShape G i → i.opcode ≡ opcode
        → AllByRecursion IsSilent (take result i.operands) }
{
    match row(opcode) {
        Some(row) => silent_in(row),
        None => 0,
    }
}
