//! Opcodes of which no instruction has a value or a mask.

ghost use Rattle.std.specs.Prelude.{◌≡◌, IsTrue};
ghost use Rattle.std.specs.List.{AllByRecursion};
ghost use Rattle.spv_table.specs.Table.{Table};
ghost use Rattle.spv_module.specs.Operand.{PlainInst};
ghost use Rattle.spv_layout.specs.Rows.{row_of};
ghost use Rattle.spv_layout.specs.Shape.{FitsShape};
ghost use Rattle.spv_layout.specs.inner.Row.{plain_ending};
ghost use Rattle.spv_layout.specs.inner.Unkinded as spec;
ghost use Rattle.spv_layout.specs.inner.Unkinded.{IsUnkinded};

use crate::form::{Ending, Form};
use crate::rows::row;

/// Whether no operand of a form is a value or a mask.
fn is_form_unkinded(form: Form) -> bool
    ensures { result ≡ spec.is_unkinded form }
{
    !matches!(form, Form::Kind(_) | Form::Other)
}

/// Whether no operand of any of these forms is a value or a mask.
fn are_unkinded(forms: &[Form]) -> bool
    ensures { result ≡ spec.are_unkinded forms.now }
{
    for form in forms {
        if !is_form_unkinded(*form) {
            return false;
        }
    }
    true
}

/// Whether no operand of an ending is a value or a mask.
fn is_ending_unkinded(ending: Ending) -> bool
    ensures { result ≡ spec.is_unkinded_ending (plain_ending ending) }
{
    match ending {
        Ending::Closed | Ending::FileAndText => true,
        Ending::Maybe(form) => is_form_unkinded(form),
        Ending::Repeated(forms) => are_unkinded(forms),
        Ending::MaybeRepeated(form, other) => is_form_unkinded(form) && is_form_unkinded(other),
        Ending::Others | Ending::MaybeOthers(_) => false,
    }
}

/// Whether no instruction that fits the row of an opcode has a value or a mask: what asks for these need not look at
/// its operands.
pub fn is_unkinded(opcode: u16) -> bool
    ensures told { result ≡ spec.is_unkinded_row (row_of opcode) }
    ensures operands { IsTrue result → (G : Table) (i : PlainInst) → FitsShape G i → i.opcode ≡ opcode
        → AllByRecursion IsUnkinded i.operands }
{
    match row(opcode) {
        Some(row) => are_unkinded(row.fixed) && is_ending_unkinded(row.ending),
        None => false,
    }
}
