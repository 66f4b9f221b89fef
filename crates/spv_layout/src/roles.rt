//! What the operands of an instruction are used as.

ghost use Rattle.std.specs.Prelude.{◌≡◌, ◌≤◌, ◌<◌, ◌-◌, ◌%◌, ℕ, length, map, option_and_then, slice_get, Some};
ghost use Rattle.spv_table.specs.Table.{Table};
ghost use Rattle.spv_module.specs.Module.{plain_inst, plain_operand};
ghost use Rattle.spv_layout.specs.inner.Row.{plain_ending, plain_row};
ghost use Rattle.spv_layout.specs.Rows.{row_of};
ghost use Rattle.spv_layout.specs.Shape.{FitsShape, IsRole};
ghost use Rattle.spv_layout.specs.Shape as shape;
ghost use Rattle.spv_layout.specs.inner.Test as test;

use crate::form::{Ending, Form, Role, Row};
use crate::rows::row;
use spv_module::{Inst, Operand};

/// The id that an operand is, whatever it is used as: a type, a result, or another id, one that an extended instruction
/// takes or names among them.
#[inline(always)]
pub fn id_of(operand: Operand<'_>) -> Option<u32>
    ensures { result ≡ shape.id_of (plain_operand operand.entry) }
{
    match operand {
        Operand::OfType(id) => Some(id),
        Operand::Result(id) => Some(id),
        Operand::Id(id) => Some(id),
        Operand::Argument(id) => Some(id),
        Operand::Mention(id) => Some(id),
        _ => None,
    }
}

/// The id that operand `n`, from 0, of an instruction is, if there is one of that number that is an id.
#[inline(always)]
pub fn id_at(inst: &Inst<'_>, n: usize) -> Option<u32>
    ensures { result ≡ option_and_then shape.id_of (slice_get (plain_inst inst.now).operands n) }
{
    let operands = inst.operands.as_slice();
    if n < operands.len() {
        id_of(operands[n])
    } else {
        None
    }
}

/// The role in which an operand of a form is used.
fn role_of(form: Form, operand: Operand<'_>) -> Option<Role>
    ensures { result ≡ shape.role_of form (plain_operand operand.entry) }
{
    match form {
        Form::OfType => Some(Role::OfType),
        Form::Id(role) => Some(role),
        Form::Other => match operand {
            Operand::Id(_) => Some(Role::Any),
            _ => None,
        },
        Form::Unseen => match operand {
            Operand::Argument(_) => Some(Role::Value),
            _ => None,
        },
        _ => None,
    }
}

/// The form of an operand at a place of an ending.
fn form_in(ending: Ending, operand: Operand<'_>, n: usize) -> Option<Form>
    ensures { result ≡ test.form_in (plain_ending ending) (plain_operand operand.entry) n }
{
    match ending {
        Ending::Closed => None,
        Ending::Maybe(form) => Some(form),
        Ending::FileAndText => match operand {
            Operand::Text(_) => Some(Form::Text),
            _ => Some(Form::Id(Role::Text)),
        },
        Ending::Repeated(forms) => {
            if forms.is_empty() {
                None
            } else {
                Some(forms[n % forms.len()])
            }
        }
        Ending::Others => Some(Form::Other),
        Ending::MaybeOthers(form) => {
            if n == 0 {
                Some(form)
            } else {
                Some(Form::Other)
            }
        }
        Ending::MaybeRepeated(form, other) => { if n == 0 { Some(form) } else { Some(other) } }
    }
}

/// The form of an operand at a place of a row.
fn form_at(row: &Row, operand: Operand<'_>, n: usize) -> Option<Form>
    ensures { result ≡ test.form_at (plain_row row.now) (plain_operand operand.entry) n }
{
    if n < row.fixed.len() {
        Some(row.fixed[n])
    } else {
        form_in(row.ending, operand, n - row.fixed.len())
    }
}

/// The role of operand `n`, from 0, of an instruction that fits its row under some table: `lay_out` answers a plan only
/// for such. None where that operand is no use of an id, or there is none of that number. It takes no memory.
pub fn role(inst: &Inst<'_>, n: usize) -> Option<Role>
    ensures { (G : Table) → FitsShape G (plain_inst inst.now) → IsRole G (plain_inst inst.now) n result }
{
    let Some(row) = row(inst.opcode) else {
        return None;
    };
    let operands = inst.operands.as_slice();
    if operands.len() <= n {
        return None;
    }
    match form_at(row, operands[n], n) {
        Some(form) => role_of(form, operands[n]),
        None => None,
    }
}
