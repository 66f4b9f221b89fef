//! The operands that a row of the table of shapes asks for, in words.
ghost use Rattle.std.specs.Prelude.{◌≡◌, ◌++◌, OnOk, Some, codes, true, string_bytes};
ghost use Rattle.spv_layout.specs.Row.{file_and_text, maybe, maybe_others, maybe_repeated, name_of};
ghost use Rattle.spv_layout.specs.inner.Row.{plain_ending, plain_row};
ghost use Rattle.spv_facts.specs.Shapes as shapes;

use spv_layout::{Ending, Form, Named, Role, Row, row};
use std::alloc::AllocError;

/// The name of a role.
pub fn role_name(role: Role) -> &'static str
    ensures { result.now ≡ shapes.role_text role }
{
    match role {
        Role::OfType => "type",
        Role::Value => "value",
        Role::Function => "function",
        Role::Text => "string",
        Role::Set => "set",
        Role::Label => "label",
        Role::Global => "global",
        Role::Any => "any",
    }
}

/// The name of a kind.
fn kind_name(kind: Named) -> &'static str
    ensures { result.now ≡ name_of kind }
{
    match kind {
        Named::SourceLanguage => "SourceLanguage",
        Named::AddressingModel => "AddressingModel",
        Named::MemoryModel => "MemoryModel",
        Named::ExecutionModel => "ExecutionModel",
        Named::ExecutionMode => "ExecutionMode",
        Named::Capability => "Capability",
        Named::StorageClass => "StorageClass",
        Named::Decoration => "Decoration",
        Named::FunctionControl => "FunctionControl",
        Named::MemoryAccess => "MemoryAccess",
        Named::LoopControl => "LoopControl",
        Named::SelectionControl => "SelectionControl",
        Named::Dim => "Dim",
        Named::ImageFormat => "ImageFormat",
        Named::AccessQualifier => "AccessQualifier",
        Named::SamplerAddressingMode => "SamplerAddressingMode",
        Named::SamplerFilterMode => "SamplerFilterMode",
        Named::GroupOperation => "GroupOperation",
        Named::PackedVectorFormat => "PackedVectorFormat",
        Named::ImageOperands => "ImageOperands",
    }
}

/// What a row asks of an operand.
fn form_words(form: Form) -> &'static str
    ensures { result.now ≡ shapes.form_text form }
{
    match form {
        Form::OfType => "result type",
        Form::Result => "result",
        Form::Word => "word",
        Form::Number => "number",
        Form::Text => "string",
        Form::Id(role) => role_name(role),
        Form::Unseen => "id",
        Form::Kind(kind) => kind_name(kind),
        Form::Other => "operand",
    }
}

/// Adds the comma before an operand, unless it is the first.
fn push_comma(out: &mut String, first: bool) -> Result<(), AllocError>
    ensures { OnOk result (string_bytes out.new ≡ string_bytes out.old ++ shapes.comma first) }
{
    if first {
        return Ok(());
    }
    out.push_str(", ")
}

/// Adds what is asked of an operand, the first or another.
fn push_form(out: &mut String, first: bool, form: Form) -> Result<(), AllocError>
    ensures { OnOk result (string_bytes out.new
        ≡ string_bytes out.old ++ (shapes.comma first ++ shapes.form_text form)) }
{
    push_comma(out, first)?;
    out.push_str(form_words(form))
}

/// Adds what is asked of operands.
fn push_forms(out: &mut String, forms: &[Form]) -> Result<(), AllocError>
    ensures { OnOk result (string_bytes out.new ≡ string_bytes out.old ++ shapes.forms_text true forms.now) }
{
    let mut first = true;
    for form in forms {
        push_form(out, first, *form)?;
        first = false;
    }
    Ok(())
}

/// Adds that nothing is asked, if nothing is told before.
fn push_closed(out: &mut String, first: bool) -> Result<(), AllocError>
    ensures { OnOk result (string_bytes out.new ≡ string_bytes out.old ++ shapes.closed_text first) }
{
    if first {
        return out.push_str("no operands");
    }
    Ok(())
}

/// Adds an operand that may be left out.
fn push_maybe(out: &mut String, first: bool, form: Form) -> Result<(), AllocError>
    ensures { OnOk result (string_bytes out.new ≡ string_bytes out.old ++ shapes.ending_text first (maybe form)) }
{
    push_form(out, first, form)?;
    out.push_str(" or nothing")
}

/// Adds a file that may be left out, and then a text that may be.
fn push_file_and_text(out: &mut String, first: bool) -> Result<(), AllocError>
    ensures { OnOk result (string_bytes out.new ≡ string_bytes out.old ++ shapes.ending_text first file_and_text) }
{
    push_comma(out, first)?;
    out.push_str("file or nothing, string or nothing")
}

/// Adds an operand and others that may be left out.
fn push_maybe_others(out: &mut String, first: bool, form: Form) -> Result<(), AllocError>
    ensures { OnOk result (string_bytes out.new
        ≡ string_bytes out.old ++ shapes.ending_text first (maybe_others form)) }
{
    push_form(out, first, form)?;
    out.push_str(" or nothing, any others")
}

/// Adds an operand that may be left out, and that any number of another may follow it.
fn push_maybe_before(out: &mut String, first: bool, form: Form) -> Result<(), AllocError>
    ensures { OnOk result (string_bytes out.new
        ≡ string_bytes out.old ++ (shapes.comma first ++ shapes.form_text form
        ++ codes " or nothing, any number of: ")) }
{
    push_form(out, first, form)?;
    out.push_str(" or nothing, any number of: ")
}

/// Adds the words for a form.
fn push_words(out: &mut String, form: Form) -> Result<(), AllocError>
    ensures { OnOk result (string_bytes out.new ≡ string_bytes out.old ++ shapes.form_text form) }
{
    out.push_str(form_words(form))
}

/// Adds an operand and any number of another that may be left out.
fn push_maybe_repeated(
    out: &mut String,
    first: bool,
    form: Form,
    other: Form,
) -> Result<(), AllocError>
    ensures { OnOk result
        (string_bytes out.new ≡ string_bytes out.old ++ shapes.ending_text first (maybe_repeated form other)) }
{
    push_maybe_before(out, first, form)?;
    push_words(out, other)
}

/// Adds what may come after the fixed operands, and whether that is the first that is told.
fn push_ending(out: &mut String, first: bool, ending: Ending) -> Result<(), AllocError>
    ensures { OnOk result (string_bytes out.new
        ≡ string_bytes out.old ++ shapes.ending_text first (plain_ending ending)) }
{
    match ending {
        Ending::Closed => push_closed(out, first),
        Ending::Maybe(form) => push_maybe(out, first, form),
        Ending::FileAndText => push_file_and_text(out, first),
        Ending::Repeated(forms) => {
            push_comma(out, first)?;
            out.push_str("any number of: ")?;
            push_forms(out, forms)
        }
        Ending::Others => {
            push_comma(out, first)?;
            out.push_str("any others")
        }
        Ending::MaybeOthers(form) => push_maybe_others(out, first, form),
        Ending::MaybeRepeated(form, other) => push_maybe_repeated(out, first, form, other),
    }
}

/// Whether a row has no fixed operands.
fn has_none(forms: &[Form]) -> bool
    ensures { result ≡ shapes.has_none forms.now }
{
    match forms {
        [_, ..] => false,
        [] => true,
    }
}

/// Adds the operands that a row asks for.
fn push_row(out: &mut String, row: &Row) -> Result<(), AllocError>
    ensures { OnOk result (string_bytes out.new ≡ string_bytes out.old ++ shapes.row_words (Some (plain_row row.now))) }
{
    push_forms(out, row.fixed)?;
    push_ending(out, has_none(row.fixed), row.ending)
}

/// Adds the operands that the row of an opcode asks for, or that it has none, or none that is known.
pub fn push_row_of(out: &mut String, opcode: u16, known: bool) -> Result<(), AllocError>
    ensures { OnOk result (string_bytes out.new ≡ string_bytes out.old ++ shapes.row_text opcode known) }
{
    if !known {
        return out.push_str("none");
    }
    match row(opcode) {
        Some(row) => push_row(out, row),
        None => out.push_str("none"),
    }
}
