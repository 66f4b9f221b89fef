ghost use Rattle.std.specs.Prelude.{◌≡◌, ◌≤◌, ◌↔◌, ℕ, [], IsTrue, IsSomeAnd, MatchOption, Some};
ghost use Rattle.std.specs.List.{AllByRecursion};
ghost use Rattle.spv_module.specs.Module.{plain_inst, plain_operands};
ghost use Rattle.spv_type_kinds.specs.Operands.{ids_in};
ghost use Rattle.spv_ids.specs.Outcome.{IsDefinitionOf, definition_in};
ghost use Rattle.spv_type_forms.specs.Types.{IsData, class_in};
ghost use Rattle.spv_type_forms.specs.Form as op_form;
ghost use Rattle.spv_type_rules.specs.Declaration as spec;
ghost use Rattle.spv_type_rules.specs.declared.declaration.Declaration.TheVariants as declaration;
ghost use Rattle.spv_type_rules.specs.Declaration.{IsLength, IsPointerAfter, DeclaresSoundly};
ghost use Rattle.spv_type_rules.specs.Declaration.{IsSampledType, IsSoundImage, IsSampled};
ghost use Rattle.spv_type_rules.specs.Asked.{IsIntWidth, IsFloatWidth, IsVectorCount, IsPointee, IsReturned};
ghost use Rattle.spv_type_rules.specs.inner.Declaration.{IsSoundDeclaration};

use spv_ids::Ids;
use spv_module::{Inst, Operand, opcode};
use spv_type_forms::{
    Definitions, Form, Image, form_in, image_in, image_of, is_data, is_int, is_number, length,
};

/// The type declarations that may be unsound (SPIR-V Specification 1.6, section 3.49.6).
#[derive(Clone, Copy)]
pub enum Declaration {
    Int,
    Float,
    Vector,
    Array,
    Struct,
    Pointer,
    Function,
    /// OpTypeForwardPointer.
    Forward,
    Image,
    SampledImage,
}

/// What an opcode declares.
pub fn declaration_of(number: u16) -> Option<Declaration>
    ensures { result ≡ spec.declaration_of number }
{
    match number {
        opcode::TYPE_INT => Some(Declaration::Int),
        opcode::TYPE_FLOAT => Some(Declaration::Float),
        opcode::TYPE_VECTOR => Some(Declaration::Vector),
        opcode::TYPE_ARRAY => Some(Declaration::Array),
        opcode::TYPE_STRUCT => Some(Declaration::Struct),
        opcode::TYPE_POINTER => Some(Declaration::Pointer),
        opcode::TYPE_FUNCTION => Some(Declaration::Function),
        opcode::TYPE_FORWARD_POINTER => Some(Declaration::Forward),
        opcode::TYPE_IMAGE => Some(Declaration::Image),
        opcode::TYPE_SAMPLED_IMAGE => Some(Declaration::SampledImage),
        _ => None,
    }
}

pub fn is_int_width(width: u32) -> bool
    ensures { IsTrue result ↔ IsIntWidth width }
{
    match width {
        8 | 16 | 32 | 64 => true,
        _ => false,
    }
}

pub fn is_float_width(width: u32) -> bool
    ensures { IsTrue result ↔ IsFloatWidth width }
{
    match width {
        16 | 32 | 64 => true,
        _ => false,
    }
}

pub fn is_vector_count(count: u32) -> bool
    ensures { IsTrue result ↔ IsVectorCount count }
{
    match count {
        2 | 3 | 4 | 8 | 16 => true,
        _ => false,
    }
}

/// Whether a constant may be the length of an array.
#[inline(always)]
pub fn is_length(definitions: &Definitions, x: u32) -> bool
    ensures { IsTrue result ↔ IsLength definitions.now x }
{
    match (definitions.type_of(x), length(definitions, x)) {
        (Some(t), Some(length)) => is_int(definitions, t) && 1 <= length,
        _ => false,
    }
}

pub fn is_pointee(definitions: &Definitions, t: u32) -> bool
    ensures { IsTrue result ↔ IsPointee definitions.now t }
{
    match definitions.form(t) {
        None | Some(Form::Void | Form::Function | Form::SampledImage(_)) => false,
        Some(_) => true,
    }
}

pub fn is_returned(definitions: &Definitions, t: u32) -> bool
    ensures { IsTrue result ↔ IsReturned definitions.now t }
{
    match definitions.form(t) {
        None | Some(Form::Opaque | Form::Function | Form::SampledImage(_)) => false,
        Some(_) => true,
    }
}

/// Whether the ids at the front of the operands are all data types.
fn are_data(definitions: &Definitions, operands: &[Operand]) -> bool
    ensures { IsTrue result ↔ AllByRecursion (IsData definitions.now) (ids_in (plain_operands operands.now)) }
{
    for operand in operands {
        let Operand::Id(t) = operand else {
            return true;
        };
        if !is_data(definitions, *t) {
            return false;
        }
    }
    true
}

/// Whether the operands of an OpTypeInt are sound.
fn declares_int(operands: &[Operand]) -> bool
    ensures { IsTrue result ↔ DeclaresSoundly [] 0 declaration.Int (plain_operands operands.now) }
{
    match operands {
        [
            Operand::Result(_),
            Operand::Word(width),
            Operand::Word(signedness),
        ] => is_int_width(*width) && *signedness == 0,
        _ => false,
    }
}

/// Whether the operands of an OpTypeFloat are sound.
fn declares_float(operands: &[Operand]) -> bool
    ensures { IsTrue result ↔ DeclaresSoundly [] 0 declaration.Float (plain_operands operands.now) }
{
    match operands {
        [Operand::Result(_), Operand::Word(width)] => is_float_width(*width),
        _ => false,
    }
}

/// Whether the operands of an OpTypeVector are sound.
fn declares_vector(definitions: &Definitions, operands: &[Operand]) -> bool
    ensures { IsTrue result ↔ DeclaresSoundly definitions.now 0 declaration.Vector (plain_operands operands.now) }
{
    match operands {
        [Operand::Result(_), Operand::Id(c), Operand::Word(count)] => match definitions.form(*c) {
            Some(Form::Scalar(_)) => is_vector_count(*count),
            _ => false,
        },
        _ => false,
    }
}

/// Whether the operands of an OpTypeArray are sound.
fn declares_array(definitions: &Definitions, operands: &[Operand]) -> bool
    ensures { IsTrue result ↔ DeclaresSoundly definitions.now 0 declaration.Array (plain_operands operands.now) }
{
    match operands {
        [Operand::Result(_), Operand::Id(e), Operand::Id(l)] => is_data(definitions, *e)
            && is_length(definitions, *l),
        _ => false,
    }
}

/// Whether the operands of an OpTypeStruct are sound.
fn declares_struct(definitions: &Definitions, operands: &[Operand]) -> bool
    ensures { IsTrue result ↔ DeclaresSoundly definitions.now 0 declaration.Struct (plain_operands operands.now) }
{
    match operands {
        [Operand::Result(_), members @ ..] => are_data(definitions, members),
        _ => false,
    }
}

/// Whether the operands of an OpTypePointer are sound.
fn declares_pointer(definitions: &Definitions, operands: &[Operand]) -> bool
    ensures { IsTrue result ↔ DeclaresSoundly definitions.now 0 declaration.Pointer (plain_operands operands.now) }
{
    match operands {
        [Operand::Result(_), Operand::Value { .. }, Operand::Id(p)] => is_pointee(definitions, *p),
        _ => false,
    }
}

/// Whether the operands of an OpTypeFunction are sound.
fn declares_function(definitions: &Definitions, operands: &[Operand]) -> bool
    ensures { IsTrue result ↔ DeclaresSoundly definitions.now 0 declaration.Function (plain_operands operands.now) }
{
    match operands {
        [Operand::Result(_), Operand::Id(r), parameters @ ..] => is_returned(definitions, *r)
            && are_data(definitions, parameters),
        _ => false,
    }
}

/// Whether an instruction is a pointer type of a storage class.
fn is_pointer_of(inst: &Inst, class: u32) -> bool
    ensures { IsTrue result ↔ (class_in (op_form.form_in (plain_inst inst.now)) ≡ Some class) }
{
    match form_in(inst) {
        Some(Form::Pointer { class: own, .. }) => own == class,
        _ => false,
    }
}

/// Whether an id is defined after the instruction of a number, as a pointer type of a storage class.
pub fn is_pointer_after(
    definitions: &Definitions,
    ids: &Ids,
    number: u32,
    id: u32,
    class: u32,
) -> bool
    requires { (x : ℕ) → IsDefinitionOf definitions.now x (definition_in ids.now x) }
    ensures { IsTrue result ↔ IsPointerAfter definitions.now number id class }
{
    match ids.definition(id) {
        Some(place) => number < place && is_pointer_of(definitions.inst(place), class),
        None => false,
    }
}

/// Whether the id of an OpTypeForwardPointer is defined after it as a pointer of its storage class.
fn declares_forward(definitions: &Definitions, ids: &Ids, number: u32, operands: &[Operand]) -> bool
    requires { (x : ℕ) → IsDefinitionOf definitions.now x (definition_in ids.now x) }
    ensures { IsTrue result ↔ DeclaresSoundly definitions.now number declaration.Forward
        (plain_operands operands.now) }
{
    match operands {
        [Operand::Id(id), Operand::Value { value: class, .. }] => is_pointer_after(
            definitions,
            ids,
            number,
            *id,
            *class,
        ),
        _ => false,
    }
}

/// Whether a type may be the sampled type of an image type: void, an int or a float.
pub fn is_sampled_type(definitions: &Definitions, t: u32) -> bool
    ensures { IsTrue result ↔ IsSampledType definitions.now t }
{
    match definitions.form(t) {
        Some(Form::Void) => true,
        _ => is_number(definitions, t),
    }
}

/// Whether what an image type says of its images is such as it may be.
pub fn is_sound_image(definitions: &Definitions, image: Image) -> bool
    ensures { IsTrue result ↔ IsSoundImage definitions.now image }
{
    is_sampled_type(definitions, image.sampled_type)
        && image.depth <= 2
        && image.arrayed <= 1
        && image.multisampled <= 1
        && image.sampled <= 2
}

/// Whether the operands of an OpTypeImage are sound.
fn declares_image(definitions: &Definitions, operands: &[Operand]) -> bool
    ensures { IsTrue result ↔ DeclaresSoundly definitions.now 0 declaration.Image (plain_operands operands.now) }
{
    match image_in(operands) {
        Some(image) => is_sound_image(definitions, image),
        None => false,
    }
}

/// Whether images of a type may be sampled.
pub fn is_sampled(image: Image) -> bool
    ensures { IsTrue result ↔ IsSampled image }
{
    image.dim != 5 && image.dim != 6
}

/// Whether the operands of an OpTypeSampledImage are sound.
fn declares_sampled_image(definitions: &Definitions, operands: &[Operand]) -> bool
    ensures { IsTrue result ↔ DeclaresSoundly definitions.now 0 declaration.SampledImage
        (plain_operands operands.now) }
{
    match operands {
        [Operand::Result(_), Operand::Id(i)] => match image_of(definitions, *i) {
            Some(image) => is_sampled(image),
            None => false,
        },
        _ => false,
    }
}

/// Whether a declaration at the instruction of a number is sound.
fn declares(
    definitions: &Definitions,
    ids: &Ids,
    number: u32,
    declaration: Declaration,
    operands: &[Operand],
) -> bool
    requires { (x : ℕ) → IsDefinitionOf definitions.now x (definition_in ids.now x) }
    ensures { IsTrue result ↔ DeclaresSoundly definitions.now number declaration (plain_operands operands.now) }
{
    match declaration {
        Declaration::Int => declares_int(operands),
        Declaration::Float => declares_float(operands),
        Declaration::Vector => declares_vector(definitions, operands),
        Declaration::Array => declares_array(definitions, operands),
        Declaration::Struct => declares_struct(definitions, operands),
        Declaration::Pointer => declares_pointer(definitions, operands),
        Declaration::Function => declares_function(definitions, operands),
        Declaration::Forward => declares_forward(definitions, ids, number, operands),
        Declaration::Image => declares_image(definitions, operands),
        Declaration::SampledImage => declares_sampled_image(definitions, operands),
    }
}

/// Whether Y2 is unbroken at the instruction of a number.
pub fn is_sound_declaration(definitions: &Definitions, ids: &Ids, number: u32, inst: &Inst) -> bool
    requires { (x : ℕ) → IsDefinitionOf definitions.now x (definition_in ids.now x) }
    ensures { IsTrue result ↔ IsSoundDeclaration definitions.now number (plain_inst inst.now) }
{
    match declaration_of(inst.opcode) {
        Some(declaration) => declares(
            definitions,
            ids,
            number,
            declaration,
            inst.operands.as_slice(),
        ),
        None => true,
    }
}
