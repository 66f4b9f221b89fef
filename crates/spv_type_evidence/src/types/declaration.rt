//! Evidence for Y2.

ghost use Rattle.std.specs.Prelude.{◌≡◌, ◌≤◌, ◌<◌, ◌+◌, ◌↔◌, ℕ, [], IsTrue, IsSomeAnd, length};
ghost use Rattle.spv_table.specs.Table.{Table};
ghost use Rattle.spv_module.specs.declared.fault.Rule.TheVariants.{Y2};
ghost use Rattle.spv_module.specs.Module.{plain_inst, plain_operands};
ghost use Rattle.spv_ids.specs.Outcome.{IsDefinitionOf, definition_in};
ghost use Rattle.spv_type_forms.specs.Objects as objects;
ghost use Rattle.spv_type_rules.specs.Declaration.{IsSampled};
ghost use Rattle.spv_type_rules.specs.inner.Declaration.{IsSoundDeclaration};
ghost use Rattle.spv_type_rules.specs.declared.declaration.Declaration.TheVariants as kind;
ghost use Rattle.spv_type_evidence.specs.types.Declaration as spec;
ghost use Rattle.spv_type_evidence.specs.types.Declaration.{Asks, AsksData, AsksImage, IsScalar};
ghost use Rattle.spv_type_evidence.specs.types.Evidence.{Shows};
ghost use Rattle.spv_type_evidence.specs.types.inner.First.{IsFirstOf};

use crate::types::first::first_of_two;
use crate::types::operands::{
    array_in, float_in, forward_in, image_type_in, int_in, members_in, pointee_in, signature_in,
    vector_in,
};
use spv_evidence::{Condition, Evidence, Kind, Listed};
use spv_ids::Ids;
use spv_module::{Inst, Operand};
use spv_readings::defined_by;
use spv_type_forms::{Definitions, Form, Image, image_in, image_of, is_data};
use spv_type_rules::{
    Declaration, declaration_of, is_float_width, is_int_width, is_length, is_pointee,
    is_pointer_after, is_returned, is_sampled, is_sampled_type, is_vector_count,
};
use std::alloc::Global;

/// Whether an id declares a scalar type.
fn is_scalar(definitions: &Definitions, c: u32) -> bool
    ensures { IsTrue result ↔ IsScalar definitions.now c }
{
    match definitions.form(c) {
        Some(Form::Scalar(_)) => true,
        _ => false,
    }
}

/// The operand of the first of the ids at the front that declares no data type, if one is such. `first` is the
/// operand of the first id.
fn first_no_data(definitions: &Definitions, operands: &[Operand], first: u32) -> Option<u32>
    requires { first + length operands.now ≤ 4294967296 }
    ensures { IsFirstOf (AsksData definitions.now first (plain_operands operands.now)) result }
{
    for k in 0..operands.len() {
        let Operand::Id(t) = operands[k] else {
            return None;
        };
        if !is_data(definitions, t) {
            return Some(first + k as u32);
        }
    }
    None
}

/// Where an OpTypeInt first fails, if it does.
fn first_of_int(operands: &[Operand]) -> Option<u32>
    ensures { IsFirstOf (Asks [] 0 kind.Int (plain_operands operands.now)) result }
{
    match int_in(operands) {
        Some((width, signedness)) => first_of_two(is_int_width(width), signedness == 0),
        None => Some(0),
    }
}

/// Where an OpTypeFloat first fails, if it does.
fn first_of_float(operands: &[Operand]) -> Option<u32>
    ensures { IsFirstOf (Asks [] 0 kind.Float (plain_operands operands.now)) result }
{
    match float_in(operands) {
        Some(width) => first_of_two(is_float_width(width), true),
        None => Some(0),
    }
}

/// Where an OpTypeVector first fails, if it does.
fn first_of_vector(definitions: &Definitions, operands: &[Operand]) -> Option<u32>
    ensures { IsFirstOf (Asks definitions.now 0 kind.Vector (plain_operands operands.now)) result }
{
    match vector_in(operands) {
        Some((component, count)) => first_of_two(
            is_scalar(definitions, component),
            is_vector_count(count),
        ),
        None => Some(0),
    }
}

/// Where an OpTypeArray first fails, if it does.
fn first_of_array(definitions: &Definitions, operands: &[Operand]) -> Option<u32>
    ensures { IsFirstOf (Asks definitions.now 0 kind.Array (plain_operands operands.now)) result }
{
    match array_in(operands) {
        Some((element, length)) => first_of_two(
            is_data(definitions, element),
            is_length(definitions, length),
        ),
        None => Some(0),
    }
}

/// Where an OpTypePointer first fails, if it does.
fn first_of_pointer(definitions: &Definitions, operands: &[Operand]) -> Option<u32>
    ensures { IsFirstOf (Asks definitions.now 0 kind.Pointer (plain_operands operands.now)) result }
{
    match pointee_in(operands) {
        Some(pointee) => first_of_two(true, is_pointee(definitions, pointee)),
        None => Some(0),
    }
}

/// Where an OpTypeForwardPointer first fails, if it does.
fn first_of_forward(
    definitions: &Definitions,
    ids: &Ids,
    number: u32,
    operands: &[Operand],
) -> Option<u32>
    requires { (x : ℕ) → IsDefinitionOf definitions.now x (definition_in ids.now x) }
    ensures { IsFirstOf (Asks definitions.now number kind.Forward (plain_operands operands.now)) result }
{
    match forward_in(operands) {
        Some((pointer, class)) => {
            if is_pointer_after(definitions, ids, number, pointer, class) {
                None
            } else {
                Some(0)
            }
        }
        None => Some(0),
    }
}

/// Where an OpTypeStruct first fails, if it does.
fn first_of_struct(definitions: &Definitions, operands: &[Operand]) -> Option<u32>
    requires { length operands.now < 4294967296 }
    ensures { IsFirstOf (Asks definitions.now 0 kind.Struct (plain_operands operands.now)) result }
{
    match members_in(operands) {
        Some(members) => first_no_data(definitions, members, 1),
        None => Some(0),
    }
}

/// Where an OpTypeFunction first fails, if it does.
fn first_of_function(definitions: &Definitions, operands: &[Operand]) -> Option<u32>
    requires { length operands.now < 4294967296 }
    ensures { IsFirstOf (Asks definitions.now 0 kind.Function (plain_operands operands.now)) result }
{
    match signature_in(operands) {
        Some((returned, parameters)) => {
            if is_returned(definitions, returned) {
                first_no_data(definitions, parameters, 2)
            } else {
                Some(1)
            }
        }
        None => Some(0),
    }
}

/// The operand of the first word of an image type that fails, if one does.
fn first_in_image(definitions: &Definitions, image: Image) -> Option<u32>
    ensures { IsFirstOf (λ k. AsksImage definitions.now k image) result }
{
    if !is_sampled_type(definitions, image.sampled_type) {
        Some(1)
    } else if image.depth > 2 {
        Some(3)
    } else if image.arrayed > 1 {
        Some(4)
    } else if image.multisampled > 1 {
        Some(5)
    } else if image.sampled > 2 {
        Some(6)
    } else {
        None
    }
}

/// Where an OpTypeImage first fails, if it does.
fn first_of_image(definitions: &Definitions, operands: &[Operand]) -> Option<u32>
    ensures { IsFirstOf (Asks definitions.now 0 kind.Image (plain_operands operands.now)) result }
{
    match image_in(operands) {
        Some(image) => first_in_image(definitions, image),
        None => Some(0),
    }
}

/// Whether an id declares an image type of images that may be sampled.
fn declares_sampled(definitions: &Definitions, t: u32) -> bool
    ensures { IsTrue result ↔ IsSomeAnd (objects.image_of definitions.now t) IsSampled }
{
    match image_of(definitions, t) {
        Some(image) => is_sampled(image),
        None => false,
    }
}

/// Where an OpTypeSampledImage first fails, if it does.
fn first_of_sampled_image(definitions: &Definitions, operands: &[Operand]) -> Option<u32>
    ensures { IsFirstOf (Asks definitions.now 0 kind.SampledImage (plain_operands operands.now)) result }
{
    match image_type_in(operands) {
        Some(image) => first_of_two(declares_sampled(definitions, image), true),
        None => Some(0),
    }
}

/// The operand at which a declaration at the instruction of a number first fails, if it does.
fn first_failing(
    definitions: &Definitions,
    ids: &Ids,
    number: u32,
    declaration: Declaration,
    operands: &[Operand],
) -> Option<u32>
    requires ids { (x : ℕ) → IsDefinitionOf definitions.now x (definition_in ids.now x) }
    requires few { length operands.now < 4294967296 }
    ensures { IsFirstOf (Asks definitions.now number declaration (plain_operands operands.now)) result }
{
    match declaration {
        Declaration::Int => first_of_int(operands),
        Declaration::Float => first_of_float(operands),
        Declaration::Vector => first_of_vector(definitions, operands),
        Declaration::Array => first_of_array(definitions, operands),
        Declaration::Struct => first_of_struct(definitions, operands),
        Declaration::Pointer => first_of_pointer(definitions, operands),
        Declaration::Function => first_of_function(definitions, operands),
        Declaration::Forward => first_of_forward(definitions, ids, number, operands),
        Declaration::Image => first_of_image(definitions, operands),
        Declaration::SampledImage => first_of_sampled_image(definitions, operands),
    }
}

/// What is asked of an operand of an image type, by its name.
fn image_condition(operand: u32) -> Condition
    ensures { result ≡ spec.image_condition operand }
{
    match operand {
        1 => Condition::SampledType,
        3 => Condition::Depth,
        4 => Condition::Arrayed,
        5 => Condition::SampleCount,
        _ => Condition::SampledUse,
    }
}

/// What is asked of an operand after the result, by its name.
fn condition_after(declaration: Declaration, operand: u32) -> Condition
    ensures { result ≡ spec.condition_after declaration operand }
{
    let first = operand == 1;
    match declaration {
        Declaration::Int => if first {
            Condition::IntWidth
        } else {
            Condition::Signedness
        },
        Declaration::Float => Condition::FloatWidth,
        Declaration::Vector => if first {
            Condition::Scalar
        } else {
            Condition::VectorCount
        },
        Declaration::Array => if first {
            Condition::Kind(Kind::Data)
        } else {
            Condition::Length
        },
        Declaration::Struct => Condition::Kind(Kind::Data),
        Declaration::Pointer => Condition::Pointee,
        Declaration::Function => if first {
            Condition::Returned
        } else {
            Condition::Kind(Kind::Data)
        },
        Declaration::Forward => Condition::Forward,
        Declaration::Image => image_condition(operand),
        Declaration::SampledImage => Condition::Dimension,
    }
}

/// What is asked of an operand, by its name.
fn condition_at(declaration: Declaration, operand: u32) -> Condition
    ensures { result ≡ spec.condition_at declaration operand }
{
    match declaration {
        Declaration::Forward => Condition::Forward,
        _ => if operand == 0 {
            Condition::Operands
        } else {
            condition_after(declaration, operand)
        },
    }
}

/// What shows that Y2 is broken at the instruction of a number: the operand at which the declaration first fails, and
/// what is asked of it.
pub fn declaration_evidence(
    alloc: Global,
    definitions: &Definitions,
    ids: &Ids,
    number: u32,
    inst: &Inst,
) -> Evidence
    requires ids { (x : ℕ) → IsDefinitionOf definitions.now x (definition_in ids.now x) }
    requires broken { ¬ (IsSoundDeclaration definitions.now number (plain_inst inst.now)) }
    ensures { (G : Table) → Shows G definitions.now number (plain_inst inst.now) Y2 result }
{
    let Some(declaration) = declaration_of(inst.opcode) else {
        unreachable!();
    };
    let operands = inst.operands.as_slice();
    let Some(operand) = first_failing(definitions, ids, number, declaration, operands) else {
        unreachable!();
    };
    Evidence::Condition {
        condition: condition_at(declaration, operand),
        operand: Some(operand),
        defined: defined_by(ids, inst, Some(operand)),
        wanted: None,
        found: None,
        types: Listed::from_vec(Vec::new(alloc)),
    }
}
