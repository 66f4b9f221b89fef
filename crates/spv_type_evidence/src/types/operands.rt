//! The operands of type declarations and constants, where they are such as the instruction has.

ghost use Rattle.std.specs.Prelude.{◌≡◌, option_map};
ghost use Rattle.spv_module.specs.Module.{plain_operands};
ghost use Rattle.spv_type_evidence.specs.types.inner.Operands as spec;

use spv_module::Operand;

/// The width and the signedness of an OpTypeInt.
pub fn int_in(operands: &[Operand]) -> Option<(u32, u32)>
    ensures { result ≡ spec.int_in (plain_operands operands.now) }
{
    match operands {
        [
            Operand::Result(_),
            Operand::Word(width),
            Operand::Word(signedness),
        ] => Some((*width, *signedness)),
        _ => None,
    }
}

/// The width of an OpTypeFloat.
pub fn float_in(operands: &[Operand]) -> Option<u32>
    ensures { result ≡ spec.float_in (plain_operands operands.now) }
{
    match operands {
        [Operand::Result(_), Operand::Word(width)] => Some(*width),
        _ => None,
    }
}

/// The component type and the count of an OpTypeVector.
pub fn vector_in(operands: &[Operand]) -> Option<(u32, u32)>
    ensures { result ≡ spec.vector_in (plain_operands operands.now) }
{
    match operands {
        [
            Operand::Result(_),
            Operand::Id(component),
            Operand::Word(count),
        ] => Some((*component, *count)),
        _ => None,
    }
}

/// The element type and the length of an OpTypeArray.
pub fn array_in(operands: &[Operand]) -> Option<(u32, u32)>
    ensures { result ≡ spec.array_in (plain_operands operands.now) }
{
    match operands {
        [
            Operand::Result(_),
            Operand::Id(element),
            Operand::Id(length),
        ] => Some((*element, *length)),
        _ => None,
    }
}

/// What an OpTypePointer points to.
pub fn pointee_in(operands: &[Operand]) -> Option<u32>
    ensures { result ≡ spec.pointee_in (plain_operands operands.now) }
{
    match operands {
        [
            Operand::Result(_),
            Operand::Value { .. },
            Operand::Id(pointee),
        ] => Some(*pointee),
        _ => None,
    }
}

/// The pointer and the storage class of an OpTypeForwardPointer.
pub fn forward_in(operands: &[Operand]) -> Option<(u32, u32)>
    ensures { result ≡ spec.forward_in (plain_operands operands.now) }
{
    match operands {
        [Operand::Id(pointer), Operand::Value { value: class, .. }] => Some((*pointer, *class)),
        _ => None,
    }
}

/// The image type of an OpTypeSampledImage.
pub fn image_type_in(operands: &[Operand]) -> Option<u32>
    ensures { result ≡ spec.image_type_in (plain_operands operands.now) }
{
    match operands {
        [Operand::Result(_), Operand::Id(image)] => Some(*image),
        _ => None,
    }
}

/// The members of an OpTypeStruct.
pub fn members_in<'o, 'a>(operands: &'o [Operand<'a>]) -> Option<&'o [Operand<'a>]>
    ensures { option_map (λ os. plain_operands os.now) result ≡ spec.members_in (plain_operands operands.now) }
{
    match operands {
        [Operand::Result(_), members @ ..] => Some(members),
        _ => None,
    }
}

/// The return type and the parameters of an OpTypeFunction.
pub fn signature_in<'o, 'a>(operands: &'o [Operand<'a>]) -> Option<(u32, &'o [Operand<'a>])>
    ensures { option_map (λ p. (p.0, plain_operands p.1.now)) result
        ≡ spec.signature_in (plain_operands operands.now) }
{
    match operands {
        [Operand::Result(_), Operand::Id(returned), parameters @ ..] => Some((
            *returned, parameters,
        )),
        _ => None,
    }
}

/// The low word of an OpConstant, by what follows its type and its result.
pub fn low_in(operands: &[Operand]) -> Option<u32>
    ensures { result ≡ spec.low_in (plain_operands operands.now) }
{
    match operands {
        [Operand::Number { low, .. }] => Some(*low),
        _ => None,
    }
}

/// What tells whether the coordinates of an OpConstantSampler are normalized, by what follows its type and its result.
pub fn normalized_in(operands: &[Operand]) -> Option<u32>
    ensures { result ≡ spec.normalized_in (plain_operands operands.now) }
{
    match operands {
        [
            Operand::Value { .. },
            Operand::Word(normalized),
            Operand::Value { .. },
        ] => Some(*normalized),
        _ => None,
    }
}
