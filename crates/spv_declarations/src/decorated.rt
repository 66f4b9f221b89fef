//! What single instructions say of ids and of members. Tests of opcodes are joined by `|`, which takes no branch.

ghost use Rattle.std.specs.Prelude.{◌≡◌, ◌↔◌, IsTrue, drop};
ghost use Rattle.spv_module.specs.Module.{plain_inst, plain_operands};
ghost use Rattle.spv_conditions.specs.Further.{IsGroup};
ghost use Rattle.spv_declarations.specs.Given as spec;
ghost use Rattle.spv_declarations.specs.inner.Early as inner;
ghost use Rattle.spv_declarations.specs.inner.Sets.{AnyId};

use spv_module::{Inst, Operand, opcode};
use spv_type_forms::Definitions;

/// Whether an opcode is that of OpDecorate, OpDecorateId or OpDecorateString.
#[inline(always)]
pub fn is_decorate(number: u16) -> bool
    ensures { result ≡ spec.is_decorate number }
{
    number == opcode::DECORATE || number == opcode::DECORATE_ID || number == opcode::DECORATE_STRING
}

/// Whether an opcode is that of OpMemberDecorate or OpMemberDecorateString.
#[inline(always)]
fn is_member_decorate(number: u16) -> bool
    ensures { result ≡ spec.is_member_decorate number }
{
    number == opcode::MEMBER_DECORATE || number == opcode::MEMBER_DECORATE_STRING
}

/// Whether an opcode is that of an instruction that names or decorates a member.
#[inline(always)]
pub fn is_of_member(number: u16) -> bool
    ensures { result ≡ spec.is_of_member number }
{
    number == opcode::MEMBER_NAME || is_member_decorate(number)
}

/// Whether an opcode is that of OpGroupDecorate or OpGroupMemberDecorate.
#[inline(always)]
pub fn is_grouping(number: u16) -> bool
    ensures { result ≡ inner.is_grouping number }
{
    number == opcode::GROUP_DECORATE || number == opcode::GROUP_MEMBER_DECORATE
}

/// Whether an opcode is that of an instruction that speaks of members or groups.
#[inline(always)]
pub fn is_of_parts(number: u16) -> bool
    ensures { result ≡ inner.is_of_parts number }
{
    is_of_member(number) | is_grouping(number)
}

/// Whether an opcode is that of an instruction that says something of ids or members.
#[inline(always)]
pub fn is_saying(number: u16) -> bool
    ensures { result ≡ inner.is_saying number }
{
    is_decorate(number) | is_of_parts(number)
}

/// The id and the decoration that operands give it.
#[inline(always)]
fn given_in(operands: &[Operand<'_>]) -> Option<(u32, u32)>
    ensures { result ≡ spec.given_in (plain_operands operands.now) }
{
    match operands {
        [Operand::Id(id), Operand::Value { value, .. }, ..] => Some((*id, *value)),
        _ => None,
    }
}

/// The id and the decoration that an instruction gives it, if it decorates one.
#[inline(always)]
pub fn given(inst: &Inst<'_>) -> Option<(u32, u32)>
    ensures { result ≡ spec.given_by (plain_inst inst.now) }
{
    if is_decorate(inst.opcode) {
        given_in(inst.operands.as_slice())
    } else {
        None
    }
}

/// The struct, the member and the decoration that operands give it.
#[inline(always)]
fn member_given_in(operands: &[Operand<'_>]) -> Option<(u32, u32, u32)>
    ensures { result ≡ spec.member_given_in (plain_operands operands.now) }
{
    match operands {
        [
            Operand::Id(id),
            Operand::Word(member),
            Operand::Value { value, .. },
            ..
        ] => Some((*id, *member, *value)),
        _ => None,
    }
}

/// The struct, the member and the decoration that an instruction gives it, if it decorates one.
#[inline(always)]
pub fn member_given(inst: &Inst<'_>) -> Option<(u32, u32, u32)>
    ensures { result ≡ spec.member_given_by (plain_inst inst.now) }
{
    if is_member_decorate(inst.opcode) {
        member_given_in(inst.operands.as_slice())
    } else {
        None
    }
}

/// The struct and the member that operands name.
#[inline(always)]
pub fn member_in(operands: &[Operand<'_>]) -> Option<(u32, u32)>
    ensures { result ≡ spec.member_in (plain_operands operands.now) }
{
    match operands {
        [Operand::Id(id), Operand::Word(member), ..] => Some((*id, *member)),
        _ => None,
    }
}

/// The struct and the member that an instruction names or decorates.
#[inline(always)]
pub fn member_of(inst: &Inst<'_>) -> Option<(u32, u32)>
    ensures { result ≡ spec.member_by (plain_inst inst.now) }
{
    if is_of_member(inst.opcode) {
        member_in(inst.operands.as_slice())
    } else {
        None
    }
}

/// The first operand, if it is an id.
#[inline(always)]
pub fn first_in(operands: &[Operand<'_>]) -> Option<u32>
    ensures { result ≡ spec.first_in (plain_operands operands.now) }
{
    match operands {
        [Operand::Id(id), ..] => Some(*id),
        _ => None,
    }
}

/// The group that an instruction of that opcode names.
#[inline(always)]
pub fn group_of(inst: &Inst<'_>, number: u16) -> Option<u32>
    ensures { result ≡ spec.group_by number (plain_inst inst.now) }
{
    if inst.opcode == number {
        first_in(inst.operands.as_slice())
    } else {
        None
    }
}

/// The operands behind the first.
pub fn behind_first<'i, 'a>(inst: &'i Inst<'a>) -> &'i [Operand<'a>]
    ensures { plain_operands result.now ≡ spec.behind_first (plain_inst inst.now).operands }
{
    match inst.operands.as_slice() {
        [_, rest @ ..] => rest,
        _ => &[],
    }
}

/// Whether the definition of an id is an OpDecorationGroup.
pub fn is_group(definitions: &Definitions, x: u32) -> bool
    ensures { IsTrue result ↔ IsGroup definitions.now x }
{
    match definitions.definition(x) {
        Some(inst) => inst.opcode == opcode::DECORATION_GROUP,
        None => false,
    }
}

/// Whether an operand is an id.
fn has_id(operands: &[Operand<'_>]) -> bool
    ensures { IsTrue result ↔ AnyId (λ x. Unit {0}) (plain_operands operands.now) }
{
    for operand in operands {
        if let Operand::Id(_) = operand {
            return true;
        }
    }
    false
}

/// What follows the first two operands.
pub fn behind_two<'i, 'a>(operands: &'i [Operand<'a>]) -> &'i [Operand<'a>]
    ensures { plain_operands result.now ≡ drop 2 (plain_operands operands.now) }
{
    match operands {
        [_, _, rest @ ..] => rest,
        _ => &[],
    }
}

/// Whether an operand behind the first two is an id.
pub fn has_id_behind(operands: &[Operand<'_>]) -> bool
    ensures { IsTrue result ↔ spec.HasIdBehind (plain_operands operands.now) }
{
    has_id(behind_two(operands))
}
