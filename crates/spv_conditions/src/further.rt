//! What is asked of instructions outside blocks, whose operands are no values.

ghost use Rattle.std.specs.Prelude.{◌≡◌, ◌≢◌, ◌<◌, ◌↔◌, [], ℕ, None, IsTrue, IsSomeAnd, drop, length, option_map};
ghost use Rattle.std.specs.List.{AllByRecursion};
ghost use Rattle.spv_module.specs.Module.{plain_inst, plain_operand, plain_operands};
ghost use Rattle.spv_module.specs.Width.{type_of};
ghost use Rattle.spv_layout.specs.Place.{IsOfBlock};
ghost use Rattle.spv_type_forms.specs.Types.{IsSomeInt};
ghost use Rattle.spv_conditions.specs.Further as spec;
ghost use Rattle.spv_conditions.specs.Group.{all_ids_in};

use crate::group::id_at;
use crate::variable::is_initializer;
use spv_module::{Inst, Operand, opcode};
use spv_type_forms::{Definitions, Form, count, is_constant, is_int};

/// What follows an execution mode or a decoration.
fn after_enumerant<'o, 'a>(operands: &'o [Operand<'a>]) -> &'o [Operand<'a>]
    ensures { plain_operands result.now ≡ spec.after_enumerant (plain_operands operands.now) }
{
    match operands {
        [Operand::Id(_), Operand::Value { .. }, rest @ ..] => rest,
        [
            Operand::Id(_),
            Operand::Word(_),
            Operand::Value { .. },
            rest @ ..,
        ] => rest,
        _ => &[],
    }
}

/// Whether an id is of int type.
fn is_of_int(definitions: &Definitions, x: u32) -> bool
    ensures { IsTrue result ↔ IsSomeAnd (type_of definitions.now x) (IsSomeInt definitions.now) }
{
    match definitions.type_of(x) {
        Some(t) => is_int(definitions, t),
        None => false,
    }
}

/// Whether an operand is the id of a constant of int type.
fn is_int_constant(definitions: &Definitions, operand: Operand<'_>) -> bool
    ensures { IsTrue result ↔ spec.IsIntConstant definitions.now (plain_operand operand.entry) }
{
    match operand {
        Operand::Id(x) => is_constant(definitions, x) && is_of_int(definitions, x),
        _ => false,
    }
}

/// Whether an operand is the id of a constant, or of a variable of section 9.
fn is_lasting(definitions: &Definitions, operand: Operand<'_>) -> bool
    ensures { IsTrue result ↔ spec.IsLasting definitions.now (plain_operand operand.entry) }
{
    match operand {
        Operand::Id(x) => is_initializer(definitions, x),
        _ => false,
    }
}

/// Whether an operand is a text.
fn is_text(operand: Operand<'_>) -> bool
    ensures { IsTrue result ↔ spec.IsText (plain_operand operand.entry) }
{
    match operand {
        Operand::Text(_) => true,
        _ => false,
    }
}

/// Whether each operand is the id of a constant of int type.
fn are_int_constants(definitions: &Definitions, operands: &[Operand]) -> bool
    ensures { IsTrue result
        ↔ AllByRecursion (spec.IsIntConstant definitions.now) (plain_operands operands.now) }
{
    for operand in operands {
        if !is_int_constant(definitions, *operand) {
            return false;
        }
    }
    true
}

/// Whether each operand is the id of a constant, or of a variable of section 9.
fn are_lasting(definitions: &Definitions, operands: &[Operand]) -> bool
    ensures { IsTrue result ↔ AllByRecursion (spec.IsLasting definitions.now) (plain_operands operands.now) }
{
    for operand in operands {
        if !is_lasting(definitions, *operand) {
            return false;
        }
    }
    true
}

/// Whether each operand is a text.
fn are_all_texts(operands: &[Operand]) -> bool
    ensures { IsTrue result ↔ AllByRecursion spec.IsText (plain_operands operands.now) }
{
    for operand in operands {
        if !is_text(*operand) {
            return false;
        }
    }
    true
}

/// Whether there are operands.
fn are_there(operands: &[Operand]) -> bool
    ensures { IsTrue result ↔ (plain_operands operands.now ≢ []) }
{
    match operands {
        [] => false,
        _ => true,
    }
}

/// Whether there are operands after an execution mode, each the id of a constant of int type.
pub fn has_mode_ids(definitions: &Definitions, inst: &Inst) -> bool
    ensures { IsTrue result ↔ spec.AreSome (spec.IsIntConstant definitions.now)
        (spec.after_enumerant (plain_inst inst.now).operands) }
{
    let rest = after_enumerant(inst.operands.as_slice());
    are_there(rest) && are_int_constants(definitions, rest)
}

/// Whether there are operands after a decoration, each the id of a constant or of a variable of section 9.
pub fn has_decoration_ids(definitions: &Definitions, inst: &Inst) -> bool
    ensures { IsTrue result ↔ spec.AreSome (spec.IsLasting definitions.now)
        (spec.after_enumerant (plain_inst inst.now).operands) }
{
    let rest = after_enumerant(inst.operands.as_slice());
    are_there(rest) && are_lasting(definitions, rest)
}

/// Whether there are operands after a decoration, each a text.
pub fn has_texts(inst: &Inst) -> bool
    ensures { IsTrue result ↔ spec.AreSome spec.IsText
        (spec.after_enumerant (plain_inst inst.now).operands) }
{
    let rest = after_enumerant(inst.operands.as_slice());
    are_there(rest) && are_all_texts(rest)
}

/// Whether an id is that of an OpDecorationGroup.
fn is_group(definitions: &Definitions, x: u32) -> bool
    ensures { IsTrue result ↔ spec.IsGroup definitions.now x }
{
    match definitions.definition(x) {
        Some(inst) => inst.opcode == opcode::DECORATION_GROUP,
        None => false,
    }
}

/// Whether the first id among operands is that of an OpDecorationGroup.
pub fn begins_with_group(definitions: &Definitions, inst: &Inst) -> bool
    ensures { IsTrue result ↔ spec.BeginsWithGroup definitions.now (plain_inst inst.now) }
{
    match id_at(inst.operands.as_slice(), 0) {
        Some(x) => is_group(definitions, x),
        None => false,
    }
}

/// Whether an id is not that of an OpDecorationGroup.
fn is_no_group(definitions: &Definitions, x: u32) -> bool
    ensures { IsTrue result ↔ spec.IsNoGroup definitions.now x }
{
    match definitions.definition(x) {
        Some(inst) => inst.opcode != opcode::DECORATION_GROUP,
        None => true,
    }
}

/// Whether no id among operands is that of an OpDecorationGroup.
fn has_no_group(definitions: &Definitions, operands: &[Operand]) -> bool
    ensures { IsTrue result
        ↔ AllByRecursion (spec.IsNoGroup definitions.now) (all_ids_in (plain_operands operands.now)) }
{
    for operand in operands {
        if let Operand::Id(x) = operand {
            if !is_no_group(definitions, *x) {
                return false;
            }
        }
    }
    true
}

/// What follows the first operand.
fn after_one<'o, 'a>(operands: &'o [Operand<'a>]) -> &'o [Operand<'a>]
    ensures { plain_operands result.now ≡ drop 1 (plain_operands operands.now) }
{
    match operands {
        [_, rest @ ..] => rest,
        [] => &[],
    }
}

/// Whether no id after the first operand is that of an OpDecorationGroup.
pub fn has_no_more_groups(definitions: &Definitions, inst: &Inst) -> bool
    ensures { IsTrue result ↔ spec.HasNoMoreGroups definitions.now (plain_inst inst.now) }
{
    has_no_group(definitions, after_one(inst.operands.as_slice()))
}

/// Whether a type is a struct type that has a member of a number.
fn is_member(definitions: &Definitions, t: u32, k: u32) -> bool
    ensures { IsTrue result ↔ spec.IsMember definitions.now t k }
{
    match (definitions.form(t), count(definitions, t)) {
        (Some(Form::Struct), Some(count)) => u64::from(k) < count,
        _ => false,
    }
}

/// Whether operands are struct types, each before the number of a member of it.
fn are_members(definitions: &Definitions, operands: &[Operand]) -> bool
    ensures { IsTrue result ↔ spec.AreMembers definitions.now None (plain_operands operands.now) }
{
    let mut waiting = None;
    for operand in operands {
        match (waiting, *operand) {
            (None, Operand::Id(t)) => waiting = Some(t),
            (Some(t), Operand::Word(k)) => {
                if !is_member(definitions, t, k) {
                    return false;
                }
                waiting = None;
            }
            _ => return false,
        }
    }
    match waiting {
        Some(_) => false,
        None => true,
    }
}

/// Whether what follows the first operand is that.
pub fn has_members(definitions: &Definitions, inst: &Inst) -> bool
    ensures { IsTrue result ↔ spec.AreMembers definitions.now None (drop 1 (plain_inst inst.now).operands) }
{
    are_members(definitions, after_one(inst.operands.as_slice()))
}

/// Whether a set of extended instructions is one of debug information, or of no meaning.
fn is_silent_name(name: &str) -> bool
    ensures { result ≡ spec.is_silent name.now }
{
    name == "OpenCL.DebugInfo.100"
        || (name == "DebugInfo"
            || (name == "SPIRV.debug" || name.as_bytes().starts_with(b"NonSemantic.")))
}

/// The name of the set that the operands of an OpExtInstImport import.
fn set_name<'a>(operands: &[Operand<'a>]) -> Option<&'a str>
    ensures { option_map (λ name. name.now) result ≡ spec.set_name_in (plain_operands operands.now) }
{
    match operands {
        [Operand::Result(_), Operand::Text(name), ..] => Some(*name),
        _ => None,
    }
}

/// Whether operands of an OpExtInstImport name such a set.
fn names_silent(operands: &[Operand]) -> bool
    ensures { IsTrue result ↔ IsSomeAnd (spec.set_name_in (plain_operands operands.now))
        (λ name. IsTrue (spec.is_silent name)) }
{
    match set_name(operands) {
        Some(name) => is_silent_name(name),
        None => false,
    }
}

/// Whether an id is that of such a set.
fn is_silent_set(definitions: &Definitions, x: u32) -> bool
    ensures { IsTrue result ↔ IsSomeAnd (spec.set_name_of definitions.now x) (λ name. IsTrue (spec.is_silent name)) }
{
    match definitions.definition(x) {
        Some(inst) => match inst.opcode {
            opcode::EXT_INST_IMPORT => names_silent(inst.operands.as_slice()),
            _ => false,
        },
        None => false,
    }
}

/// Whether the set of an extended instruction is such a one.
fn is_silent(definitions: &Definitions, inst: &Inst) -> bool
    ensures { IsTrue result ↔ spec.IsSilent definitions.now (plain_inst inst.now) }
{
    match id_at(inst.operands.as_slice(), 0) {
        Some(x) => is_silent_set(definitions, x),
        None => false,
    }
}

/// Whether there is a result type, and it is void.
fn is_void(definitions: &Definitions, r: Option<u32>) -> bool
    ensures { IsTrue result ↔ spec.IsVoid definitions.now r }
{
    match r {
        Some(t) => match definitions.form(t) {
            Some(Form::Void) => true,
            _ => false,
        },
        None => false,
    }
}

/// Whether the instruction of a number is of a block.
#[inline(always)]
pub fn is_in_block(definitions: &Definitions, number: u32) -> bool
    requires { number < length definitions.now }
    ensures { IsTrue result ↔ ((b : ℕ) × IsOfBlock definitions.now number b) }
{
    match definitions.place(number).block {
        Some(_) => true,
        None => false,
    }
}

/// Whether the extended instruction of a number may stand there.
pub fn may_stand(definitions: &Definitions, number: u32, inst: &Inst, r: Option<u32>) -> bool
    requires { number < length definitions.now }
    ensures { IsTrue result ↔ spec.MayStand definitions.now number (plain_inst inst.now) r }
{
    is_in_block(definitions, number) || (is_void(definitions, r) && is_silent(definitions, inst))
}
