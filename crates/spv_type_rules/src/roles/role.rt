ghost use Rattle.std.specs.Prelude.{◌≡◌, ◌↔◌, ◌⊎◌, IsTrue, IsSomeAnd, MatchBool};
ghost use Rattle.spv_module.specs.Module.{plain_inst};
ghost use Rattle.spv_module.specs.Width.{definition_of};
ghost use Rattle.spv_layout.specs.declared.form.Role.TheVariants as role;
ghost use Rattle.spv_type_rules.specs.roles.Role.{Plays};
ghost use Rattle.spv_type_rules.specs.roles.inner.Role.{IsTypeDeclaration, IsValue, IsOfOpcode};

use spv_layout::Role;
use spv_module::{Inst, opcode};
use spv_type_forms::{Definitions, type_in};

/// Whether an instruction is a value: it has a result type, and is no OpFunction.
#[inline(always)]
fn is_value(inst: &Inst<'_>) -> bool
    ensures { IsTrue result ↔ IsValue (plain_inst inst.now) }
{
    inst.opcode != opcode::FUNCTION && type_in(inst.operands.as_slice()).is_some()
}

/// Whether an instruction is a type declaration: all but two of their opcodes stand together.
#[inline(always)]
fn is_type(inst: &Inst<'_>) -> bool
    ensures { IsTrue result ↔ IsTypeDeclaration (plain_inst inst.now) }
{
    match inst.opcode {
        opcode::TYPE_VOID..=opcode::TYPE_PIPE
        | opcode::TYPE_PIPE_STORAGE
        | opcode::TYPE_NAMED_BARRIER => true,
        _ => false,
    }
}

/// Whether the definition of an id has an opcode.
#[inline(always)]
fn has_opcode(definitions: &Definitions<'_, '_>, id: u32, wanted: u16) -> bool
    ensures { IsTrue result ↔ IsSomeAnd (definition_of definitions.now id) (IsOfOpcode wanted) }
{
    match definitions.definition(id) {
        Some(inst) => inst.opcode == wanted,
        None => false,
    }
}

/// Whether the definition of an id is a type declaration, by that instruction.
#[inline(always)]
fn reads_type(definitions: &Definitions<'_, '_>, id: u32) -> bool
    ensures { IsTrue result ↔ IsSomeAnd (definition_of definitions.now id) IsTypeDeclaration }
{
    match definitions.definition(id) {
        Some(inst) => is_type(inst),
        None => false,
    }
}

/// Whether the definition of an id is a type declaration. What is noted of the id is looked at first.
#[inline(always)]
pub fn defines_type(definitions: &Definitions<'_, '_>, id: u32) -> bool
    ensures { IsTrue result ↔ IsSomeAnd (definition_of definitions.now id) IsTypeDeclaration }
{
    if definitions.is_noted_type(id) {
        return true;
    }
    reads_type(definitions, id)
}

/// Whether the definition of an id is a value, by that instruction.
#[inline(always)]
fn reads_value(definitions: &Definitions<'_, '_>, id: u32) -> bool
    ensures { IsTrue result ↔ IsSomeAnd (definition_of definitions.now id) IsValue }
{
    match definitions.definition(id) {
        Some(inst) => is_value(inst),
        None => false,
    }
}

/// Whether the definition of an id is a value. What is noted of the id is looked at first.
#[inline(always)]
fn defines_value(definitions: &Definitions<'_, '_>, id: u32) -> bool
    ensures { IsTrue result ↔ IsSomeAnd (definition_of definitions.now id) IsValue }
{
    if definitions.is_noted_value(id) {
        return true;
    }
    reads_value(definitions, id)
}

/// Whether the definitions of two ids are values.
#[inline(always)]
pub fn are_values(definitions: &Definitions<'_, '_>, a: u32, b: u32) -> bool
    ensures { MatchBool result (Plays definitions.now role.Value a × Plays definitions.now role.Value b)
        ((¬ (Plays definitions.now role.Value a)) ⊎ (¬ (Plays definitions.now role.Value b))) }
{
    if !defines_value(definitions, a) {
        return false;
    }
    defines_value(definitions, b)
}

/// Whether an id plays a role: its definition is what the role asks for.
#[inline(always)]
pub fn plays(definitions: &Definitions<'_, '_>, role: Role, id: u32) -> bool
    ensures { IsTrue result ↔ Plays definitions.now role id }
{
    match role {
        Role::OfType => defines_type(definitions, id),
        Role::Value => defines_value(definitions, id),
        Role::Function => has_opcode(definitions, id, opcode::FUNCTION),
        Role::Text => has_opcode(definitions, id, opcode::STRING),
        Role::Set => has_opcode(definitions, id, opcode::EXT_INST_IMPORT),
        Role::Global => definitions.is_global(id),
        Role::Label | Role::Any => true,
    }
}

/// Whether an id is that of a type.
#[inline(always)]
pub fn is_type_id(definitions: &Definitions<'_, '_>, t: u32) -> bool
    ensures { MatchBool result (Plays definitions.now role.OfType t) (¬ (Plays definitions.now role.OfType t)) }
{
    defines_type(definitions, t)
}

/// Whether an id is that of a type, and another plays a role.
#[inline(always)]
pub fn are_type_and(definitions: &Definitions<'_, '_>, t: u32, due: Role, x: u32) -> bool
    ensures { MatchBool result (Plays definitions.now role.OfType t × Plays definitions.now due x)
        ((¬ (Plays definitions.now role.OfType t)) ⊎ (¬ (Plays definitions.now due x))) }
{
    if !defines_type(definitions, t) {
        return false;
    }
    plays(definitions, due, x)
}
