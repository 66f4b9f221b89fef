ghost use Rattle.std.specs.Prelude.{◌≡◌, ◌⊎◌, List, length};
ghost use Rattle.std.specs.Prelude.{OnOk, IfErr, MatchBool};
ghost use Rattle.spv_table.specs.Table.{Table};
ghost use Rattle.spv_module.specs.Module.{plain_inst, plain_insts, plain_operand, plain_operands};
ghost use Rattle.spv_layout.specs.First.{IsUnbroken};
ghost use Rattle.spv_layout.specs.declared.place.Place.{Place};
ghost use Rattle.spv_layout.specs.Place.{IsShort};
ghost use Rattle.spv_layout.specs.Stage.{of_roles};
ghost use Rattle.spv_layout.specs.Plan.{IsPlan};
ghost use Rattle.spv_layout.specs.Shape.{FitsShape};
ghost use Rattle.spv_layout.specs.declared.form.Role.TheVariants as due;
ghost use Rattle.spv_type_rules.specs.roles.inner.Asked.{ArePlayed, IsOneMiscast};
ghost use Rattle.spv_type_rules.specs.roles.Broken.{Broken};
ghost use Rattle.spv_type_rules.specs.roles.Role.{Plays};
ghost use Rattle.spv_type_rules.specs.roles.inner.Known as known;
ghost use Rattle.spv_type_rules.specs.roles.inner.Known.{IsInRole, IsMiscast, AreInRoleBefore, HasMiscast};
ghost use Rattle.spv_type_rules.specs.roles.Outcome.{AreInRole, IsRefusal};

use crate::roles::asked::{Asked, asked_besides, asks_values};
use crate::roles::role::{are_type_and, are_values, defines_type, is_type_id, plays};
use spv_layout::{Role, role};
use spv_module::{Fault, Inst, Module, Operand, Rule, opcode};
use spv_type_forms::Definitions;

/// The id that an operand uses, if it is one other than a result, or than one that is named alone.
#[inline(always)]
fn asked_id(operand: Operand<'_>) -> Option<u32>
    ensures { result ≡ known.asked_id (plain_operand operand.entry) }
{
    match operand {
        Operand::OfType(id) | Operand::Id(id) | Operand::Argument(id) => Some(id),
        _ => None,
    }
}

/// Whether operand `k` of an instruction is no use, or a use of an id in its role.
#[inline(always)]
fn is_in_role(definitions: &Definitions<'_, '_>, inst: &Inst<'_>, k: usize) -> bool
    ensures { (G : Table) → FitsShape G (plain_inst inst.now)
        → MatchBool result (IsInRole G definitions.now (plain_inst inst.now) k)
        (IsMiscast G definitions.now (plain_inst inst.now) k) }
{
    let Some(operand) = inst.operands.as_slice().get(k) else {
        return true;
    };
    let Some(id) = asked_id(*operand) else {
        return true;
    };
    match role(inst, k) {
        Some(role) => plays(definitions, role, id),
        None => true,
    }
}

/// Whether all uses of an instruction are in their roles, operand by operand.
#[inline(never)]
fn each_in_role(definitions: &Definitions<'_, '_>, inst: &Inst<'_>) -> bool
    ensures { (G : Table) → FitsShape G (plain_inst inst.now)
        → MatchBool result (AreInRoleBefore G definitions.now (plain_inst inst.now) (length inst.now.operands))
        (HasMiscast G definitions.now (plain_inst inst.now)) }
{
    for k in 0..inst.operands.as_slice().len() {
        if !is_in_role(definitions, inst, k) {
            return false;
        }
    }
    true
}

/// Whether types are types, arguments values, and ids play the roles that are asked for, operand by operand.
#[inline(never)]
fn each_played(definitions: &Definitions<'_, '_>, asked: Asked, operands: &[Operand<'_>]) -> bool
    ensures { MatchBool result (ArePlayed definitions.now asked.first asked.others asked.masked
        (plain_operands operands.now))
        (IsOneMiscast definitions.now asked.first asked.others asked.masked (plain_operands operands.now)) }
{
    let mut due = asked.first;
    let mut next = asked.others;
    for operand in operands {
        match *operand {
            Operand::OfType(id) => if !defines_type(definitions, id) {
                return false;
            },
            Operand::Id(id) => {
                if !plays(definitions, due, id) {
                    return false;
                }
                due = next;
            }
            Operand::Mask { .. } => {
                due = asked.masked;
                next = asked.masked;
            }
            Operand::Argument(id) => if !plays(definitions, Role::Value, id) {
                return false;
            },
            _ => {}
        }
    }
    true
}

/// Whether types are types, and arguments values, where nothing is asked of ids.
#[inline(always)]
fn are_arguments_played(definitions: &Definitions<'_, '_>, operands: &[Operand<'_>]) -> bool
    ensures { MatchBool result (ArePlayed definitions.now due.Any due.Any due.Any (plain_operands operands.now))
        (IsOneMiscast definitions.now due.Any due.Any due.Any (plain_operands operands.now)) }
{
    for operand in operands {
        if let Operand::Argument(x) = *operand {
            if !plays(definitions, Role::Value, x) {
                return false;
            }
        } else if let Operand::OfType(t) = *operand {
            if !defines_type(definitions, t) {
                return false;
            }
        }
    }
    true
}

/// Whether a type is a type, an id that of a set of extended instructions, and arguments are values.
#[inline(always)]
fn is_set_played(definitions: &Definitions<'_, '_>, t: u32, set: u32, rest: &[Operand<'_>]) -> bool
    ensures { MatchBool result (Plays definitions.now due.OfType t × Plays definitions.now due.Set set
        × ArePlayed definitions.now due.Any due.Any due.Any (plain_operands rest.now))
        (¬ (Plays definitions.now due.OfType t) ⊎ ¬ (Plays definitions.now due.Set set)
        ⊎ IsOneMiscast definitions.now due.Any due.Any due.Any (plain_operands rest.now)) }
{
    if !is_type_id(definitions, t) {
        return false;
    }
    if !plays(definitions, Role::Set, set) {
        return false;
    }
    are_arguments_played(definitions, rest)
}

/// The roles that an extended instruction asks for: a set of them, and nothing of other ids.
const SET: Asked = Asked {
    first: Role::Set,
    others: Role::Any,
    masked: Role::Any,
};

/// Whether types are types, the first id is that of a set of extended instructions, and arguments are values.
fn are_extended_played(definitions: &Definitions<'_, '_>, operands: &[Operand<'_>]) -> bool
    ensures { MatchBool result (ArePlayed definitions.now due.Set due.Any due.Any (plain_operands operands.now))
        (IsOneMiscast definitions.now due.Set due.Any due.Any (plain_operands operands.now)) }
{
    match operands {
        [
            Operand::OfType(t),
            Operand::Result(_),
            Operand::Id(set),
            rest @ ..,
        ] => is_set_played(definitions, *t, *set, rest),
        _ => each_played(definitions, SET, operands),
    }
}

/// Whether all uses of an instruction of which `asked_besides` tells nothing are in their roles. Extended instructions
/// are looked at first.
#[inline(never)]
fn are_others_in_role(definitions: &Definitions<'_, '_>, inst: &Inst<'_>) -> bool
    ensures { (G : Table) → FitsShape G (plain_inst inst.now)
        → MatchBool result (AreInRoleBefore G definitions.now (plain_inst inst.now) (length inst.now.operands))
        (HasMiscast G definitions.now (plain_inst inst.now)) }
{
    if inst.opcode == opcode::EXT_INST {
        are_extended_played(definitions, inst.operands.as_slice())
    } else {
        each_in_role(definitions, inst)
    }
}

/// Whether types are types, and ids play the roles that are asked for. Names and decorations, of whose ids nothing is
/// asked, are looked at first (a merge stands as they do), texts and opaque types, and types that are declared of one
/// type or two: pointers and vectors, arrays, functions and structures.
#[inline(always)]
fn are_declared_played(
    definitions: &Definitions<'_, '_>,
    asked: Asked,
    operands: &[Operand<'_>],
) -> bool
    ensures { MatchBool result (ArePlayed definitions.now asked.first asked.others asked.masked
        (plain_operands operands.now))
        (IsOneMiscast definitions.now asked.first asked.others asked.masked (plain_operands operands.now)) }
{
    use Operand::{Id, Mask, Result, Text, Value, Word};
    match (operands, asked.first) {
        ([Id(_), Text(_) | Value { .. } | Mask { .. }], Role::Any) => true,
        ([Result(_), Text(_)], _) => true,
        (
            [
                Id(_),
                Value { .. } | Word(_),
                Text(_) | Value { .. } | Word(_) | Mask { .. },
            ],
            Role::Any,
        ) => true,
        ([Id(_), Word(_), Value { .. }, Value { .. } | Word(_)], Role::Any) => true,
        (
            [Result(_), Id(a)] | [Result(_), Id(a), Word(_)] | [Result(_), Value { .. }, Id(a)],
            Role::OfType,
        ) => is_type_id(definitions, *a),
        ([Result(_), Id(a), Id(b)], Role::OfType) => are_type_and(
            definitions,
            *a,
            asked.others,
            *b,
        ),
        _ => each_played(definitions, asked, operands),
    }
}

/// Whether types are types, and ids play the roles that are asked for. A label, and a condition before two labels, are
/// looked at first.
#[inline(always)]
fn are_uses_played(
    definitions: &Definitions<'_, '_>,
    asked: Asked,
    operands: &[Operand<'_>],
) -> bool
    ensures { MatchBool result (ArePlayed definitions.now asked.first asked.others asked.masked
        (plain_operands operands.now))
        (IsOneMiscast definitions.now asked.first asked.others asked.masked (plain_operands operands.now)) }
{
    match (operands, asked.first, asked.others) {
        ([Operand::Id(_)], Role::Any, _) => true,
        ([Operand::Id(a), Operand::Id(_), Operand::Id(_)], first, Role::Any) => plays(
            definitions,
            first,
            *a,
        ),
        _ => are_declared_played(definitions, asked, operands),
    }
}

/// Whether types are types, and ids play the roles that are asked for. Results of one id at most are looked at first:
/// of an id alone or before a memory access of one literal, a parameter, a constant, a variable and a function.
#[inline(always)]
fn are_few_played(definitions: &Definitions<'_, '_>, asked: Asked, operands: &[Operand<'_>]) -> bool
    ensures { MatchBool result (ArePlayed definitions.now asked.first asked.others asked.masked
        (plain_operands operands.now))
        (IsOneMiscast definitions.now asked.first asked.others asked.masked (plain_operands operands.now)) }
{
    match operands {
        [Operand::OfType(t), Operand::Result(_), Operand::Id(a)] => are_type_and(
            definitions,
            *t,
            asked.first,
            *a,
        ),
        [
            Operand::OfType(t),
            Operand::Result(_),
            Operand::Id(a),
            Operand::Mask { .. },
            Operand::Word(_),
        ] => are_type_and(definitions, *t, asked.first, *a),
        [Operand::OfType(t), Operand::Result(_)]
        | [
            Operand::OfType(t),
            Operand::Result(_),
            Operand::Number { .. } | Operand::Value { .. },
        ] => is_type_id(definitions, *t),
        [
            Operand::OfType(t),
            Operand::Result(_),
            Operand::Mask { .. },
            Operand::Id(a),
        ] => are_type_and(definitions, *t, asked.masked, *a),
        _ => are_uses_played(definitions, asked, operands),
    }
}

/// The roles that most instructions ask for: values, and anything after a mask.
const VALUES: Asked = Asked {
    first: Role::Value,
    others: Role::Value,
    masked: Role::Any,
};

/// Whether types are types, and ids are values up to a mask. Operands as they mostly stand are looked at first: a
/// result of two values, of one alone or before a memory access of one literal, and two values before such an access.
#[inline(always)]
fn are_values_played(definitions: &Definitions<'_, '_>, operands: &[Operand<'_>]) -> bool
    ensures { MatchBool result (ArePlayed definitions.now due.Value due.Value due.Any (plain_operands operands.now))
        (IsOneMiscast definitions.now due.Value due.Value due.Any (plain_operands operands.now)) }
{
    match operands {
        [
            Operand::OfType(t),
            Operand::Result(_),
            Operand::Id(a),
            Operand::Id(b),
        ] => defines_type(definitions, *t) && are_values(definitions, *a, *b),
        [Operand::OfType(t), Operand::Result(_), Operand::Id(a)] => are_type_and(
            definitions,
            *t,
            Role::Value,
            *a,
        ),
        [
            Operand::OfType(t),
            Operand::Result(_),
            Operand::Id(a),
            Operand::Mask { .. },
            Operand::Word(_),
        ] => are_type_and(definitions, *t, Role::Value, *a),
        [
            Operand::Id(a),
            Operand::Id(b),
            Operand::Mask { .. },
            Operand::Word(_),
        ] => are_values(definitions, *a, *b),
        _ => each_played(definitions, VALUES, operands),
    }
}

/// Whether operands are none, or a result alone: no use is among them.
#[inline(always)]
fn uses_nothing(operands: &[Operand<'_>]) -> bool
    ensures { result ≡ known.uses_nothing (plain_operands operands.now) }
{
    match operands {
        [] => true,
        [Operand::Result(_)] => true,
        _ => false,
    }
}

/// Whether all uses of an instruction are in their roles.
fn are_in_role(definitions: &Definitions<'_, '_>, inst: &Inst<'_>) -> bool
    ensures { (G : Table) → FitsShape G (plain_inst inst.now)
        → MatchBool result (AreInRoleBefore G definitions.now (plain_inst inst.now) (length inst.now.operands))
        (HasMiscast G definitions.now (plain_inst inst.now)) }
{
    let operands = inst.operands.as_slice();
    if asks_values(inst.opcode) {
        return are_values_played(definitions, operands);
    }
    if uses_nothing(operands) {
        return true;
    }
    match asked_besides(inst.opcode) {
        Some(asked) => are_few_played(definitions, asked, operands),
        None => are_others_in_role(definitions, inst),
    }
}

/// Whether each use of a module is of an id that plays the role which the use's shape asks for (own; SPIR-V
/// Specification 1.6, sections 2.2.1 and 2.16): a type declaration, a value (an instruction with a result type, other
/// than OpFunction), an OpFunction, an OpString, an OpExtInstImport, or an OpVariable outside functions. `definitions`
/// are those of that module.
///
/// Time is linear in the words of the module. It takes no memory.
///
/// A `Fault` tells Y1 at the first instruction with a use that is not in its role, and that instruction's first word
/// (words and instructions from 0).
#[inline(never)]
pub fn roles_check(module: &Module<'_>, definitions: &Definitions<'_, '_>) -> Result<(), Fault>
    // The condition of `lay_out`.
    requires words { IsShort (plain_insts «module».now) }
    requires definitions { definitions.now ≡ plain_insts «module».now }
    // Each use is in its role, so the rule is broken nowhere.
    ensures roles { (G : Table) (plan : List Place) → IsPlan G (plain_insts «module».now) plan
        → OnOk result (AreInRole G (plain_insts «module».now)) }
    ensures unbroken { (G : Table) (plan : List Place) → IsPlan G (plain_insts «module».now) plan
        → OnOk result (IsUnbroken (Broken G (plain_insts «module».now)) of_roles) }
    ensures refused { (G : Table) (plan : List Place) → IsPlan G (plain_insts «module».now) plan
        → IfErr result (λ f. IsRefusal G (plain_insts «module».now) f) }
{
    let insts = module.insts.as_slice();
    for n in 0..insts.len() {
        if !are_in_role(definitions, &insts[n]) {
            return Err(Fault {
                rule: Rule::Y1,
                inst: n as u32,
                word: definitions.place(n as u32).word,
            });
        }
    }
    Ok(())
}
