//! Evidence for Y5.

ghost use Rattle.std.specs.Prelude.{◌≡◌, ◌<◌, ℕ, IfOk, length};
ghost use Rattle.spv_table.specs.Table.{Table};
ghost use Rattle.spv_module.specs.declared.fault.Rule.TheVariants.{Y5};
ghost use Rattle.spv_module.specs.Module.{plain_inst, plain_insts};
ghost use Rattle.spv_layout.specs.Shape.{FitsShape};
ghost use Rattle.spv_readings.specs.Values.{types_in};
ghost use Rattle.spv_ids.specs.Outcome.{IsDefinitionOf, definition_in};
ghost use Rattle.spv_ops.specs.Typed.{IsTyped};
ghost use Rattle.spv_operation_evidence.specs.Broken.{IsBroken};
ghost use Rattle.spv_operation_evidence.specs.Evidence.{AreTyped, IsEvidence, Shows};
ghost use Rattle.spv_operation_evidence.specs.inner.Values as values;
ghost use Rattle.spv_operation_evidence.specs.inner.Values.{IsValueAt, IsTypeable};

use crate::beside::{condition_in, found_in, operand_in, read_in, wanted_in};
use spv_conditions::first_failing;
use spv_evidence::{Evidence, Listed, Role};
use spv_ids::Ids;
use spv_layout::{Plan, role};
use spv_module::{Inst, Module};
use spv_ops::asks_of;
use spv_readings::{Value, defined_by, id_at};
use spv_type_forms::{Definitions, result_type};
use std::alloc::{AllocError, Global};

/// Whether a role is that of a value.
fn is_value(role: Option<Role>) -> bool
    ensures { result ≡ values.is_value role }
{
    match role {
        Some(Role::Value) => true,
        _ => false,
    }
}

/// The id that operand `k` of an instruction uses as a value, if it does.
fn value_at(inst: &Inst, k: usize) -> Option<u32>
    ensures { (G : Table) → FitsShape G (plain_inst inst.now) → IsValueAt G (plain_inst inst.now) k result }
{
    if is_value(role(inst, k)) {
        id_at(inst.operands.as_slice(), k)
    } else {
        None
    }
}

/// The value operands of an instruction, in order, each with its number and the type that it is declared with.
///
/// The error comes when out of memory.
fn typed_values(
    alloc: Global,
    definitions: &Definitions,
    inst: &Inst,
) -> Result<Vec<Value>, AllocError>
    requires { (G : Table) × IsTypeable G definitions.now (plain_inst inst.now) }
    ensures typed { let i = plain_inst inst.now in
        IfOk result (λ vs. (G : Table) → FitsShape G i → AreTyped G definitions.now i vs.items) }
    ensures few { IfOk result (λ vs. length vs.items < 4294967296) }
{
    let mut values = Vec::new(alloc);
    for k in 0..inst.operands.as_slice().len() {
        if let Some(id) = value_at(inst, k) {
            let Some(of) = definitions.type_of(id) else {
                unreachable!();
            };
            values.push(Value {
                operand: k as u32,
                id,
                of,
            })?;
        }
    }
    Ok(values)
}

/// The types of value operands.
///
/// The error comes when out of memory.
fn types_of(alloc: Global, values: &[Value]) -> Result<Vec<u32>, AllocError>
    ensures { IfOk result (λ v. v.items ≡ types_in values.now) }
{
    let mut types = Vec::new(alloc);
    for value in values {
        types.push(value.of)?;
    }
    Ok(types)
}

/// What shows that Y5 is broken at the instruction of a number: the first condition that fails.
///
/// The error comes when out of memory.
fn evidence_at(
    alloc: Global,
    definitions: &Definitions,
    ids: &Ids,
    number: u32,
    inst: &Inst,
) -> Result<Evidence, AllocError>
    requires within { number < length definitions.now }
    requires ids { (x : ℕ) → IsDefinitionOf definitions.now x (definition_in ids.now x) }
    requires typeable { (G : Table) × IsTypeable G definitions.now (plain_inst inst.now) }
    requires broken { (G : Table) × FitsShape G (plain_inst inst.now)
        × ¬ (IsTyped G definitions.now number (plain_inst inst.now)) }
    ensures { let i = plain_inst inst.now in
        IfOk result (λ e. (G : Table) → FitsShape G i → ¬ (IsTyped G definitions.now number i)
        → Shows G definitions.now number i Y5 e) }
{
    let typed = typed_values(alloc, definitions, inst)?;
    let values = typed.as_slice();
    let r = result_type(inst.operands.as_slice());
    let declared = types_of(alloc, values)?;
    let types = declared.as_slice();
    let line = asks_of(inst.opcode);
    let Some(asked) = first_failing(definitions, number, inst, r, types, line) else {
        unreachable!();
    };
    let operand = operand_in(definitions, inst, values, asked);
    let read = read_in(alloc, definitions, inst, r, types, asked)?;
    Ok(Evidence::Condition {
        condition: condition_in(asked),
        operand,
        defined: defined_by(ids, inst, operand),
        wanted: wanted_in(definitions, inst, r, types, asked),
        found: found_in(definitions, inst, r, types, asked),
        types: Listed::from_vec(read),
    })
}

/// What shows that Y5 is broken at the instruction of a number, from 0 (SPIR-V Specification 1.6, section 2.16). `plan`
/// and `ids` are what `lay_out` and `number` answered of that module; each id that is used plays its role, as
/// `roles_check` tells.
///
/// Time is linear in the words of the instruction.
///
/// The error comes when out of memory.
pub fn operation_evidence(
    alloc: Global,
    module: &Module<'_>,
    plan: &Plan,
    ids: &Ids,
    number: u32,
) -> Result<Evidence, AllocError>
    // The ids are what was answered of the module.
    requires ids { (x : ℕ) → IsDefinitionOf (plain_insts «module».now) x (definition_in ids.now x) }
    requires broken { (G : Table) × IsBroken G (plain_insts «module».now) plan.now number }
    ensures { (G : Table) → IsBroken G (plain_insts «module».now) plan.now number
        → IfOk result (λ e. IsEvidence G (plain_insts «module».now) Y5 number e) }
{
    let insts = module.insts.as_slice();
    let definitions = Definitions::new(insts, plan, ids);
    let inst = definitions.inst(number);
    evidence_at(alloc, &definitions, ids, number, inst)
}
