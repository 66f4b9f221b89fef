//! O10: variables with initializers.

ghost use Rattle.std.specs.Prelude.{◌≡◌, ◌↔◌, ◌<◌, ◌≤◌, ℕ, IfOk, IsTrue, OnOk, Some, codes, length, slice_get, true};
ghost use Rattle.spv_table.specs.Table.{Table};
ghost use Rattle.spv_table.specs.Lookups.{number_named};
ghost use Rattle.spv_module.specs.Module.{plain_inst, plain_operands};
ghost use Rattle.spv_module.specs.Operand.{PlainInst};
ghost use Rattle.spv_layout.specs.Place.{IsOfSection};
ghost use Rattle.spv_declarations.specs.Decorated.{IsInitialized};
ghost use Rattle.spv_declarations.specs.Given.{NamesTarget};
ghost use Rattle.spv_declarations.specs.inner.Early.{AreEarly};
ghost use Rattle.spv_declarations.specs.inner.First.{IsFirstBelow};
ghost use Rattle.spv_declarations.specs.inner.Initialized as spec;
ghost use Rattle.spv_declarations.specs.inner.Kinds.{AreKinds};
ghost use Rattle.spv_declarations.specs.inner.Said.{AreSaid, HasAt, ImportsBy};
ghost use Rattle.spv_declarations.specs.inner.Sets.{Adds, HasAll, IsIn, IsOf};
ghost use Rattle.spv_declarations.specs.inner.Spans.{AreSpans};

use crate::decorated::{behind_first, group_of, is_group};
use crate::front::Front;
use crate::said::{Said, imported_by};
use crate::sets::{put, put_all};
use spv_module::{Inst, Operand, opcode};
use spv_type_forms::{DECLARATIONS, Definitions};
use std::alloc::{AllocError, Global};
use std::collections::BTreeSet;

/// The number of the storage class Input.
pub const INPUT: u32 = 1;

/// The id and the storage class that the operands of an OpVariable with an initializer have.
fn initialized_in(operands: &[Operand<'_>]) -> Option<(u32, u32)>
    ensures { result ≡ spec.initialized_in (plain_operands operands.now) }
{
    match operands {
        [
            Operand::OfType(_),
            Operand::Result(id),
            Operand::Value { value, .. },
            Operand::Id(_),
            ..
        ] => Some((*id, *value)),
        _ => None,
    }
}

/// The id and the storage class of an OpVariable with an initializer.
pub fn initialized_by(inst: &Inst<'_>) -> Option<(u32, u32)>
    ensures { result ≡ spec.initialized_by (plain_inst inst.now) }
{
    if inst.opcode == opcode::VARIABLE {
        initialized_in(inst.operands.as_slice())
    } else {
        None
    }
}

/// Adds the targets of a group that is imported.
fn add_targets(imported: &mut BTreeSet<u32>, said: &Said, inst: &Inst<'_>) -> Result<(), AllocError>
    ensures { OnOk result (Adds (λ x. (g : ℕ) × NamesTarget (plain_inst inst.now) g x
        × IsIn said.now.importing g) imported.old imported.new) }
{
    let Some(group) = group_of(inst, opcode::GROUP_DECORATE) else {
        return Ok(());
    };
    if said.imports(group) {
        return put_all(imported, behind_first(inst));
    }
    Ok(())
}

/// Adds the ids that are imported by an instruction of the module.
fn add_imported(
    imported: &mut BTreeSet<u32>,
    definitions: &Definitions,
    linkage: Option<u32>,
    said: &Said,
    inst: &Inst<'_>,
) -> Result<(), AllocError>
    requires said { AreSaid linkage definitions.now said.now }
    requires inst { IsOf definitions.now (plain_inst inst.now) }
    ensures { OnOk result (Adds (λ x. HasAt definitions.now (ImportsBy linkage) x (plain_inst inst.now))
        imported.old imported.new) }
{
    let Some(x) = imported_by(linkage, inst) else {
        return add_targets(imported, said, inst);
    };
    if !is_group(definitions, x) {
        return put(imported, x);
    }
    Ok(())
}

/// The ids that have LinkageAttributes with the LinkageType Import.
fn imported(
    alloc: Global,
    definitions: &Definitions,
    front: &Front,
    linkage: Option<u32>,
    said: &Said,
) -> Result<BTreeSet<u32>, AllocError>
    requires count { front.now.count ≤ length definitions.now }
    requires early { AreEarly definitions.now front.now.count }
    requires kinds { AreKinds definitions.now front.now.count front.now.kinds }
    requires spans { AreSpans definitions.now front.now.count front.now.spans }
    requires said { AreSaid linkage definitions.now said.now }
    ensures { IfOk result (HasAll definitions.now (λ i x. HasAt definitions.now (ImportsBy linkage) x i)) }
{
    let mut imported = BTreeSet::new(alloc);
    if !(front.kinds.groups | front.kinds.linked) {
        return Ok(imported);
    }
    for number in front.spans.from..front.spans.to {
        add_imported(
            &mut imported,
            definitions,
            linkage,
            said,
            definitions.inst(number),
        )?;
    }
    Ok(imported)
}

/// Whether an instruction is an OpVariable with an initializer, of Input or one of those that are imported.
fn is_outside(imported: &BTreeSet<u32>, inst: &Inst<'_>) -> bool
    ensures { IsTrue result ↔ spec.IsOutside imported.now (plain_inst inst.now) }
{
    match initialized_by(inst) {
        Some((x, class)) => class == INPUT || imported.contains(&x),
        None => false,
    }
}

/// Whether the instruction of a number is such an OpVariable in section 9.
fn is_initialized(definitions: &Definitions, imported: &BTreeSet<u32>, number: u32) -> bool
    requires { number < length definitions.now }
    ensures { (i : PlainInst) → slice_get definitions.now number ≡ Some i
        → IsTrue result ↔ (spec.IsOutside imported.now i × IsOfSection definitions.now number 11) }
{
    if !is_outside(imported, definitions.inst(number)) {
        return false;
    }
    definitions.place(number).section == DECLARATIONS
}

/// The first of the instructions before the functions that breaks O10 (SPIR-V Specification 1.6, sections 2.16.1 and
/// 3.7), where the kind LinkageType has that number.
///
/// Time is near-linear in the words of these instructions. Where none of them is an OpVariable with an initializer, it
/// looks at none, and the number of the kind does not matter.
pub fn first_initialized(
    alloc: Global,
    definitions: &Definitions,
    front: &Front,
    linkage: Option<u32>,
    said: &Said,
) -> Result<Option<u32>, AllocError>
    requires count { front.now.count ≤ length definitions.now }
    requires early { AreEarly definitions.now front.now.count }
    requires kinds { AreKinds definitions.now front.now.count front.now.kinds }
    requires spans { AreSpans definitions.now front.now.count front.now.spans }
    requires said { AreSaid linkage definitions.now said.now }
    ensures { (G : Table) → (front.now.kinds.initialized ≡ true → linkage ≡ number_named G (codes "LinkageType"))
        → IfOk result (IsFirstBelow front.now.count (IsInitialized G definitions.now)) }
{
    if !front.kinds.initialized {
        return Ok(None);
    }
    let imported = imported(alloc, definitions, front, linkage, said)?;
    for number in 0..front.count {
        if is_initialized(definitions, &imported, number) {
            return Ok(Some(number));
        }
    }
    Ok(None)
}
