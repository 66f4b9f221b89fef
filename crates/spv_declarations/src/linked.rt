//! O9: the linkage of an entry point's function.

ghost use Rattle.std.specs.Prelude.{◌≡◌, ◌↔◌, ◌≤◌, ℕ, IfOk, IsTrue, OnOk, Option, Some, length};
ghost use Rattle.spv_module.specs.Module.{plain_inst, plain_operands};
ghost use Rattle.spv_capabilities.specs.Entry as spec;
ghost use Rattle.spv_declarations.specs.Decorated.{IsLinkedEntry};
ghost use Rattle.spv_declarations.specs.Given.{Gives, NamesTarget};
ghost use Rattle.spv_declarations.specs.inner.Early.{AreEarly};
ghost use Rattle.spv_declarations.specs.inner.First.{IsFirstBelow};
ghost use Rattle.spv_declarations.specs.inner.Kinds.{AreKinds};
ghost use Rattle.spv_declarations.specs.inner.Said.{AreSaid, HasAt};
ghost use Rattle.spv_declarations.specs.inner.Sets.{Adds, AnyId, HasAll, HasBoth, IsIn, IsOf};
ghost use Rattle.spv_declarations.specs.inner.Spans.{AreSpans};

use crate::decorated::{behind_first, given, group_of, is_group};
use crate::front::Front;
use crate::said::{LINKAGE_ATTRIBUTES, Said};
use crate::sets::put;
use crate::spans::Spans;
use spv_module::{Inst, Operand, opcode};
use spv_type_forms::Definitions;
use std::alloc::{AllocError, Global};
use std::collections::BTreeSet;

/// The function that the operands of an OpEntryPoint name.
fn second_id(operands: &[Operand<'_>]) -> Option<u32>
    ensures { result ≡ spec.second_id (plain_operands operands.now) }
{
    match operands {
        [Operand::Value { .. }, Operand::Id(f), ..] => Some(*f),
        _ => None,
    }
}

/// The function that an OpEntryPoint names.
pub fn entered_by(inst: &Inst<'_>) -> Option<u32>
    ensures { result ≡ spec.entered_by (plain_inst inst.now) }
{
    if inst.opcode == opcode::ENTRY_POINT {
        second_id(inst.operands.as_slice())
    } else {
        None
    }
}

/// Adds the function that an OpEntryPoint names.
fn add_entered(entered: &mut BTreeSet<u32>, inst: &Inst<'_>) -> Result<(), AllocError>
    ensures { OnOk result (Adds (λ x. spec.entered_by (plain_inst inst.now) ≡ Some x) entered.old entered.new) }
{
    match entered_by(inst) {
        Some(f) => put(entered, f),
        None => Ok(()),
    }
}

/// The functions that OpEntryPoints name.
fn entered(
    alloc: Global,
    definitions: &Definitions,
    spans: &Spans,
    count: u32,
) -> Result<BTreeSet<u32>, AllocError>
    requires count { count ≤ length definitions.now }
    requires early { AreEarly definitions.now count }
    requires spans { AreSpans definitions.now count spans.now }
    ensures { IfOk result (HasAll definitions.now (λ i x. spec.entered_by i ≡ Some x)) }
{
    let mut entered = BTreeSet::new(alloc);
    for number in 0..spans.entries {
        add_entered(&mut entered, definitions.inst(number))?;
    }
    Ok(entered)
}

/// Whether one of some targets is among these functions.
fn is_one_among(entered: &BTreeSet<u32>, targets: &[Operand<'_>]) -> bool
    ensures { IsTrue result ↔ AnyId (IsIn entered.now) (plain_operands targets.now) }
{
    for target in targets {
        if let Operand::Id(x) = target {
            if entered.contains(x) {
                return true;
            }
        }
    }
    false
}

/// Whether one of these functions is a target of a group that has LinkageAttributes.
fn links_target(said: &Said, entered: &BTreeSet<u32>, inst: &Inst<'_>) -> bool
    ensures { IsTrue result ↔ ((x g : ℕ) × IsIn entered.now x × NamesTarget (plain_inst inst.now) g x
        × HasBoth said.now.pairs g 41) }
{
    match group_of(inst, opcode::GROUP_DECORATE) {
        Some(group) => {
            said.has(group, LINKAGE_ATTRIBUTES) && is_one_among(entered, behind_first(inst))
        }
        None => false,
    }
}

/// Whether one of these functions has LinkageAttributes by an instruction of the module.
fn links(definitions: &Definitions, said: &Said, entered: &BTreeSet<u32>, inst: &Inst<'_>) -> bool
    requires said { (l : Option ℕ) × AreSaid l definitions.now said.now }
    requires inst { IsOf definitions.now (plain_inst inst.now) }
    ensures { IsTrue result ↔ ((x : ℕ) × IsIn entered.now x
        × HasAt definitions.now (Gives 41) x (plain_inst inst.now)) }
{
    match given(inst) {
        Some((x, decoration)) => {
            decoration == LINKAGE_ATTRIBUTES && entered.contains(&x) && !is_group(definitions, x)
        }
        None => links_target(said, entered, inst),
    }
}

/// The first of the instructions before the functions that breaks O9 (SPIR-V Specification 1.6, section 2.16.1).
///
/// Time is near-linear in the words of these instructions. Where none of them names a group or gives LinkageAttributes,
/// it looks at none.
pub fn first_linked(
    alloc: Global,
    definitions: &Definitions,
    front: &Front,
    said: &Said,
) -> Result<Option<u32>, AllocError>
    requires count { front.now.count ≤ length definitions.now }
    requires kinds { AreKinds definitions.now front.now.count front.now.kinds }
    requires spans { AreSpans definitions.now front.now.count front.now.spans }
    requires early { AreEarly definitions.now front.now.count }
    requires said { (l : Option ℕ) × AreSaid l definitions.now said.now }
    ensures { IfOk result (IsFirstBelow front.now.count (IsLinkedEntry definitions.now)) }
{
    if !(front.kinds.groups | front.kinds.linked) {
        return Ok(None);
    }
    let entered = entered(alloc, definitions, &front.spans, front.count)?;
    for number in front.spans.from..front.spans.to {
        if links(definitions, said, &entered, definitions.inst(number)) {
            return Ok(Some(number));
        }
    }
    Ok(None)
}
