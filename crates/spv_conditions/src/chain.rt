//! Where the indexes of an access chain lead.

ghost use Rattle.std.specs.Prelude.{◌≡◌, ◌↔◌, IsTrue, option_map, take};
ghost use Rattle.spv_module.specs.Module.{plain_inst, plain_operands};
ghost use Rattle.spv_type_kinds.specs.Operands.{ids_in};
ghost use Rattle.spv_type_kinds.specs.Operands as of_operands;
ghost use Rattle.spv_type_forms.specs.Parts.{constant_of, part_of};
ghost use Rattle.spv_conditions.specs.Chain as spec;
ghost use Rattle.spv_conditions.specs.Stops as stop;
ghost use Rattle.spv_conditions.specs.Stops.{AreStops, IsBefore};

use spv_module::{Inst, Operand, opcode};
use spv_type_forms::{Definitions, Form, after_head, length, parts_of};

/// The number of the value that is the first index, from 0.
pub fn first_index(element: bool) -> u32
    ensures { result ≡ spec.first_index element }
{
    if element { 2 } else { 1 }
}

/// What follows the first of the ids at the front.
fn after_first<'o, 'a>(ids: &'o [Operand<'a>]) -> Option<&'o [Operand<'a>]>
    ensures { option_map (λ os. ids_in (plain_operands os.now)) result
        ≡ spec.after_first (ids_in (plain_operands ids.now)) }
{
    match ids {
        [Operand::Id(_), rest @ ..] => Some(rest),
        _ => None,
    }
}

/// The indexes among the ids at the front.
fn indexes_in<'o, 'a>(ids: &'o [Operand<'a>], element: bool) -> Option<&'o [Operand<'a>]>
    ensures { option_map (λ os. ids_in (plain_operands os.now)) result
        ≡ spec.indexes_in element (ids_in (plain_operands ids.now)) }
{
    let rest = after_first(ids)?;
    if element {
        after_first(rest)
    } else {
        Some(rest)
    }
}

/// What the base points to.
pub fn base_in(definitions: &Definitions, types: &[u32]) -> Option<u32>
    ensures { result ≡ spec.base_in definitions.now types.now }
{
    match types {
        [base, ..] => definitions.pointee(*base),
        [] => None,
    }
}

/// The number of an OpConstant.
fn constant(definitions: &Definitions, id: u32) -> Option<u64>
    ensures { result ≡ constant_of definitions.now id }
{
    let inst = definitions.definition(id)?;
    match inst.opcode {
        opcode::CONSTANT => length(definitions, id),
        _ => None,
    }
}

/// The type of a part.
fn part(definitions: &Definitions, t: u32, k: u64) -> Option<u32>
    ensures { result ≡ part_of definitions.now t k }
{
    parts_of(definitions, t).at(k as usize)
}

/// The type of the part that an index chooses.
pub fn chosen(definitions: &Definitions, t: u32, x: u32) -> Option<u32>
    ensures { result ≡ spec.chosen_of definitions.now t x }
{
    match definitions.form(t)? {
        Form::Struct => part(definitions, t, constant(definitions, x)?),
        _ => part(definitions, t, 0),
    }
}

/// The first operands, as many as asked for.
pub fn front<'o, 'a>(operands: &'o [Operand<'a>], count: usize) -> &'o [Operand<'a>]
    ensures { ids_in (plain_operands result.now) ≡ take count (ids_in (plain_operands operands.now)) }
{
    if count < operands.len() {
        &operands[..count]
    } else {
        operands
    }
}

/// The type that indexes lead to from a type.
fn led_from(definitions: &Definitions, indexes: &[Operand], t: u32) -> Option<u32>
    ensures { result ≡ spec.led_from definitions.now (ids_in (plain_operands indexes.now)) t }
{
    let mut at = t;
    for operand in indexes {
        let Operand::Id(x) = operand else {
            return Some(at);
        };
        at = chosen(definitions, at, *x)?;
    }
    Some(at)
}

/// The ids at the front of what follows the result.
pub fn indexes_of<'i, 'a>(inst: &'i Inst<'a>, element: bool) -> Option<&'i [Operand<'a>]>
    ensures { option_map (λ os. ids_in (plain_operands os.now)) result
        ≡ spec.indexes_in element (ids_in (of_operands.after_head (plain_inst inst.now).operands)) }
{
    indexes_in(after_head(inst.operands.as_slice()), element)
}

/// The type that the first indexes of a chain lead to.
pub fn led_by(
    definitions: &Definitions,
    inst: &Inst,
    types: &[u32],
    element: bool,
    count: usize,
) -> Option<u32>
    ensures { result ≡ spec.led_by definitions.now element
        (ids_in (of_operands.after_head (plain_inst inst.now).operands)) types.now count }
{
    let indexes = indexes_of(inst, element)?;
    let t = base_in(definitions, types)?;
    led_from(definitions, front(indexes, count), t)
}

/// Where the indexes of an access chain stop: the number of the first that chooses no part, from 0, if there is one. It
/// is 0 too where the ids of the chain are too few, or its base is no pointer.
#[derive(Clone, Copy)]
pub struct Stops {
    /// Where an element stands before the indexes.
    with_element: Option<usize>,
    /// Where none does.
    without: Option<usize>,
}

/// The number of the first of some indexes that chooses no part, from a type on.
fn stop_from(definitions: &Definitions, indexes: &[Operand], t: u32) -> Option<usize>
    ensures { result ≡ stop.stop_from definitions.now 0 (ids_in (plain_operands indexes.now)) t }
{
    let mut at = t;
    let mut number = 0;
    for operand in indexes {
        let Operand::Id(x) = operand else {
            return None;
        };
        let Some(next) = chosen(definitions, at, *x) else {
            return Some(number);
        };
        at = next;
        number += 1;
    }
    None
}

/// The same from what a base points to.
fn stop_of(
    definitions: &Definitions,
    base: Option<u32>,
    indexes: Option<&[Operand]>,
) -> Option<usize>
    ensures { result ≡ stop.stop_of definitions.now base
        (option_map (λ os. ids_in (plain_operands os.now)) indexes.entry) }
{
    let Some(t) = base else {
        return Some(0);
    };
    let Some(indexes) = indexes else {
        return Some(0);
    };
    stop_from(definitions, indexes, t)
}

/// Where the indexes of a chain stop.
pub fn stops_of(definitions: &Definitions, inst: &Inst, types: &[u32]) -> Stops
    ensures { AreStops definitions.now (plain_inst inst.now) types.now result }
{
    let base = base_in(definitions, types);
    Stops {
        with_element: stop_of(definitions, base, indexes_of(inst, true)),
        without: stop_of(definitions, base, indexes_of(inst, false)),
    }
}

/// Whether a number comes before one, if there is one.
fn is_before(k: usize, stop: Option<usize>) -> bool
    ensures { IsTrue result ↔ IsBefore k stop }
{
    match stop {
        Some(j) => k < j,
        None => true,
    }
}

/// Whether the indexes up to the one of a number choose parts.
pub fn leads_past(stops: Stops, element: bool, index: u32) -> bool
    ensures { IsTrue result ↔ IsBefore index (stop.stop_in element stops) }
{
    if element {
        is_before(index as usize, stops.with_element)
    } else {
        is_before(index as usize, stops.without)
    }
}

/// The type that all indexes of a chain lead to.
pub fn led_to(definitions: &Definitions, inst: &Inst, types: &[u32], element: bool) -> Option<u32>
    ensures { result ≡ spec.led_to definitions.now element
        (ids_in (of_operands.after_head (plain_inst inst.now).operands)) types.now }
{
    let indexes = indexes_of(inst, element)?;
    let t = base_in(definitions, types)?;
    led_from(definitions, indexes, t)
}
