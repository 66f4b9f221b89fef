//! The first condition that does not hold.

ghost use Rattle.std.specs.Prelude.{◌≡◌, ◌-◌, ◌<◌, length};
ghost use Rattle.spv_module.specs.Module.{plain_inst};
ghost use Rattle.spv_conditions.specs.Asks as spec;
ghost use Rattle.spv_conditions.specs.Chain.{first_index as first_spec};
ghost use Rattle.spv_conditions.specs.declared.asked.Asked.TheVariants as asked;
ghost use Rattle.spv_conditions.specs.declared.asked.Rest.TheVariants as rest;
ghost use Rattle.spv_type_kinds.specs.declared.kinds.Kind.TheVariants as kind;
ghost use Rattle.spv_conditions.specs.declared.seat.Seat.TheVariants as seat;
ghost use Rattle.spv_conditions.specs.inner.Direct.{HoldsDirectly};
ghost use Rattle.spv_conditions.specs.inner.Failing.{IsFirstIn};

use crate::asked::{Asked, Asks, Each, Rest};
use crate::chain::{first_index, leads_past, stops_of};
use crate::decide::holds;
use crate::seat::Seat;
use spv_module::Inst;
use spv_type_forms::Definitions;
use spv_type_kinds::{Kind, Relation};

/// The condition of the value of a number.
fn of_each(each: Each, k: u32) -> Asked
    ensures { result ≡ spec.of_each each k }
{
    match each {
        Each::Same => Asked::Relation {
            relation: Relation::Same,
            of: Seat::Value(k),
            to: Seat::Result,
        },
        Each::Share => Asked::Rest(Rest::Share(k)),
        Each::Part => Asked::Rest(Rest::Part(k)),
    }
}

/// The first of the conditions of each value that does not hold, if one does not.
fn first_of_each(
    definitions: &Definitions,
    number: u32,
    inst: &Inst,
    r: Option<u32>,
    types: &[u32],
    each: Each,
) -> Option<Asked>
    requires number { number < length definitions.now }
    requires few { length types.now < 4294967296 }
    ensures { IsFirstIn (HoldsDirectly definitions.now number (plain_inst inst.now) r types.now)
        (spec.each_from each 0 (length types.now)) result }
{
    let count = types.len() as u32;
    for k in 0..count {
        let asked = of_each(each, k);
        if !holds(definitions, number, inst, r, types, asked) {
            return Some(asked);
        }
    }
    None
}

/// The value of a number is an int.
fn is_index(k: u32) -> Asked
    ensures { result ≡ asked.Kind kind.Int (seat.Value k) }
{
    Asked::Kind {
        kind: Kind::Int,
        of: Seat::Value(k),
    }
}

/// The index of a number leads to a part.
fn is_chosen(element: bool, index: u32) -> Asked
    ensures { result ≡ asked.Rest (rest.Chosen element index) }
{
    Asked::Rest(Rest::Chosen { element, index })
}

/// The first of the conditions of the indexes of an access chain that does not hold, if one does not. The indexes are
/// followed once, before the conditions are looked at.
fn first_of_indexes(
    definitions: &Definitions,
    number: u32,
    inst: &Inst,
    r: Option<u32>,
    types: &[u32],
    element: bool,
) -> Option<Asked>
    requires number { number < length definitions.now }
    requires few { length types.now < 4294967296 }
    ensures { let first = first_spec element in
        IsFirstIn (HoldsDirectly definitions.now number (plain_inst inst.now) r types.now)
        (spec.indexes_from element first (length types.now - first)) result }
{
    let stops = stops_of(definitions, inst, types);
    let first = first_index(element);
    let count = types.len() as u32;
    for k in first..count {
        let asked = is_index(k);
        if !holds(definitions, number, inst, r, types, asked) {
            return Some(asked);
        }
        if !leads_past(stops, element, k - first) {
            return Some(is_chosen(element, k - first));
        }
    }
    None
}

/// The first condition of a part of a line that does not hold, if one does not.
fn first_of(
    definitions: &Definitions,
    number: u32,
    inst: &Inst,
    r: Option<u32>,
    types: &[u32],
    asks: Asks,
) -> Option<Asked>
    requires number { number < length definitions.now }
    requires few { length types.now < 4294967296 }
    ensures { IsFirstIn (HoldsDirectly definitions.now number (plain_inst inst.now) r types.now)
        (spec.asked_by asks (length types.now)) result }
{
    match asks {
        Asks::Once(asked) => {
            if holds(definitions, number, inst, r, types, asked) {
                None
            } else {
                Some(asked)
            }
        }
        Asks::Each(each) => first_of_each(definitions, number, inst, r, types, each),
        Asks::Indexes { element } => {
            first_of_indexes(definitions, number, inst, r, types, element)
        }
    }
}

/// The first condition of a line of the table that does not hold at the instruction of a number, if one does not: of
/// its result type, if it has one, and of the types of its value operands in order. That a type matches another is not
/// decided here, and counts as not holding.
///
/// Time is linear in the operands and the conditions.
pub fn first_failing(
    definitions: &Definitions,
    number: u32,
    inst: &Inst,
    r: Option<u32>,
    types: &[u32],
    line: &[Asks],
) -> Option<Asked>
    requires number { number < length definitions.now }
    requires few { length types.now < 4294967296 }
    ensures { IsFirstIn (HoldsDirectly definitions.now number (plain_inst inst.now) r types.now)
        (spec.conditions_in line.now (length types.now)) result }
{
    for k in 0..line.len() {
        if let Some(asked) = first_of(definitions, number, inst, r, types, line[k]) {
            return Some(asked);
        }
    }
    None
}
