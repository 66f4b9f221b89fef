//! What indexes reach.

ghost use Rattle.std.specs.Prelude.{◌≡◌, ◌↔◌, Some, IsTrue, true};
ghost use Rattle.std.specs.List.{list_all};
ghost use Rattle.spv_module.specs.Module.{plain_operands};
ghost use Rattle.spv_type_kinds.specs.Operands.{words_in, ids_in};
ghost use Rattle.spv_type_forms.specs.Reach.{ReachesType, AreWithin};
ghost use Rattle.spv_type_forms.specs.inner.Reach.{LeadsToType};
ghost use Rattle.spv_type_forms.specs.inner.Tests.{has_int};
ghost use Rattle.spv_type_forms.specs.inner.Walk.{walk, int_choices};

use crate::definitions::Definitions;
use crate::parts::{led_by_ints, reached};
use spv_module::Operand;

/// Whether the literals among the operands lead to a type, each below the number of parts at its place.
fn walks(definitions: &Definitions, t: u32, operands: &[Operand], u: u32) -> bool
    ensures { IsTrue result ↔ (walk definitions.now (words_in (plain_operands operands.now)) t ≡ Some u) }
{
    match reached(definitions, t, operands) {
        Some(to) => to == u,
        None => false,
    }
}

/// Whether the literals among the operands reach a type, each below the number of parts at its place.
pub fn reaches(definitions: &Definitions, t: u32, operands: &[Operand], u: u32) -> bool
    ensures { IsTrue result ↔ (AreWithin definitions.now t (words_in (plain_operands operands.now))
        × ReachesType definitions.now t (words_in (plain_operands operands.now)) u) }
{
    walks(definitions, t, operands, u)
}

/// Whether the indexes, all ints, go from a type to another, one after another.
fn goes_by_ints(definitions: &Definitions, from: u32, indexes: &[Operand], to: u32) -> bool
    ensures { IsTrue result ↔ (int_choices definitions.now (ids_in (plain_operands indexes.now)) from ≡ Some to) }
{
    match led_by_ints(definitions, from, indexes) {
        Some(t) => t == to,
        None => false,
    }
}

/// Whether the indexes all stand for ints, and lead from a type to another.
pub fn leads_by_ints(definitions: &Definitions, from: u32, indexes: &[Operand], to: u32) -> bool
    ensures { IsTrue result ↔ ((list_all (has_int definitions.now) (ids_in (plain_operands indexes.now)) ≡ true)
        × LeadsToType definitions.now from (ids_in (plain_operands indexes.now)) to) }
{
    goes_by_ints(definitions, from, indexes, to)
}
