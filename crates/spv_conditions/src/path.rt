//! Where literal indexes lead.

ghost use Rattle.std.specs.Prelude.{◌≡◌, ◌<◌, ◌↔◌, IsTrue, length};
ghost use Rattle.spv_module.specs.Module.{plain_operand, plain_operands};
ghost use Rattle.spv_type_kinds.specs.Operands.{words_in};
ghost use Rattle.spv_type_forms.specs.Reach.{AreWithin};
ghost use Rattle.spv_conditions.specs.Path as spec;

use spv_module::Operand;
use spv_type_forms::{Definitions, count, parts_of};

/// The type of a part of a type, if it has so many parts.
pub fn part_within(definitions: &Definitions, t: u32, k: u32) -> Option<u32>
    ensures { result ≡ spec.part_within definitions.now t k }
{
    if u64::from(k) < count(definitions, t)? {
        parts_of(definitions, t).at(k as usize)
    } else {
        None
    }
}

/// The type that the literals among the operands lead to as indexes, as far as each is that of a part.
pub fn reached_by(definitions: &Definitions, t: u32, operands: &[Operand]) -> u32
    ensures { result ≡ spec.reached_by definitions.now (words_in (plain_operands operands.now)) t }
{
    let mut at = t;
    for operand in operands {
        if let Operand::Word(k) = operand {
            let Some(u) = part_within(definitions, at, *k) else {
                return at;
            };
            at = u;
        }
    }
    at
}

/// The type that an operand leads to, if it does.
fn led_by(definitions: &Definitions, operand: Operand<'_>, t: u32) -> Option<u32>
    ensures { result ≡ spec.led_by definitions.now (plain_operand operand.entry) t }
{
    match operand {
        Operand::Word(k) => part_within(definitions, t, k),
        _ => Some(t),
    }
}

/// The number of the first operand that is the index of no part.
pub fn stop_at(definitions: &Definitions, t: u32, operands: &[Operand]) -> Option<u32>
    requires { length operands.now < 4294967296 }
    ensures { result ≡ spec.stop_at definitions.now 0 (plain_operands operands.now) t }
{
    let mut at = t;
    let mut number = 0;
    for operand in operands {
        let Some(u) = led_by(definitions, *operand, at) else {
            return Some(number);
        };
        at = u;
        number += 1;
    }
    None
}

/// Whether each literal among the operands is the index of a part.
pub fn are_within(definitions: &Definitions, t: u32, operands: &[Operand]) -> bool
    requires { length operands.now < 4294967296 }
    ensures { IsTrue result ↔ AreWithin definitions.now t (words_in (plain_operands operands.now)) }
{
    match stop_at(definitions, t, operands) {
        Some(_) => false,
        None => true,
    }
}
