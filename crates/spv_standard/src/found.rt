//! A broken rule and where, and which of two is told.

ghost use Rattle.std.specs.Prelude.{◌≡◌, ◌↔◌, IsTrue};
ghost use Rattle.spv_layout.specs.First as first;
ghost use Rattle.spv_standard.specs.inner.Earlier.{ComesBefore, IsEarlier};
ghost use Rattle.spv_standard.specs.inner.Found as spec;

use spv_module::Rule;

/// A rule that is broken, and the number of the instruction, from 0.
#[derive(Clone, Copy)]
pub struct Found {
    pub rule: Rule,
    pub inst: u32,
}

/// The place of a rule in the order in which rules are told.
fn rank_of(rule: Rule) -> u8
    ensures { result ≡ first.rank_of rule }
{
    rule as u8
}

/// Whether one is told before another, or both are the same.
fn is_before(one: Found, other: Found) -> bool
    ensures { IsTrue result ↔ ComesBefore one other }
{
    if one.inst == other.inst {
        return rank_of(one.rule) <= rank_of(other.rule);
    }
    one.inst < other.inst
}

/// Of two answers the one that is told: the one at the lower instruction, and at one instruction the one whose rule
/// comes first in the order of rules.
pub fn earlier(one: Option<Found>, other: Option<Found>) -> Option<Found>
    ensures { IsEarlier one other result }
{
    let Some(first) = one else {
        return other;
    };
    let Some(second) = other else {
        return one;
    };
    if is_before(first, second) { one } else { other }
}

/// The answer of a pass that asks one rule.
pub fn found_by(rule: Rule, inst: Option<u32>) -> Option<Found>
    ensures { result ≡ spec.found_by rule inst }
{
    match inst {
        Some(inst) => Some(Found { rule, inst }),
        None => None,
    }
}
