//! Calls that are in an order, so that none is on a cycle.

ghost use Rattle.std.specs.Prelude.{◌<◌, IsTrue};
ghost use Rattle.spv_flow.specs.calls.inner.Ordered.{Leads, AllLead, AreFalling, AreAcyclic};

use crate::calls::components::number_at;
use crate::calls::graph::Call;

/// Which way calls lead in the module.
#[derive(Clone, Copy)]
pub enum Way {
    /// To a function before the caller.
    Back,
    /// To a function after the caller.
    On,
}

/// Whether a call leads one way.
#[inline(always)]
fn leads(call: Call, way: Way) -> bool
    ensures { IsTrue result → Leads way call }
{
    match way {
        Way::Back => call.callee < call.caller,
        Way::On => call.caller < call.callee,
    }
}

/// Whether each call leads one way.
fn all_lead(calls: &[Call], way: Way) -> bool
    ensures { IsTrue result → AllLead way calls.now }
{
    for call in calls {
        if !leads(*call, way) {
            return false;
        }
    }
    true
}

/// Whether all calls lead back in the module, or all lead on. False says nothing of cycles.
pub fn are_ordered(calls: &[Call]) -> bool
    ensures { IsTrue result → AreAcyclic calls.now }
{
    all_lead(calls, Way::Back) || all_lead(calls, Way::On)
}

/// Whether each call leads to a lower component.
pub fn are_falling(calls: &[Call], numbers: &[u32]) -> bool
    ensures { IsTrue result → AreFalling calls.now numbers.now }
{
    for call in calls {
        if number_at(numbers, call.caller) <= number_at(numbers, call.callee) {
            return false;
        }
    }
    true
}
