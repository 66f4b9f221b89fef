//! How far a front of a module has come in the layout, and which opcodes may come there.

ghost use Rattle.std.specs.Prelude.{◌≡◌, IfOk, MatchOption, map};
ghost use Rattle.spv_module.specs.Module.{plain_inst};
ghost use Rattle.spv_layout.specs.Layout.{BeginsLayout, seen_classes};
ghost use Rattle.spv_form_evidence.specs.layout.inner.Automaton as automaton;
ghost use Rattle.spv_form_evidence.specs.layout.inner.Automaton.{LeadsTo, followers};

use spv_layout::{State, next_under};
use spv_module::{Inst, Profile, opcode};
use std::alloc::{AllocError, Global};

/// The number past the opcodes that a profile has.
fn opcodes_of(profile: Profile) -> u16
    ensures { result ≡ automaton.opcodes_of profile }
{
    match profile {
        Profile::Own => opcode::MODULE_PROCESSED + 1,
        Profile::OpenCl => opcode::MEMBER_DECORATE_STRING + 1,
    }
}

/// The state after instructions under a profile; none where they begin no module.
pub fn state_after(profile: Profile, insts: &[Inst<'_>]) -> Option<State>
    ensures { MatchOption result (¬ (BeginsLayout (seen_classes profile (map plain_inst insts.now))))
        (λ s. LeadsTo (seen_classes profile (map plain_inst insts.now)) s) }
{
    let mut state = State::Capabilities;
    for inst in insts {
        let Some(after) = next_under(profile, state, inst.opcode) else {
            return None;
        };
        state = after;
    }
    Some(state)
}

/// Whether an instruction of an opcode may come at a state.
fn may_follow(profile: Profile, state: State, opcode: u16) -> bool
    ensures { result ≡ automaton.may_follow profile state opcode }
{
    next_under(profile, state, opcode).is_some()
}

/// The opcodes that a profile has and that may come at a state, in order.
///
/// The error comes when out of memory.
pub fn opcodes_at(alloc: Global, profile: Profile, state: State) -> Result<Vec<u32>, AllocError>
    ensures { IfOk result (λ v. v.items ≡ followers profile state (automaton.opcodes_of profile)) }
{
    let mut opcodes = Vec::new(alloc);
    for opcode in 0..opcodes_of(profile) {
        if may_follow(profile, state, opcode) {
            opcodes.push(u32::from(opcode))?;
        }
    }
    Ok(opcodes)
}
