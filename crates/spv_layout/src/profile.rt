//! What a profile has of the table of shapes, and how a module goes on under it.

ghost use Rattle.std.specs.Prelude.{◌≡◌};
ghost use Rattle.spv_layout.specs.Rows.{row_of};
ghost use Rattle.spv_layout.specs.Profile as profiles;
ghost use Rattle.spv_layout.specs.Layout.{class_under};
ghost use Rattle.spv_layout.specs.inner.State.{next_of};

use crate::rows::row;
use crate::state::{State, next_seen};
use spv_module::Profile;

/// Whether a profile has the rows that belong to another.
#[inline(always)]
pub fn includes(profile: Profile, other: Profile) -> bool
    ensures { result ≡ profiles.includes profile other }
{
    match (profile, other) {
        (Profile::Own, Profile::OpenCl) => false,
        _ => true,
    }
}

/// Whether a profile has a row for an opcode.
pub fn has_row(profile: Profile, opcode: u16) -> bool
    ensures { result ≡ profiles.has_row profile (row_of opcode) }
{
    match row(opcode) {
        Some(row) => includes(profile, row.profile),
        None => false,
    }
}

/// The state after an instruction of an opcode under a profile; none where no module goes on so.
pub fn next_under(profile: Profile, state: State, opcode: u16) -> Option<State>
    ensures { result ≡ next_of state (class_under profile opcode) }
{
    let Some(row) = row(opcode) else {
        return None;
    };
    if includes(profile, row.profile) {
        next_seen(profile, state, row.class)
    } else {
        None
    }
}
