//! O6: names and decorations of members.

ghost use Rattle.std.specs.Prelude.{◌↔◌, ◌≤◌, IsTrue, length};
ghost use Rattle.spv_module.specs.Module.{plain_inst};
ghost use Rattle.spv_declarations.specs.Declarations.{IsOfNoMember, NamesNoMember};
ghost use Rattle.spv_declarations.specs.inner.First.{IsFirstBelow};
ghost use Rattle.spv_declarations.specs.inner.Kinds.{AreKinds};

use crate::built_in::member_count;
use crate::decorated::member_of;
use crate::kinds::Kinds;
use spv_module::Inst;
use spv_type_forms::Definitions;

/// Whether an instruction names or decorates a member that is not there.
fn is_of_no_member(definitions: &Definitions, inst: &Inst<'_>) -> bool
    ensures { IsTrue result ↔ NamesNoMember definitions.now (plain_inst inst.now) }
{
    match member_of(inst) {
        Some((t, member)) => member as usize >= member_count(definitions, t),
        None => false,
    }
}

/// The first of the first `count` instructions that breaks O6 (SPIR-V Specification 1.6, sections 3.49.2 and 3.49.3).
/// It takes no memory.
pub fn first_of_no_member(definitions: &Definitions, kinds: &Kinds, count: u32) -> Option<u32>
    requires count { count ≤ length definitions.now }
    requires kinds { AreKinds definitions.now count kinds.now }
    ensures { IsFirstBelow count (IsOfNoMember definitions.now) result }
{
    if !kinds.members {
        return None;
    }
    for number in 0..count {
        if is_of_no_member(definitions, definitions.inst(number)) {
            return Some(number);
        }
    }
    None
}
