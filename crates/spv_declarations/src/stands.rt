//! Whether a decoration may stand on an id.

ghost use Rattle.std.specs.Prelude.{◌≡◌, ◌↔◌, ℕ, IsTrue, Some, map};
ghost use Rattle.spv_module.specs.Module.{plain_inst};
ghost use Rattle.spv_module.specs.Width.{definition_of};
ghost use Rattle.spv_declarations.specs.Table as spec;
ghost use Rattle.spv_declarations.specs.declared.table.Further.TheVariants as further;
ghost use Rattle.spv_declarations.specs.inner.Said.{IsKnown};
ghost use Rattle.spv_declarations.specs.inner.Table as inner;

use crate::table::{Further, Line, NEVER_ON_MEMBERS, TABLE, is_among, is_listed, is_opcode_among};
use spv_module::Inst;
use spv_type_forms::{Definitions, Form, Sort, has_sort, type_in};

/// Whether the type of an id that an instruction defines is a pointer type.
fn is_pointer(definitions: &Definitions, inst: &Inst<'_>) -> bool
    ensures { (x : ℕ) → definition_of definitions.now x ≡ Some (plain_inst inst.now)
        → IsTrue result ↔ spec.IsAsked definitions.now further.Pointer x }
{
    let Some(t) = type_in(inst.operands.as_slice()) else {
        return false;
    };
    match definitions.form(t) {
        Some(Form::Pointer { .. }) => true,
        _ => false,
    }
}

/// Whether the type of an id is an int type or a vector of ints.
fn has_ints(definitions: &Definitions, x: u32) -> bool
    ensures { IsTrue result ↔ spec.IsAsked definitions.now further.Ints x }
{
    match definitions.type_of(x) {
        Some(t) => has_sort(definitions, Sort::Int, t),
        None => false,
    }
}

/// Whether an id that an instruction defines is what a line asks besides its opcode.
fn is_asked(definitions: &Definitions, further: Further, inst: &Inst<'_>, x: u32) -> bool
    requires { definition_of definitions.now x ≡ Some (plain_inst inst.now) }
    ensures { IsTrue result ↔ spec.IsAsked definitions.now further x }
{
    match further {
        Further::Nothing => true,
        Further::Pointer => is_pointer(definitions, inst),
        Further::Global => definitions.is_global(x),
        Further::Ints => has_ints(definitions, x),
    }
}

/// Whether an id that an instruction defines is such a one as a line says.
#[inline(always)]
fn is_such(definitions: &Definitions, line: &Line, inst: &Inst<'_>, x: u32) -> bool
    requires { definition_of definitions.now x ≡ Some (plain_inst inst.now) }
    ensures { IsTrue result ↔ inner.IsOfLine definitions.now (inner.line line.now) (plain_inst inst.now).opcode x }
{
    is_opcode_among(line.1, inst.opcode) && is_asked(definitions, line.2, inst, x)
}

/// Whether a decoration is never one of members.
pub fn is_never_on_members(d: u32) -> bool
    ensures { IsTrue result ↔ spec.IsNeverOnMembers d }
{
    is_among(NEVER_ON_MEMBERS, d)
}

/// Whether a decoration is on some line, or is never one of members.
pub fn is_known(d: u32) -> bool
    ensures { IsTrue result ↔ IsKnown d }
{
    is_listed(d) || is_never_on_members(d)
}

/// Whether an id, which an instruction defines, is such a one as one of some lines says that the decoration is on.
fn is_on_some(definitions: &Definitions, lines: &[Line], d: u32, inst: &Inst<'_>, x: u32) -> bool
    requires { definition_of definitions.now x ≡ Some (plain_inst inst.now) }
    ensures { IsTrue result ↔ inner.IsOnLine definitions.now (map inner.line lines.now) d (plain_inst inst.now).opcode
        x }
{
    for line in lines {
        if is_among(line.0, d) && is_such(definitions, line, inst, x) {
            return true;
        }
    }
    false
}

/// Whether a decoration may stand on an id (SPIR-V Specification 1.6, section 3.20): it is on no line of table T, or
/// the id is such a one as one of its lines says. It takes no memory.
pub fn stands_on(definitions: &Definitions, d: u32, x: u32) -> bool
    ensures { IsTrue result ↔ spec.StandsOn definitions.now d x }
{
    match definitions.definition(x) {
        Some(inst) => is_on_some(definitions, &TABLE, d, inst, x) || !is_listed(d),
        None => !is_listed(d),
    }
}
