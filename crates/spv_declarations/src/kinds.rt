//! Which kinds of instructions stand before the functions. Each instruction is asked, so tests are joined by `|` and
//! `&`, which take no branch.

ghost use Rattle.std.specs.Prelude.{◌≡◌, ◌↔◌, ◌<◌, ◌≤◌, IsTrue, false, length, true};
ghost use Rattle.spv_module.specs.Module.{plain_inst};
ghost use Rattle.spv_declarations.specs.Given.{is_decorate};
ghost use Rattle.spv_declarations.specs.inner.Kinds as spec;
ghost use Rattle.spv_declarations.specs.inner.Kinds.{AreKinds, Notes};
ghost use Rattle.spv_declarations.specs.inner.Spans.{AreSpans, Widens};

use crate::capable::declares_bytes;
use crate::decorated::{given, is_decorate, is_grouping, is_of_member, is_of_parts};
use crate::entry::takes_id;
use crate::initialized::initialized_by;
use crate::said::LINKAGE_ATTRIBUTES;
use crate::second::{ALIASED, RESTRICT};
use crate::spans::Spans;
use spv_module::{Inst, opcode};
use spv_type_forms::Definitions;

/// Which kinds of instructions there are among some. Where a field is false, there is none of that kind, so that the
/// rules that speak of it are not broken.
#[derive(Clone, Copy)]
pub struct Kinds {
    /// An OpEntryPoint.
    pub entry: bool,
    /// Two of them.
    pub entries: bool,
    /// An OpExecutionMode with an id behind its mode.
    pub by_id: bool,
    /// One that names or decorates a member.
    pub members: bool,
    /// An OpGroupDecorate or OpGroupMemberDecorate.
    pub groups: bool,
    /// One that gives an id Restrict.
    pub restricted: bool,
    /// One that gives an id Aliased.
    pub aliased: bool,
    /// One that gives an id LinkageAttributes.
    pub linked: bool,
    /// An OpVariable with an initializer.
    pub initialized: bool,
    /// An OpTypeForwardPointer.
    pub forward: bool,
    /// One that declares an int of 8 bits.
    pub bytes: bool,
}

/// Whether an opcode is that of a kind that says nothing of ids or members, and no OpEntryPoint.
#[inline(always)]
fn is_other(number: u16) -> bool
    ensures { result ≡ spec.is_other number }
{
    let of_types = (number == opcode::TYPE_FORWARD_POINTER) | (number == opcode::TYPE_INT);
    of_types | ((number == opcode::VARIABLE) | (number == opcode::EXECUTION_MODE))
}

/// Whether an instruction is an OpVariable with an initializer.
#[inline(always)]
fn initializes(inst: &Inst<'_>) -> bool
    ensures { IsTrue result ↔ spec.Initializes (plain_inst inst.now) }
{
    match initialized_by(inst) {
        Some(_) => true,
        None => false,
    }
}

impl Kinds {
    /// Takes note of an instruction that decorates an id.
    #[inline(always)]
    fn note_given(&mut self, inst: &Inst<'_>)
        requires { is_decorate (plain_inst inst.now).opcode ≡ true }
        ensures { Notes self.old self.new (plain_inst inst.now) }
    {
        let Some((_, decoration)) = given(inst) else {
            return;
        };
        self.restricted |= decoration == RESTRICT;
        self.aliased |= decoration == ALIASED;
        self.linked |= decoration == LINKAGE_ATTRIBUTES;
    }

    /// Takes note of an instruction that decorates no id.
    #[inline(never)]
    fn note_other(&mut self, inst: &Inst<'_>)
        requires { is_decorate (plain_inst inst.now).opcode ≡ false }
        ensures { Notes self.old self.new (plain_inst inst.now) }
    {
        let enters = inst.opcode == opcode::ENTRY_POINT;
        self.entries |= self.entry & enters;
        self.entry |= enters;
        self.by_id |= takes_id(inst);
        self.members |= is_of_member(inst.opcode);
        self.groups |= is_grouping(inst.opcode);
        self.initialized |= initializes(inst);
        self.forward |= inst.opcode == opcode::TYPE_FORWARD_POINTER;
        self.bytes |= declares_bytes(inst);
    }
}

/// Takes note of the instruction of a number. Those of most opcodes are of no kind.
#[inline(always)]
fn note(kinds: &mut Kinds, spans: &mut Spans, number: u32, inst: &Inst<'_>)
    requires { number < 4294967295 }
    ensures kinds { Notes kinds.old kinds.new (plain_inst inst.now) }
    ensures spans { Widens number spans.old spans.new (plain_inst inst.now) }
{
    if is_decorate(inst.opcode) {
        kinds.note_given(inst);
        spans.widen(number);
    } else if is_of_parts(inst.opcode) {
        kinds.note_other(inst);
        spans.widen(number);
    } else if inst.opcode == opcode::ENTRY_POINT {
        kinds.note_other(inst);
        spans.enter(number);
    } else if is_other(inst.opcode) {
        kinds.note_other(inst);
    }
}

/// Which kinds of instructions there are among the first `count`, and where they stand. It takes no memory.
pub fn kinds_among(definitions: &Definitions, count: u32) -> (Kinds, Spans)
    requires { count ≤ length definitions.now }
    ensures kinds { AreKinds definitions.now count result.0 }
    ensures spans { AreSpans definitions.now count result.1 }
{
    let mut kinds = Kinds {
        entry: false,
        entries: false,
        by_id: false,
        members: false,
        groups: false,
        restricted: false,
        aliased: false,
        linked: false,
        initialized: false,
        forward: false,
        bytes: false,
    };
    let mut spans = Spans {
        from: 0,
        to: 0,
        entries: 0,
    };
    for number in 0..count {
        note(&mut kinds, &mut spans, number, definitions.inst(number));
    }
    (kinds, spans)
}
