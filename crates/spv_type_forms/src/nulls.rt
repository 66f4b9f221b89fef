//! Types without a null value.

ghost use Rattle.std.specs.Prelude.{◌≡◌, ◌<◌, ◌↔◌, ℕ, List, IfOk, OnOk, IsTrue, length, slice_get, option_and_then};
ghost use Rattle.spv_type_forms.specs.Parts.{id_in};
ghost use Rattle.spv_module.specs.Operand.{PlainInst};
ghost use Rattle.spv_module.specs.Module.{plain_operands};
ghost use Rattle.spv_layout.specs.Place.{AreFew};
ghost use Rattle.spv_ids.specs.Outcome.{IsOnly};
ghost use Rattle.spv_type_forms.specs.Null as spec;
ghost use Rattle.spv_type_forms.specs.Null.{IsNullable, LacksNull};
ghost use Rattle.spv_type_forms.specs.inner.Null.{AreLacking, AreNulls, LacksBefore, MemberLacks, OneLacks};

use crate::definitions::Definitions;
use crate::form::Form;
use crate::parts::members;
use spv_module::Operand;
use spv_type_kinds::Object;
use std::alloc::{AllocError, Global};

/// Whether objects have no null value.
fn lacks_null(object: Object) -> bool
    ensures { result ≡ spec.lacks_null object }
{
    match object {
        Object::Image
        | Object::Sampler
        | Object::Pipe
        | Object::PipeStorage
        | Object::NamedBarrier => true,
        Object::Event | Object::DeviceEvent | Object::ReserveId | Object::Queue => false,
    }
}

/// Whether a type has no null value, and is declared by one of the first instructions, of which that is known.
fn lacks_before(definitions: &Definitions, lacks: &[bool], u: u32) -> bool
    requires { AreLacking definitions.now lacks.now }
    ensures { IsTrue result ↔ LacksBefore definitions.now (length lacks.now) u }
{
    match definitions.number(u) {
        Some(number) => {
            let at = number as usize;
            if at < lacks.len() { lacks[at] } else { false }
        }
        None => false,
    }
}

/// The id that a member is.
fn id_at(members: &[Operand], k: usize) -> Option<u32>
    ensures { result ≡ option_and_then id_in (slice_get (plain_operands members.now) k) }
{
    match members.get(k)? {
        Operand::Id(x) => Some(*x),
        _ => None,
    }
}

/// Whether a member is the id of such a type.
fn member_lacks(definitions: &Definitions, lacks: &[bool], members: &[Operand], k: usize) -> bool
    requires { AreLacking definitions.now lacks.now }
    ensures { IsTrue result ↔ MemberLacks definitions.now (length lacks.now) (plain_operands members.now) k }
{
    match id_at(members, k) {
        Some(u) => lacks_before(definitions, lacks, u),
        None => false,
    }
}

/// Whether a member is the id of such a type, whichever.
fn one_lacks(definitions: &Definitions, lacks: &[bool], members: &[Operand]) -> bool
    requires { AreLacking definitions.now lacks.now }
    ensures { IsTrue result ↔ OneLacks definitions.now (length lacks.now) (plain_operands members.now) }
{
    for k in 0..members.len() {
        if member_lacks(definitions, lacks, members, k) {
            return true;
        }
    }
    false
}

/// Whether a type has no null value, that is declared by the instruction after the first, of which that is known.
fn lacks_next(definitions: &Definitions, lacks: &[bool], t: u32) -> bool
    requires { AreLacking definitions.now lacks.now }
    ensures { IsOnly definitions.now t (length lacks.now) → IsTrue result ↔ LacksNull definitions.now t }
{
    match definitions.form(t) {
        Some(Form::Object(object)) => lacks_null(object),
        Some(Form::Array { element, .. }) => lacks_before(definitions, lacks, element),
        Some(Form::Struct) => match members(definitions, t) {
            Some(members) => one_lacks(definitions, lacks, members),
            None => false,
        },
        _ => false,
    }
}

/// Whether the instruction after those of which that is known declares a type that has no null value.
fn next_lacks(definitions: &Definitions, lacks: &[bool]) -> bool
    requires few { AreFew definitions.now }
    requires lacks { AreLacking definitions.now lacks.now }
    requires next { length lacks.now < length definitions.now }
    ensures { (t : ℕ) → IsOnly definitions.now t (length lacks.now) → IsTrue result ↔ LacksNull definitions.now t }
{
    match definitions.inst(lacks.len() as u32).result_id() {
        Some(t) => lacks_next(definitions, lacks, t),
        None => false,
    }
}

/// The types of a module that have no null value, as far as they were asked for.
#[derive(Drop)]
pub struct Nulls {
    /// By the number of an instruction whether it declares one, of the first instructions.
    lacks: Vec<bool>,
}

impl Nulls {
    /// Nothing was asked.
    pub fn new(alloc: Global) -> Nulls
        ensures { (is : List PlainInst) → AreNulls is result }
    {
        Nulls {
            lacks: Vec::new(alloc),
        }
    }

    /// Finds out of each instruction up to the one of a number whether it declares a type that has no null value.
    ///
    /// An `AllocError` comes only where a growth of memory was refused.
    fn find(&mut self, definitions: &Definitions, number: u32) -> Result<(), AllocError>
        requires few { AreFew definitions.now }
        requires lacks { AreLacking definitions.now self.old.lacks.items }
        requires number { number < length definitions.now }
        ensures lacks { OnOk result (AreLacking definitions.now self.new.lacks.items) }
        ensures found { OnOk result (number < length self.new.lacks.items) }
    {
        while self.lacks.len() <= number as usize {
            let next = next_lacks(definitions, self.lacks.as_slice());
            self.lacks.push(next)?;
        }
        Ok(())
    }

    /// Whether a type has no null value.
    fn is_lacking(&mut self, definitions: &Definitions, t: u32) -> Result<bool, AllocError>
        requires few { AreFew definitions.now }
        requires lacks { AreLacking definitions.now self.old.lacks.items }
        ensures answer { IfOk result (λ b. IsTrue b ↔ LacksNull definitions.now t) }
        ensures lacks { OnOk result (AreLacking definitions.now self.new.lacks.items) }
    {
        match definitions.number(t) {
            Some(number) => {
                self.find(definitions, number)?;
                Ok(self.lacks[number as usize])
            }
            None => Ok(false),
        }
    }

    /// Whether a type is a data type that has a null value. What was found out is kept: time is linear in the words of
    /// the instructions up to the type's declaration, once, and else constant.
    ///
    /// An `AllocError` comes only where a growth of memory was refused.
    pub fn is_nullable(&mut self, definitions: &Definitions, t: u32) -> Result<bool, AllocError>
        requires few { AreFew definitions.now }
        requires nulls { AreNulls definitions.now self.old }
        ensures answer { IfOk result (λ b. IsTrue b ↔ IsNullable definitions.now t) }
        ensures nulls { OnOk result (AreNulls definitions.now self.new) }
    {
        match definitions.form(t) {
            Some(Form::Scalar(_) | Form::Vector { .. } | Form::Pointer { .. }) => Ok(true),
            Some(Form::Object(object)) => Ok(!lacks_null(object)),
            Some(Form::Array { .. } | Form::Struct) => {
                let lacks = self.is_lacking(definitions, t)?;
                Ok(!lacks)
            }
            _ => Ok(false),
        }
    }
}
