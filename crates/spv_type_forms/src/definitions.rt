//! What the ids of a module stand for.

ghost use Rattle.std.specs.Prelude.{◌≡◌, ◌≢◌, ◌↔◌, ◌<◌, ℕ, IfOk, IfSome, IsTrue, IsSome, IsSomeAnd, Some, length, map};
ghost use Rattle.std.specs.Prelude.{option_map, option_and_then, slice_get};
ghost use Rattle.spv_table.specs.Table.{Table};
ghost use Rattle.spv_module.specs.declared.opcode.TheConstants as opcode;
ghost use Rattle.spv_module.specs.Width as width;
ghost use Rattle.spv_module.specs.Width.{definition_of};
ghost use Rattle.spv_module.specs.Module.{plain_inst, plain_insts, plain_operands};
ghost use Rattle.spv_module.specs.Operand as operand;
ghost use Rattle.spv_layout.specs.Place.{AreFew};
ghost use Rattle.spv_layout.specs.Plan.{IsPlan, IsPlaceOf};
ghost use Rattle.spv_ids.specs.Outcome.{IsDefinitionOf, IsOnly, definition_in};
ghost use Rattle.spv_type_forms.specs.Form.{form_of};
ghost use Rattle.spv_type_forms.specs.Types.{scalar_in, components_of, pointee_in};
ghost use Rattle.spv_type_forms.specs.inner.Definitions as definitions;
ghost use Rattle.spv_type_forms.specs.inner.Parts.{element_in};
ghost use Rattle.spv_type_forms.specs.inner.Meaning.{AreMeant, IsMeant};
ghost use Rattle.spv_type_forms.specs.Definitions.{IsConstant, IsGlobal};
ghost use Rattle.spv_type_forms.specs.Objects.{addressing_of, size_in};

use crate::form::{Components, Form, Scalar, array_in, form_in};
use crate::meaning::{Meaning, note_in};
use crate::objects::addressing;
use spv_ids::Ids;
use spv_layout::{Place, Plan};
use spv_module::{Inst, Module, Operand, opcode};
use std::alloc::{AllocError, Global};
use std::marker::Model;

/// The number of section 9 among the sections.
pub const DECLARATIONS: u8 = 11;

/// The instructions of a module, where each stands, and which of them defines each id. Contracts see the instructions.
#[derive(Drop)]
pub struct Definitions<'m, 'a> {
    insts: &'m [Inst<'a>],
    plan: &'m Plan,
    ids: &'m Ids,
    /// By id what is noted of it, as far as the list goes.
    meanings: &'m [Meaning],
    /// The addressing model: the first operand of the OpMemoryModel.
    addressing: Option<u32>,
}

impl<'m, 'a> Model for Definitions<'m, 'a> {
    ghost use Rattle.std.specs.Prelude.{List, map};
    ghost use Rattle.spv_module.specs.Operand.{PlainInst};
    ghost use Rattle.spv_module.specs.Module.{plain_inst};
    ghost use Rattle.spv_type_forms.specs.inner.Found.{AreFound};

    ghost Value = { List PlainInst };

    ghost view = { λ d. map plain_inst d.insts.now };

    ghost invariant = { λ d. AreFound (map plain_inst d.insts.now) d.plan.now d.ids.now
        d.meanings.now d.addressing };
}

impl<'m, 'a> Definitions<'m, 'a> {
    /// The definitions of a module that is laid out and whose ids are numbered.
    #[inline(always)]
    pub fn new(insts: &'m [Inst<'a>], plan: &'m Plan, ids: &'m Ids) -> Definitions<'m, 'a>
        requires plan { (G : Table) × IsPlan G (map plain_inst insts.now) plan.now }
        requires ids { (x : ℕ) → IsDefinitionOf (map plain_inst insts.now) x (definition_in ids.now x) }
        ensures { result ≡ map plain_inst insts.now }
    {
        Definitions {
            insts,
            plan,
            ids,
            meanings: &[],
            addressing: addressing(insts),
        }
    }

    /// The same definitions, with what is noted of their ids: what `meanings` answered of them.
    #[inline(always)]
    pub fn noted<'n>(&'n self, meanings: &'n [Meaning]) -> Definitions<'n, 'a>
        requires { AreMeant self.now meanings.now }
        ensures { result ≡ self.now }
    {
        Definitions {
            insts: self.insts,
            plan: self.plan,
            ids: self.ids,
            meanings,
            addressing: self.addressing,
        }
    }

    /// Notes what the instruction of a number says of its result, where the list has a place for it.
    #[inline(always)]
    fn note(&self, number: u32, meanings: &mut [Meaning])
        requires number { number < length self.now }
        requires meanings { AreMeant self.now meanings.old }
        ensures { AreMeant self.now meanings.new }
    {
        let Some(note) = note_in(&self.insts[number as usize]) else {
            return;
        };
        let place = note.id as usize;
        if place < meanings.len() {
            meanings[place] = note.meaning;
        }
    }

    /// What each id stands for, by id: of as many ids as there are instructions, so that in most modules none is left
    /// out. Rules that ask much of ids read it there.
    ///
    /// An `AllocError` comes only where a growth of memory was refused.
    #[inline(never)]
    pub fn meanings(&self, alloc: Global) -> Result<Vec<Meaning>, AllocError>
        requires { AreFew self.now }
        ensures { IfOk result (λ ms. AreMeant self.now ms.items) }
    {
        let mut meanings = vec![in alloc; Meaning::Unknown; self.insts.len()]?;
        for number in 0..self.insts.len() as u32 {
            self.note(number, meanings.as_mut_slice());
        }
        Ok(meanings)
    }

    /// The instruction of a number.
    #[inline(always)]
    pub fn inst(&self, number: u32) -> &'m Inst<'a>
        requires { number < length self.now }
        ensures { slice_get self.now number ≡ Some (plain_inst result.now) }
    {
        &self.insts[number as usize]
    }

    /// Where the instruction of a number stands.
    #[inline(always)]
    pub fn place(&self, number: u32) -> Place
        requires { number < length self.now }
        ensures { IsPlaceOf self.now number result }
    {
        let Some(place) = self.plan.at(number) else {
            unreachable!();
        };
        place
    }

    /// The number of the instruction that defines an id.
    #[inline(always)]
    pub fn number(&self, id: u32) -> Option<u32>
        ensures { IsDefinitionOf self.now id result }
    {
        self.ids.definition(id)
    }

    /// The definition of an id: the instruction whose result it is.
    #[inline(always)]
    pub fn definition(&self, id: u32) -> Option<&'m Inst<'a>>
        ensures { option_map (λ i. plain_inst i.now) result ≡ definition_of self.now id }
    {
        let number = self.ids.definition(id)?;
        self.insts.get(number as usize)
    }

    /// Whether the instruction of a number is an OpVariable of section 9.
    fn is_global_at(&self, number: u32) -> bool
        requires { number < length self.now }
        ensures { (x : ℕ) → IsOnly self.now x number → IsTrue result ↔ IsGlobal self.now x }
    {
        is_global_variable(self.inst(number), self.place(number))
    }

    /// Whether the definition of an id is an OpVariable of section 9.
    pub fn is_global(&self, id: u32) -> bool
        ensures { IsTrue result ↔ IsGlobal self.now id }
    {
        match self.ids.definition(id) {
            Some(number) => self.is_global_at(number),
            None => false,
        }
    }

    /// What a type id declares, by its definition.
    #[inline(never)]
    fn defined_form(&self, id: u32) -> Option<Form>
        ensures { result ≡ form_of self.now id }
    {
        form_in(self.definition(id)?)
    }

    /// The element type of an array type, by its definition. None where the id is that of no array type.
    #[inline(never)]
    pub(crate) fn defined_element(&self, id: u32) -> Option<u32>
        ensures { IfSome result (λ e. option_and_then element_in (form_of self.now id) ≡ Some e) }
    {
        let inst = self.definition(id)?;
        if inst.opcode != opcode::TYPE_ARRAY {
            return None;
        }
        match array_in(inst.operands.as_slice()) {
            Some(Form::Array { element, .. }) => Some(element),
            _ => None,
        }
    }

    /// What is noted of an id.
    #[inline(always)]
    pub(crate) fn meaning(&self, id: u32) -> Meaning
        ensures { IsMeant self.now id result }
    {
        match self.meanings.get(id as usize) {
            Some(meaning) => *meaning,
            None => Meaning::Unknown,
        }
    }

    /// Whether it is noted of an id that it is a type. Of some types nothing is noted.
    #[inline(always)]
    pub fn is_noted_type(&self, id: u32) -> bool
        ensures { IsTrue result → IsSome (form_of self.now id) }
    {
        self.meaning(id).is_type()
    }

    /// Whether it is noted of an id that it is a value, other than a function. Of some values nothing is noted.
    #[inline(always)]
    pub fn is_noted_value(&self, id: u32) -> bool
        ensures { IsTrue result → IsSomeAnd (definition_of self.now id)
            (λ i. IsSome (operand.type_in i.operands) × (i.opcode ≢ opcode.FUNCTION)) }
    {
        match self.meaning(id).value_type() {
            Some(_t) => true,
            None => false,
        }
    }

    /// What a type id declares. It is for where it is asked for at most instructions: `form` is the same.
    #[inline(always)]
    pub fn read_form(&self, id: u32) -> Option<Form>
        ensures { result ≡ form_of self.now id }
    {
        match self.meaning(id).form() {
            Some(form) => Some(form),
            None => self.defined_form(id),
        }
    }

    /// What a type id declares.
    pub fn form(&self, id: u32) -> Option<Form>
        ensures { result ≡ form_of self.now id }
    {
        self.read_form(id)
    }

    /// How wide a size is, in bits: 32 where the addressing model is Physical32, 64 where it is Physical64.
    #[inline(always)]
    pub fn size_width(&self) -> Option<u32>
        ensures { result ≡ option_and_then size_in (addressing_of self.now) }
    {
        match self.addressing? {
            1 => Some(32),
            2 => Some(64),
            _ => None,
        }
    }

    /// The scalar type that an id declares.
    fn scalar(&self, id: u32) -> Option<Scalar>
        ensures { result ≡ scalar_in (form_of self.now id) }
    {
        match self.read_form(id)? {
            Form::Scalar(scalar) => Some(scalar),
            _ => None,
        }
    }

    /// The components of a scalar or vector type.
    pub fn components(&self, id: u32) -> Option<Components>
        ensures { result ≡ components_of self.now id }
    {
        match self.read_form(id)? {
            Form::Scalar(scalar) => Some(Components { scalar, count: 1 }),
            Form::Vector { component, count } => {
                let scalar = self.scalar(component)?;
                Some(Components { scalar, count })
            }
            _ => None,
        }
    }

    /// The type that a pointer type points to.
    pub fn pointee(&self, id: u32) -> Option<u32>
        ensures { result ≡ pointee_in (form_of self.now id) }
    {
        match self.read_form(id)? {
            Form::Pointer { pointee, .. } => Some(pointee),
            _ => None,
        }
    }

    /// The type that an id is declared with, by its definition.
    #[inline(never)]
    fn defined_type(&self, id: u32) -> Option<u32>
        ensures { result ≡ width.type_of self.now id }
    {
        let inst = self.definition(id)?;
        type_in(inst.operands.as_slice())
    }

    /// The type that an id is declared with: the `Type` of its definition.
    #[inline(always)]
    pub fn type_of(&self, id: u32) -> Option<u32>
        ensures { result ≡ width.type_of self.now id }
    {
        match self.meaning(id).value_type() {
            Some(t) => Some(t),
            None => self.defined_type(id),
        }
    }
}

/// Whether an instruction is an OpVariable, and its place of section 9.
fn is_global_variable(inst: &Inst<'_>, place: Place) -> bool
    ensures { IsTrue result ↔ (((plain_inst inst.now).opcode ≡ opcode.VARIABLE) × (place.section ≡ 11)) }
{
    inst.opcode == opcode::VARIABLE && place.section == DECLARATIONS
}

/// Whether an opcode is that of a constant.
pub fn is_constant_opcode(number: u16) -> bool
    ensures { result ≡ definitions.is_constant_opcode number }
{
    match number {
        opcode::CONSTANT_TRUE..=opcode::CONSTANT_NULL
        | opcode::SPEC_CONSTANT_TRUE..=opcode::SPEC_CONSTANT_COMPOSITE
        | opcode::CONSTANT_PIPE_STORAGE => true,
        _ => false,
    }
}

/// Whether the definition of an id is a constant.
pub fn is_constant(definitions: &Definitions, x: u32) -> bool
    ensures { IsTrue result ↔ IsConstant definitions.now x }
{
    match definitions.definition(x) {
        Some(inst) => is_constant_opcode(inst.opcode),
        None => false,
    }
}

/// The first `Type` of the operands.
#[inline(always)]
pub fn type_in(operands: &[Operand]) -> Option<u32>
    ensures { result ≡ operand.type_in (plain_operands operands.now) }
{
    match operands {
        [Operand::OfType(id), ..] => Some(*id),
        _ => type_among(operands),
    }
}

/// The first `Type` of the operands, wherever it stands.
#[inline(never)]
fn type_among(operands: &[Operand]) -> Option<u32>
    ensures { result ≡ operand.type_in (plain_operands operands.now) }
{
    for operand in operands {
        if let Operand::OfType(id) = operand {
            return Some(*id);
        }
    }
    None
}
