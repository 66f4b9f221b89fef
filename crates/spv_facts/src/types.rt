//! What is told of types: each in full the first time.
ghost use Rattle.std.specs.Prelude.{◌≡◌, ◌<◌, ◌++◌, ℕ, [], ◌∷◌, get_or, length, None, set, slice_index, IfOk, OnOk};
ghost use Rattle.spv_table.specs.Lookups.{is_number};
ghost use Rattle.spv_module.specs.Operand.{result_in};
ghost use Rattle.spv_module.specs.Module.{plain_inst, plain_insts};
ghost use Rattle.spv_layout.specs.Place.{AreFew};
ghost use Rattle.spv_facts.specs.Facts as things;
ghost use Rattle.spv_facts.specs.Definition.{definition_from};
ghost use Rattle.spv_facts.specs.Facts.{read_facts, read_facts_by, type_things, types_facts};
ghost use Rattle.spv_facts.specs.inner.Parts.{kept};

use crate::about::About;
use crate::fact::{Fact, Thing};
use crate::facts::push_one;
use spv_evidence::Side;
use spv_module::Inst;
use spv_table::Listed;
use std::alloc::AllocError;

/// A number that all of these are below.
fn room_for(ids: &[u32]) -> usize
    ensures { (k : ℕ) → k < length ids.now → slice_index ids.now k < result }
{
    let mut room: usize = 0;
    for id in ids {
        let needed = *id as usize + 1;
        if needed > room {
            room = needed;
        }
    }
    room
}

/// Keeps the instruction of an id, if it has a place.
fn keep(found: &mut Vec<Option<u32>>, id: Option<u32>, inst: u32)
    ensures { found.new.items ≡ kept found.old.items id inst }
{
    let Some(id) = id else {
        return;
    };
    let place = id as usize;
    if place < found.len() {
        found[place] = Some(inst);
    }
}

/// Whether an instruction has a result.
fn has_result(inst: &Inst<'_>, id: u32) -> bool
    ensures { result ≡ is_number id (result_in (plain_inst inst.now).operands) }
{
    match inst.result_id() {
        Some(result) => result == id,
        None => false,
    }
}

/// An instruction in full, or an id that none defines.
fn thing_at(definition: Option<u32>, id: u32) -> Thing
    ensures { result ≡ things.thing_at definition id }
{
    match definition {
        Some(inst) => Thing::Inst { inst },
        None => Thing::Id { id },
    }
}

/// Adds a type: in full, if its instruction is left, which then it is no more.
fn push_type(told: &mut Vec<Thing>, left: &mut Vec<Option<u32>>, id: u32) -> Result<(), AllocError>
    requires { id < length left.old.items }
    ensures told { OnOk result (told.new.items ≡ told.old.items
        ++ (things.thing_at (get_or left.old.items id None) id ∷ [])) }
    ensures left { left.new.items ≡ set left.old.items id None }
{
    let place = id as usize;
    let found = left[place];
    left[place] = None;
    told.push(thing_at(found, id))?;
    Ok(())
}

/// Adds the fact of types, where there are some.
fn push_types_fact(facts: &mut Vec<Fact>, told: Vec<Thing>) -> Result<(), AllocError>
    ensures { OnOk result (facts.new.items ≡ facts.old.items ++ types_facts told.items) }
{
    if told.is_empty() {
        return Ok(());
    }
    push_one(
        facts,
        Fact::Types {
            things: Listed::from_vec(told),
        },
    )
}

/// Adds the fact of types that are read, with those of the operands of an instruction, where there are some.
fn push_read_fact(
    facts: &mut Vec<Fact>,
    inst: u32,
    operands: Vec<Option<u32>>,
    told: Vec<Thing>,
) -> Result<(), AllocError>
    ensures { OnOk result (facts.new.items ≡ facts.old.items ++ read_facts_by inst operands.items told.items) }
{
    if told.is_empty() {
        return Ok(());
    }
    push_one(
        facts,
        Fact::ReadTypes {
            inst,
            operands: Listed::from_vec(operands),
            things: Listed::from_vec(told),
        },
    )
}

impl<'m, 'a> About<'m, 'a> {
    /// The first instruction that defines an id.
    pub fn definition_of(&self, id: u32) -> Option<u32>
        requires few { AreFew (plain_insts self.now.«module».now) }
        ensures { result ≡ definition_from id 0 (plain_insts self.now.«module».now) }
    {
        let mut at = 0u32;
        while let Some(inst) = self.inst(at) {
            if has_result(inst, id) {
                return Some(at);
            }
            at += 1;
        }
        None
    }

    /// The first instruction that defines an id, in full.
    pub fn thing_of(&self, id: u32) -> Thing
        requires few { AreFew (plain_insts self.now.«module».now) }
        ensures { result ≡ things.thing_of (plain_insts self.now.«module».now) id }
    {
        thing_at(self.definition_of(id), id)
    }

    /// One of two things that are to be the same.
    pub fn side_thing(&self, side: Side, what: Option<u32>) -> Thing
        requires few { AreFew (plain_insts self.now.«module».now) }
        ensures { result ≡ things.side_thing (plain_insts self.now.«module».now) side what }
    {
        match (side, what) {
            (_, None) => Thing::Nothing,
            (Side::Number, Some(count)) => Thing::Count { count },
            (_, Some(id)) => self.thing_of(id),
        }
    }

    /// How many instructions there are.
    fn count(&self) -> u32
        requires few { AreFew (plain_insts self.now.«module».now) }
        ensures { result ≡ length (plain_insts self.now.«module».now) }
    {
        self.module.insts.len() as u32
    }

    /// Of each id below a number the first instruction that has it as its result.
    pub fn definitions(&self, room: usize) -> Result<Vec<Option<u32>>, AllocError>
        requires few { AreFew (plain_insts self.now.«module».now) }
        ensures room { IfOk result (λ v. length v.items ≡ room) }
        ensures found { IfOk result (λ v. (x : ℕ) → x < room
            → get_or v.items x None ≡ definition_from x 0 (plain_insts self.now.«module».now)) }
    {
        let mut found = vec![in self.alloc; None; room]?;
        let mut at = self.count();
        while at > 0 {
            at -= 1;
            keep(&mut found, self.result_of(at), at);
        }
        Ok(found)
    }

    /// What is told of types. Time is linear in the instructions, besides the ids; memory in the greatest id.
    fn types_told(&self, ids: &[u32]) -> Result<Vec<Thing>, AllocError>
        requires few { AreFew (plain_insts self.now.«module».now) }
        ensures { IfOk result (λ v. v.items ≡ type_things (plain_insts self.now.«module».now) [] ids.now) }
    {
        let mut told = Vec::new(self.alloc);
        let mut left = self.definitions(room_for(ids))?;
        for id in ids {
            push_type(&mut told, &mut left, *id)?;
        }
        Ok(told)
    }

    /// Adds the types that a condition reads at an instruction, where there are some.
    pub fn push_read(&self, facts: &mut Vec<Fact>, inst: u32, ids: &[u32]) -> Result<(), AllocError>
        requires few { AreFew (plain_insts self.now.«module».now) }
        ensures { OnOk result (facts.new.items ≡ facts.old.items ++ read_facts
            (plain_insts self.now.«module».now) inst ids.now) }
    {
        let operands = self.types_at(inst)?;
        let told = self.types_told(ids)?;
        push_read_fact(facts, inst, operands, told)
    }

    /// Adds the fact of one type.
    pub fn push_lone_type(&self, facts: &mut Vec<Fact>, thing: Thing) -> Result<(), AllocError>
        ensures { OnOk result (facts.new.items ≡ facts.old.items ++ types_facts (thing ∷ [])) }
    {
        let mut told = Vec::new(self.alloc);
        told.push(thing)?;
        push_types_fact(facts, told)
    }
}
