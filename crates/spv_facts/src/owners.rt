//! Whose a type is that is told: the operands of an instruction that are of it. How many parts it has.
ghost use Rattle.std.specs.Prelude.{◌≡◌, ◌<◌, ◌≤◌, ℕ, [], None, Some, get_or, length, map, option_map, unwrap_or, IfOk};
ghost use Rattle.std.specs.Prelude.{◌++◌, ◌∷◌, OnOk, nat_eq, if◌then◌else◌, option_and_then, slice_get, take};
ghost use Rattle.spv_table.specs.Lookups.{is_number};
ghost use Rattle.spv_module.specs.Module.{plain_inst, plain_insts, plain_operand, plain_operands};
ghost use Rattle.spv_layout.specs.Place.{AreFew};
ghost use Rattle.spv_facts.specs.Definition.{defined_by, definition_from};
ghost use Rattle.spv_facts.specs.Owners as owners;
ghost use Rattle.spv_facts.specs.Owners.{places_from, types_at};
ghost use Rattle.spv_facts.specs.inner.Owned.{listed, listed_of, AreOwners};

use crate::about::About;
use spv_evidence::Condition;
use spv_module::{Inst, Operand, opcode};
use spv_type_kinds::function_type_in;
use std::alloc::{AllocError, Global};
use std::collections::BTreeMap;

/// More operands than an instruction can have, which has at most 65,535 words.
const MOST: usize = 65_535;

/// Whether a type is this one.
fn is_type(of: u32, found: Option<u32>) -> bool
    ensures { result ≡ is_number of found }
{
    match found {
        Some(found) => found == of,
        None => false,
    }
}

/// The numbers of the operands of a type, where these are the types of a few.
fn places_of_few(alloc: Global, of: u32, types: &[Option<u32>]) -> Result<Vec<u32>, AllocError>
    requires { length types.now ≤ 65535 }
    ensures { IfOk result (λ v. v.items ≡ places_from of 0 types.now) }
{
    let mut places = Vec::new(alloc);
    let mut place = 0u32;
    for found in types {
        if is_type(of, *found) {
            places.push(place)?;
        }
        place += 1;
    }
    Ok(places)
}

/// The types of as many operands as an instruction can have.
fn first_types(types: &[Option<u32>]) -> &[Option<u32>]
    ensures value { result.now ≡ take 65535 types.now }
    ensures few { length result.now ≤ 65535 }
{
    if types.len() > MOST {
        return &types[..MOST];
    }
    types
}

/// For each type the numbers of the operands that are of it.
#[derive(Drop)]
pub struct Owners {
    places: BTreeMap<u32, Vec<u32>>,
}

impl Owners {
    /// Notes an operand that is of a type.
    fn note(&mut self, alloc: Global, of: u32, place: u32) -> Result<(), AllocError>
        ensures { OnOk result ((t : ℕ) → listed self.new t
            ≡ (if nat_eq of t then listed self.old t ++ place ∷ [] else listed self.old t)) }
    {
        let mut list = match self.places.remove(&of) {
            Some(list) => list,
            None => Vec::new(alloc),
        };
        list.push(place)?;
        self.places.insert(of, list)?;
        Ok(())
    }

    /// The operands of each type, where these are the types of a few.
    fn of_few(alloc: Global, types: &[Option<u32>]) -> Result<Owners, AllocError>
        requires { length types.now ≤ 65535 }
        ensures { IfOk result (λ o. (t : ℕ) → listed o t ≡ places_from t 0 types.now) }
    {
        let mut owners = Owners {
            places: BTreeMap::new(alloc),
        };
        let mut place = 0u32;
        for found in types {
            if let Some(of) = *found {
                owners.note(alloc, of, place)?;
            }
            place += 1;
        }
        Ok(owners)
    }

    /// The operands of each type, where these are the types of all.
    ///
    /// Time is that of a look-up in a map for each operand.
    pub fn of(alloc: Global, types: &[Option<u32>]) -> Result<Owners, AllocError>
        ensures { IfOk result (λ o. AreOwners o types.now) }
    {
        let few = first_types(types);
        Owners::of_few(alloc, few)
    }

    /// The numbers of the operands of a type, if there is one.
    pub fn places(&self, of: Option<u32>) -> &[u32]
        ensures { result.now ≡ listed_of self.now of }
    {
        let Some(of) = of else {
            return &[];
        };
        match self.places.get(&of) {
            Some(list) => list.as_slice(),
            None => &[],
        }
    }
}

/// The numbers of the operands of a type, if there is one, where these are the types of all.
///
/// Time is linear in the operands.
pub fn places_in(
    alloc: Global,
    of: Option<u32>,
    types: &[Option<u32>],
) -> Result<Vec<u32>, AllocError>
    ensures { IfOk result (λ v. v.items ≡ owners.places_in of types.now) }
{
    let Some(of) = of else {
        return Ok(Vec::new(alloc));
    };
    let few = first_types(types);
    places_of_few(alloc, of, few)
}

/// The type of that operand, if there is one.
fn type_at(types: &[Option<u32>], operand: u32) -> Option<u32>
    ensures { result ≡ get_or types.now operand None }
{
    match types.get(operand as usize) {
        Some(found) => *found,
        None => None,
    }
}

/// The number of an operand, if it is one and of a type.
pub fn own_place(
    alloc: Global,
    of: u32,
    operand: Option<u32>,
    types: &[Option<u32>],
) -> Result<Vec<u32>, AllocError>
    ensures { IfOk result (λ v. v.items ≡ owners.own_place of operand types.now) }
{
    let mut places = Vec::new(alloc);
    let Some(operand) = operand else {
        return Ok(places);
    };
    if is_type(of, type_at(types, operand)) {
        places.push(operand)?;
    }
    Ok(places)
}

/// Leaves out the type of an operand, if it is one.
pub fn leave_out(types: &mut Vec<Option<u32>>, operand: Option<u32>)
    ensures { types.new.items ≡ owners.without operand types.old.items }
{
    let Some(operand) = operand else {
        return;
    };
    let place = operand as usize;
    if place < types.len() {
        types[place] = None;
    }
}

/// A number that the ids of operands are below.
fn room_for(operands: &[Operand<'_>]) -> usize {
    let mut room: usize = 0;
    for operand in operands {
        if let Operand::Id(id) = *operand {
            room = room.max(id as usize + 1);
        }
    }
    room
}

/// How many components the operands of an OpTypeVector tell.
fn vector_count(operands: &[Operand<'_>]) -> Option<u32>
    ensures { result ≡ owners.vector_count (plain_operands operands.now) }
{
    match operands {
        [_, _, Operand::Word(count), ..] => Some(*count),
        _ => None,
    }
}

/// The number of a constant, where it is below 4,294,967,296.
fn short_number(operands: &[Operand<'_>]) -> Option<u32>
    ensures { result ≡ owners.short_number (plain_operands operands.now) }
{
    match operands {
        [
            Operand::OfType(_),
            Operand::Result(_),
            Operand::Number { low, high, .. },
            ..
        ] if *high == 0 => Some(*low),
        _ => None,
    }
}

/// Whether the number of parts is told of the type that is found where a condition fails.
pub fn tells_size(condition: Condition) -> bool
    ensures { result ≡ owners.tells_size condition }
{
    matches!(
        condition,
        Condition::Chosen
            | Condition::Within
            | Condition::Count
            | Condition::ComponentCount
            | Condition::Filled
    )
}

/// The type that an instruction gives the id that it defines, if it gives one.
fn given_type(inst: &Inst<'_>) -> Option<u32>
    ensures { result ≡ owners.given_type (plain_inst inst.now) }
{
    match inst.opcode {
        opcode::FUNCTION => function_type_in(inst),
        _ => inst.type_id(),
    }
}

impl<'m, 'a> About<'m, 'a> {
    /// The first instruction that defines an id, where these are those of the ids below a number.
    fn definition_in(&self, found: &[Option<u32>], id: u32) -> Option<u32>
        requires few { AreFew (plain_insts self.now.«module».now) }
        requires found { (x : ℕ) → x < length found.now
            → get_or found.now x None ≡ definition_from x 0 (plain_insts self.now.«module».now) }
        ensures { result ≡ definition_from id 0 (plain_insts self.now.«module».now) }
    {
        match found.get(id as usize) {
            Some(definition) => *definition,
            None => self.definition_of(id),
        }
    }

    /// The type of an id that this instruction defines, or the id, where it has none.
    fn type_by(&self, definition: Option<u32>, id: u32) -> u32
        ensures { result ≡ unwrap_or (option_and_then owners.given_type
            (option_and_then (slice_get (plain_insts self.now.«module».now)) definition)) id }
    {
        let Some(at) = definition else {
            return id;
        };
        match self.inst(at) {
            Some(inst) => given_type(inst).unwrap_or(id),
            None => id,
        }
    }

    /// The type of an operand, where these are the definitions of the ids below a number.
    fn operand_type(&self, found: &[Option<u32>], operand: Operand<'_>) -> Option<u32>
        requires few { AreFew (plain_insts self.now.«module».now) }
        requires found { (x : ℕ) → x < length found.now
            → get_or found.now x None ≡ definition_from x 0 (plain_insts self.now.«module».now) }
        ensures { result ≡ owners.operand_type (plain_insts self.now.«module».now) (plain_operand operand.entry) }
    {
        match operand {
            Operand::OfType(of) => Some(of),
            Operand::Id(id) => Some(self.type_by(self.definition_in(found, id), id)),
            _ => None,
        }
    }

    /// The types of operands. Time is linear in the instructions, besides the operands; memory in the greatest id.
    fn operand_types(&self, operands: &[Operand<'_>]) -> Result<Vec<Option<u32>>, AllocError>
        requires few { AreFew (plain_insts self.now.«module».now) }
        ensures { IfOk result (λ v. v.items ≡ map (owners.operand_type (plain_insts self.now.«module».now))
            (plain_operands operands.now)) }
    {
        let found = self.definitions(room_for(operands))?;
        let mut types = Vec::new(self.alloc);
        for operand in operands {
            types.push(self.operand_type(&found, *operand))?;
        }
        Ok(types)
    }

    /// The types of the operands of an instruction.
    pub fn types_at(&self, inst: u32) -> Result<Vec<Option<u32>>, AllocError>
        requires few { AreFew (plain_insts self.now.«module».now) }
        ensures { IfOk result (λ v. v.items ≡ types_at (plain_insts self.now.«module».now) inst) }
    {
        match self.inst(inst) {
            Some(inst) => self.operand_types(inst.operands.as_slice()),
            None => Ok(Vec::new(self.alloc)),
        }
    }

    /// The first instruction that defines an id.
    fn defined_by(&self, id: u32) -> Option<&'m Inst<'a>>
        requires few { AreFew (plain_insts self.now.«module».now) }
        ensures { option_map (λ i. plain_inst i.now) result ≡ defined_by (plain_insts self.now.«module».now) id }
    {
        match self.definition_of(id) {
            Some(at) => self.inst(at),
            None => None,
        }
    }

    /// How many elements the operands of an OpTypeArray tell.
    fn array_count(&self, operands: &[Operand<'_>]) -> Option<u32>
        requires few { AreFew (plain_insts self.now.«module».now) }
        ensures { result ≡ owners.array_count (plain_insts self.now.«module».now) (plain_operands operands.now) }
    {
        match operands {
            [_, _, Operand::Id(length), ..] => match self.defined_by(*length) {
                Some(inst) => short_number(inst.operands.as_slice()),
                None => None,
            },
            _ => None,
        }
    }

    /// How many parts the type has that an instruction declares.
    fn size_in(&self, inst: &Inst<'_>) -> Option<u32>
        requires few { AreFew (plain_insts self.now.«module».now) }
        ensures { result ≡ owners.size_in (plain_insts self.now.«module».now) (plain_inst inst.now) }
    {
        let operands = inst.operands.as_slice();
        match inst.opcode {
            opcode::TYPE_VECTOR => vector_count(operands),
            opcode::TYPE_ARRAY => self.array_count(operands),
            opcode::TYPE_STRUCT => Some((operands.len() as u32).saturating_sub(1)),
            _ => None,
        }
    }

    /// How many parts a type has.
    pub fn size_of(&self, of: u32) -> Option<u32>
        requires few { AreFew (plain_insts self.now.«module».now) }
        ensures { result ≡ owners.size_of (plain_insts self.now.«module».now) of }
    {
        match self.defined_by(of) {
            Some(inst) => self.size_in(inst),
            None => None,
        }
    }
}
