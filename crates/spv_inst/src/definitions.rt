ghost use Rattle.std.specs.Prelude.{◌≡◌, ◌++◌, ◌∷◌, ◌<◌, ◌≤◌, [], ℕ, List, Some, None};
ghost use Rattle.std.specs.Prelude.{false, nat_eq, slice_index_or, if◌then◌else◌, length, IfOk, OnOk, MatchOption};
ghost use Rattle.std.specs.Prelude.{option_and_then, option_map, unwrap_or};
ghost use Rattle.spv_module.specs.declared.opcode.TheConstants.{TYPE_FLOAT};
ghost use Rattle.spv_module.specs.Operand.{PlainInst};
ghost use Rattle.spv_module.specs.Operand as operand;
ghost use Rattle.spv_module.specs.Width as width;
ghost use Rattle.spv_module.specs.Width.{definition_of, width_of, type_of};
ghost use Rattle.spv_module.specs.Module.{plain_operands};
ghost use Rattle.spv_ranks.specs.Rank.{at_rank, rank_in};
ghost use Rattle.spv_inst.specs.inner.Known.{Knows, kept, kept_far};

use spv_module::{Operand, opcode, result_in, type_in};
use spv_ranks::Ranks;
use std::alloc::{AllocError, Global};
use std::collections::BTreeMap;

/// What is kept of an instruction with a result.
#[derive(Clone, Copy)]
struct Definition {
    /// Its first result type.
    type_id: Option<u32>,
    /// Whether it is an OpTypeFloat.
    is_float: bool,
    /// The width that it declares, in bits, if it is OpTypeInt or OpTypeFloat.
    width: Option<u8>,
}

/// The id of the result that operands have and that of its type, each the first of its kind. None where they have no
/// result.
#[inline(always)]
fn defined_in(operands: &[Operand]) -> Option<(u32, Option<u32>)>
    ensures { MatchOption result (operand.result_in (plain_operands operands.now) ≡ None)
        (λ p. (operand.result_in (plain_operands operands.now) ≡ Some p.0)
        × (operand.type_in (plain_operands operands.now) ≡ p.1)) }
{
    match operands {
        // Mostly they come first, or there is a result alone.
        [Operand::OfType(type_id), Operand::Result(id), ..] => Some((*id, Some(*type_id))),
        [Operand::Result(id)] => Some((*id, None)),
        _ => match result_in(operands) {
            Some(id) => Some((id, type_in(operands))),
            None => None,
        },
    }
}

/// The width that operands beginning with a result and a word tell, in bits.
fn width_in(operands: &[Operand]) -> Option<u8>
    ensures { result ≡ width.width_in (plain_operands operands.now) }
{
    match operands {
        [Operand::Result(_), Operand::Word(bits), ..] if (1..=64).contains(bits) => Some(
            *bits as u8,
        ),
        _ => None,
    }
}

/// The width that a type declaration tells, in bits.
fn declared_width(opcode: u16, operands: &[Operand]) -> Option<u8>
    ensures { result ≡ width.declared_width (record { opcode = opcode; operands = plain_operands operands.now }) }
{
    match opcode {
        opcode::TYPE_INT | opcode::TYPE_FLOAT => width_in(operands),
        _ => None,
    }
}

/// What the instructions so far tell of each id: the result type and the declared width of its last definition, and
/// whether that is an OpTypeFloat. The last definition of an id is the last instruction that has it as its result
/// (SPIR-V Specification 1.6, section 2.2.1).
///
/// An id that is defined twice breaks a rule of modules, but not one of decoding: the last definition counts.
///
/// Ids are mostly small and dense, so a list with a place for each id serves most of them; the list grows with the
/// definitions, whatever the ids.
#[derive(Drop)]
pub struct Definitions {
    /// At an id's place what is kept of it, if it was defined while the list could hold it.
    near: Vec<Option<Definition>>,
    /// The ranks of ids past the list's reach, and at each rank what is kept.
    ranks: Ranks,
    ranked: Vec<Option<Definition>>,
    /// What is kept of other ids that were past the list's reach.
    far: BTreeMap<u32, Definition>,
    /// Below which ids the list may grow to hold them, and how much further for each definition.
    reach: u32,
    step: u32,
}

/// How many ids the list holds however few definitions there are.
pub(crate) const LEAST_REACH: u32 = 1024;

/// How much further the list may reach for each definition.
const REACH_FOR_EACH: u32 = 2;

/// Gives the list a place for the id, if it has none.
fn widen(near: &mut Vec<Option<Definition>>, id: u32) -> Result<(), AllocError>
    ensures kept { (x : ℕ) → slice_index_or near.new.items x None ≡ slice_index_or near.old.items x None }
    ensures place { OnOk result (id < length near.new.items) }
{
    while near.len() <= id as usize {
        near.push(None)?;
    }
    Ok(())
}

/// Keeps what is new of the id whose place would come next in the list.
#[inline(always)]
fn push_next(
    near: &mut Vec<Option<Definition>>,
    id: u32,
    definition: Definition,
) -> Result<(), AllocError>
    requires { id ≡ length near.old.items }
    ensures { OnOk result ((x : ℕ) → slice_index_or near.new.items x None
        ≡ (if nat_eq id x then Some definition else slice_index_or near.old.items x None)) }
{
    near.push(Some(definition))?;
    Ok(())
}

impl Definitions {
    /// What no instructions tell: nothing of any id. It takes no memory.
    pub fn new(alloc: Global) -> Definitions
        ensures { Knows result [] }
    {
        Definitions {
            near: Vec::new(alloc),
            ranks: Ranks::none(alloc),
            ranked: Vec::new(alloc),
            far: BTreeMap::new(alloc),
            reach: LEAST_REACH,
            step: REACH_FOR_EACH,
        }
    }

    /// The same, with room for the ids below a bound, or for as many as the list holds from the start.
    pub(crate) fn with_room(alloc: Global, bound: u32) -> Result<Definitions, AllocError>
        ensures { IfOk result (λ d. Knows d []) }
    {
        Ok(Definitions {
            near: Vec::with_capacity(alloc, bound.min(LEAST_REACH) as usize)?,
            ranks: Ranks::none(alloc),
            ranked: Vec::new(alloc),
            far: BTreeMap::new(alloc),
            reach: LEAST_REACH,
            step: REACH_FOR_EACH,
        })
    }

    /// The same, with a list that may grow for the ids below `reach` alone, and room for those that have a rank.
    pub(crate) fn ranked(alloc: Global, reach: u32, ranks: Ranks) -> Result<Definitions, AllocError>
        ensures { IfOk result (λ d. Knows d []) }
    {
        let ranked = vec![in alloc; None; ranks.len()]?;
        Ok(Definitions {
            near: Vec::new(alloc),
            ranks,
            ranked,
            far: BTreeMap::new(alloc),
            reach,
            step: 0,
        })
    }

    /// Keeps what is new of an id. Where memory runs out, nothing is said of what is left.
    #[inline(always)]
    fn put(&mut self, id: u32, definition: Definition) -> Result<(), AllocError>
        ensures latest { OnOk result ((x : ℕ)
            → kept self.new x ≡ (if nat_eq id x then Some definition else kept self.old x)) }
        ensures reach { self.new.reach ≡ self.old.reach }
    {
        let place = id as usize;
        if id < self.reach {
            if place == self.near.len() {
                return push_next(&mut self.near, id, definition);
            }
            widen(&mut self.near, id)?;
        }
        if place < self.near.len() {
            self.near[place] = Some(definition);
            return Ok(());
        }
        // What the call takes is put together here, since most definitions do not come to it.
        self.put_far(
            id,
            Definition {
                type_id: definition.type_id,
                is_float: definition.is_float,
                width: definition.width,
            },
        )
    }

    /// Keeps what is new of an id past the list. Where memory runs out, nothing is said of what is left.
    #[cold]
    #[inline(never)]
    fn put_far(&mut self, id: u32, definition: Definition) -> Result<(), AllocError>
        requires past { length self.old.near.items ≤ id }
        ensures latest { OnOk result ((x : ℕ)
            → kept self.new x ≡ (if nat_eq id x then Some definition else kept self.old x)) }
        ensures reach { self.new.reach ≡ self.old.reach }
    {
        if let Some(place) = self.place_of(id) {
            self.ranked[place] = Some(definition);
            return Ok(());
        }
        self.far.insert(id, definition)?;
        Ok(())
    }

    /// The place of an id's rank, if it has one.
    #[inline(always)]
    fn place_of(&self, id: u32) -> Option<usize>
        ensures { MatchOption result (at_rank None self.now.ranked.items self.now.ranks id ≡ None)
            (λ k. (rank_in self.now.ranks id ≡ Some k) × (k < length self.now.ranked.items)) }
    {
        let rank = self.ranks.rank(id)?;
        if rank < self.ranked.len() {
            Some(rank)
        } else {
            None
        }
    }

    /// What is kept of an id.
    #[inline(always)]
    fn latest(&self, id: u32) -> Option<Definition>
        ensures { result ≡ kept self.now id }
    {
        match self.near.get(id as usize) {
            Some(Some(definition)) => Some(*definition),
            _ => self.latest_far(id),
        }
    }

    /// What is kept of an id at its rank or in the map.
    #[cold]
    #[inline(never)]
    fn latest_far(&self, id: u32) -> Option<Definition>
        ensures { result ≡ kept_far self.now id }
    {
        match self.at_rank(id) {
            Some(definition) => Some(definition),
            None => self.far.get(&id).copied(),
        }
    }

    /// What is kept of an id at its rank.
    fn at_rank(&self, id: u32) -> Option<Definition>
        ensures { result ≡ at_rank None self.now.ranked.items self.now.ranks id }
    {
        match self.place_of(id) {
            Some(place) => self.ranked[place],
            None => None,
        }
    }

    /// Goes on after one instruction more, of that opcode and with those operands: where it has a result, it is now the
    /// last definition of that id.
    ///
    /// An `AllocError` comes only where a growth of memory was refused, and then nothing is said of what is left.
    #[inline(always)]
    pub fn add(&mut self, opcode: u16, operands: &[Operand]) -> Result<(), AllocError>
        ensures knows { OnOk result ((before : List PlainInst) → Knows self.old before
            → Knows self.new (before ++ record { opcode = opcode; operands = plain_operands operands.now } ∷ [])) }
        // The list may grow no less than before.
        ensures reach { self.old.reach ≤ self.new.reach }
    {
        let Some((id, type_id)) = defined_in(operands) else {
            return Ok(());
        };
        let definition = Definition {
            type_id,
            is_float: opcode == opcode::TYPE_FLOAT,
            width: declared_width(opcode, operands),
        };
        self.reach = self.reach.saturating_add(self.step);
        self.put(id, definition)
    }

    /// Goes on after one instruction more, of that opcode, with that result and that type of it, if it has one, which
    /// declares a width of so many bits, if it declares one.
    ///
    /// An `AllocError` comes only where a growth of memory was refused, and then nothing is said of what is left.
    #[inline(always)]
    pub fn add_result(
        &mut self,
        opcode: u16,
        id: u32,
        type_id: Option<u32>,
        bits: Option<u8>,
    ) -> Result<(), AllocError>
        ensures knows { OnOk result ((before : List PlainInst) (i : PlainInst)
            → operand.result_in i.operands ≡ Some id → operand.type_in i.operands ≡ type_id
            → i.opcode ≡ opcode → width.declared_width i ≡ bits
            → Knows self.old before → Knows self.new (before ++ i ∷ [])) }
        ensures reach { self.old.reach ≤ self.new.reach }
    {
        let definition = Definition {
            type_id,
            is_float: opcode == opcode::TYPE_FLOAT,
            width: bits,
        };
        self.reach = self.reach.saturating_add(self.step);
        self.put(id, definition)
    }

    /// The width of a type, in bits, by its id: what its last definition declares, if that is an OpTypeInt or
    /// OpTypeFloat with a width from 1 to 64. None for any other id.
    pub fn width(&self, type_id: u32) -> Option<u32>
        ensures { (before : List PlainInst) → Knows self.now before → result ≡ width_of before type_id }
    {
        match self.latest(type_id)?.width {
            Some(bits) => Some(u32::from(bits)),
            None => None,
        }
    }

    /// The type of an id, as an id: the result type of its last definition. None where it has no definition, or one
    /// without a result type.
    pub fn type_id(&self, id: u32) -> Option<u32>
        ensures { (before : List PlainInst) → Knows self.now before → result ≡ type_of before id }
    {
        self.latest(id)?.type_id
    }

    /// Whether an id, if there is one, is that of a float type: whether its last definition is an OpTypeFloat.
    pub fn is_float(&self, type_id: Option<u32>) -> bool
        ensures { (before : List PlainInst) → Knows self.now before
            → result ≡ unwrap_or
            (option_map (λ i. nat_eq i.opcode TYPE_FLOAT) (option_and_then (definition_of before) type_id))
            false }
    {
        match type_id {
            Some(id) => match self.latest(id) {
                Some(definition) => definition.is_float,
                None => false,
            },
            None => false,
        }
    }
}
