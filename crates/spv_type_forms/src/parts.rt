ghost use Rattle.std.specs.Prelude.{◌≡◌, Some, None, option_map, ℕ};
ghost use Rattle.spv_module.specs.Module.{plain_operands};
ghost use Rattle.spv_type_forms.specs.Parts as spec;
ghost use Rattle.spv_type_forms.specs.Parts.{constant_of, length_of, members_of, part_of, count_of};
ghost use Rattle.spv_type_forms.specs.inner.Parts.{inner_part_of, part_among, member_of};
ghost use Rattle.spv_type_kinds.specs.Operands.{words_in, ids_in};
ghost use Rattle.spv_type_forms.specs.inner.Walk.{walk, choice, int_choices};

use crate::definitions::Definitions;
use crate::form::Form;
use crate::meaning::Meaning;
use crate::several::stands_for_int;
use spv_module::{Operand, opcode};

/// What follows the result.
#[inline(always)]
pub fn after_result<'o, 'a>(operands: &'o [Operand<'a>]) -> &'o [Operand<'a>]
    ensures { plain_operands result.now ≡ spec.after_result (plain_operands operands.now) }
{
    match operands {
        [Operand::Result(_), rest @ ..] => rest,
        _ => &[],
    }
}

/// The number of a constant: 64 bits, the low word first.
fn number_in(operands: &[Operand]) -> Option<u64>
    ensures { result ≡ spec.number_in (plain_operands operands.now) }
{
    match operands {
        [
            Operand::OfType(_),
            Operand::Result(_),
            Operand::Number { low, high, .. },
            ..
        ] => { Some(u64::from(*low) + 4_294_967_296 * u64::from(*high)) }
        _ => None,
    }
}

/// The number of an OpConstant.
pub fn constant(definitions: &Definitions, id: u32) -> Option<u64>
    ensures { result ≡ constant_of definitions.now id }
{
    let inst = definitions.definition(id)?;
    match inst.opcode {
        opcode::CONSTANT => number_in(inst.operands.as_slice()),
        _ => None,
    }
}

/// The number of an OpConstant or OpSpecConstant.
pub fn length(definitions: &Definitions, id: u32) -> Option<u64>
    ensures { result ≡ length_of definitions.now id }
{
    let inst = definitions.definition(id)?;
    match inst.opcode {
        opcode::CONSTANT | opcode::SPEC_CONSTANT => number_in(inst.operands.as_slice()),
        _ => None,
    }
}

/// The members of a struct type.
#[inline(always)]
pub fn members<'m, 'a>(definitions: &Definitions<'m, 'a>, t: u32) -> Option<&'m [Operand<'a>]>
    ensures { option_map (λ ms. plain_operands ms.now) result ≡ members_of definitions.now t }
{
    Some(after_result(definitions.definition(t)?.operands.as_slice()))
}

/// The type of a member of a struct type.
#[inline(always)]
fn member(definitions: &Definitions, t: u32, k: u64) -> Option<u32>
    ensures { result ≡ member_of definitions.now t k }
{
    match members(definitions, t)?.get(k as usize)? {
        Operand::Id(x) => Some(*x),
        _ => None,
    }
}

/// The types of the parts of a type, looked up once.
#[derive(Clone, Copy)]
pub enum Parts<'m, 'a> {
    /// The components of a vector, or the elements of an array: all of this type.
    Alike(u32),
    /// The members of a struct, each of the type that stands at its place.
    Members(&'m [Operand<'a>]),
    /// A type that has no parts, or no type.
    Absent,
}

impl<'m, 'a> Parts<'m, 'a> {
    /// The type of a part.
    #[inline(always)]
    pub fn at(self, k: usize) -> Option<u32>
        ensures { result ≡ part_among self.entry k }
    {
        match self {
            Parts::Alike(t) => Some(t),
            Parts::Members(members) => match members.get(k)? {
                Operand::Id(x) => Some(*x),
                _ => None,
            },
            Parts::Absent => None,
        }
    }
}

/// The types of the parts of a type: a vector's component type, an array's element type, or those of a struct's
/// members.
pub fn parts_of<'m, 'a>(definitions: &Definitions<'m, 'a>, t: u32) -> Parts<'m, 'a>
    ensures { (k : ℕ) → part_among result k ≡ part_of definitions.now t k }
{
    match definitions.read_form(t) {
        Some(Form::Vector { component, .. }) => Parts::Alike(component),
        Some(Form::Array { element, .. }) => Parts::Alike(element),
        Some(Form::Struct) => match members(definitions, t) {
            Some(members) => Parts::Members(members),
            None => Parts::Absent,
        },
        _ => Parts::Absent,
    }
}

/// How many parts a type has: a vector's count, an array's length, or a struct's number of members.
pub fn count(definitions: &Definitions, t: u32) -> Option<u64>
    ensures { result ≡ count_of definitions.now t }
{
    match definitions.read_form(t)? {
        Form::Vector { count, .. } => Some(u64::from(count)),
        Form::Array { length: id, .. } => length(definitions, id),
        Form::Struct => Some(members(definitions, t)?.len() as u64),
        _ => None,
    }
}

/// The type of a part whose number is below the number of parts.
#[inline(always)]
fn inner_part(definitions: &Definitions, t: u32, k: u32) -> Option<u32>
    ensures { result ≡ inner_part_of definitions.now t k }
{
    match definitions.read_form(t)? {
        Form::Vector { component, count } => if k < count { Some(component) } else { None },
        Form::Array {
            element,
            length: id,
        } => if u64::from(k) < length(definitions, id)? {
            Some(element)
        } else {
            None
        },
        Form::Struct => member(definitions, t, u64::from(k)),
        _ => None,
    }
}

/// The type that literal indexes reach, where each is below the number of parts at its place. Other operands among them
/// are not looked at.
pub fn reached(definitions: &Definitions, t: u32, literals: &[Operand]) -> Option<u32>
    ensures { result ≡ walk definitions.now (words_in (plain_operands literals.now)) t }
{
    let mut at = t;
    for operand in literals {
        if let Operand::Word(k) = operand {
            at = inner_part(definitions, at, *k)?;
        }
    }
    Some(at)
}

/// The type of the part that an index of an access chain chooses. Most steps lead into an array or a struct.
#[inline(always)]
fn chosen_part(definitions: &Definitions, t: u32, x: u32) -> Option<u32>
    ensures { result ≡ choice definitions.now t x }
{
    match definitions.meaning(t) {
        Meaning::Declared => chosen_element(definitions, t, x),
        Meaning::Struct => member(definitions, t, constant(definitions, x)?),
        _ => defined_part(definitions, t, x),
    }
}

/// The same, where no more is noted of the type than that it is one: it is an array, but for pointers of rare storage
/// classes.
#[inline(never)]
fn chosen_element(definitions: &Definitions, t: u32, x: u32) -> Option<u32>
    ensures { result ≡ choice definitions.now t x }
{
    match definitions.defined_element(t) {
        Some(element) => Some(element),
        None => defined_part(definitions, t, x),
    }
}

/// The same, by the definition of the type.
#[inline(never)]
fn defined_part(definitions: &Definitions, t: u32, x: u32) -> Option<u32>
    ensures { result ≡ choice definitions.now t x }
{
    match definitions.form(t)? {
        Form::Vector { component, .. } => Some(component),
        Form::Array { element, .. } => Some(element),
        Form::Struct => member(definitions, t, constant(definitions, x)?),
        _ => None,
    }
}

/// The type that the indexes of an access chain lead to, which are ids, if they all stand for ints. Operands after the
/// first that is no id are not looked at.
pub fn led_by_ints(definitions: &Definitions, t: u32, indexes: &[Operand]) -> Option<u32>
    ensures { result ≡ int_choices definitions.now (ids_in (plain_operands indexes.now)) t }
{
    let mut at = t;
    for operand in indexes {
        let Operand::Id(x) = operand else {
            return Some(at);
        };
        if !stands_for_int(definitions, *x) {
            return None;
        }
        at = chosen_part(definitions, at, *x)?;
    }
    Some(at)
}
