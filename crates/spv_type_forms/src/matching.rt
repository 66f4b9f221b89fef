//! Types that match.

ghost use Rattle.std.specs.Prelude.{◌≡◌, ◌<◌, ◌≤◌, ◌↔◌, ◌++◌, ◌∷◌, [], ℕ, List, IfOk, OnOk, IsTrue, MatchOption, Some, length};
ghost use Rattle.spv_module.specs.Operand.{PlainInst};
ghost use Rattle.spv_module.specs.Module.{plain_operand, plain_operands};
ghost use Rattle.spv_ids.specs.Outcome.{IsOnly};
ghost use Rattle.spv_type_forms.specs.declared.form.Form.TheVariants as the_form;
ghost use Rattle.spv_type_forms.specs.Form.{form_of};
ghost use Rattle.spv_type_forms.specs.Matches as spec;
ghost use Rattle.spv_type_forms.specs.Matches.{Matches};
ghost use Rattle.spv_type_forms.specs.inner.Matching.{AreMatched, AreNumbers, IsKey, IsMatching, IsMemberNumber};
ghost use Rattle.spv_type_forms.specs.inner.Matching.{IsNumber, IsNumbered, KeepsKey, found_in};

use crate::definitions::Definitions;
use crate::form::Form;
use crate::parts::members;
use spv_module::Operand;
use std::alloc::{AllocError, Global};
use std::collections::BTreeMap;

/// Whether a form is that of an array or a struct.
fn is_aggregate(form: Option<Form>) -> bool
    ensures { result ≡ spec.is_aggregate form }
{
    match form {
        Some(Form::Array { .. } | Form::Struct) => true,
        _ => false,
    }
}

/// The element type and the length operand of an array type.
fn array_in(form: Option<Form>) -> Option<(u32, u32)>
    ensures { MatchOption result (IsTrue (spec.is_aggregate form) → form ≡ Some the_form.Struct)
        (λ p. form ≡ Some (the_form.Array p.0 p.1)) }
{
    match form {
        Some(Form::Array { element, length }) => Some((element, length)),
        _ => None,
    }
}

/// The number of an aggregate, where one of the first instructions declares it, of which that is known.
fn number_before(definitions: &Definitions, numbers: &[u32], u: u32) -> Option<u32>
    requires { IsTrue (spec.is_aggregate (form_of definitions.now u)) }
    ensures { MatchOption result ((c : ℕ) → ¬ (IsNumbered definitions.now numbers.now (length numbers.now) u c))
        (λ c. IsNumbered definitions.now numbers.now (length numbers.now) u c) }
{
    match definitions.number(u) {
        Some(number) => {
            let place = number as usize;
            if place < numbers.len() {
                Some(numbers[place])
            } else {
                None
            }
        }
        None => None,
    }
}

/// The number of a type, where it is known before the instruction after the first.
fn number_of(definitions: &Definitions, numbers: &[u32], u: u32) -> Option<u32>
    ensures { MatchOption result ((c : ℕ) → ¬ (IsNumber definitions.now numbers.now (length numbers.now) u c))
        (λ c. IsNumber definitions.now numbers.now (length numbers.now) u c) }
{
    if is_aggregate(definitions.form(u)) {
        number_before(definitions, numbers, u)
    } else {
        Some(u)
    }
}

/// The number of the type that a member is.
fn member_number(definitions: &Definitions, numbers: &[u32], member: &Operand) -> Option<u32>
    ensures { MatchOption result
        ((c : ℕ) → ¬ (IsMemberNumber definitions.now numbers.now (length numbers.now) (plain_operand member.now) c))
        (λ c. IsMemberNumber definitions.now numbers.now (length numbers.now) (plain_operand member.now) c) }
{
    match member {
        Operand::Id(u) => number_of(definitions, numbers, *u),
        _ => None,
    }
}

/// The key of a struct by its members.
fn struct_key(
    alloc: Global,
    definitions: &Definitions,
    numbers: &[u32],
    members: &[Operand],
) -> Result<Option<Vec<u32>>, AllocError>
    ensures { let n = length numbers.now in let ms = plain_operands members.now in
        IfOk result (λ o. MatchOption o ((ks : List ℕ) → ¬ (AreNumbers definitions.now numbers.now n ms ks))
        (λ key. (ks : List ℕ) × (key.items ≡ 1 ∷ ks) × AreNumbers definitions.now numbers.now n ms ks)) }
{
    let mut key = Vec::with_capacity(alloc, members.len().saturating_add(1))?;
    key.push(1)?;
    for member in members {
        let Some(number) = member_number(definitions, numbers, member) else {
            return Ok(None);
        };
        key.push(number)?;
    }
    Ok(Some(key))
}

/// The key of an array by its element type and its length operand.
fn array_key(
    alloc: Global,
    definitions: &Definitions,
    numbers: &[u32],
    element: u32,
    operand: u32,
) -> Result<Option<Vec<u32>>, AllocError>
    ensures { let n = length numbers.now in
        IfOk result (λ o. MatchOption o ((c : ℕ) → ¬ (IsNumber definitions.now numbers.now n element c))
        (λ key. (c : ℕ) × (key.items ≡ 0 ∷ operand ∷ c ∷ []) × IsNumber definitions.now numbers.now n element c)) }
{
    match number_of(definitions, numbers, element) {
        Some(number) => Ok(Some(vec![in alloc; 0, operand, number]?)),
        None => Ok(None),
    }
}

/// The key of a type that the instruction after the first declares: types with one key match. None where it is no
/// aggregate, or has a part that is one and is not declared before.
///
/// An `AllocError` comes only where a growth of memory was refused.
fn key_of(
    alloc: Global,
    definitions: &Definitions,
    numbers: &[u32],
    t: u32,
) -> Result<Option<Vec<u32>>, AllocError>
    ensures { let n = length numbers.now in
        IfOk result (λ o. MatchOption o ((k : List ℕ) → ¬ (IsKey definitions.now numbers.now n t k))
        (λ key. IsKey definitions.now numbers.now n t key.items)) }
{
    let form = definitions.form(t);
    if !is_aggregate(form) {
        return Ok(None);
    }
    match array_in(form) {
        Some((element, length)) => array_key(alloc, definitions, numbers, element, length),
        None => match members(definitions, t) {
            Some(members) => struct_key(alloc, definitions, numbers, members),
            None => Ok(None),
        },
    }
}

/// Whether an id is defined by the instruction of a number, and by no other.
fn is_defined_at(definitions: &Definitions, t: u32, number: u32) -> bool
    ensures { IsTrue result ↔ IsOnly definitions.now t number }
{
    match definitions.number(t) {
        Some(place) => place == number,
        None => false,
    }
}

/// The id that the instruction of a number defines, if no other does.
fn defined_at(definitions: &Definitions, number: u32) -> Option<u32>
    requires { number < length definitions.now }
    ensures { MatchOption result ((t : ℕ) → ¬ (IsOnly definitions.now t number))
        (λ t. IsOnly definitions.now t number) }
{
    match definitions.inst(number).result_id() {
        Some(t) => if is_defined_at(definitions, t, number) {
            Some(t)
        } else {
            None
        },
        None => None,
    }
}

/// Whether two numbers are there, and are one.
fn is_same(one: Option<u32>, other: Option<u32>) -> bool
    ensures { IsTrue result ↔ ((c : ℕ) × (one ≡ Some c) × (other ≡ Some c)) }
{
    match (one, other) {
        (Some(c), Some(d)) => c == d,
        _ => false,
    }
}

/// The types of a module that match, as far as they were asked for.
#[derive(Drop)]
pub struct Matching {
    /// By the number of an instruction that declares an aggregate the number of that: the id of the first that matches
    /// it. Of the first instructions.
    numbers: Vec<u32>,
    /// The number of each key.
    keys: BTreeMap<Vec<u32>, u32>,
}

impl Matching {
    /// Nothing was asked.
    pub fn new(alloc: Global) -> Matching
        ensures { (is : List PlainInst) → IsMatching is result }
    {
        Matching {
            numbers: Vec::new(alloc),
            keys: BTreeMap::new(alloc),
        }
    }

    /// The number that is kept of a key, or else a new one, which is kept of it from now on.
    fn number_for(&mut self, key: Vec<u32>, own: u32) -> Result<u32, AllocError>
        ensures keeps { IfOk result (λ c.
            KeepsKey (found_in self.old.keys.entries) (found_in self.new.keys.entries) key.items own c) }
        ensures numbers { self.new.numbers ≡ self.old.numbers }
    {
        if let Some(number) = self.keys.get(&key).copied() {
            return Ok(number);
        }
        self.keys.insert(key, own)?;
        Ok(own)
    }

    /// The number of what the next instruction declares, which is the one of a number, if that is an aggregate.
    fn next_number(
        &mut self,
        alloc: Global,
        definitions: &Definitions,
        number: u32,
    ) -> Result<u32, AllocError>
        requires matching { IsMatching definitions.now self.old }
        requires number { number < length definitions.now }
        requires next { number ≡ length self.old.numbers.items }
        ensures matched { IfOk result (λ c.
            AreMatched definitions.now (self.old.numbers.items ++ c ∷ []) (found_in self.new.keys.entries)) }
        ensures numbers { self.new.numbers ≡ self.old.numbers }
    {
        let Some(t) = defined_at(definitions, number) else {
            return Ok(0);
        };
        match key_of(alloc, definitions, self.numbers.as_slice(), t)? {
            Some(key) => self.number_for(key, t),
            None => Ok(t),
        }
    }

    /// Numbers what the instructions up to the one of a number declare.
    fn find(
        &mut self,
        alloc: Global,
        definitions: &Definitions,
        number: u32,
    ) -> Result<(), AllocError>
        requires matching { IsMatching definitions.now self.old }
        requires number { number < length definitions.now }
        ensures matching { OnOk result (IsMatching definitions.now self.new) }
        ensures found { OnOk result (number < length self.new.numbers.items) }
        ensures grows { OnOk result (length self.old.numbers.items ≤ length self.new.numbers.items) }
    {
        while self.numbers.len() <= number as usize {
            let place = self.numbers.len() as u32;
            let next = self.next_number(alloc, definitions, place)?;
            self.numbers.push(next)?;
        }
        Ok(())
    }

    /// Numbers what the instructions up to the declaration of a type declare.
    fn reach(&mut self, alloc: Global, definitions: &Definitions, t: u32) -> Result<(), AllocError>
        requires matching { IsMatching definitions.now self.old }
        ensures matching { OnOk result (IsMatching definitions.now self.new) }
        ensures reached { OnOk result (IsTrue (spec.is_aggregate (form_of definitions.now t))
            → (m : ℕ) × IsOnly definitions.now t m × (m < length self.new.numbers.items)) }
        ensures grows { OnOk result (length self.old.numbers.items ≤ length self.new.numbers.items) }
    {
        match definitions.number(t) {
            Some(number) => self.find(alloc, definitions, number),
            None => Ok(()),
        }
    }

    /// Whether two types match. What was found out is kept: time is near-linear in the words of the instructions up to
    /// the later of the two declarations, once, and else constant. It takes memory in proportion to the words of the
    /// arrays and structs among them.
    ///
    /// An `AllocError` comes only where a growth of memory was refused.
    pub fn matches(
        &mut self,
        alloc: Global,
        definitions: &Definitions,
        t: u32,
        u: u32,
    ) -> Result<bool, AllocError>
        requires matching { IsMatching definitions.now self.old }
        ensures answer { IfOk result (λ b. IsTrue b ↔ Matches definitions.now t u) }
        ensures matching { OnOk result (IsMatching definitions.now self.new) }
    {
        self.reach(alloc, definitions, t)?;
        self.reach(alloc, definitions, u)?;
        let numbers = self.numbers.as_slice();
        Ok(is_same(
            number_of(definitions, numbers, t),
            number_of(definitions, numbers, u),
        ))
    }
}
