//! The variables that definitions use.

ghost use Rattle.std.specs.Prelude.{◌≡◌, ◌≢◌, ◌+◌, ◌↔◌, ◌≤◌, ◌<◌, ℕ, length, slice_get, slice_set, IfOk, IsTrue};
ghost use Rattle.std.specs.Prelude.{MatchOption, OnOk};
ghost use Rattle.std.specs.Prelude.{◌∷◌, [], Some};
ghost use Rattle.spv_table.specs.Table.{Table};
ghost use Rattle.spv_module.specs.Module.{plain_inst};
ghost use Rattle.spv_module.specs.declared.opcode.TheConstants as opcode;
ghost use Rattle.spv_layout.specs.declared.class.Class.TheVariants.{Function};
ghost use Rattle.spv_layout.specs.declared.form.Role as declared;
ghost use Rattle.spv_layout.specs.Place.{IsAt};
ghost use Rattle.spv_ids.specs.Outcome.{IsOnly};
ghost use Rattle.spv_layout.specs.Shape.{FitsShape, IsUse};
ghost use Rattle.spv_type_forms.specs.Definitions.{IsGlobal};
ghost use Rattle.spv_interfaces.specs.inner.Early.{AreBetween, AreEarly};
ghost use Rattle.spv_interfaces.specs.inner.Uses.{AddsUses, AreNoted, AreUses, Fit, IsInDefinition, IsVariable};
ghost use Rattle.spv_interfaces.specs.inner.Uses.{UsesBefore};
ghost use Rattle.spv_interfaces.specs.inner.Wanted.{IsWanted};

use crate::classes::is_wanted;
use spv_flow::walks::use_id;
use spv_ids::seen_id;
use spv_layout::{DEFINITIONS, id_at, role};
use spv_module::{Inst, opcode};
use spv_type_forms::Definitions;
use std::alloc::{AllocError, Global};

/// A use of a variable in a definition.
#[derive(Clone, Copy)]
pub struct Use {
    /// The number of the OpFunction.
    pub function: u32,
    /// The number of the OpVariable.
    pub variable: u32,
}

/// The id that operand `n` of an instruction uses, in whatever role, if it does.
pub fn used_id(inst: &Inst<'_>, n: usize) -> Option<u32>
    ensures { (G : Table) → FitsShape G (plain_inst inst.now)
        → MatchOption result ((x : ℕ) (r : declared.Role) → ¬ (IsUse G (plain_inst inst.now) n x r))
        (λ x. (r : declared.Role) × IsUse G (plain_inst inst.now) n x r) }
{
    if inst.opcode != opcode::EXT_INST {
        // Each id but a result is a use.
        return use_id(inst, n);
    }
    match role(inst, n) {
        Some(_) => id_at(inst, n),
        None => None,
    }
}

/// The number of the first OpVariable, if there is one before the functions: `before` instructions are.
pub fn first_variable(definitions: &Definitions, before: u32) -> Option<u32>
    requires { AreEarly definitions.now before }
    ensures { MatchOption result ((x : ℕ) → ¬ (IsGlobal definitions.now x))
        (λ first. AreBetween definitions.now first before) }
{
    for number in 0..before {
        if definitions.inst(number).opcode == opcode::VARIABLE {
            return Some(number);
        }
    }
    None
}

/// The number behind that of the last OpVariable before the functions, and `first` where there is none from that number
/// on: `before` instructions stand before the functions.
pub fn past_variables(definitions: &Definitions, first: u32, before: u32) -> u32
    requires { AreBetween definitions.now first before }
    ensures { AreBetween definitions.now first result }
{
    let mut end = before;
    while first < end && definitions.inst(end - 1).opcode != opcode::VARIABLE {
        end -= 1;
    }
    end
}

/// The OpVariables of section 9 that are looked for: those which have to be in the interface where they are used.
#[derive(Clone, Copy)]
struct Wanted {
    /// The minor version of the module.
    minor: u8,
    /// They stand from this number on.
    first: u32,
    /// They stand before this number.
    end: u32,
}

/// The number of the OpVariable that defines an id, if that is looked for.
#[inline(always)]
fn variable_of(definitions: &Definitions, wanted: Wanted, x: u32) -> Option<u32>
    requires { AreBetween definitions.now wanted.first wanted.end }
    ensures { MatchOption result ((v : ℕ) → ¬ (IsVariable wanted.minor definitions.now x v))
        (λ v. IsOnly definitions.now x v × IsWanted wanted.minor definitions.now x) }
{
    let Some(number) = definitions.number(x) else {
        return None;
    };
    if number < wanted.first || wanted.end <= number {
        return None;
    }
    if definitions.inst(number).opcode == opcode::VARIABLE
        && is_wanted(definitions, wanted.minor, x)
    {
        Some(number)
    } else {
        None
    }
}

/// The definition that an instruction is in.
pub fn definition_of(definitions: &Definitions, number: u32) -> Option<u32>
    requires { number < length definitions.now }
    ensures { MatchOption result ((f : ℕ) → ¬ (IsInDefinition definitions.now number f))
        (IsInDefinition definitions.now number) }
{
    let Some(function) = definitions.place(number).function else {
        return None;
    };
    if definitions.place(function).section == DEFINITIONS {
        Some(function)
    } else {
        None
    }
}

/// Whether it is noted that the use of a variable that was noted last is one in this definition.
#[inline(always)]
fn is_noted(last: &[Option<u32>], function: u32, variable: u32) -> bool
    ensures { IsTrue result → slice_get last.now variable ≡ Some (Some function) }
{
    match last.get(variable as usize) {
        Some(noted) => match *noted {
            Some(other) => other == function,
            None => false,
        },
        None => false,
    }
}

/// Notes that a variable was used last in this definition.
#[inline(always)]
fn put_last(last: &mut Vec<Option<u32>>, function: u32, variable: u32)
    ensures { last.new.items ≡ slice_set last.old.items variable (Some function) }
{
    let at = variable as usize;
    if at < last.len() {
        last[at] = Some(function);
    }
}

/// Nothing noted of so many instructions.
fn nothing_noted(alloc: Global, count: u32) -> Result<Vec<Option<u32>>, AllocError>
    ensures { IfOk result (λ last. AreNoted last.items []) }
{
    Ok(vec![in alloc; None; count as usize]?)
}

/// What is gathered of uses.
#[derive(Drop)]
struct Uses {
    /// At each variable the OpFunction of the definition whose use of it was noted last.
    last: Vec<Option<u32>>,
    found: Vec<Use>,
}

impl Uses {
    /// Takes note that a definition uses a variable.
    #[inline(always)]
    fn note(&mut self, function: u32, variable: u32) -> Result<(), AllocError>
        requires { AreNoted self.old.last.items self.old.found.items }
        ensures noted { OnOk result (AreNoted self.new.last.items self.new.found.items) }
        ensures added { OnOk result (AddsUses (λ f v. (f ≡ function) × (v ≡ variable))
            self.old.found.items self.new.found.items) }
    {
        if is_noted(self.last.as_slice(), function, variable) {
            return Ok(());
        }
        self.found.push(Use { function, variable })?;
        put_last(&mut self.last, function, variable);
        Ok(())
    }

    /// Takes note that an instruction uses a variable, if it is in a definition.
    fn note_in(
        &mut self,
        definitions: &Definitions,
        number: u32,
        variable: u32,
    ) -> Result<(), AllocError>
        requires number { number < length definitions.now }
        requires noted { AreNoted self.old.last.items self.old.found.items }
        ensures noted { OnOk result (AreNoted self.new.last.items self.new.found.items) }
        ensures added { OnOk result (AddsUses (λ f v. IsInDefinition definitions.now number f × (v ≡ variable))
            self.old.found.items self.new.found.items) }
    {
        let Some(function) = definition_of(definitions, number) else {
            return Ok(());
        };
        self.note(function, variable)?;
        Ok(())
    }

    /// Takes note that an instruction uses an id, if it is in a definition.
    #[inline(always)]
    fn note_id(
        &mut self,
        definitions: &Definitions,
        wanted: Wanted,
        number: u32,
        x: u32,
    ) -> Result<(), AllocError>
        requires number { number < length definitions.now }
        requires wanted { AreBetween definitions.now wanted.first wanted.end }
        requires noted { AreNoted self.old.last.items self.old.found.items }
        ensures noted { OnOk result (AreNoted self.new.last.items self.new.found.items) }
        ensures added { OnOk result (AddsUses (λ f v. IsInDefinition definitions.now number f
            × IsVariable wanted.minor definitions.now x v) self.old.found.items self.new.found.items) }
    {
        if let Some(variable) = variable_of(definitions, wanted, x) {
            self.note_in(definitions, number, variable)?;
        }
        Ok(())
    }

    /// Takes note of what an OpExtInst uses: its operands have roles.
    fn note_extended(
        &mut self,
        definitions: &Definitions,
        wanted: Wanted,
        number: u32,
        inst: &Inst<'_>,
    ) -> Result<(), AllocError>
        requires number { number < length definitions.now }
        requires wanted { AreBetween definitions.now wanted.first wanted.end }
        requires noted { AreNoted self.old.last.items self.old.found.items }
        ensures noted { OnOk result (AreNoted self.new.last.items self.new.found.items) }
        ensures added { OnOk result ((G : Table) → FitsShape G (plain_inst inst.now)
            → AddsUses (λ f v. IsInDefinition definitions.now number f × UsesBefore G wanted.minor definitions.now
            (plain_inst inst.now) (length (plain_inst inst.now).operands) v)
            self.old.found.items self.new.found.items) }
    {
        for at in 0..inst.operands.as_slice().len() {
            if let Some(x) = used_id(inst, at) {
                self.note_id(definitions, wanted, number, x)?;
            }
        }
        Ok(())
    }

    /// Takes note of what an instruction other than an OpExtInst uses: each id but a result.
    #[inline(always)]
    fn note_plain(
        &mut self,
        definitions: &Definitions,
        wanted: Wanted,
        number: u32,
        inst: &Inst<'_>,
    ) -> Result<(), AllocError>
        requires number { number < length definitions.now }
        requires wanted { AreBetween definitions.now wanted.first wanted.end }
        requires plain { (plain_inst inst.now).opcode ≢ opcode.EXT_INST }
        requires noted { AreNoted self.old.last.items self.old.found.items }
        ensures noted { OnOk result (AreNoted self.new.last.items self.new.found.items) }
        ensures added { OnOk result ((G : Table) → FitsShape G (plain_inst inst.now)
            → AddsUses (λ f v. IsInDefinition definitions.now number f × UsesBefore G wanted.minor definitions.now
            (plain_inst inst.now) (length (plain_inst inst.now).operands) v)
            self.old.found.items self.new.found.items) }
    {
        for operand in inst.operands.as_slice() {
            if let Some(x) = seen_id(*operand) {
                self.note_id(definitions, wanted, number, x)?;
            }
        }
        Ok(())
    }

    /// Takes note of what an instruction uses, if it is in a definition.
    #[inline(always)]
    fn note_at(
        &mut self,
        definitions: &Definitions,
        wanted: Wanted,
        number: u32,
    ) -> Result<(), AllocError>
        requires number { number < length definitions.now }
        requires wanted { AreBetween definitions.now wanted.first wanted.end }
        requires noted { AreNoted self.old.last.items self.old.found.items }
        ensures noted { OnOk result (AreNoted self.new.last.items self.new.found.items) }
        ensures added { OnOk result ((G : Table) → Fit G definitions.now
            → AreUses G wanted.minor definitions.now number self.old.found.items
            → AreUses G wanted.minor definitions.now (number + 1) self.new.found.items) }
    {
        let inst = definitions.inst(number);
        if inst.opcode == opcode::EXT_INST {
            self.note_extended(definitions, wanted, number, inst)?;
        } else {
            self.note_plain(definitions, wanted, number, inst)?;
        }
        Ok(())
    }
}

/// The uses of variables that have to be in the interface, in a module of version 1.`minor`: by the instructions from
/// `start` on to the last, where `total` is how many there are. The variables stand from `first` on and before `end`.
/// Of each definition and variable there is one use.
///
/// Time is linear in the words of these instructions. An `AllocError` comes only where a growth of memory was refused.
pub fn uses_of(
    alloc: Global,
    definitions: &Definitions,
    minor: u8,
    first: u32,
    end: u32,
    start: u32,
    total: u32,
) -> Result<Vec<Use>, AllocError>
    requires total { total ≡ length definitions.now }
    requires wanted { AreBetween definitions.now first end }
    requires start { start ≤ total }
    requires before { (n : ℕ) → n < start → ¬ (IsAt definitions.now n (Function ∷ [])) }
    ensures { IfOk result (λ uses. (G : Table) → Fit G definitions.now
        → AreUses G minor definitions.now (length definitions.now) uses.items) }
{
    let wanted = Wanted { minor, first, end };
    let mut uses = Uses {
        last: nothing_noted(alloc, end)?,
        found: Vec::new(alloc),
    };
    for number in start..total {
        uses.note_at(definitions, wanted, number)?;
    }
    Ok(uses.found)
}
