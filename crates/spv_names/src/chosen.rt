//! The function that is chosen by its id or by its name.
ghost use Rattle.std.specs.Prelude.{◌≡◌, ◌↔◌, IsTrue, Some, map, option_map};
ghost use Rattle.std.specs.List.{list_any};
ghost use Rattle.spv_module.specs.Module.{plain_inst};
ghost use Rattle.spv_names.specs.Chosen as chosen;
ghost use Rattle.spv_names.specs.Chosen.{IsChosen, IsNamedFunction};
ghost use Rattle.spv_names.specs.inner.Given as given;
ghost use Rattle.spv_names.specs.inner.Given.{IsMore, IsOnly};

use crate::first::function_name;
use crate::naming::{Naming, named};
use spv_module::{Inst, opcode};

/// A function of a module.
#[derive(Clone, Copy)]
pub enum Chosen<'a> {
    /// That of this id.
    Id(u32),
    /// That of this name, as `function_name` tells it.
    Name(&'a str),
}

/// Why a name chooses no function.
#[derive(Clone, Copy)]
pub enum NameError {
    /// No function has it.
    Absent,
    /// Two functions have it, or more.
    Several,
}

/// Whether an OpFunction among these has an id as its result.
///
/// Time is linear in the instructions.
pub fn has_function(insts: &[Inst<'_>], id: u32) -> bool
    ensures { result ≡ list_any (chosen.is_function id) (map plain_inst insts.now) }
{
    for inst in insts {
        if inst.opcode == opcode::FUNCTION && inst.result_id() == Some(id) {
            return true;
        }
    }
    false
}

/// Whether a name is found, and is this one.
fn is_name(found: Option<&str>, name: &str) -> bool
    ensures { IsTrue result ↔ (option_map (λ t. t.now) found.entry ≡ Some name.now) }
{
    match found {
        Some(found) => found == name,
        None => false,
    }
}

/// Whether an id is that of a function of this name.
fn is_named(insts: &[Inst<'_>], name: &str, id: u32) -> bool
    ensures { IsTrue result ↔ IsNamedFunction (map plain_inst insts.now) name.now id }
{
    has_function(insts, id) && is_name(function_name(insts, id), name)
}

/// The id that an instruction gives this name in that way, if it does.
fn given_by(naming: Naming, inst: &Inst<'_>, name: &str) -> Option<u32>
    ensures { result ≡ given.given_by naming name.now (plain_inst inst.now) }
{
    match named(naming, inst) {
        Some((id, found)) if found == name => Some(id),
        _ => None,
    }
}

/// The id that an instruction gives this name, if it does.
fn given(inst: &Inst<'_>, name: &str) -> Option<u32>
    ensures { result ≡ given.given name.now (plain_inst inst.now) }
{
    match given_by(Naming::Name, inst, name) {
        Some(id) => Some(id),
        None => given_by(Naming::EntryPoint, inst, name),
    }
}

/// The only function of a name that was found before an instruction or is named by it, if there is one.
fn only(
    insts: &[Inst<'_>],
    name: &str,
    found: Option<u32>,
    id: u32,
) -> Result<Option<u32>, NameError>
    requires { IsOnly (map plain_inst insts.now) name.now found }
    ensures { IsMore (map plain_inst insts.now) name.now found id result }
{
    if found == Some(id) || !is_named(insts, name, id) {
        return Ok(found);
    }
    if found.is_some() {
        return Err(NameError::Several);
    }
    Ok(Some(id))
}

/// The id of the function of a name.
fn function_named(insts: &[Inst<'_>], name: &str) -> Result<u32, NameError>
    ensures { chosen.IsOfName (map plain_inst insts.now) name.now result }
{
    let mut found = None;
    for inst in insts {
        if let Some(id) = given(inst, name) {
            found = only(insts, name, found, id)?;
        }
    }
    found.ok_or(NameError::Absent)
}

/// The id of the function that is chosen. An id is taken as it is, whether a function has it or not.
///
/// Time is linear in the instructions, for each instruction that gives the name.
///
/// # Errors
///
/// `Absent`: the name is that of no function. `Several`: it is that of two or more.
pub fn function_of(insts: &[Inst<'_>], function: Chosen<'_>) -> Result<u32, NameError>
    ensures { IsChosen (map plain_inst insts.now) function.entry result }
{
    match function {
        Chosen::Id(id) => Ok(id),
        Chosen::Name(name) => function_named(insts, name),
    }
}
