//! The first name of an id.
ghost use Rattle.std.specs.Prelude.{◌≡◌, map, option_map};
ghost use Rattle.spv_module.specs.Module.{plain_inst};
ghost use Rattle.spv_names.specs.Names as names;

use crate::naming::{Naming, named};
use spv_module::Inst;

/// The name that an instruction gives to an id in that way, if it does.
fn name_by<'a>(naming: Naming, inst: &Inst<'a>, id: u32) -> Option<&'a str>
    ensures { option_map (λ t. t.now) result ≡ names.or_later id (names.named_by naming (plain_inst inst.now)) None }
{
    match named(naming, inst) {
        Some((of, name)) if of == id => Some(name),
        _ => None,
    }
}

/// The first name that instructions give to an id in that way, if one does.
///
/// Time is linear in the instructions.
pub fn name_of<'a>(naming: Naming, insts: &[Inst<'a>], id: u32) -> Option<&'a str>
    ensures { option_map (λ t. t.now) result ≡ names.name_of naming (map plain_inst insts.now) id }
{
    for inst in insts {
        if let Some(name) = name_by(naming, inst, id) {
            return Some(name);
        }
    }
    None
}

/// The name of a function: that of its first OpName, else that of the first OpEntryPoint that names it, if there is
/// one.
///
/// Time is linear in the instructions.
pub fn function_name<'a>(insts: &[Inst<'a>], id: u32) -> Option<&'a str>
    ensures { option_map (λ t. t.now) result ≡ names.function_name (map plain_inst insts.now) id }
{
    match name_of(Naming::Name, insts, id) {
        Some(name) => Some(name),
        None => name_of(Naming::EntryPoint, insts, id),
    }
}
