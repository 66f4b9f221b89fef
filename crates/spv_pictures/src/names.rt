//! The names that a module gives to ids, found once for all of them.
ghost use Rattle.std.specs.Prelude.{◌≡◌, IfOk, map, option_and_then, option_map};
ghost use Rattle.spv_module.specs.Module.{plain_inst};
ghost use Rattle.spv_names.specs.Names.{name_of};
ghost use Rattle.spv_pictures.specs.inner.Names.{Finds};

use spv_module::Inst;
use spv_names::{Naming, named};
use std::alloc::{AllocError, Global};
use std::collections::BTreeMap;

/// The place of the first instruction that names an id in that way, for each id.
pub fn places_of(
    alloc: Global,
    naming: Naming,
    insts: &[Inst<'_>],
) -> Result<BTreeMap<u32, usize>, AllocError>
    ensures { IfOk result (Finds naming (map plain_inst insts.now)) }
{
    let mut places = BTreeMap::new(alloc);
    for at in (0..insts.len()).rev() {
        if let Some((id, _)) = named(naming, &insts[at]) {
            places.insert(id, at)?;
        }
    }
    Ok(places)
}

/// The first name that is given to an id in that way, if there is an id and one is given.
pub fn first_name<'a>(
    naming: Naming,
    places: &BTreeMap<u32, usize>,
    insts: &[Inst<'a>],
    id: Option<u32>,
) -> Option<&'a str>
    requires { Finds naming (map plain_inst insts.now) places.now }
    ensures { option_map (λ t. t.now) result ≡ option_and_then (name_of naming (map plain_inst insts.now)) id }
{
    let place = *places.get(&id?)?;
    let inst = insts.get(place)?;
    let (_, name) = named(naming, inst)?;
    Some(name)
}
