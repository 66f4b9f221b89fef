//! Which names were found to be shown.

ghost use Rattle.std.specs.Prelude.{◌≡◌, true, IfOk, IfSome};
ghost use Rattle.spv_table.specs.Table.{Table};
ghost use Rattle.spv_printer.specs.inner.Names.{AreNames, IsPlace, IsShownBy};

use crate::named::Named;
use std::alloc::{AllocError, Global};
use std::collections::BTreeMap;

/// What was found to be shown by a name or by its number, so that no name need be looked through again.
#[derive(Drop)]
pub struct Names {
    /// By place (`place_of`), whether it was found to be shown by a name.
    found: Vec<bool>,
    /// Whether it is shown by a name, of what has no place, and of what was found to be shown by its number.
    others: BTreeMap<Named, bool>,
}

/// The place of the first value: before it are those of the opcodes below that number.
const VALUES: u32 = 1024;

/// For how many kinds, from 0, it is kept.
const KINDS: u32 = 128;

/// For how many values and masks of a kind, from 0, it is kept.
const EACH: u32 = 64;

/// The place of the first mask.
const MASKS: u32 = VALUES + EACH * KINDS;

/// The place of what may be shown by a name: opcodes first, then values, then masks. None where nothing is kept of it.
#[inline(always)]
fn place_of(named: Named) -> Option<usize>
    ensures { IfSome result (λ at. IsPlace named at) }
{
    match named {
        Named::Opcode(opcode) if u32::from(opcode) < VALUES => Some(usize::from(opcode)),
        Named::Value { kind, value } if kind < KINDS && value < EACH => Some(
            (VALUES + EACH * kind + value) as usize,
        ),
        Named::Mask { kind, mask } if kind < KINDS && mask < EACH => Some(
            (MASKS + EACH * kind + mask) as usize,
        ),
        _ => None,
    }
}

impl Names {
    /// Nothing was found yet.
    pub fn new(alloc: Global) -> Result<Names, AllocError>
        ensures { IfOk result (λ n. (G : Table) → AreNames G n) }
    {
        let mut found = Vec::new(alloc);
        found.resize((MASKS + EACH * KINDS) as usize, false)?;
        Ok(Names {
            found,
            others: BTreeMap::new(alloc),
        })
    }

    /// Nothing was found yet. There are no places: to make them takes longer than to look for a few names.
    pub fn of_few(alloc: Global) -> Names
        ensures { (G : Table) → AreNames G result }
    {
        Names {
            found: Vec::new(alloc),
            others: BTreeMap::new(alloc),
        }
    }

    /// Whether it was found to be shown by a name, and has a place. False says nothing.
    #[inline(always)]
    pub fn has(&self, named: Named) -> bool
        ensures { (G : Table) → AreNames G self.now → result ≡ true → IsShownBy G named true }
    {
        let Some(at) = place_of(named) else {
            return false;
        };
        match self.found.get(at) {
            Some(found) => *found,
            None => false,
        }
    }

    /// Whether it is shown by a name. None where that was not looked up.
    pub fn find(&self, named: Named) -> Option<bool>
        ensures { (G : Table) → AreNames G self.now → IfSome result (IsShownBy G named) }
    {
        if self.has(named) {
            return Some(true);
        }
        self.others.get(&named).copied()
    }

    /// Keeps whether something is shown by a name.
    ///
    /// An `AllocError` comes only where a growth of memory was refused, and then nothing is kept.
    pub fn keep(&mut self, named: Named, by_name: bool) -> Result<(), AllocError>
        ensures { (G : Table) → AreNames G self.old → IsShownBy G named by_name → AreNames G self.new }
    {
        let at = if by_name { place_of(named) } else { None };
        match at {
            Some(at) if at < self.found.len() => self.found[at] = true,
            _ => {
                self.others.insert(named, by_name)?;
            },
        }
        Ok(())
    }
}
