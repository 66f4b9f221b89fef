//! Numbers that are kept under numbers.

ghost use Rattle.std.specs.Prelude.{◌≡◌, ℕ, OnOk, nat_eq, if◌then◌else◌};
ghost use Rattle.spv_limits.specs.inner.Kept.{kept};

use std::alloc::{AllocError, Global};
use std::collections::BTreeMap;

/// A map in which nothing is kept. It takes no memory.
pub fn empty_map(alloc: Global) -> BTreeMap<u32, u32>
    ensures { (k : ℕ) → kept result k ≡ 0 }
{
    BTreeMap::new(alloc)
}

/// What is kept under a number: 0 where nothing is.
pub fn kept_at(map: &BTreeMap<u32, u32>, key: u32) -> u32
    ensures { result ≡ kept map.now key }
{
    match map.get(&key) {
        Some(number) => *number,
        None => 0,
    }
}

/// Keeps a number under another, in place of the one before.
pub fn keep(map: &mut BTreeMap<u32, u32>, key: u32, number: u32) -> Result<(), AllocError>
    ensures { OnOk result ((k : ℕ) → kept map.new k ≡ (if nat_eq key k then number else kept map.old k)) }
{
    map.insert(key, number)?;
    Ok(())
}
