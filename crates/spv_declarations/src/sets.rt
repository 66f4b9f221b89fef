//! Sets of ids, and of pairs.

ghost use Rattle.std.specs.Prelude.{◌≡◌, OnOk};
ghost use Rattle.spv_module.specs.Module.{plain_operands};
ghost use Rattle.spv_declarations.specs.Given.{HasId};
ghost use Rattle.spv_declarations.specs.inner.Sets.{Adds, AddsBoth};

use spv_module::Operand;
use std::alloc::AllocError;
use std::collections::BTreeSet;

/// Puts an id into a set.
pub fn put(set: &mut BTreeSet<u32>, x: u32) -> Result<(), AllocError>
    ensures { OnOk result (Adds (λ y. y ≡ x) set.old set.new) }
{
    set.insert(x)?;
    Ok(())
}

/// Puts a pair of ids into a set.
pub fn put_pair(set: &mut BTreeSet<(u32, u32)>, x: u32, y: u32) -> Result<(), AllocError>
    ensures { OnOk result (AddsBoth (λ v w. (v ≡ x) × (w ≡ y)) set.old set.new) }
{
    set.insert((x, y))?;
    Ok(())
}

/// Puts a struct and the number of a member into a set.
pub fn put_member(set: &mut BTreeSet<(u32, usize)>, t: u32, k: usize) -> Result<(), AllocError>
    ensures { OnOk result (AddsBoth (λ v w. (v ≡ t) × (w ≡ k)) set.old set.new) }
{
    set.insert((t, k))?;
    Ok(())
}

/// Puts the ids that are operands into a set.
pub fn put_all(set: &mut BTreeSet<u32>, operands: &[Operand<'_>]) -> Result<(), AllocError>
    ensures { OnOk result (Adds (HasId (plain_operands operands.now)) set.old set.new) }
{
    for operand in operands {
        if let Operand::Id(x) = operand {
            put(set, *x)?;
        }
    }
    Ok(())
}
