//! Which capabilities are implied by declared ones.

ghost use Rattle.std.specs.Prelude.{◌≡◌, ◌↔◌, ℕ, [], false, IsTrue, IfOk, OnOk, filter_map};
ghost use Rattle.std.specs.BTreeSet.{contains};
ghost use Rattle.std.specs.Ordering.{nat_cmp};
ghost use Rattle.spv_table.specs.Table.{kind_of};
ghost use Rattle.spv_table.specs.Lookups.{value_named};
ghost use Rattle.spv_table.specs.Implied.{Implied, enumerants_of};
ghost use Rattle.spv_table.specs.inner.Reached.{Adds, AddsAll, is_reached, listed_by};

use crate::error::Memory;
use crate::name_list_ref::NameListRef;
use crate::table::Table;
use std::alloc::Global;
use std::collections::BTreeSet;

/// The capabilities that were reached, and those of them whose own capabilities are still to be looked at.
#[derive(Drop)]
struct Reached {
    all: BTreeSet<u32>,
    due: Vec<u32>,
}

impl Reached {
    /// No capability. It takes no memory.
    fn new(alloc: Global) -> Reached
        ensures all { (c : ℕ) → is_reached result c ≡ false }
        ensures due { result.due.items ≡ [] }
    {
        Reached {
            all: BTreeSet::new(alloc),
            due: Vec::new(alloc),
        }
    }

    /// Reaches a capability.
    fn add(&mut self, capability: u32) -> Result<(), Memory>
        ensures { OnOk result (Adds self.old self.new capability) }
    {
        if self.all.insert(capability)? {
            self.due.push(capability)?;
        }
        Ok(())
    }

    /// Reaches each of some capabilities.
    fn add_all(&mut self, capabilities: &[u32]) -> Result<(), Memory>
        ensures { OnOk result (AddsAll capabilities.now self.old self.new) }
    {
        for capability in capabilities {
            self.add(*capability)?;
        }
        Ok(())
    }

    /// Reaches the enumerants of a kind that bear some names.
    fn add_named(&mut self, table: &Table, kind: u32, names: &NameListRef<'_>) -> Result<(), Memory>
        ensures { OnOk result (AddsAll (filter_map (value_named (enumerants_of (kind_of table.now kind))) names.now)
            self.old self.new) }
    {
        for place in 0..names.len() {
            if let Some(capability) = table.enumerant_named(kind, names.name(place)) {
                self.add(capability)?;
            }
        }
        Ok(())
    }

    /// Reaches the capabilities that an enumerant of a kind lists; none where there is no such enumerant.
    fn follow(&mut self, table: &Table, kind: u32, capability: u32) -> Result<(), Memory>
        ensures { OnOk result (AddsAll (listed_by (enumerants_of (kind_of table.now kind)) capability) self.old
            self.new) }
    {
        let Some(enumerant) = table.enumerant(kind, capability) else {
            return Ok(());
        };
        self.add_named(table, kind, &enumerant.capabilities())
    }
}

impl Table {
    /// The capabilities that are implied by declared ones: these, and those that an implied one lists.
    ///
    /// A declared number counts even where the table has no such capability; a listed name that no
    /// capability bears counts for nothing. Each list is looked at once.
    ///
    /// `Memory` comes only where a growth of memory was refused.
    pub fn implied(&self, alloc: Global, declared: &[u32]) -> Result<BTreeSet<u32>, Memory>
        ensures { IfOk result (λ s. (c : ℕ) → IsTrue (contains nat_cmp s c) ↔ Implied self.now declared.now c) }
    {
        let mut reached = Reached::new(alloc);
        reached.add_all(declared)?;
        let Some(kind) = self.kind_named("Capability") else {
            return Ok(reached.all);
        };
        while let Some(capability) = reached.due.pop() {
            reached.follow(self, kind, capability)?;
        }
        Ok(reached.all)
    }
}
