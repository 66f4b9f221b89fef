//! Which capabilities a module has, where nothing else of it is asked.

ghost use Rattle.std.specs.Prelude.{◌≡◌, ◌↔◌, ◌<◌, ℕ, IsTrue, Some, length, map, slice_get};
ghost use Rattle.std.specs.BTreeSet.{contains};
ghost use Rattle.std.specs.Ordering.{nat_cmp};
ghost use Rattle.spv_module.specs.Module.{plain_inst};
ghost use Rattle.spv_capabilities.specs.Capable.{Has};

use spv_module::Inst;
use spv_table::Table;
use std::collections::BTreeSet;
use std::marker::Model;

/// A module and the capabilities that it has. Contracts see the grammar table and the instructions.
#[derive(Drop)]
pub struct Capabilities<'m, 'a> {
    table: &'m Table,
    insts: &'m [Inst<'a>],
    /// The capabilities that the module has.
    implied: BTreeSet<u32>,
}

impl<'m, 'a> Model for Capabilities<'m, 'a> {
    ghost use Rattle.std.specs.Prelude.{◌↔◌, ℕ, IsTrue, map};
    ghost use Rattle.std.specs.BTreeSet.{contains};
    ghost use Rattle.std.specs.Ordering.{nat_cmp};
    ghost use Rattle.spv_module.specs.Module.{plain_inst};
    ghost use Rattle.spv_capabilities.specs.Capable.{Has};
    ghost use Rattle.spv_capabilities.specs.inner.Subject.{Subject};

    ghost Value = { Subject };

    ghost view = { λ s. record { table = s.table.now; insts = map plain_inst s.insts.now } };

    ghost invariant = { λ s. (c : ℕ) → IsTrue (contains nat_cmp s.implied c)
        ↔ Has s.table.now (map plain_inst s.insts.now) c };
}

impl<'m, 'a> Capabilities<'m, 'a> {
    /// Those of a module of which it is known which capabilities it has. It takes no memory.
    pub(crate) fn of_implied(
        table: &'m Table,
        insts: &'m [Inst<'a>],
        implied: BTreeSet<u32>,
    ) -> Capabilities<'m, 'a>
        requires { (c : ℕ) → IsTrue (contains nat_cmp implied c) ↔ Has table.now (map plain_inst insts.now) c }
        ensures { result ≡ record { table = table.now; insts = map plain_inst insts.now } }
    {
        Capabilities {
            table,
            insts,
            implied,
        }
    }

    /// The grammar table.
    pub fn table(&self) -> &'m Table
        ensures { result.now ≡ self.now.table }
    {
        self.table
    }

    /// The instruction of a number.
    #[inline(always)]
    pub fn inst(&self, number: u32) -> &'m Inst<'a>
        requires { number < length self.now.insts }
        ensures { slice_get self.now.insts number ≡ Some (plain_inst result.now) }
    {
        &self.insts[number as usize]
    }

    /// Whether the module has a capability.
    pub fn has(&self, capability: u32) -> bool
        ensures { IsTrue result ↔ Has self.now.table self.now.insts capability }
    {
        self.implied.contains(&capability)
    }
}
