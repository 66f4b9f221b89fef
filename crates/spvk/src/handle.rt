//! A grammar table behind a pointer, as C keeps it.
ghost use Rattle.std.specs.Prelude.{◌≡◌, None, Option, Some, option_map};
ghost use Rattle.spv_table.specs.Table.{Table as TableView};

use crate::loose::Loose;
use spv_table::Table;
use std::alloc::Global;
use std::marker::Model;
use std::ptr;

/// The owner of a grammar: `spvk_grammar` of C. A null pointer stands for no grammar.
#[repr(C)]
pub struct Grammar {
    at: *mut u8,
    /// The table.
    ghost table: { Option TableView },
}

impl Model for Grammar {
    ghost use Rattle.std.specs.Prelude.{Option};
    ghost use Rattle.spv_table.specs.Table.{Table as TableView};
    ghost use Rattle.spvk.specs.Held.{held};

    ghost also_owns = { λ g. held g.at g.table };
}

impl Grammar {
    /// Without a grammar.
    pub fn none() -> Grammar
        ensures { result.table ≡ None }
    {
        Grammar {
            at: ptr::null_mut(),
        }
    }

    /// The owner of a table.
    pub fn of(table: Loose<Table, Global>) -> Grammar
        ensures { result.table ≡ Some table.value }
    {
        let Loose { at, alloc } = table;
        let _ = alloc;
        Grammar { at: at as *mut u8 }
    }

    /// The table, if there is one.
    fn into_loose(self, alloc: Global) -> Option<Loose<Table, Global>>
        ensures { option_map (λ l. l.value) result ≡ self.table }
    {
        let Grammar { at } = self;
        if at == ptr::null_mut() {
            None
        } else {
            Some(Loose {
                at: at as *mut Table,
                alloc,
            })
        }
    }

    /// Lets the table go, if there is one.
    pub fn let_go(self, alloc: Global) {
        if let Some(table) = self.into_loose(alloc) {
            drop(table.into_box());
        }
    }
}
