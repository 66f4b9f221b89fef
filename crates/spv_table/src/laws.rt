//! Worked examples of the definitions, and that tables may be shared. The functions do nothing: their contracts and
//! bounds are what is proved.

ghost use Rattle.std.specs.Prelude.{ℕ, [], ◌∷◌};
ghost use Rattle.spv_table.specs.Implied.{Lists, Implied};
ghost use Rattle.spv_table.specs.Example.{empty_table, capability_table};

use crate::table::Table;

/// Worked examples of what declared capabilities imply.
pub fn capability_examples()
    // 3 lists 2, which lists 1.
    ensures listed { Lists capability_table 3 2 }
    ensures implied { Implied capability_table (3 ∷ []) 1 }
    // 1 lists nothing, so 3 is not implied by it.
    ensures not_backward { ¬ Implied capability_table (1 ∷ []) 3 }
    // A declared number is implied though there is no such capability.
    ensures declared { Implied capability_table (9 ∷ []) 9 }
    // A name that no capability bears lists nothing, and nor does a table without the kind Capability.
    ensures unknown_name { (c : ℕ) → ¬ Lists capability_table 4 c }
    ensures no_kind { (a c : ℕ) → ¬ Lists empty_table a c }
{}

fn shared<T: Send + Sync>() {}

/// A table may be read by several threads at the same time, and freed by another than made it. The bounds say so.
pub fn tables_are_shared() {
    shared::<Table>();
}
