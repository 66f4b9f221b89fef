//! A worked example. The function does nothing: its contract is what is proved.

ghost use Rattle.std.specs.Prelude.{[], ◌∷◌};
ghost use Rattle.spv_table.specs.Table.{Table};
ghost use Rattle.spv_module.specs.Operand.{Id};
ghost use Rattle.spv_interfaces.specs.Example.{faced};
ghost use Rattle.spv_interfaces.specs.Interface.{IsMisfaced};

/// The function of the entry point calls one that uses the variable `%9`, in a module of version 1.4.
pub fn interface_examples()
    ensures unnamed { (G : Table) → IsMisfaced G 4 (faced []) 0 }
    ensures named { (G : Table) → ¬ (IsMisfaced G 4 (faced (Id 9 ∷ [])) 0) }
    ensures twice { (G : Table) → IsMisfaced G 4 (faced (Id 9 ∷ Id 9 ∷ [])) 0 }
    // Before 1.4 a variable of CrossWorkgroup is not asked for.
    ensures before { (G : Table) → ¬ (IsMisfaced G 3 (faced []) 0) }
{}
