//! Worked examples. Each function does nothing: its contract is what is proved.

ghost use Rattle.std.specs.Prelude.{ℕ};
ghost use Rattle.spv_table.specs.Table.{Table};
ghost use Rattle.spv_module.specs.declared.fault.Rule.TheVariants.{O3, O5};
ghost use Rattle.spv_extended.specs.declared.reach.Reach.TheVariants.{Extended, OpenCl};
ghost use Rattle.spv_standard.specs.Example.{entries};
ghost use Rattle.spv_standard.specs.Broken.{Broken, KernelBroken};

/// Two entry points of one execution model and one name.
pub fn broken_examples()
    ensures repeated { (G : Table) (minor : ℕ) → KernelBroken G minor entries O3 1 }
    ensures another { (G : Table) (minor : ℕ) → ¬ (KernelBroken G minor entries O5 1) }
    // It is asked of kernels of OpenCL alone.
    ensures asked { (G : Table) (minor : ℕ) → Broken G (OpenCl minor) entries O3 1 }
    ensures not_asked { (G : Table) → ¬ (Broken G Extended entries O3 1) }
{
    spv_declarations::laws::rule_examples();
}
