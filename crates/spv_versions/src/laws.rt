//! Worked examples. Each function does nothing: its contract is what is proved.

ghost use Rattle.std.specs.Prelude.{◌≡◌, Some, None, codes};
ghost use Rattle.spv_versions.specs.declared.table.Kind.TheVariants as kind;
ghost use Rattle.spv_versions.specs.Missing.{IsMissing};
ghost use Rattle.spv_versions.specs.Named.{IsDeclared};
ghost use Rattle.spv_versions.specs.Table as spec;
ghost use Rattle.spv_versions.specs.Example.{extended};

/// Versions, and what an extension has: StorageBuffer16BitAccess (4433) came with 1.3, OpSizeOf (321) with 1.1.
pub fn version_examples()
    ensures before { spec.IsBefore 2 (Some 3) }
    ensures not_before { ¬ (spec.IsBefore 3 (Some 3)) }
    ensures never { spec.IsBefore 6 None }
    ensures declared { IsDeclared extended (codes "SPV_KHR_16bit_storage") }
    ensures not_declared { ¬ (IsDeclared extended (codes "SPV_KHR_8bit_storage")) }
    ensures there { ¬ (IsMissing 2 extended kind.Capability 4433) }
    ensures missing { IsMissing 0 extended kind.Opcode 321 }
{}
