//! Worked examples. Each function does nothing: its contract is what is proved.

ghost use Rattle.std.specs.Prelude.{◌≡◌, ◌≢◌, [], ◌∷◌, Some, None, codes};
ghost use Rattle.spv_module.specs.declared.opcode.TheConstants as opcode;
ghost use Rattle.spv_limits.specs.declared.table.Limit.TheVariants as limit;
ghost use Rattle.spv_limits.specs.Counted as spec;
ghost use Rattle.spv_limits.specs.Depth.{IsDeep};
ghost use Rattle.spv_limits.specs.Table.{most};
ghost use Rattle.spv_limits.specs.Example.{nested, variables};

/// The table, and what is counted.
pub fn count_examples()
    ensures members { most limit.Members ≡ 16383 }
    ensures locals { most limit.Locals ≡ 524287 }
    // An a, and an o with two dots, which is two octets.
    ensures characters { spec.character_count (97 ∷ 195 ∷ 182 ∷ []) ≡ 2 }
    ensures not_octets { spec.character_count (97 ∷ 195 ∷ 182 ∷ []) ≢ 3 }
    ensures chain { spec.before_indexes opcode.ACCESS_CHAIN ≡ Some 3 }
    ensures of_pointer { spec.before_indexes opcode.PTR_ACCESS_CHAIN ≡ Some 4 }
    ensures no_indexes { spec.before_indexes opcode.LOAD ≡ None }
    ensures globals { spec.variables_before variables 1 ≡ 1 }
    ensures locals_there { spec.locals_before variables 3 ≡ 1 }
    ensures no_locals { spec.locals_before variables 1 ≡ 0 }
{}

/// `%3` has the struct `%2` as a member, which has none.
pub fn depth_examples()
    ensures alone { IsDeep nested 1 1 }
    ensures not_two { ¬ (IsDeep nested 1 2) }
    ensures two { IsDeep nested 2 2 }
    ensures not_three { ¬ (IsDeep nested 2 3) }
    ensures no_struct { ¬ (IsDeep nested 0 1) }
{}
