//! Laws of the rules on ids. Each function does nothing: its contract is what is proved.

ghost use Rattle.std.specs.Prelude.{◌≡◌, ℕ, List, [], ◌∷◌};
ghost use Rattle.spv_module.specs.Example.{small};
ghost use Rattle.spv_module.specs.Operand.{Argument, Mention};
ghost use Rattle.spv_module.specs.declared.fault.Rule.TheVariants.{D1, D2, D3, D4, D5};
ghost use Rattle.spv_ids.specs.Example.{void, of_void, used_inside, used_outside, extended, mentioned, between};
ghost use Rattle.spv_ids.specs.Order.{IsInOrder, IsInScope};
ghost use Rattle.spv_table.specs.Table.{Table};
ghost use Rattle.spv_module.specs.Operand.{PlainInst};
ghost use Rattle.spv_module.specs.declared.fault.Rule.{Rule};
ghost use Rattle.spv_layout.specs.declared.form.Role.{Role};
ghost use Rattle.spv_layout.specs.declared.place.Place.{Place};
ghost use Rattle.spv_layout.specs.Plan.{IsPlan};
ghost use Rattle.spv_ids.specs.Sound.{IsSoundUse};
ghost use Rattle.spv_layout.specs.First.{IsFirst, IsUnbroken};
ghost use Rattle.spv_layout.specs.Stage.{of_ids};
ghost use Rattle.spv_ids.specs.Definition.{IsDefinedAt, IsUsedAt, IsLocal, IsLocalTo};
ghost use Rattle.spv_ids.specs.Broken.{Broken, IsOutOfRange};

/// At most one rule on ids is broken first, at one instruction.
pub fn one_fault()
    ensures { (G : Table) (bound : ℕ) (is : List PlainInst) (q r : Rule) (m n : ℕ)
        → IsFirst (Broken G bound is) of_ids q m → IsFirst (Broken G bound is) of_ids r n → (q ≡ r) × (m ≡ n) }
{}

/// Where no rule on ids is broken, each id that is used has exactly one definition.
pub fn one_definition()
    ensures { (G : Table) (bound : ℕ) (is : List PlainInst) (n k x : ℕ) (r : Role)
        → IsUnbroken (Broken G bound is) of_ids → IsUsedAt G is n k x r → (m : ℕ) × IsDefinedAt is x m
        × ((l : ℕ) → IsDefinedAt is x l → l ≡ m) }
{}

/// Where no rule on ids is broken, each use is of one definition, in order and in scope.
pub fn sound_uses()
    ensures { (G : Table) (bound : ℕ) (is : List PlainInst) (places : List Place) (n k x : ℕ) (r : Role)
        → IsPlan G is places → IsUnbroken (Broken G bound is) of_ids → IsUsedAt G is n k x r → IsSoundUse is n x }
{}

/// Small lists with and without faults, under a small table and the bound 5.
pub fn id_examples()
    // %1 defined twice, and once.
    ensures again { Broken small 5 (void 1 ∷ void 1 ∷ []) D2 1 }
    ensures once { (n : ℕ) → ¬ (Broken small 5 (void 1 ∷ []) D2 n) }
    // %5 and %4 under the bound 5.
    ensures out_of_range { Broken small 5 (void 5 ∷ []) D1 0 }
    ensures in_range { ¬ (IsOutOfRange 5 4) }
    // `%2 = OpTypeFunction %1` uses %1: alone, after its definition, and before it.
    ensures undefined { Broken small 5 (of_void ∷ []) D3 0 }
    ensures in_order { IsInOrder (void 1 ∷ of_void ∷ []) 1 1 }
    ensures not_in_order { ¬ (IsInOrder (of_void ∷ void 1 ∷ []) 0 1) }
    ensures early { Broken small 5 (of_void ∷ void 1 ∷ []) D4 0 }
    ensures not_early { (n : ℕ) → ¬ (Broken small 5 (void 1 ∷ of_void ∷ []) D4 n) }
    // A type is local to no function, and its use is in none.
    ensures not_local { ¬ (IsLocal (void 1 ∷ of_void ∷ []) 1) }
    ensures not_in_scope { ¬ (IsInScope (void 1 ∷ of_void ∷ []) 1 1) }
    ensures not_outside { (n : ℕ) → ¬ (Broken small 5 (void 1 ∷ of_void ∷ []) D5 n) }
{}

/// A value that its own function uses, and one that another function uses.
pub fn scope_examples()
    ensures in_place { IsLocalTo used_inside 5 0 }
    ensures in_scope { IsInScope used_inside 3 5 }
    ensures not_broken { (n : ℕ) → ¬ (Broken small 9 used_inside D5 n) }
    ensures not_in_place { ¬ (IsLocalTo used_outside 5 4) }
    ensures not_in_scope { ¬ (IsInScope used_outside 6 5) }
    ensures broken { Broken small 9 used_outside D5 6 }
    // The result of an extended instruction between functions.
    ensures between { ¬ (IsLocal between 2) }
{}

/// Operands behind the number of an extended instruction that are looked at, under the bound 5.
pub fn extended_examples()
    // %4 as a value, and as a mention, where nothing defines it.
    ensures argument { Broken small 5 (extended (Argument 4) ∷ []) D3 0 }
    ensures mention { Broken small 5 (extended (Mention 4) ∷ []) D3 0 }
    // A mention of an id that is defined later breaks no rule.
    ensures later { (r : Rule) (n : ℕ) → ¬ (Broken small 5 mentioned r n) }
{}
