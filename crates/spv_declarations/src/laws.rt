//! Laws of the definitions, and worked examples. Each function does nothing: its contract is what is proved.
//!
//! In the examples of decorations `%2` is an OpDecorationGroup with Aliased (20), and its targets are `%3`, a variable
//! that is Restrict (19) too, and `%1`, which is void; `%4` is a struct of two members.

ghost use Rattle.std.specs.Prelude.{◌≡◌, [], ◌∷◌, ℕ, List, true, false};
ghost use Rattle.spv_table.specs.Table.{Table};
ghost use Rattle.spv_module.specs.Operand.{PlainInst, Id, Word};
ghost use Rattle.spv_module.specs.declared.fault.Rule.TheVariants.{O3, O5, O8};
ghost use Rattle.spv_declarations.specs.Broken.{Broken};
ghost use Rattle.spv_declarations.specs.Declarations.{IsForwardElsewhere, IsOfNoMember};
ghost use Rattle.spv_declarations.specs.Decorated.{HasBy, HasOnMember, IsBuiltIn, IsMisplaced, IsSecond};
ghost use Rattle.spv_declarations.specs.Entry.{IsRepeated, TakesId};
ghost use Rattle.spv_declarations.specs.Example.{decorated, entries, modes, pointers};
ghost use Rattle.spv_declarations.specs.Table as spec;

/// One instruction alone breaks O8 by an id.
pub fn one_second()
    ensures { (is : List PlainInst) (m n : ℕ) (first : IsSecond is m) (other : IsSecond is n)
        → first.id ≡ other.id → m ≡ n }
{}

/// The table: Restrict (19), NoSignedWrap (4469) and RelaxedPrecision (0), which is on no line.
pub fn table_examples()
    ensures within { spec.is_among ((19, 21) ∷ (23, 25) ∷ []) 24 ≡ true }
    ensures outside { spec.is_among ((19, 21) ∷ (23, 25) ∷ []) 22 ≡ false }
    ensures listed { spec.is_listed spec.lines 4469 ≡ true }
    ensures not_listed { spec.is_listed spec.lines 0 ≡ false }
    ensures variable { spec.StandsOn decorated 19 3 }
    ensures not_type { ¬ (spec.StandsOn decorated 19 1) }
    ensures anything { spec.StandsOn decorated 0 1 }
    ensures never { spec.IsNeverOnMembers 20 }
    ensures member { ¬ (spec.IsNeverOnMembers 19) }
{}

/// What ids and members have, and by which instruction.
pub fn decoration_examples()
    ensures own { HasBy decorated 3 19 0 }
    ensures by_group { HasBy decorated 3 20 3 }
    // What is said of a group it does not have itself.
    ensures not_group { ¬ (HasBy decorated 2 20 1) }
    ensures member { HasOnMember decorated 4 1 11 4 }
    ensures built_in { IsBuiltIn decorated 4 1 }
    ensures not_all { ¬ (IsBuiltIn decorated 4 0) }
{}

/// Where rules are broken.
pub fn broken_examples()
    // %3 is Restrict by instruction 0 and Aliased by 3.
    ensures second { IsSecond decorated 3 }
    ensures not_first { ¬ (IsSecond decorated 0) }
    // Void is Aliased, and a member is.
    ensures misplaced { IsMisplaced decorated 3 }
    ensures on_member { IsMisplaced decorated 5 }
    ensures well_placed { ¬ (IsMisplaced decorated 0) }
    // The struct has no member 2.
    ensures no_member { IsOfNoMember decorated 5 }
    ensures last_member { ¬ (IsOfNoMember decorated 4) }
    ensures elsewhere { IsForwardElsewhere pointers 1 }
    ensures to_struct { ¬ (IsForwardElsewhere pointers 0) }
{}

/// Entry points and execution modes.
pub fn entry_examples()
    ensures repeated { IsRepeated entries 1 }
    ensures alone { ¬ (IsRepeated entries 0) }
    ensures with_id { TakesId modes 1 }
    ensures with_word { ¬ (TakesId modes 0) }
{}

/// As rules.
pub fn rule_examples()
    ensures first { (G : Table) → Broken G entries O3 1 }
    ensures not_another { (G : Table) → ¬ (Broken G entries O5 1) }
    ensures second { (G : Table) → Broken G decorated O8 3 }
{}
