ghost use Rattle.std.specs.Prelude.{◌≡◌, ◌<◌, ◌^◌, ◌↔◌, ℕ, List, [], ◌∷◌, Some, None, map};
ghost use Rattle.std.specs.List.{AllByRecursion};
ghost use Rattle.spv_module.specs.Shape.{Shape, AsText, alone};
ghost use Rattle.spv_table.specs.Table.{Table, Item, pattern_of};
ghost use Rattle.spv_module.specs.Operand.{Plain, PlainInst, Context, Mask, Word, start};
ghost use Rattle.spv_module.specs.Width.{width_of, type_of};
ghost use Rattle.spv_module.specs.Spelling.{Match, Spells};
ghost use Rattle.spv_module.specs.Instruction.{IsInstruction, IsListing};
ghost use Rattle.spv_module.specs.declared.fault.Rule.{Rule};
ghost use Rattle.spv_module.specs.declared.fault.Rule.TheVariants.{I7, I8};
ghost use Rattle.spv_module.specs.Refusal.{Misfit, IsLeaf, Meets, ShapeRefuses};
ghost use Rattle.spv_module.specs.Malformed.{IsMalformedAt};
ghost use Rattle.spv_module.specs.Example.{small, load, load_entry, string, long_value, declared_twice, switch};
ghost use Rattle.spv_inst.specs.Flat.{due};
ghost use Rattle.spv_inst.specs.inner.Flat.{Matches, Fails};

/// The same words have at most one operand list by a pattern.
pub fn one_reading()
    ensures { (G : Table) (c : Context) (is : List Item) (os ps : List Plain) (us : List ℕ) → Match G c is os us
        → Match G c is ps us → os ≡ ps }
{}

/// An operand list has at most one spelling by a pattern.
pub fn one_spelling()
    ensures { (G : Table) (c : Context) (is : List Item) (os : List Plain) (us vs : List ℕ) → Match G c is os us
        → Match G c is os vs → us ≡ vs }
{}

/// Joined lists of words, and one relation over what is due and all the words left, say the same.
pub fn same_matches()
    ensures { (G : Table) (c : Context) (is : List Item) (os : List Plain) (us : List ℕ) → (Match G c is os us)
        ↔ (Matches G c (map due is) os us) }
{}

/// So do fronts with a refusal after them, and the relation over what is due.
pub fn same_misfits()
    ensures { (G : Table) (c : Context) (is : List Item) (us : List ℕ) (code : Rule) (n : ℕ)
        → (Misfit G c is us code n) ↔ (Fails G c (map due is) us code n) }
{}

/// A shape other than a Composite's takes words at the front of any 32-bit words, or refuses them: the codes I4 and I6
/// to I12 leave no gap.
pub fn no_gap()
    ensures { (k : ℕ) (sh : Shape) (us : List ℕ) → IsLeaf sh → AllByRecursion (λ w. w < 2 ^ 32) us
        → Meets k sh us }
{}

/// The same words are at most one list of instructions.
pub fn one_listing()
    ensures { (G : Table) (is js : List PlainInst) (ws : List ℕ) → IsListing G is ws → IsListing G js ws
        → is ≡ js }
{}

/// A list of instructions has at most one spelling.
pub fn one_listing_spelling()
    ensures { (G : Table) (is : List PlainInst) (ws vs : List ℕ) → IsListing G is ws → IsListing G is vs
        → ws ≡ vs }
{}

/// At most one instruction is dead, with one code and word.
pub fn one_death()
    ensures { (G : Table) (ws : List ℕ) (a b : Rule) (k l n m : ℕ) → IsMalformedAt G ws a k n
        → IsMalformedAt G ws b l m → (a ≡ b) × (k ≡ l) × (n ≡ m) }
{}

/// Words that are a list of instructions have no dead one.
pub fn listed_or_dead()
    ensures { (G : Table) (is : List PlainInst) (ws : List ℕ) (a : Rule) (k n : ℕ) → IsListing G is ws
        → ¬ (IsMalformedAt G ws a k n) }
{}

/// Widths, where `%1` is declared as a type of 64 bits and `%2` has it.
pub fn width_examples()
    ensures declared { width_of long_value 1 ≡ Some 64 }
    ensures value { type_of long_value 2 ≡ Some 1 }
    // Of two declarations the last counts.
    ensures last { width_of declared_twice 1 ≡ Some 64 }
    // A value is no type, and %7 is nothing.
    ensures no_type { width_of long_value 2 ≡ None }
    ensures none { type_of long_value 7 ≡ None }
{}

/// Operands of the kind MemoryAccess, which has the bits 1 and 2.
pub fn kind_examples()
    // 3 4 is `Volatile|Aligned 4`.
    ensures spelled { Spells small (start [] 61) (alone 3) (Mask 3 3 ∷ Word 4 ∷ []) (3 ∷ 4 ∷ []) }
    // No enumerant has the bit 4.
    ensures unknown { (os : List Plain) → ¬ (Spells small (start [] 61) (alone 3) os (4 ∷ [])) }
    // The word 4 of Aligned is missing.
    ensures short { (os : List Plain) → ¬ (Spells small (start [] 61) (alone 3) os (2 ∷ [])) }
{}

/// Operands of the pattern of OpLoad.
pub fn pattern_examples()
    ensures spelled { Match small (start [] 61) (pattern_of load_entry) load.operands
        (2 ∷ 9 ∷ 8 ∷ 3 ∷ 4 ∷ []) }
    // The mask is absent only where no word is left: 4 is no mask.
    ensures unknown { (os : List Plain) → ¬
        (Match small (start [] 61) (pattern_of load_entry) os (2 ∷ 9 ∷ 8 ∷ 4 ∷ [])) }
{}

/// Words that are refused, and words that are not.
pub fn refusal_examples()
    // "aaaa" has no zero octet.
    ensures endless { ShapeRefuses AsText (1633771873 ∷ []) I8 0 }
    // "abc" is a text.
    ensures fits { (rule : Rule) (n : ℕ) → ¬ (ShapeRefuses AsText (6513249 ∷ []) rule n) }
    // The word 4 is refused after three words of OpLoad.
    ensures misfit { Misfit small (start [] 61) (pattern_of load_entry) (2 ∷ 9 ∷ 8 ∷ 4 ∷ []) I7 3 }
    ensures matched { (rule : Rule) (n : ℕ)
        → ¬ (Misfit small (start [] 61) (pattern_of load_entry) (2 ∷ 9 ∷ 8 ∷ 3 ∷ 4 ∷ []) rule n) }
{}

/// Instructions.
pub fn instruction_examples()
    // 0x0006003D 2 9 8 3 4 is `%9 = OpLoad %2 %8 Volatile|Aligned 4`.
    ensures mask { IsInstruction small [] load (393277 ∷ 2 ∷ 9 ∷ 8 ∷ 3 ∷ 4 ∷ []) }
    // 0x00030007 5 0x00636261 is `%5 = OpString "abc"`.
    ensures text { IsInstruction small [] string (196615 ∷ 5 ∷ 6513249 ∷ []) }
    // 0x000600FB 2 10 7 1 11 is `OpSwitch %2 %10 4294967303 %11`, where %2 has 64 bits.
    ensures wide { IsInstruction small long_value switch (393467 ∷ 2 ∷ 10 ∷ 7 ∷ 1 ∷ 11 ∷ []) }
    // The first word tells five words in place of six.
    ensures count { ¬ (IsInstruction small [] load (327741 ∷ 2 ∷ 9 ∷ 8 ∷ 3 ∷ 4 ∷ [])) }
{}

/// Lists of instructions, and dead ones.
pub fn list_examples()
    ensures listed { IsListing small (string ∷ []) (196615 ∷ 5 ∷ 6513249 ∷ []) }
    // 0x0005003D 2 9 8 4 is no list of instructions, since no enumerant has the bit 4: the word 4 is told.
    ensures none { (is : List PlainInst) → ¬ (IsListing small is (327741 ∷ 2 ∷ 9 ∷ 8 ∷ 4 ∷ [])) }
    ensures dead { IsMalformedAt small (327741 ∷ 2 ∷ 9 ∷ 8 ∷ 4 ∷ []) I7 0 4 }
    ensures alive { (rule : Rule) (k n : ℕ) → ¬ (IsMalformedAt small (196615 ∷ 5 ∷ 6513249 ∷ []) rule k n) }
{}
