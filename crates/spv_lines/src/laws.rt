//! What follows from the definitions of the text. Each function does nothing: its contract is what is proved.
ghost use Rattle.std.specs.Prelude.{◌≡◌, true, ◌<◌, ◌≤◌, ◌+◌, ◌^◌, ◌⊎◌, ℕ, List};
ghost use Rattle.std.specs.Prelude.{length};
ghost use Rattle.spv_words.specs.declared.words.Header.{Header};
ghost use Rattle.spv_table.specs.Table.{IsWhole, Table, has_other_parts};
ghost use Rattle.spv_module.specs.Operand.{PlainInst};
ghost use Rattle.spv_module.specs.Instruction.{IsListing};
ghost use Rattle.spv_words.specs.Header.{greatest_length};
ghost use Rattle.spv_inst.specs.Limits.{HeaderFits};
ghost use Rattle.spv_lines.specs.Line.{AreWords};
ghost use Rattle.spv_lines.specs.Text.{IsReadText, IsShownText};
ghost use Rattle.spv_lines.specs.declared.asm_error.AsmCode.{AsmCode};
ghost use Rattle.spv_lines.specs.Fault.{IsFailure};
ghost use Rattle.spv_lines.specs.Tidy.{IsTidy};
ghost use Rattle.std.specs.List.{list_all};

/// A header and a list of instructions have at most one shown text.
pub fn one_shown()
    ensures { (G : Table) (h : Header) (is : List PlainInst) (t u : List ℕ) → IsShownText G h is t
        → IsShownText G h is u → t ≡ u }
{}

/// A text is read as at most one header and list of instructions.
pub fn one_reading()
    ensures { (G : Table) (h k : Header) (is js : List PlainInst) (ws vs t : List ℕ) → IsReadText G h is ws t
        → IsReadText G k js vs t → (h ≡ k) × (is ≡ js) }
{}

/// A list of instructions that has words has a shown text; and this is read as the same header and list, with the same
/// words.
pub fn shown_reads_back()
    ensures shown { (G : Table) (h : Header) (is : List PlainInst) (ws : List ℕ) → IsListing G is ws
        → (t : List ℕ) × IsShownText G h is t }
    ensures read { (G : Table) (h : Header) (is : List PlainInst) (ws t : List ℕ) → IsShownText G h is t
        → IsListing G is ws → AreWords ws → HeaderFits h → h.generator < 2 ^ 32
        → 5 + length ws ≤ greatest_length → IsReadText G h is ws t }
{}

/// A text fails with at most one code, at one line, and a text that is read does not fail.
pub fn one_failure()
    ensures once { (G : Table) (t : List ℕ) (a b : AsmCode) (n m : ℕ) → IsTidy G → IsFailure G t a n
        → IsFailure G t b m → (a ≡ b) × (n ≡ m) }
    ensures never { (G : Table) (h : Header) (is : List PlainInst) (ws t : List ℕ) (a : AsmCode) (n : ℕ)
        → IsTidy G → IsReadText G h is ws t → ¬ (IsFailure G t a n) }
{}

/// Every text is read, or fails: the codes leave no gap.
pub fn read_or_fails()
    ensures { (G : Table) (t : List ℕ) → IsWhole G
        → ((h : Header) × (is : List PlainInst) × (ws : List ℕ) × IsReadText G h is ws t)
        ⊎ ((a : AsmCode) × (n : ℕ) × IsFailure G t a n) }
{}

/// The words of a text that is read spell the list, and there are no other words of it.
pub fn read_spelled()
    ensures spelled { (G : Table) (h : Header) (is : List PlainInst) (ws t : List ℕ) → IsReadText G h is ws t
        → IsListing G is ws }
    ensures once { (G : Table) (h k : Header) (is js : List PlainInst) (ws vs t : List ℕ) → IsReadText G h is ws t
        → IsReadText G k js vs t → ws ≡ vs }
{}

/// Of the shown text of a list that has words nothing is read but the header, the list and the words, and it does not
/// fail.
pub fn shown_assembled()
    ensures only { (G : Table) (h k : Header) (is js : List PlainInst) (ws vs t : List ℕ) → IsShownText G h is t
        → IsListing G is ws → AreWords ws → HeaderFits h → h.generator < 2 ^ 32
        → 5 + length ws ≤ greatest_length → IsReadText G k js vs t → (h ≡ k) × (is ≡ js) × (ws ≡ vs) }
    ensures never { (G : Table) (h : Header) (is : List PlainInst) (ws t : List ℕ) (a : AsmCode) (n : ℕ)
        → IsTidy G → IsShownText G h is t → IsListing G is ws → AreWords ws → HeaderFits h
        → h.generator < 2 ^ 32 → 5 + length ws ≤ greatest_length → ¬ (IsFailure G t a n) }
{}

/// A table is tidy where the parameters and bases of its kinds are of other kinds than that of results, as rule J6 asks
/// of a file.
pub fn tidy_by_kinds()
    ensures { (G : Table) → list_all (has_other_parts G) G.kinds ≡ true → IsTidy G }
{}

/// Every table is tidy that is whole, as each `Table` is: a file in which a result kind stands among parameters or
/// bases breaks J6.
pub fn tables_are_tidy()
    ensures { (G : Table) → IsWhole G → IsTidy G }
{}
