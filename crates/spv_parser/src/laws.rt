//! What follows from the contracts of `show` and `assemble`. Each function does nothing: its contract is what is
//! proved.
ghost use Rattle.std.specs.Prelude.{◌≡◌, ◌<◌, ◌≤◌, ◌+◌, ◌++◌, ◌^◌, ℕ, List, length, drop};
ghost use Rattle.spv_words.specs.declared.words.Header.{Header};
ghost use Rattle.spv_words.specs.Header.{IsHeader, greatest_length};
ghost use Rattle.spv_table.specs.Table.{Table};
ghost use Rattle.spv_module.specs.Operand.{PlainInst};
ghost use Rattle.spv_module.specs.Instruction.{IsListing};
ghost use Rattle.spv_inst.specs.Outcome.{IsHeaderOf};
ghost use Rattle.spv_inst.specs.Limits.{HeaderFits};
ghost use Rattle.spv_lines.specs.Line.{AreWords};
ghost use Rattle.spv_lines.specs.Text.{IsReadText, IsShownText};
ghost use Rattle.spv_lines.specs.Tidy.{IsTidy};
ghost use Rattle.spv_lines.specs.declared.asm_error.AsmCode.{AsmCode};
ghost use Rattle.spv_lines.specs.declared.asm_error.AsmCode.TheVariants.{S6};
ghost use Rattle.spv_lines.specs.Fault.{IsAsmFailure};
ghost use Rattle.spv_parser.specs.Reason.{FailsFor, Reason, column_of};

/// What `assemble` answers of the shown text of a list that has words: their image, or that memory was refused. No
/// other image meets its contract, and no other error.
pub fn shown_assembles()
    ensures image { (G : Table) (h k : Header) (is js : List PlainInst) (ws image t : List ℕ) → IsShownText G h is t
        → IsListing G is ws → AreWords ws → HeaderFits h → h.generator < 2 ^ 32
        → 5 + length ws ≤ greatest_length → IsReadText G k js (drop 5 image) t → IsHeaderOf image k
        → (drop 5 image ≡ ws) × IsHeaderOf image h }
    ensures error { (G : Table) (h : Header) (is : List PlainInst) (ws t : List ℕ) (code : AsmCode) (line : ℕ)
        → IsTidy G → IsShownText G h is t → IsListing G is ws → AreWords ws → HeaderFits h
        → h.generator < 2 ^ 32 → 5 + length ws ≤ greatest_length → IsAsmFailure G t code line
        → (code ≡ S6) × (line ≡ 0) }
{}

/// A text assembles to at most one image.
pub fn one_assembling()
    ensures { (G : Table) (h k : Header) (is js : List PlainInst) (i j t : List ℕ) → IsHeader i → IsHeaderOf i h
        → IsReadText G h is (drop 5 i) t → IsHeader j → IsHeaderOf j k
        → IsReadText G k js (drop 5 j) t → i ≡ j }
{}

/// What `assemble` answers of the shown text of the module that an image was decoded to: that image, or that memory was
/// refused.
pub fn decoded_assembles()
    ensures image { (G : Table) (h k : Header) (is js : List PlainInst) (ws image t : List ℕ) → IsHeader ws
        → AreWords ws → length ws ≤ greatest_length → IsHeaderOf ws h → IsListing G is (drop 5 ws)
        → IsShownText G h is t → IsHeader image → IsHeaderOf image k → IsReadText G k js (drop 5 image) t
        → image ≡ ws }
    ensures error { (G : Table) (h : Header) (is : List PlainInst) (ws t : List ℕ) (code : AsmCode) (line : ℕ)
        → IsTidy G → IsHeader ws → AreWords ws → length ws ≤ greatest_length → IsHeaderOf ws h
        → IsListing G is (drop 5 ws) → IsShownText G h is t → IsAsmFailure G t code line
        → (code ≡ S6) × (line ≡ 0) }
{}

/// The octets before the column that a failure tells, and what is left of the line there, are the whole line.
pub fn columns()
    ensures { (G : Table) (t : List ℕ) (code : AsmCode) (n : ℕ) (why : Reason) → FailsFor G t code n why
        → (front : List ℕ) × (why.line ≡ front ++ why.stop.rest) × (column_of why ≡ length front + 1) }
{}

/// A text that fails does so with one code, at one line, for one reason.
pub fn one_reason()
    ensures { (G : Table) (t : List ℕ) (a b : AsmCode) (n m : ℕ) (x y : Reason) → IsTidy G → FailsFor G t a n x
        → FailsFor G t b m y → (a ≡ b) × (n ≡ m) × (x ≡ y) }
{}
