//! Worked examples of the definitions, under the small table of `spv_inst`. Each function does nothing.
ghost use Rattle.std.specs.Prelude.{◌≡◌, ◌^◌, ◌∷◌, [], ℕ, List, Some, None, true, false, codes};
ghost use Rattle.spv_table.specs.Lookups.{value_named};
ghost use Rattle.spv_module.specs.Operand.{PlainInst, result_in, start, Text, Number};
ghost use Rattle.spv_module.specs.Shape.{alone};
ghost use Rattle.spv_module.specs.Example.{access, load, long_value, small, string, switch};
ghost use Rattle.spv_lines.specs.Digits.{IsLarge, hex_digits, is_number, value};
ghost use Rattle.spv_lines.specs.Name.{Names, NamesMask, is_plain, shown_mask, shown_value};
ghost use Rattle.spv_lines.specs.Operand.{number_text, quoted};
ghost use Rattle.spv_lines.specs.Line.{IsReadLine, IsShownLine, parts_of};
ghost use Rattle.spv_lines.specs.Text.{IsReadText, IsShownText, lines_of};
ghost use Rattle.spv_lines.specs.Fault.{IsFailure, LineFails};
ghost use Rattle.spv_lines.specs.declared.asm_error.AsmCode.TheVariants.{S1, S2, S3, S4};
ghost use Rattle.spv_lines.specs.Example.{small_header, string_text};

/// Numbers.
pub fn number_examples()
    ensures ten { is_number (codes "10") ≡ true }
    ensures needless { is_number (codes "010") ≡ false }
    ensures none { is_number [] ≡ false }
    ensures signed { is_number (codes "+1") ≡ false }
    ensures value { value (codes "10") ≡ 10 }
    ensures hexadecimal { hex_digits 8 1065353216 ≡ codes "3f800000" }
    ensures large { IsLarge (2 ^ 32) (codes "4294967296") }
    ensures fits { ¬ (IsLarge (2 ^ 32) (codes "4294967295")) }
    ensures no_number { ¬ (IsLarge (2 ^ 32) (codes "04294967296")) }
{}

/// Names of the kind MemoryAccess, which has Volatile (bit 1) and Aligned (bit 2).
pub fn name_examples()
    ensures plain { is_plain (codes "Physical64") ≡ true }
    ensures space { is_plain (codes "Vol atile") ≡ false }
    ensures named { Names (value_named access) 1 (codes "Volatile") }
    ensures numbered { Names (value_named access) 1 (codes "#1") }
    ensures other { ¬ (Names (value_named access) 2 (codes "Volatile")) }
    ensures both { NamesMask (value_named access) 3 (codes "Volatile|Aligned") }
    ensures whole { NamesMask (value_named access) 3 (codes "#3") }
    ensures order { ¬ (NamesMask (value_named access) 3 (codes "Aligned|Volatile")) }
    ensures part { ¬ (NamesMask (value_named access) 3 (codes "Volatile|#2")) }
    ensures shown { shown_mask access 3 ≡ codes "Volatile|Aligned" }
    ensures unnamed { shown_mask access 0 ≡ codes "#0" }
{}

/// Operands.
pub fn operand_examples()
    ensures escaped { quoted (codes "a\"\\\n") ≡ codes "\"a\\\"\\\\\\n\"" }
    ensures decimal { number_text false 7 1 2 ≡ codes "4294967303" }
    ensures hexadecimal { number_text true 0 1072693248 2 ≡ codes "0x3ff0000000000000" }
{}

/// Lines.
pub fn line_examples()
    ensures parts { parts_of (codes "%9 = OpLoad %2")
        ≡ Some (record { result = Some (codes "%9"); name = codes "OpLoad"; operands = codes " %2" }) }
    ensures no_equals { parts_of (codes "%9 OpLoad") ≡ None }
    ensures first_equals { parts_of (codes "%1 =OpString \" = OpNop\"")
        ≡ Some (record { result = Some (codes "%1 =OpString \""); name = codes "OpNop\""; operands = [] }) }
    ensures shown { IsShownLine small [] load (2 ∷ 9 ∷ 8 ∷ 3 ∷ 4 ∷ [])
        (codes "%9 = OpLoad %2 %8 Volatile|Aligned 4") }
    ensures numbered { ¬ (IsShownLine small [] load (2 ∷ 9 ∷ 8 ∷ 3 ∷ 4 ∷ [])
        (codes "%9 = OpLoad %2 %8 #3 4")) }
    ensures read { IsReadLine small [] load (2 ∷ 9 ∷ 8 ∷ 3 ∷ 4 ∷ []) (codes "%9 = #61 %2 %8 #3 4") }
    ensures switch { IsShownLine small long_value switch (2 ∷ 10 ∷ 7 ∷ 1 ∷ 11 ∷ [])
        (codes "OpSwitch %2 %10 4294967303 %11") }
    ensures unread { (i : PlainInst) (us : List ℕ) → ¬ (IsReadLine small [] i us (codes "%9 = OpLoa %2 %8")) }
{}

/// Texts.
pub fn text_examples()
    ensures lines { lines_of (codes "a\n\nb") ≡ codes "a" ∷ [] ∷ codes "b" ∷ [] }
    ensures last { lines_of (codes "a\n") ≡ codes "a" ∷ [] }
    ensures none { lines_of [] ≡ [] }
    ensures shown { IsShownText small small_header (string ∷ []) string_text }
    ensures read { IsReadText small small_header (string ∷ []) (196615 ∷ 5 ∷ 6513249 ∷ []) string_text }
{}

/// Failures.
pub fn failure_examples()
    ensures empty { IsFailure small [] S1 1 }
    ensures name { LineFails small [] 5 (codes "OpLoa %2") S2 }
    ensures equals { LineFails small [] 5 (codes "%9 OpLoad") S2 }
    ensures missing { LineFails small [] 5 (codes "OpLoad %2 %8") S3 }
    ensures large { LineFails small [] 5 (codes "%4294967296 = OpLoad %2") S4 }
{}
