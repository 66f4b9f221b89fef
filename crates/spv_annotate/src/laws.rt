//! Laws of the definitions, and worked examples. Each function does nothing: its contract is what is proved.

ghost use Rattle.std.specs.Prelude.{◌≡◌, ◌++◌, ◌∷◌, [], ℕ, List, Option, None, Some, codes, false, length, map, true};
ghost use Rattle.std.specs.List.{flat_map, range_with_len};
ghost use Rattle.spv_table.specs.Table.{Table};
ghost use Rattle.spv_module.specs.declared.module.Module.{Module};
ghost use Rattle.spv_module.specs.Module.{plain_insts};
ghost use Rattle.spv_module.specs.Operand.{Id, OfType, Result, Word};
ghost use Rattle.spv_lines.specs.Text.{ended};
ghost use Rattle.spv_lines.specs.Plain.{plain_of};
ghost use Rattle.spv_annotate.specs.declared.finding.Finding.{Finding};
ghost use Rattle.spv_annotate.specs.declared.values.Bits.TheVariants.{Half, Single};
ghost use Rattle.spv_annotate.specs.Bare.{asked_lines, bare, bare_text};
ghost use Rattle.spv_annotate.specs.Document.{IsSpelled, IsSubject, Subject, beginning, document, is_of, line_of};
ghost use Rattle.spv_annotate.specs.Document.{version_line};
ghost use Rattle.spv_extended.specs.Example.{call, imports};
ghost use Rattle.spv_extended.specs.declared.reach.Reach.{Reach};
ghost use Rattle.spv_extended.specs.declared.reach.Reach.TheVariants.{Extended, OpenCl};
ghost use Rattle.spv_extended.specs.declared.signature.More.TheVariants.{Nothing};
ghost use Rattle.spv_annotate.specs.declared.linked.Quoting.TheVariants.{Outside};
ghost use Rattle.spv_annotate.specs.Called.{ids_of, told_operands, unmarked};
ghost use Rattle.spv_annotate.specs.Example.{doubled, entry_point, two_blocks};
ghost use Rattle.spv_annotate.specs.Module.{inst_at, predecessors};
ghost use Rattle.spv_annotate.specs.Notes.{call_note, comment, each_once, name_notes, short_name};
ghost use Rattle.spv_annotate.specs.Piece.{Block, Comment, Function, Section, text_of};
ghost use Rattle.spv_annotate.specs.Values.{IsValue, float_of, hex_of, is_nan, widened};

/// Taking away the line of the verdict, the comments of the text for reading, the spaces before them and empty lines
/// gives exactly the shown lines, each control character as `\xNN`, and literals of extended instructions without `%`:
/// those of the header, and those of the instructions that were asked for, which are all where no function was.
pub fn bare_text_is_shown()
    ensures asked { (G : Table) (reach : Reach) (m : Module) (told : Option Finding) (function : Option ℕ) (S : Subject)
        → IsSpelled G (plain_insts m) → IsSubject G reach m told function S
        → bare_text told (flat_map (text_of false) (document S)) ≡ ended (S.header ++ asked_lines S) }
    ensures whole { (G : Table) (reach : Reach) (m : Module) (told : Option Finding) (S : Subject)
        → IsSpelled G (plain_insts m) → IsSubject G reach m told None S
        → bare_text told (flat_map (text_of false) (document S))
        ≡ ended (S.header ++ map (λ n. plain_of (line_of S n)) (range_with_len 0 (length S.insts))) }
{}

/// The line of the version.
pub fn version_examples()
    ensures own { version_line (OpenCl 4) ≡ codes "; Version: 1.4" }
    ensures profile { ¬ (version_line Extended ≡ codes "; Version: 1.4") }
{}

/// Names and calls.
pub fn note_examples()
    ensures names { name_notes two_blocks (inst_at two_blocks 8) ≡ codes ", %3 one" }
    // An instruction that uses an id twice is followed by its name once.
    ensures once { name_notes two_blocks doubled ≡ codes ", %3 one" }
    ensures not_twice { ¬ (name_notes two_blocks doubled ≡ codes ", %3 one, %3 one") }
    ensures each { each_once (3 ∷ 5 ∷ 3 ∷ 7 ∷ 5 ∷ 3 ∷ []) ≡ 3 ∷ 5 ∷ 7 ∷ [] }
    ensures not_last { ¬ (each_once (3 ∷ 5 ∷ 3 ∷ []) ≡ 5 ∷ 3 ∷ []) }
    // The OpName has the name itself.
    ensures none { name_notes two_blocks (inst_at two_blocks 0) ≡ [] }
    // An OpEntryPoint has the name itself, if it is the same one.
    ensures entry { name_notes two_blocks (entry_point (codes "one")) ≡ [] }
    ensures other_entry { name_notes two_blocks (entry_point (codes "two")) ≡ codes ", %3 one" }
    ensures short { short_name (codes "a" ++ (27 ∷ codes "b")) ≡ codes "a\\x1bb" }
    ensures long { short_name (codes "123456789 123456789 123456789 123456789 12") ≡ codes
        "123456789 123456789 123456789 123456789 .." }
    ensures not_control { ¬ (short_name (27 ∷ []) ≡ 27 ∷ []) }
    // Ten `<` take forty octets in a page, and eleven take more.
    ensures marks { short_name (codes "<<<<<<<<<<") ≡ codes "<<<<<<<<<<" }
    ensures more_marks { short_name (codes "<<<<<<<<<<<") ≡ codes "<<<<<<<<<<.." }
    ensures call { call_note two_blocks (inst_at two_blocks 8) ≡ codes ", sqrt" }
    ensures no_call { call_note two_blocks (inst_at two_blocks 9) ≡ [] }
{}

/// Literals of extended instructions. vloadn (171) of OpenCL.std takes two ids and a literal, and DebugTypeVector (6)
/// of OpenCL.DebugInfo.100 an id and a literal; of a set that is not known each place is that of an id.
pub fn literal_examples()
    ensures operands { told_operands imports (call 1 171 (Id 7 ∷ Id 8 ∷ Id 4 ∷ []))
        ≡ OfType 3 ∷ Result 9 ∷ Id 1 ∷ Word 171 ∷ Id 7 ∷ Id 8 ∷ Word 4 ∷ [] }
    ensures vector { ids_of imports (call 2 6 (Id 7 ∷ Id 4 ∷ [])) ≡ 3 ∷ 9 ∷ 2 ∷ 7 ∷ [] }
    ensures other { ids_of [] (call 2 6 (Id 7 ∷ Id 4 ∷ [])) ≡ 3 ∷ 9 ∷ 2 ∷ 7 ∷ 4 ∷ [] }
    // The second operand behind the number is a literal.
    ensures line { unmarked (record { least = 2; more = Nothing; literals = 2 }) 0 Outside (codes "%9 = %3 %2 6 %7 %4")
        ≡ codes "%9 = %3 %2 6 %7 4" }
    ensures not_first { ¬ (unmarked (record { least = 2; more = Nothing; literals = 2 }) 0 Outside
        (codes "%9 = %3 %2 6 %7 %4") ≡ codes "%9 = %3 %2 6 7 4") }
{}

/// Blocks and the comment behind a label.
pub fn block_examples()
    // The first block names the label twice, and is told once.
    ensures from { predecessors two_blocks 7 ≡ 5 ∷ 7 ∷ [] }
    ensures not_twice { ¬ (predecessors two_blocks 7 ≡ 5 ∷ 5 ∷ 7 ∷ []) }
    ensures none { predecessors two_blocks 5 ≡ [] }
    ensures comment { comment two_blocks [] 7 (codes "%7 = OpLabel") ≡ codes
        "                                    ; inst 7 word 29, from %5 %7" }
{}

/// What begins, and what is asked for.
pub fn place_examples()
    ensures section { beginning two_blocks 2 ≡ Section 2 9 ∷ [] }
    ensures same_section { beginning two_blocks 3 ≡ [] }
    ensures function { beginning two_blocks 4 ≡ Function 4 ∷ [] }
    ensures block { beginning two_blocks 7 ≡ Block 7 ∷ [] }
    ensures inside { is_of two_blocks (Some 4) 10 ≡ true }
    ensures outside { is_of two_blocks (Some 4) 3 ≡ false }
    ensures other { is_of two_blocks (Some 5) 8 ≡ false }
    ensures all { is_of two_blocks None 3 ≡ true }
{}

/// Floats: a single one, and half ones as single ones, also the least of all.
pub fn value_examples()
    ensures single { float_of two_blocks (inst_at two_blocks 3) ≡ Some (Single 1065353216) }
    ensures none { float_of two_blocks (inst_at two_blocks 2) ≡ None }
    ensures one { widened 15360 ≡ 1065353216 }
    ensures least { widened 1 ≡ 864026624 }
    ensures not_itself { ¬ (widened 15360 ≡ 15360) }
    // 0x7fc00001 is no number, and 0x7f800000 is infinite.
    ensures nan { is_nan (Single 2143289345) ≡ true }
    ensures infinite { is_nan (Single 2139095040) ≡ false }
    ensures bits { hex_of (Half 32257) ≡ codes "7e01" }
    ensures as_bits { IsValue (Some (Single 2143289345)) (codes "NaN 0x7fc00001") }
    ensures not_alone { ¬ (IsValue (Some (Single 2143289345)) (codes "NaN")) }
{}

/// Comments, taken away and written.
pub fn bare_examples()
    ensures comment { bare (codes "OpNop   ; inst 1") ≡ codes "OpNop" }
    // A `;` in quotes begins none.
    ensures quotes { bare (codes "%2 = OpString \"a;\\\"b\" ; c") ≡ codes "%2 = OpString \"a;\\\"b\"" }
    ensures not_before { ¬ (bare (codes "OpNop   ; inst 1") ≡ codes "OpNop   ") }
    ensures lines { bare_text None (codes "a\nb\nc\nd\ne ; f\n\nOpNop ; inst 0\n; ^ rule\n")
        ≡ codes "a\nb\nc\nd\ne ; f\nOpNop\n" }
    // Where a fault is told, its line stands first.
    ensures verdict { (f : Finding) → bare_text (Some f) (codes "; fault\na\nb\nc\nd\ne\nOpNop ; inst 0\n")
        ≡ codes "a\nb\nc\nd\ne\nOpNop\n" }
    ensures dim { text_of true (Comment (codes " ; a")) ≡ (27 ∷ codes "[2m ; a") ++ (27 ∷ codes "[0m") }
{}
