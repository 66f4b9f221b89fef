//! Laws of the definitions, and worked examples. Each function does nothing: its contract is what
//! is proved.

ghost use Rattle.std.specs.Prelude.{◌≡◌, ℕ, List, [], ◌∷◌, Some, None, codes, true, false, filter};
ghost use Rattle.std.specs.Prelude.{slice_get, option_map, option_and_then, string_bytes};
ghost use Rattle.serde_json.specs.Data.{Data, object, no_members, member, string, number, unsigned, array, item};
ghost use Rattle.serde_json.specs.Data.{no_items};
ghost use Rattle.spv_grammar.specs.declared.error.GrammarError.{GrammarError};
ghost use Rattle.spv_grammar.specs.declared.error.GrammarError.TheVariants.{J2, J3, J4, J5, J6, J7};
ghost use Rattle.spv_table.specs.declared.table.Category.TheVariants.{BitEnum, ValueEnum};
ghost use Rattle.spv_table.specs.declared.table.Quantifier.TheVariants.{Maybe};
ghost use Rattle.spv_grammar.specs.declared.file.File.{File};
ghost use Rattle.spv_grammar.specs.declared.file.FileKind.{FileKind};
ghost use Rattle.spv_table.specs.Table.{Table, Sort, entry_of, kind_of, enumerant_of};
ghost use Rattle.spv_table.specs.Lookups.{opcode_named, value_named, number_named};
ghost use Rattle.spv_grammar.specs.inner.FileLookups.{instruction_with, instruction_named, enumerant_with};
ghost use Rattle.spv_grammar.specs.inner.FileLookups.{enumerant_named};
ghost use Rattle.spv_grammar.specs.File.{quantifier_of, operand_of, bit_value_of, file_of};
ghost use Rattle.spv_grammar.specs.Kinds.{first_kinds, number_in};
ghost use Rattle.spv_grammar.specs.Made.{entry_from, enumerant_from, is_kept, sort_from, IsTable};
ghost use Rattle.spv_grammar.specs.Answer.{file_breaks, tree_breaks, Gives, IsGiven};
ghost use Rattle.spv_grammar.specs.Tree.{grammar_tree, operand_tree as tree_of_operand, value_tree};
ghost use Rattle.spv_grammar.specs.Place.{with_key, with_step, leads_to, found_shown, IsFault, Tells};
ghost use Rattle.spv_grammar.specs.declared.place.GrammarFault.{GrammarFault};
ghost use Rattle.spv_grammar.specs.declared.steps.Step.TheVariants.{Item};
ghost use Rattle.spv_table.specs.Table.{has_other_parts};
ghost use Rattle.std.specs.List.{list_all};
ghost use Rattle.spv_grammar.specs.Example.{a_kind, b_kind, a_again, once, unknown, instruction, no_opcode, file_with};
ghost use Rattle.spv_grammar.specs.Example.{valued, empty_tree, operand_tree, result_kind, composite, file_of_kinds};
ghost use Rattle.spv_grammar.specs.Example.{twice_file, twice_table, dropped_one, kept_one};
ghost use Rattle.spv_table.specs.Example.{empty_table};
ghost use Rattle.std.specs.Prelude.{◌++◌};
ghost use Rattle.spv_grammar.specs.Place.{BreaksNothing};
ghost use Rattle.spv_grammar.specs.Reason.{IsReason, line_of, octet_shown, path_line};

pub use spv_table::laws::capability_examples;

/// A tree gives at most one table, and one that gives a table breaks no code.
pub fn one_table()
    ensures once { (d : Data) (G H : Table) → Gives d G → Gives d H → G ≡ H }
    ensures never { (d : Data) (G : Table) (e : GrammarError) → Gives d G → ¬ (tree_breaks d ≡ Some e) }
{}

/// In a table that a file gives, no parameter and no base is of the kind of results: a file in which one is breaks J6.
pub fn kinds_apart()
    ensures { (G : Table) → IsGiven G → list_all (has_other_parts G) G.kinds ≡ true }
{}

/// Reading what is written: of a table that a file gives, the tree of its grammar file gives the same table.
pub fn writes_again()
    ensures { (G : Table) → IsGiven G → Gives (grammar_tree G) G }
{}

/// The look-ups in a file's table answer what the first elements of the file make.
pub fn first_elements()
    ensures entries { (file : File) (G : Table) (opcode : ℕ) → IsTable file G
        → entry_of G opcode ≡ option_map (λ e. e.1)
        (option_and_then (entry_from (first_kinds file.kinds)) (instruction_with file.instructions opcode)) }
    ensures opcodes { (file : File) (G : Table) (name : List ℕ) → IsTable file G
        → opcode_named G.entries name ≡ option_and_then (λ i. i.opcode)
        (instruction_named file.instructions name) }
    ensures numbers { (file : File) (G : Table) (name : List ℕ) → IsTable file G
        → number_named G name ≡ number_in (first_kinds file.kinds) name }
    ensures kinds { (file : File) (G : Table) (number : ℕ) → IsTable file G
        → kind_of G number ≡ option_and_then (sort_from (first_kinds file.kinds))
        (slice_get (first_kinds file.kinds) number) }
    // Of a kind of the file, the enumerants that are not dropped.
    ensures enumerants { (firsts : List FileKind) (k : FileKind) (s : Sort) (value : ℕ)
        → sort_from firsts k ≡ Some s
        → enumerant_of s.enumerants value ≡ option_and_then (enumerant_from firsts)
        (enumerant_with (filter (is_kept k.category) k.enumerants) value) }
    ensures values { (firsts : List FileKind) (k : FileKind) (s : Sort) (name : List ℕ)
        → sort_from firsts k ≡ Some s
        → value_named s.enumerants name ≡ option_and_then (λ e. e.value)
        (enumerant_named (filter (is_kept k.category) k.enumerants) name) }
{}

/// Worked examples of how a file is read.
pub fn reading_examples()
    ensures at_most_once { quantifier_of (codes "?") ≡ Some Maybe }
    ensures plus { quantifier_of (codes "+") ≡ None }
    ensures operand { operand_of operand_tree ≡ Some (record { kind = codes "A"; quantifier = Some Maybe }) }
    ensures no_operand { operand_of (object no_members) ≡ None }
    ensures either_case { bit_value_of (codes "0xaF") ≡ Some 175 }
    ensures no_digits { bit_value_of (codes "0x") ≡ None }
    ensures nine_digits { bit_value_of (codes "0x123456789") ≡ None }
{}

/// Worked examples of kinds, of what is dropped, and of the codes that a file breaks.
pub fn table_examples()
    // Of A, B and A again the first two have numbers.
    ensures firsts { first_kinds (a_kind ∷ b_kind ∷ a_again ∷ []) ≡ a_kind ∷ b_kind ∷ [] }
    ensures number { number_in (a_kind ∷ b_kind ∷ []) (codes "B") ≡ Some 1 }
    ensures no_number { number_in (a_kind ∷ b_kind ∷ []) (codes "C") ≡ None }
    // A mask of two bits is dropped, a value of two bits is kept.
    ensures two_bits { is_kept (Some BitEnum) (valued 3) ≡ false }
    ensures one_bit { is_kept (Some BitEnum) (valued 4) ≡ true }
    ensures any_value { is_kept (Some ValueEnum) (valued 3) ≡ true }
    // A file that breaks nothing, one that breaks J4 and J5, and one that breaks J3 and J4.
    ensures unbroken { file_breaks (file_with (instruction 1 (once (codes "A") ∷ []) ∷ [])) ≡ None }
    ensures unknown_kind { file_breaks (file_with (instruction 1 (unknown (codes "X") ∷ []) ∷ [])) ≡ Some J4 }
    ensures unknown_quantifier { file_breaks (file_with (instruction 1 (unknown (codes "A") ∷ []) ∷ []))
        ≡ Some J5 }
    ensures least { file_breaks (file_with (instruction 1 (unknown (codes "A") ∷ []) ∷ no_opcode ∷ []))
        ≡ Some J3 }
    // The tree of two empty arrays gives the table of nothing; an object without keys gives none.
    ensures gives { Gives empty_tree empty_table }
    ensures no_keys { tree_breaks (object no_members) ≡ Some J2 }
{}

/// Worked examples of J6 and J7, and of what becomes of an enumerant that is dropped.
pub fn more_table_examples()
    // A file whose instruction has a result twice breaks J6, one whose composite has no bases J7.
    ensures result_twice { file_breaks (file_of_kinds
        (instruction 1 (once (codes "IdResult") ∷ once (codes "IdResult") ∷ []) ∷ []) (result_kind ∷ []))
        ≡ Some J6 }
    ensures no_bases { file_breaks (file_of_kinds [] (composite [] ∷ [])) ≡ Some J7 }
    // A result that stands once and a composite of an id break nothing.
    ensures unbroken { file_breaks (file_of_kinds (instruction 1 (once (codes "IdResult") ∷ []) ∷ [])
        (result_kind ∷ a_kind ∷ composite (codes "A" ∷ []) ∷ [])) ≡ None }
    // Of two enumerants of one value the table has the second alone where the first is dropped.
    ensures kept { IsTable twice_file (twice_table (kept_one ∷ [])) }
    ensures dropped { ¬ IsTable twice_file (twice_table (dropped_one ∷ kept_one ∷ [])) }
{}

/// Worked examples of how a table is written.
pub fn tree_examples()
    ensures quantified { tree_of_operand empty_table (record { kind = 0; quantifier = Maybe })
        ≡ object (member (codes "kind") (string []) (member (codes "quantifier") (string (codes "?")) no_members)) }
    ensures bits { value_tree BitEnum 16 ≡ string (codes "0x10") }
    ensures value { value_tree ValueEnum 16 ≡ number (unsigned 16) }
    ensures no_bits { ¬ (value_tree BitEnum 16 ≡ number (unsigned 16)) }
    ensures nothing { grammar_tree empty_table ≡ empty_tree }
{}

/// Worked examples of paths and of what stands there.
pub fn place_examples()
    ensures path { with_step (codes "instructions") (Item 12) ≡ codes "instructions[12]" }
    ensures key { with_key (codes "instructions[12]") (codes "opcode") ≡ codes "instructions[12].opcode" }
    ensures first_key { with_key [] (codes "instructions") ≡ codes "instructions" }
    ensures leads { leads_to (Item 0 ∷ []) (array (item (string (codes "A")) no_items)) ≡ Some (string (codes "A")) }
    ensures leads_nowhere { leads_to (Item 1 ∷ []) (array (item (string (codes "A")) no_items)) ≡ None }
    ensures shown { found_shown (Some (string (codes "A"))) ≡ codes "\"A\"" }
    ensures missing { found_shown None ≡ codes "nothing" }
{}

/// Worked examples of the lines of what a file is refused for.
pub fn reason_examples()
    // A line feed is told by its number, and so is what is none of ASCII; a backslash stands alone.
    ensures control { octet_shown 10 ≡ codes "\\x0a" }
    ensures feed { ¬ (octet_shown 10 ≡ 10 ∷ []) }
    ensures past_ascii { octet_shown 155 ≡ codes "\\x9b" }
    ensures backslash { octet_shown 92 ≡ 92 ∷ [] }
    ensures line { line_of (codes "at") (codes "a") ≡ codes "at: a" ++ 10 ∷ [] }
    ensures no_line { ¬ (line_of (codes "at") (codes "a") ≡ codes "at: a") }
    // The whole file has no path.
    ensures path { path_line (codes "a") ≡ line_of (codes "at") (codes "a") }
    ensures no_path { path_line [] ≡ [] }
    // A text that breaks nothing has no lines, and no text has a line feed alone.
    ensures unbroken { (text : List ℕ) → BreaksNothing text → IsReason text [] }
    ensures no_reason { (text : List ℕ) → ¬ (IsReason text (10 ∷ [])) }
{}

/// Worked examples of what a text is refused for, and of what is told of it.
pub fn fault_examples()
    // An object without keys breaks J2: where its instructions should be there is nothing.
    ensures fault { (f : GrammarFault) → f.code ≡ J2 → string_bytes f.path ≡ codes "instructions"
        → string_bytes f.found ≡ codes "nothing" → IsFault (codes "{}") f }
    // It does not break J3, and no path leads in it to a number.
    ensures other_code { (f : GrammarFault) → f.code ≡ J3 → ¬ IsFault (codes "{}") f }
    ensures other_found { (f : GrammarFault) → f.code ≡ J2 → string_bytes f.found ≡ codes "1"
        → ¬ IsFault (codes "{}") f }
    // Of a text that breaks no code nothing is told, and something of every other.
    ensures nothing { Tells (codes "{\"instructions\":[],\"operand_kinds\":[]}") None }
    ensures something { ¬ Tells (codes "{}") None }
{}
