//! What follows from the definitions of what is shown and of a grammar file's table. Each function does nothing: its
//! contract is what is proved.
ghost use Rattle.std.specs.Prelude.{◌≡◌, ◌≢◌, ◌++◌, ◌∷◌, [], ℕ, List, Option, Some, None, Bool, true, false, Ok, Err};
ghost use Rattle.std.specs.Prelude.{codes};
ghost use Rattle.spv_words.specs.declared.words.Order.{Order};
ghost use Rattle.spv_table.specs.Table.{Table};
ghost use Rattle.spv_extended.specs.declared.reach.Reach.{Reach};
ghost use Rattle.spv_builtin.specs.Text.{IsGrammarText};
ghost use Rattle.spv_table.specs.Example.{empty_table};
ghost use Rattle.spv_commands.specs.Example.{answer_of, empty_grammar, reader_of, writer_of};
ghost use Rattle.spv_explain.specs.Lines.{refused_text};
ghost use Rattle.spv_facts.specs.declared.fact.Detail.{Detail};
ghost use Rattle.spv_facts.specs.declared.fact.Detail.TheVariants.{Full, Short};
ghost use Rattle.spv_commands.specs.Task.{detail_of};
ghost use Rattle.spv_explain.specs.Stream.{BeginsExplaining, Explains};
ghost use Rattle.spv_words.specs.declared.words.WordError.TheVariants.{W2};
ghost use Rattle.spv_commands.specs.Show.{BeginsShowing, IsShowing, Shows};
ghost use Rattle.spv_commands.specs.Assemble.{Assembles, BeginsAssembling, HoldsModule, in_version, minor_asked};
ghost use Rattle.spv_commands.specs.Assemble.{text_read};
ghost use Rattle.spv_scope.specs.declared.scope.Scope.TheVariants.{Own};
ghost use Rattle.spv_names.specs.declared.chosen.Chosen.{Chosen};
ghost use Rattle.spv_commands.specs.Trace.{BeginsTracing, HasNoEntry, HasSeveral, Traces, step_line, trace_text};
ghost use Rattle.spv_run.specs.declared.parts.Ending.TheVariants.{Finished, Limit};
ghost use Rattle.spv_commands.specs.Task.{DoesByText, MakesNothing, ReadsGrammar, ReadsNoFile};
ghost use Rattle.spv_commands.specs.Task.{AreRules, WritesGrammar};
ghost use Rattle.spv_rules.specs.declared.errors.AnyCode.{AnyCode};
ghost use Rattle.spv_rules.specs.declared.errors.AnyCode.TheVariants.{Error};
ghost use Rattle.spv_rules.specs.declared.errors.ErrorCode.TheVariants.{J5};
ghost use Rattle.spv_commands.specs.Trouble.{BeginsWith, Gets, Writes, file_line, file_trouble, memory_line, unread_of};
ghost use Rattle.spv_commands.specs.Streams.{IsAnswered, IsDone};
ghost use Rattle.spv_commands.specs.Answer.{Answers, IsRefusal};
ghost use Rattle.spv_commands.specs.Part.{IsPart, Known, heading, told_line, unread_text};
ghost use Rattle.spv_explain.specs.declared.answers.Unread.TheVariants as unread;
ghost use Rattle.spv_commands.specs.declared.trouble.Trouble.TheVariants as trouble;
ghost use Rattle.spv_commands.specs.declared.judging.Telling.TheVariants.{Bare, Json, Named};
ghost use Rattle.spv_lines.specs.Digits.{hex_digit};
ghost use Rattle.spv_commands.specs.Name.{label, shown_byte};
ghost use Rattle.spv_command_line.specs.declared.command_line.Command.{Command};
ghost use Rattle.spv_command_line.specs.declared.command_line.Command.TheVariants.{Rules, Show};
ghost use Rattle.std.specs.Borrow.{Bor};
ghost use Rattle.spv_commands.specs.declared.judging.Judging.{Judging};
ghost use Rattle.spv_check.specs.Verdict.{line_end};

use spv_inst::{listed_or_dead, one_death, one_listing};
use spv_lines::one_shown;

/// Bytes are shown in one way.
pub fn one_showing()
    ensures output { (G : Table) (reach : Reach) (bytes one other : List ℕ) (a b : Bool) → IsShowing G reach bytes one a
        → IsShowing G reach bytes other b → one ≡ other }
    ensures answer { (G : Table) (reach : Reach) (bytes one other : List ℕ) (a b : Bool) → IsShowing G reach bytes one a
        → IsShowing G reach bytes other b → a ≡ b }
{
    spv_words::laws::one_word_list();
    spv_words::laws::one_refusal();
    one_death();
    one_listing();
    listed_or_dead();
    one_shown();
}

/// Worked examples of what is shown.
pub fn show_examples()
    // A writer that held the byte 9 got the line of three bytes, which are no module and have no text.
    ensures shows { (G : Table) (reach : Reach) → Shows G reach (1 ∷ 2 ∷ 3 ∷ []) (9 ∷ [])
        (Some (9 ∷ codes "fault W2" ++ line_end)) false }
    ensures shows_text { (G : Table) (reach : Reach) (new : Option (List ℕ))
        → ¬ (Shows G reach (1 ∷ 2 ∷ 3 ∷ []) [] new true) }
    // The first five bytes of that line.
    ensures begins { (G : Table) (reach : Reach)
        → BeginsShowing G reach (1 ∷ 2 ∷ 3 ∷ []) (9 ∷ []) (Some (9 ∷ codes "fault")) }
{
    spv_words::laws::examples();
    spv_words::laws::one_refusal();
}

/// Worked examples of what is explained.
pub fn explain_examples()
    // A writer that held the byte 9 got the verdict line of three bytes, which are no module and have no evidence, and
    // the lines of what the code says and of what is found.
    ensures explains { (G : Table) (reach : Reach) (detail : Detail)
        → Explains detail G reach (1 ∷ 2 ∷ 3 ∷ []) (9 ∷ [])
        (Some (9 ∷ codes "fault W2" ++ (line_end ++ refused_text W2 (1 ∷ 2 ∷ 3 ∷ [])))) false }
    // The first five bytes of that line.
    ensures begins { (G : Table) (reach : Reach) (detail : Detail)
        → BeginsExplaining detail G reach (1 ∷ 2 ∷ 3 ∷ []) (9 ∷ [])
        (Some (9 ∷ codes "fault")) }
{
    spv_words::laws::examples();
    spv_words::laws::one_refusal();
}

/// Worked examples of how much is explained.
pub fn detail_examples()
    ensures full { detail_of true ≡ Full }
    ensures not_full { ¬ (detail_of false ≡ Full) }
{}

/// Worked examples of what a text is assembled to.
pub fn assemble_examples()
    // Three characters are no header: the writer that held the byte 9 got the line, and nothing is made.
    ensures assembles { (G : Table) (o : Order)
        → Assembles G o false false (1 ∷ 2 ∷ 3 ∷ []) (Some (9 ∷ [])) (Some (9 ∷ codes "fault S1 line 1" ++ line_end))
        (Some []) (Some []) false }
    ensures assembles_none { (G : Table) (o : Order) (explain opencl : Bool) (old new held kept : Option (List ℕ))
        → ¬ (Assembles G o explain opencl (1 ∷ 2 ∷ 3 ∷ []) old new held kept true) }
    // The first five bytes of that line, and other bytes.
    ensures begins { (G : Table) (o : Order) → BeginsAssembling G o false false (1 ∷ 2 ∷ 3 ∷ []) (Some (9 ∷ []))
        (Some (9 ∷ codes "fault")) (Some []) (Some []) }
    ensures begins_none { (G : Table) (o : Order) (explain opencl : Bool) (old new : Option (List ℕ))
        → ¬ (BeginsAssembling G o explain opencl (1 ∷ 2 ∷ 3 ∷ []) old new (Some []) (Some (3 ∷ []))) }
{}

/// Worked examples of what is traced.
pub fn trace_examples()
    // The lines of a step and of an end, and the text of both.
    ensures step { step_line (record { depth = 0; inst = 7 }) ≡ codes "0 7" ++ line_end }
    ensures text { trace_text (record { depth = 1; inst = 2 } ∷ []) Limit ≡ codes "1 2" ++ line_end
        ++ codes "end limit" ++ line_end }
    ensures other_text { ¬ (trace_text [] Finished ≡ codes "end limit" ++ line_end) }
    // A writer that held the byte 9 got the verdict line of three bytes, which are no module and have no run.
    ensures traces { (G : Table) (reach : Reach) (function : Chosen) (choices : List ℕ) (limit : ℕ)
        → Traces G reach function choices limit (1 ∷ 2 ∷ 3 ∷ []) (9 ∷ [])
        (Some (9 ∷ codes "fault W2" ++ line_end)) false }
    ensures traces_none { (G : Table) (reach : Reach) (function : Chosen) (choices : List ℕ) (limit : ℕ)
        (new : Option (List ℕ)) → ¬ (Traces G reach function choices limit (1 ∷ 2 ∷ 3 ∷ []) [] new true) }
    // The first five bytes of that line.
    ensures begins { (G : Table) (reach : Reach) (function : Chosen) (choices : List ℕ) (limit : ℕ)
        → BeginsTracing G reach function choices limit (1 ∷ 2 ∷ 3 ∷ []) (9 ∷ []) (Some (9 ∷ codes "fault")) }
    // No function is told of bytes that are no module, nor a name of two.
    ensures no_entry { (G : Table) (reach : Reach) (function : Chosen)
        → ¬ (HasNoEntry G reach (1 ∷ 2 ∷ 3 ∷ []) function) }
    ensures no_several { (G : Table) (reach : Reach) (function : Chosen)
        → ¬ (HasSeveral G reach (1 ∷ 2 ∷ 3 ∷ []) function) }
{
    spv_words::laws::examples();
    spv_words::laws::one_refusal();
}

/// Worked examples of what a command leaves in its outputs.
pub fn run_examples()
    // The first five bytes of `error file`, and of another line.
    ensures begins_with { BeginsWith file_line (9 ∷ []) (Some (9 ∷ codes "error")) }
    ensures begins_with_another { ¬ (BeginsWith file_line [] (Some (codes "fault"))) }
    // The line whole, a beginning where a write failed, and nothing where none did.
    ensures writes { Writes file_line (Some []) (Some file_line) 0 0 }
    ensures writes_beginning { Writes file_line (Some []) (Some (codes "error")) 0 1 }
    ensures writes_nothing { ¬ (Writes file_line (Some []) (Some []) 0 0) }
    // Two empty lists give the table of nothing, and no text at all gives none.
    ensures does { (command : Command) → ¬ (ReadsNoFile command) → MakesNothing command
        → DoesByText command (Some empty_grammar) (1 ∷ 2 ∷ 3 ∷ []) (Some (9 ∷ []))
        (Some (9 ∷ answer_of command)) None None false }
    ensures does_nothing { (command : Command) (bytes : List ℕ) (old new held kept : Option (List ℕ))
        (answer : Bool) → ¬ (DoesByText command (Some []) bytes old new held kept answer) }
{
    spv_grammar::laws::table_examples();
    spv_verdict::laws::stream_examples();
    explain_examples();
    show_examples();
    trace_examples();
    spv_views::laws::view_examples();
}

/// Worked examples of the grammar file that is written.
pub fn grammar_examples()
    // A writer that held the byte 9 also holds the text; and a text is never left out.
    ensures writes { (G : Table) (text : List ℕ) → IsGrammarText G text
        → WritesGrammar G (Some (9 ∷ [])) (Some (9 ∷ text)) }
    ensures writes_nothing { (G : Table) → ¬ (WritesGrammar G (Some (9 ∷ [])) (Some [])) }
{}

/// Worked examples of texts and modules of another version.
pub fn version_examples()
    // A text that tells version 1.4 is read as one of 1.6 only with `--opencl`, and then the module has that version.
    ensures read { text_read true (codes "; SPIR-V\n; Version: 1.4\n") ≡ codes "; SPIR-V\n; Version: 1.6\n" }
    ensures not_read { text_read false (codes "; SPIR-V\n; Version: 1.4\n") ≢ codes "; SPIR-V\n; Version: 1.6\n" }
    ensures asked { minor_asked true (codes "; SPIR-V\n; Version: 1.4\n") ≡ Some 4 }
    ensures not_asked { minor_asked false (codes "; SPIR-V\n; Version: 1.4\n") ≡ None }
    ensures made { in_version (Some 4) (3 ∷ 2 ∷ 35 ∷ 7 ∷ 0 ∷ 6 ∷ 1 ∷ 0 ∷ 9 ∷ [])
        ≡ 3 ∷ 2 ∷ 35 ∷ 7 ∷ 0 ∷ 4 ∷ 1 ∷ 0 ∷ 9 ∷ [] }
    ensures left { in_version None (3 ∷ 2 ∷ 35 ∷ 7 ∷ 0 ∷ 6 ∷ 1 ∷ 0 ∷ 9 ∷ []) ≢ 3 ∷ 2 ∷ 35 ∷ 7 ∷ 0 ∷ 4 ∷ 1 ∷ 0 ∷ 9 ∷ [] }
    // The file that is made holds no module where nothing was written.
    ensures holds_none { (o : Order) (words : List ℕ) (n : ℕ) → ¬ (HoldsModule o None words [] None n) }
{}

/// Worked examples of names in lines.
pub fn name_examples()
    // A digit above 9 is a small letter, and never a capital.
    ensures digit { hex_digit 15 ≡ 102 }
    ensures capital { ¬ (hex_digit 15 ≡ 70) }
    // A line feed is told by its number, and stands in no line.
    ensures control { shown_byte 10 ≡ codes "\\x0a" }
    ensures feed { ¬ (shown_byte 10 ≡ 10 ∷ []) }
    ensures label_of { label (codes "a\\") ≡ codes "a\\\\: " }
    // U+0085, of two octets.
    ensures late { label (194 ∷ 133 ∷ []) ≡ codes "\\xc2\\x85: " }
    ensures no_label { ¬ (label (codes "a") ≡ codes "a") }
{}

/// Worked examples of what became of streams.
pub fn stream_examples()
    ensures gets { Gets (λ (held : List ℕ). Some held) (λ held. 0) [] file_line file_line }
    ensures gets_nothing { ¬ (Gets (λ (held : List ℕ). Some held) (λ held. 0) [] [] file_line) }
    // The byte 7 was read, 8 was written, and the answer is true; without a failed call there is not its error.
    ensures answered { IsAnswered {E = ℕ} (λ bytes old new answer. (bytes ≡ 7 ∷ []) × (new ≡ Some (8 ∷ [])))
        (λ bytes old new. ⊥) 1 (reader_of (7 ∷ [])) (writer_of (8 ∷ [])) (Ok true) }
    ensures not_answered { ¬ (IsAnswered {E = ℕ} (λ bytes old new answer. Unit {0}) (λ bytes old new. Unit {0}) 1
        (reader_of []) (writer_of []) (Err 1)) }
    // 8 was written to the file that is made; without a failed call there is not its error.
    ensures done { IsDone {E = ℕ} (λ bytes old new held kept answer. (new ≡ old) × (kept ≡ Some (8 ∷ [])))
        (λ bytes old new held kept. ⊥) 1 (reader_of []) (writer_of []) (writer_of (8 ∷ [])) (Ok true) }
    ensures not_done { ¬ (IsDone {E = ℕ} (λ bytes old new held kept answer. Unit {0})
        (λ bytes old new held kept. Unit {0}) 1 (reader_of []) (writer_of []) (writer_of []) (Err 1)) }
{}

/// Worked examples of what is written of one of several files.
pub fn part_examples()
    // A file that is known not to open is told on the standard error, and never judged; where objects are written it
    // has one too.
    ensures part { (G : Table) (how : Judging) → IsPart G how (codes "a") (Some None)
        (unread_text how.telling (codes "a") trouble.File) (codes "a: error file" ++ line_end) 2 }
    ensures no_part { (G : Table) (how : Judging) (line : List ℕ)
        → ¬ (IsPart G how (codes "a") (Some None) line [] 0) }
    ensures no_text { unread_text Named (codes "a") trouble.File ≡ [] }
    ensures object { unread_text Json (codes "a.spv") trouble.File
        ≡ codes "{\"file\":\"a.spv\",\"verdict\":\"error\",\"error\":\"file\"}" ++ line_end }
    // Names stand before verdicts where that is asked for.
    ensures heading { heading Named (codes "a") ≡ codes "a: " }
    ensures no_heading { ¬ (heading Bare (codes "a") ≡ codes "a: ") }
    // The line on a file always has its name, where memory is refused too.
    ensures starved { (G : Table) (how : Judging) (known : Known)
        → IsPart G how (codes "a") known [] (codes "a: error memory" ++ line_end) 2 }
    ensures never_nameless { (G : Table) (how : Judging) (known : Known) (out : List ℕ) (status : ℕ)
        → ¬ (IsPart G how (codes "a") known out memory_line status) }
{
    spv_explain::laws::json_examples();
}

/// Worked examples of what codes say.
pub fn rule_examples()
    // What one code says, as lines; an object of a code is never left out.
    ensures lines { AreRules (Some (Error J5)) false (codes "J5: Each category and each quantifier is a known one. "
        ++ codes "[own]\n    an unknown category or quantifier\n") }
    ensures no_line { ¬ (AreRules (Some (Error J5)) false (codes "J5")) }
    ensures no_object { (code : AnyCode) → ¬ (AreRules (Some code) true []) }
{}

/// Worked examples of what is answered.
pub fn answer_examples()
    // Three bytes are no module: `show` answers the line of the fault, and the status is 1; it is never 3.
    ensures answers { (grammar : Option (Bor (List ℕ))) (name : Bor (List ℕ))
        → Answers (Show grammar name (Own false)) (Some empty_grammar) (Some (1 ∷ 2 ∷ 3 ∷ []))
        (codes "fault W2" ++ line_end) [] [] 1 }
    ensures not_answered { (command : Command) (text file : Option (List ℕ)) (out made err : List ℕ)
        → ¬ (Answers command text file out made err 3) }
    // A grammar file without a text is refused by J1, and FILE is not told then.
    ensures refusal { (command : Command) (file : Option (List ℕ)) → ReadsGrammar command
        → IsRefusal command (Some []) file (codes "error J1" ++ line_end) }
    ensures rules_unrefused { (code : Option AnyCode) (json : Bool) (file : Option (List ℕ))
        → ¬ (IsRefusal (Rules code json) (Some []) file (codes "error J1" ++ line_end)) }
    ensures no_refusal { (command : Command) (file : Option (List ℕ)) → ¬ (IsRefusal command (Some []) file file_line) }
    // What a file that was not read is told as, in an object and by a line.
    ensures unread { unread_of trouble.File ≡ unread.File }
    ensures other_unread { ¬ (unread_of trouble.Memory ≡ unread.File) }
    ensures trouble { file_trouble trouble.File ≡ trouble.File }
    ensures other_trouble { ¬ (file_trouble trouble.Use ≡ trouble.Use) }
    // The line of why a file was not judged stands behind its name; nothing is told of one that was.
    ensures told { told_line (codes "a") (Some trouble.File) ≡ codes "a: error file" ++ line_end }
    ensures not_told { ¬ (told_line (codes "a") None ≡ codes "a: error file" ++ line_end) }
{
    spv_grammar::laws::table_examples();
    spv_words::laws::examples();
    spv_words::laws::one_refusal();
}
