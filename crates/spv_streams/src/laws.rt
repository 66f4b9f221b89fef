//! What follows from the definitions of runs. Each function does nothing: its contract is what is proved.
ghost use Rattle.std.specs.Prelude.{◌≡◌, ◌++◌, ◌∷◌, [], ℕ, List, Option, Some, None, codes, false};
ghost use Rattle.spv_table.specs.Table.{Table};
ghost use Rattle.spv_builtin.specs.Text.{IsGrammarText};
ghost use Rattle.spv_rules.specs.Codes.{told_text};
ghost use Rattle.spv_rules.specs.declared.errors.AnyCode.{AnyCode};
ghost use Rattle.spv_command_line.specs.declared.command_line.Command.{Command};
ghost use Rattle.spv_command_line.specs.declared.command_line.Command.TheVariants.{Rules};
ghost use Rattle.spv_commands.specs.Example.{empty_grammar, reader_of, writer_of};
ghost use Rattle.spv_commands.specs.Part.{Known, unread_text};
ghost use Rattle.spv_commands.specs.Task.{MakesNothing, ReadsNoFile};
ghost use Rattle.spv_commands.specs.Trouble.{Writes, entry_line, file_line, function_line, memory_line, use_line};
ghost use Rattle.spv_commands.specs.declared.judging.Judging.{Judging};
ghost use Rattle.spv_commands.specs.declared.trouble.Trouble.TheVariants.{File};
ghost use Rattle.spv_check.specs.Verdict.{line_end};
ghost use Rattle.spv_streams.specs.Begin.{BeginsByText, BeginsGrammar};
ghost use Rattle.spv_streams.specs.Each.{AreParts, Ends};
ghost use Rattle.spv_streams.specs.Run.{IsErrorLine, Runs, RunsRules};

/// Worked examples of what a command begins to write.
pub fn begin_examples()
    // The first five bytes of a fault's line; and no text at all gives no table.
    ensures begins { (command : Command) → ¬ (ReadsNoFile command) → MakesNothing command
        → BeginsByText command (Some empty_grammar) (1 ∷ 2 ∷ 3 ∷ []) (Some (9 ∷ []))
        (Some (9 ∷ codes "fault")) None None }
    ensures begins_nothing { (command : Command) (bytes : List ℕ) (old new held kept : Option (List ℕ))
        → ¬ (BeginsByText command (Some []) bytes old new held kept) }
    // Nothing of a grammar file yet; and a writer loses nothing.
    ensures begins_grammar { (G : Table) (text : List ℕ) → IsGrammarText G text
        → BeginsGrammar G (Some (9 ∷ [])) (Some (9 ∷ [])) }
    ensures begins_no_grammar { (G : Table) → ¬ (BeginsGrammar G (Some (9 ∷ [])) (Some [])) }
{
    spv_grammar::laws::table_examples();
    spv_verdict::laws::stream_examples();
    spv_commands::laws::explain_examples();
    spv_commands::laws::show_examples();
    spv_commands::laws::trace_examples();
    spv_views::laws::view_examples();
}

/// Worked examples of how a run ends.
pub fn ending_examples()
    // Out of memory, of which only its line tells.
    ensures runs { (command : Command) (text : Option (List ℕ))
        → Runs command text (reader_of []) (writer_of []) (writer_of []) (λ line. line ≡ memory_line) 2 }
    ensures never_runs { (command : Command) (text : Option (List ℕ))
        → ¬ (Runs command text (reader_of []) (writer_of []) (writer_of []) (λ line. ⊥) 2) }
    // No text at all breaks J1, memory can always be told, `error X1` of a function that is strange, `error X2` of one
    // that is absent, `error use` of a name of several, and `error file` only after a failed call.
    ensures refused { IsErrorLine (Some []) ⊥ ⊥ ⊥ ⊥ (codes "error J1" ++ line_end) }
    ensures memory { (text : Option (List ℕ)) → IsErrorLine text ⊥ ⊥ ⊥ ⊥ memory_line }
    ensures no_entry { (text : Option (List ℕ)) → IsErrorLine text ⊥ (Unit {0}) ⊥ ⊥ entry_line }
    ensures no_function { (text : Option (List ℕ)) → IsErrorLine text ⊥ ⊥ (Unit {0}) ⊥ function_line }
    ensures several { (text : Option (List ℕ)) → IsErrorLine text ⊥ ⊥ ⊥ (Unit {0}) use_line }
    ensures no_failure { (text : Option (List ℕ)) → ¬ (IsErrorLine text ⊥ ⊥ ⊥ ⊥ file_line) }
    ensures rules { (code : Option AnyCode) → RunsRules (Rules code false) (writer_of (told_text code)) (λ line. ⊥) 0 }
    ensures no_rules { (command : Command) → ¬ (RunsRules command (writer_of []) (λ line. ⊥) 1) }
{}

/// Worked examples of what is written of several files.
pub fn each_examples()
    // One such file ends with 2, and no files do not.
    ensures parts { (G : Table) (how : Judging) → AreParts G how (λ n. Some None) (codes "a" ∷ [])
        (unread_text how.telling (codes "a") File) (codes "a: error file" ++ line_end) 2 }
    ensures no_parts { (G : Table) (how : Judging) (known : ℕ → Known) → ¬ (AreParts G how known [] [] [] 2) }
    // Out of memory can always be told, and a run tells of something where it ends with 2.
    ensures ends { (text : Option (List ℕ)) (how : Judging) (known : ℕ → Known) (names : List (List ℕ))
        → Ends text how known names (λ o. Writes o (Some []) (Some []) 0 0)
        (λ e. Writes e (Some []) (Some memory_line) 0 0) (Unit {0}) 2 }
    ensures never_ends { (text : Option (List ℕ)) (how : Judging) (known : ℕ → Known) (names : List (List ℕ))
        (status : ℕ) → ¬ (Ends text how known names (λ o. ⊥) (λ e. ⊥) (Unit {0}) status) }
{
    spv_commands::laws::part_examples();
}
