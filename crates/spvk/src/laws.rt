//! What follows from the definitions, and worked examples. Each function does nothing: its contract is what is proved.
ghost use Rattle.std.specs.Prelude.{◌≡◌, ◌≢◌, ℕ, List, Option, None, Some, codes, false, true};
ghost use Rattle.spv_table.specs.Table.{Table as TableView};
ghost use Rattle.spv_extended.specs.declared.reach.Reach.{Reach};
ghost use Rattle.spv_scope.specs.declared.scope.Scope.TheVariants.{Own, Extended, OpenCl};
ghost use Rattle.spv_grammar.specs.Reason.{IsReason as IsReasonOf};
ghost use Rattle.spv_grammar.specs.declared.error.GrammarError.TheVariants.{J4};
ghost use Rattle.spv_lines.specs.declared.asm_error.AsmCode.TheVariants.{S2};
ghost use Rattle.spv_module.specs.declared.fault.Rule.TheVariants.{I7};
ghost use Rattle.spv_check.specs.declared.verdict_line.Judgment.TheVariants.{Valid};
ghost use Rattle.spv_words.specs.declared.words.Order.{Order};
ghost use Rattle.spv_words.specs.declared.words.WordError.TheVariants.{W3};
ghost use Rattle.spvk.specs.Answer.{Answers, AnswersAsked, AnswersAt, AnswersWith, status_alone};
ghost use Rattle.spvk.specs.Assemble.{AssemblesAt};
ghost use Rattle.spvk.specs.Explain.{IsExplaining};
ghost use Rattle.spvk.specs.Faults.{text_code_number};
ghost use Rattle.spvk.specs.Flags.{asked_by};
ghost use Rattle.spvk.specs.Grammar.{IsReason};
ghost use Rattle.spvk.specs.GrammarReason.{ExplainsGrammar, IsExplained};
ghost use Rattle.spvk.specs.Held.{boxed, lent};
ghost use Rattle.spvk.specs.Make.{Makes, MakesAsked, MakesAt, MakesWith};
ghost use Rattle.spvk.specs.Numbers.{code_number, nowhere, numbers_of, rule_number};
ghost use Rattle.spvk.specs.Object.{IsTelling};
ghost use Rattle.spvk.specs.Rules.{PutsIfAny};
ghost use Rattle.spvk.specs.Show.{IsShowing, IsShowingForOpenCl};
ghost use Rattle.spvk.specs.Status.{status_of, status_text};
ghost use Rattle.spvk.specs.declared.buffer.Buffer.{Buffer};
ghost use Rattle.spvk.specs.declared.image.Assembled.{Assembled};
ghost use Rattle.spvk.specs.declared.static_text.StaticText.{StaticText};
ghost use Rattle.spvk.specs.declared.text.Text.{Text};
ghost use denote.RawPtr.{null_ptr};
ghost use types.Logic.{sem};

/// The owner of a table may show it for a lifetime of its own, so the `requires*` of `spvk_raw_check` can be met.
pub unsafe fn lends(at: *const u8)
    ghost table: { TableView }
    requires* { sem 𝓛 (boxed at table) }
    ensures* { ∃ₛ (λ (ν : ℕ). sem 𝓛 (lent at table ν)) }
{
    let _ = at;
}

/// Once it has back all that it showed, it has the table.
pub unsafe fn comes_back(at: *const u8)
    ghost lent_to: { TableView × ℕ }
    requires* { sem 𝓛 (lent at lent_to.0 lent_to.1) }
    ensures* { sem 𝓛 (boxed at lent_to.0) }
{
    let _ = at;
}

/// Codes in numbers.
pub fn number_examples()
    ensures word { code_number W3 ≡ 3 }
    ensures rule { rule_number I7 ≡ 107 }
    ensures other_rule { rule_number I7 ≢ 108 }
    ensures grammar { status_of J4 ≡ 104 }
    // What a status says; there is no status 6.
    ensures status { status_text 1 ≡ Some (codes "out of memory") }
    ensures no_status { status_text 6 ≡ None }
    ensures text { text_code_number S2 ≡ 1202 }
    // A valid module has the code 0, and no instruction.
    ensures valid { (numbers_of Valid).code ≡ 0 }
    ensures nowhere { (numbers_of Valid).inst ≡ nowhere }
    ensures not_the_first { (numbers_of Valid).inst ≢ 0 }
{}

/// What calls answer: out of memory by status 1, a null pointer by status 2.
pub fn answer_examples()
    ensures memory { (G : TableView) (r : Reach) (bytes : List ℕ) → Answers G r bytes (status_alone 1) }
    ensures no_status_2 { (G : TableView) (r : Reach) (bytes : List ℕ) → ¬ (Answers G r bytes (status_alone 2)) }
    ensures null { (G : TableView) (r : Reach) (bytes : List ℕ) → AnswersAt null_ptr G r bytes (status_alone 2) }
    ensures null_is_told { (G : TableView) (r : Reach) (bytes : List ℕ)
        → ¬ (AnswersAt null_ptr G r bytes (status_alone 1)) }
    // Out of memory is a reason for status 1, and nothing is one for status 0.
    ensures want { (text : Option (List ℕ)) → IsReason text 1 }
    ensures no_reason { (text : Option (List ℕ)) → ¬ (IsReason text 0) }
{}

/// What flags ask for.
pub fn flag_examples()
    ensures none { asked_by 0 ≡ Some (Own false) }
    ensures both { asked_by 3 ≡ Some (Extended true) }
    ensures opencl { asked_by 4 ≡ Some OpenCl }
    ensures in_opencl { asked_by 6 ≡ Some OpenCl }
    ensures not_together { asked_by 5 ≡ None }
    ensures no_flag { asked_by 8 ≡ None }
    ensures heeded { asked_by 2 ≢ asked_by 0 }
    // A bit that is no flag is told, by status 5, and not taken for none.
    ensures told { (G : TableView) (bytes : List ℕ) → AnswersAsked (asked_by 8) G bytes (status_alone 5) }
    ensures not_taken { (G : TableView) (bytes : List ℕ) → ¬ (AnswersAsked (asked_by 2) G bytes (status_alone 5)) }
    ensures null { (G : TableView) (bytes : List ℕ) → AnswersWith null_ptr G 8 bytes (status_alone 2) }
    ensures null_first { (G : TableView) (bytes : List ℕ) → ¬ (AnswersWith null_ptr G 8 bytes (status_alone 5)) }
{}

/// What was there stays where nothing is answered.
pub fn kept_examples()
    ensures memory { (G : TableView) (r : Reach) (bytes : List ℕ) (old : Text)
        → Makes (IsShowing G r bytes) old old 1 }
    ensures changed { (G : TableView) (r : Reach) (bytes : List ℕ) (old new : Text) → old ≢ new
        → ¬ (Makes (IsShowing G r bytes) old new 1) }
    ensures shown { (G : TableView) (r : Reach) (bytes : List ℕ) (old : Text)
        → MakesAt null_ptr (IsShowing G r bytes) old old 2 }
    ensures shown_for_opencl { (G : TableView) (bytes : List ℕ) (old : Text)
        → MakesAt null_ptr (IsShowingForOpenCl G bytes) old old 2 }
    ensures not_shown_for_opencl { (G : TableView) (bytes : List ℕ) (old : Text)
        → ¬ (MakesAt null_ptr (IsShowingForOpenCl G bytes) old old 0) }
    ensures explained { (G : TableView) (r : Reach) (bytes : List ℕ) (old : Text)
        → MakesAt null_ptr (IsExplaining G r bytes) old old 2 }
    ensures not_done { (G : TableView) (r : Reach) (bytes : List ℕ) (old : Text)
        → ¬ (MakesAt null_ptr (IsExplaining G r bytes) old old 0) }
    ensures flagged { (G : TableView) (bytes : List ℕ) (old : Text)
        → MakesAsked (asked_by 8) (IsExplaining G) bytes old old 5 }
    ensures not_flagged { (G : TableView) (bytes : List ℕ) (old : Text)
        → ¬ (MakesAsked (asked_by 8) (IsExplaining G) bytes old old 0) }
    ensures explained_with { (G : TableView) (bytes : List ℕ) (old : Text)
        → MakesWith null_ptr (IsExplaining G) 0 bytes old old 2 }
    ensures not_with { (G : TableView) (bytes : List ℕ) (old : Text)
        → ¬ (MakesWith null_ptr (IsExplaining G) 0 bytes old old 0) }
    ensures told { (G : TableView) (r : Reach) (bytes : List ℕ) (old : Text)
        → MakesAt null_ptr (IsTelling G r bytes) old old 2 }
    ensures not_told { (G : TableView) (r : Reach) (bytes : List ℕ) (old : Text)
        → ¬ (MakesAt null_ptr (IsTelling G r bytes) old old 0) }
    ensures told_no_flag { (G : TableView) (bytes : List ℕ) (old : Text)
        → MakesAsked (asked_by 8) (IsTelling G) bytes old old 5 }
    ensures not_told_flag { (G : TableView) (bytes : List ℕ) (old : Text)
        → ¬ (MakesAsked (asked_by 8) (IsTelling G) bytes old old 0) }
    ensures told_with { (G : TableView) (bytes : List ℕ) (old : Text)
        → MakesWith null_ptr (IsTelling G) 0 bytes old old 2 }
    ensures not_told_with { (G : TableView) (bytes : List ℕ) (old : Text)
        → ¬ (MakesWith null_ptr (IsTelling G) 0 bytes old old 0) }
    // A text that holds nothing tells no verdict as an object.
    ensures no_object { (G : TableView) (r : Reach) (bytes : List ℕ) (t : Text) → t.buffer.bytes ≡ None
        → ¬ (IsTelling G r bytes t) }
    ensures assembled { (G : TableView) (o : Order) (text : List ℕ) (old : Assembled)
        → AssemblesAt null_ptr G o text old old 2 }
    ensures unsaid { (old : StaticText) → PutsIfAny None old old false }
    ensures said { (text : List ℕ) (old new : StaticText) → ¬ (PutsIfAny (Some text) old new false) }
{}

/// What is told of a grammar file's text.
pub fn grammar_reason_examples()
    ensures memory { (text : List ℕ) (old : Buffer) → ExplainsGrammar text old old 1 }
    ensures changed { (text : List ℕ) (old new : Buffer) → old ≢ new → ¬ (ExplainsGrammar text old new 1) }
    ensures told { (text lines : List ℕ) (b : Buffer) → IsReasonOf text lines → b.bytes ≡ Some lines
        → IsExplained text b }
    ensures untold { (text : List ℕ) (b : Buffer) → b.bytes ≡ None → ¬ (IsExplained text b) }
{}
