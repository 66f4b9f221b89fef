//! Worked examples. Each function does nothing: its contract is what is proved.
ghost use Rattle.std.specs.Prelude.{◌≡◌, ◌∷◌, [], ℕ, List, Some, None, Ok, Err};
ghost use Rattle.std.specs.Prelude.{true, false, codes, map, Vec};
ghost use Rattle.std.specs.Borrow.{Bor};
ghost use Rattle.std.specs.Global.{Global};
ghost use Rattle.clap.specs.Words.{Text};
ghost use Rattle.spv_command_line.specs.CommandLine.{AnswersTo, IsColor, IsDetailed, IsFlag, IsForm, IsNaming, IsScope};
ghost use Rattle.spv_command_line.specs.CommandLine.{count_of};
ghost use Rattle.spv_command_line.specs.declared.command_line.Color.{Color};
ghost use Rattle.spv_command_line.specs.declared.command_line.Color.TheVariants as colors;
ghost use Rattle.spv_command_line.specs.declared.command_line.Color.TheVariants.{Auto};
ghost use Rattle.spv_command_line.specs.declared.command_line.Command.TheVariants.{Annotate, Graph, Judge, Rules, Show};
ghost use Rattle.spv_command_line.specs.declared.command_line.Form.TheVariants as forms;
ghost use Rattle.spv_command_line.specs.declared.command_line.Form.TheVariants.{Page};
ghost use Rattle.spv_command_line.specs.declared.command_line.UseError.TheVariants.{NoCommand};
ghost use Rattle.spv_command_line.specs.declared.command_line.Naming.{Naming};
ghost use Rattle.spv_command_line.specs.declared.command_line.Naming.TheVariants.{OfSeveral};
ghost use Rattle.spv_command_line.specs.declared.command_line.Task.TheVariants.{Check, Explain};
ghost use Rattle.spv_command_line.specs.Number.{AreNumbers, IsChoice, IsChoiceIfAny, IsNumber};
ghost use Rattle.spv_names.specs.declared.chosen.Chosen.TheVariants.{Id, Name};
ghost use Rattle.spv_scope.specs.declared.scope.Scope.{Scope};
ghost use Rattle.spv_scope.specs.declared.scope.Scope.TheVariants.{Own, Extended, OpenCl};

/// Worked examples of numbers of the command line.
pub fn number_examples()
    // `007` is a number, and `+7`, no text and 4,294,967,296 are none.
    ensures number { IsNumber (codes "007") 7 }
    ensures no_sign { (n : ℕ) → ¬ (IsNumber (codes "+7") n) }
    ensures no_digit { (n : ℕ) → ¬ (IsNumber [] n) }
    ensures too_large { (n : ℕ) → ¬ (IsNumber (codes "4294967296") n) }
    // Two numbers, and no two where a comma stands at the end.
    ensures numbers { AreNumbers (codes "0,12") (0 ∷ 12 ∷ []) }
    ensures no_numbers { (ns : List ℕ) → ¬ (AreNumbers (codes "0,") ns) }
    // A function that is chosen by its id, and one by its name: a number is an id, and never a name.
    ensures by_id { IsChoice (codes "12") (Id 12) }
    ensures by_name { (name : Bor Text) → name.now ≡ codes "%12" → IsChoice (codes "%12") (Name name) }
    ensures no_name { (name : Bor Text) → ¬ (IsChoice (codes "12") (Name name)) }
    // One that may be chosen, and is not.
    ensures not_chosen { IsChoiceIfAny None None }
    ensures none_chosen { ¬ (IsChoiceIfAny (Some (codes "12")) None) }
{}

/// Worked examples of options without a value.
pub fn option_examples()
    // An option that is given has the text `true`, and one that is not the text `false`.
    ensures flag { IsFlag (Some (codes "true")) true }
    ensures no_flag { ¬ (IsFlag (Some (codes "false")) true) }
    // With `--full` it is explained in full, and never without; `check` asks for no detail.
    ensures full { IsDetailed (Some (codes "true")) (Explain true) }
    ensures not_full { ¬ (IsDetailed None (Explain true)) }
    ensures plain { IsDetailed None Check }
    // Without options only the verdicts on several files have names, and both options fit none.
    ensures naming { IsNaming None None OfSeveral }
    ensures no_naming { (naming : Naming) → ¬ (IsNaming (Some (codes "true")) (Some (codes "true")) naming) }
    // With `--html` a page is written, and never without.
    ensures page { IsForm (Some (codes "true")) Page }
    ensures no_page { ¬ (IsForm None Page) }
    // `never` is a word for a use of colour, and `sometimes` is none; without a word the output decides.
    ensures color { IsColor (Some (codes "never")) colors.Never }
    ensures no_color { (color : Color) → ¬ (IsColor (Some (codes "sometimes")) color) }
    ensures auto_color { IsColor None Auto }
    // OpenCL takes in what `--extended` asks for, and says another thing of a version than `--as-1.6`.
    ensures scope { IsScope None (Some (codes "true")) (Some (codes "true")) OpenCl }
    ensures no_scope { (scope : Scope) → ¬ (IsScope (Some (codes "true")) None (Some (codes "true")) scope) }
    ensures extended_scope { IsScope (Some (codes "true")) (Some (codes "true")) None (Extended true) }
    ensures own_scope { ¬ (IsScope None (Some (codes "true")) None (Own false)) }
    // One of two words.
    ensures count { count_of (codes "-") (codes "-" ∷ codes "a" ∷ []) ≡ 1 }
    ensures no_count { ¬ (count_of (codes "-") (codes "--" ∷ []) ≡ 1) }
{}

/// Worked examples of command lines.
pub fn line_examples()
    // Objects for all rules.
    ensures rules { AnswersTo (codes "rules" ∷ codes "--json" ∷ []) (Ok (Rules None true)) }
    // The graph of one function.
    ensures graph { (file : Bor Text) → file.now ≡ codes "a.spv"
        → AnswersTo (codes "graph" ∷ codes "--function" ∷ codes "4" ∷ codes "a.spv" ∷ [])
        (Ok (Graph None file (Own false) (Some (Id 4)))) }
    // A word for a use of colour, and what is none.
    ensures annotate { (file : Bor Text) → file.now ≡ codes "a.spv"
        → AnswersTo (codes "annotate" ∷ codes "a.spv" ∷ codes "--color=never" ∷ [])
        (Ok (Annotate None file (Own false) None forms.Text colors.Never)) }
    ensures no_color { AnswersTo (codes "annotate" ∷ codes "a.spv" ∷ codes "--color=red" ∷ []) (Err NoCommand) }
    // The operands of extended instructions are looked at where that is asked for, and else not.
    ensures extended { (files : Vec (Bor Text) Global) → map (λ file. file.now) files.items ≡ codes "a.spv" ∷ []
        → AnswersTo (codes "check" ∷ codes "--extended" ∷ codes "a.spv" ∷ [])
        (Ok (Judge Check None files (Extended false) OfSeveral false false)) }
    ensures not_extended { (files : Vec (Bor Text) Global) → ¬ (AnswersTo (codes "check" ∷ codes "a.spv" ∷ [])
        (Ok (Judge Check None files (Extended false) OfSeveral false false))) }
    // What OpenCL asks for does not go with `--as-1.6`.
    ensures opencl { (file : Bor Text) → file.now ≡ codes "a.spv"
        → AnswersTo (codes "show" ∷ codes "--opencl" ∷ codes "a.spv" ∷ []) (Ok (Show None file OpenCl)) }
    ensures not_both { AnswersTo (codes "show" ∷ codes "--opencl" ∷ codes "--as-1.6" ∷ codes "a.spv" ∷ [])
        (Err NoCommand) }
    // `show` writes no object.
    ensures no_object { AnswersTo (codes "show" ∷ codes "a.spv" ∷ codes "--json" ∷ []) (Err NoCommand) }
{}
