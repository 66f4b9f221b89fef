//! Worked examples of what is written for people. Each function does nothing: its contract is what is proved.
ghost use Rattle.std.specs.Prelude.{◌≡◌, ◌++◌, ◌∷◌, [], ℕ, List, Option, Some, None, Bool, true, false, codes, drop};
ghost use Rattle.spv_words.specs.Header.{IsModule};
ghost use Rattle.spv_words.specs.declared.words.Order.{Order};
ghost use Rattle.spv_inst.specs.Outcome.{IsHeaderOf};
ghost use Rattle.spv_module.specs.Module.{plain_insts};
ghost use Rattle.spv_module.specs.declared.module.Module.{Module};
ghost use Rattle.spv_table.specs.Table.{Table};
ghost use Rattle.spv_module.specs.declared.fault.Fault.{Fault};
ghost use Rattle.spv_module.specs.declared.fault.Rule.TheVariants.{D1, L2};
ghost use Rattle.spv_check.specs.Verdict.{line_end};
ghost use Rattle.spv_check.specs.declared.verdict_line.Judgment.TheVariants.{Broken, Valid};
ghost use Rattle.spv_views.specs.Finding.{told_by};
ghost use Rattle.spv_names.specs.declared.chosen.Chosen.{Chosen};
ghost use Rattle.spv_names.specs.declared.chosen.Chosen.TheVariants.{Id};
ghost use Rattle.spv_views.specs.View.{AreBegun, BeginsViewing, KeepsLayout, LacksFunction, NamesSeveral, Views};
ghost use Rattle.spv_views.specs.View.{IsTold, shows_beginning};
ghost use Rattle.spv_annotate.specs.declared.finding.Finding.{Finding};
ghost use Rattle.spv_extended.specs.declared.reach.Reach.{Reach};
ghost use Rattle.spv_explain.specs.Stream.{IsExplanation};
ghost use Rattle.spv_explain.specs.declared.stream.Explanation.{Explanation};
ghost use Rattle.spv_facts.specs.declared.fact.Detail.TheVariants.{Short};
ghost use Rattle.spv_views.specs.declared.view.View.{View};
ghost use Rattle.spv_views.specs.declared.view.View.TheVariants.{Graph, Text};

/// Worked examples of what is written of bytes.
pub fn view_examples()
    // A writer that held the byte 9 got the line of three bytes, which are no module and have nothing to look at.
    ensures views { (G : Table) (how : View) (reach : Reach) (function : Option Chosen)
        → Views how G reach function (1 ∷ 2 ∷ 3 ∷ []) (9 ∷ [])
        (Some (9 ∷ codes "fault W2" ++ line_end)) false }
    ensures views_none { (G : Table) (how : View) (reach : Reach) (function : Option Chosen) (new : Option (List ℕ))
        → ¬ (Views how G reach function (1 ∷ 2 ∷ 3 ∷ []) [] new true) }
    // The first five bytes of that line.
    ensures begins { (G : Table) (how : View) (reach : Reach) (function : Option Chosen)
        → BeginsViewing how G reach function (1 ∷ 2 ∷ 3 ∷ []) (9 ∷ []) (Some (9 ∷ codes "fault")) }
    // No function is missed in bytes that are no module, and no name is that of two.
    ensures no_function { (G : Table) (reach : Reach) (function : Option Chosen)
        → ¬ (LacksFunction G reach (1 ∷ 2 ∷ 3 ∷ []) function) }
    ensures no_functions { (G : Table) (reach : Reach) (function : Option Chosen)
        → ¬ (NamesSeveral G reach (1 ∷ 2 ∷ 3 ∷ []) function) }
{
    spv_words::laws::examples();
    spv_words::laws::one_refusal();
}

/// Worked examples of the beginning of a module.
pub fn beginning_examples()
    // Behind its header a module has the word 0, an instruction of no words: none stands before it.
    ensures begun { (G : Table) (bytes words : List ℕ) (order : Order) (m : Module) → IsModule order bytes words
        → IsHeaderOf words m.header → plain_insts m ≡ [] → drop 5 words ≡ 0 ∷ [] → AreBegun G bytes m }
    // It is shown as a text, and not as a graph, nor of a function.
    ensures text { (color : Bool) → shows_beginning (Text color) None ≡ true }
    ensures graph { shows_beginning Graph None ≡ false }
    ensures part { (color : Bool) → shows_beginning (Text color) (Some (Id 3)) ≡ false }
{}

/// Worked examples of what is told of a fault.
pub fn finding_examples()
    // Of the graph of calls nothing is told; and no fault is told of without an explanation of the verdict.
    ensures calls { (G : Table) (reach : Reach) (bytes : List ℕ) → IsTold G reach bytes Graph None None }
    ensures unexplained { (G : Table) (reach : Reach) (bytes : List ℕ) (how : View) (function : Option ℕ)
        (finding : Finding)
        → ((e : Explanation) → ¬ (IsExplanation Short G reach bytes e))
        → ¬ (IsTold G reach bytes how function (Some finding)) }
    // Functions can be told apart where an id is not below the bound, and not where the end of one is missing.
    ensures laid_out { (f : Fault) → f.rule ≡ D1 → KeepsLayout (Broken f) }
    ensures mislaid { (f : Fault) → f.rule ≡ L2 → ¬ (KeepsLayout (Broken f)) }
    // Nothing is told of a valid module.
    ensures none { (lines walk : List ℕ) → told_by Valid lines walk ≡ None }
    ensures some { (f : Fault) (lines walk : List ℕ) → ¬ (told_by (Broken f) lines walk ≡ None) }
{}
