//! Laws of the definitions. Each function does nothing: its contract is what is proved.
ghost use Rattle.std.specs.Prelude.{◌≡◌, ℕ, List, Option, codes};
ghost use Rattle.spv_table.specs.Table.{Table};
ghost use Rattle.spv_grammar.specs.declared.error.GrammarError.{GrammarError};
ghost use Rattle.spv_table.specs.Example.{empty_table};
ghost use Rattle.spv_builtin.specs.Source.{IsTableOf, breaks};
ghost use Rattle.spv_builtin.specs.Text.{IsGrammarText};

/// There is at most one table of a run, and one that breaks a code has none.
pub fn one_table()
    ensures table { (text : Option (List ℕ)) (G H : Table) → IsTableOf text G → IsTableOf text H → G ≡ H }
    ensures code { (text : Option (List ℕ)) (d e : GrammarError) → breaks text d → breaks text e → d ≡ e }
    ensures never { (text : Option (List ℕ)) (G : Table) (e : GrammarError) → IsTableOf text G → ¬ (breaks text e) }
{
    spv_grammar::laws::one_table();
}

/// A worked example of a grammar file: the table of nothing has this text, and not the one with a space.
pub fn text_examples()
    ensures holds { IsGrammarText empty_table (codes "{\"instructions\":[],\"operand_kinds\":[]}") }
    ensures fails { ¬ IsGrammarText empty_table (codes "{\"instructions\": [],\"operand_kinds\":[]}") }
{}
