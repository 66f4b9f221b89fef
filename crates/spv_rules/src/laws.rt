//! Laws of the definitions, and worked examples. A function here does nothing: its contract is what is proved.

ghost use Rattle.std.specs.Prelude.{◌≡◌, ◌≢◌, ◌++◌, ℕ, List, codes};
ghost use Rattle.spv_module.specs.declared.fault.Rule.TheVariants.{I1, I12, Y1, Y2, F1, G1, Y9, Y10, O1, O23};
ghost use Rattle.spv_words.specs.declared.words.WordError.TheVariants.{W5};
ghost use Rattle.spv_rules.specs.Codes.{code_line, indented};
ghost use Rattle.spv_rules.specs.Errors.{any_meaning, any_section, any_sentence};
ghost use Rattle.spv_rules.specs.Rules.{IsNamed, number_in, rule_text, two_digits};
ghost use Rattle.spv_rules.specs.declared.errors.AnyCode.{AnyCode};
ghost use Rattle.spv_rules.specs.declared.errors.AnyCode.TheVariants.{Error, Verdict};
ghost use Rattle.spv_rules.specs.declared.errors.ErrorCode.TheVariants.{J5};
ghost use Rattle.spv_rules.specs.declared.rules.Code.TheVariants.{Word};

/// The codes of rules, as texts.
pub fn code_examples()
    ensures first { rule_text I1 ≡ codes "I1" }
    ensures twelfth { rule_text I12 ≡ codes "I12" }
    // Y1 is a run of its own, and Y2 begins another one.
    ensures alone { rule_text Y1 ≡ codes "Y1" }
    ensures begun { rule_text Y2 ≡ codes "Y2" }
    ensures not_the_letter { rule_text F1 ≢ codes "A1" }
    ensures calls { rule_text G1 ≡ codes "G1" }
    ensures extended { rule_text Y9 ≡ codes "Y9" }
    ensures of_types { rule_text Y10 ≡ codes "Y10" }
    ensures standard { rule_text O1 ≡ codes "O1" }
    ensures last { rule_text O23 ≡ codes "O23" }
    ensures two { two_digits 40 ≡ codes "40" }
    ensures not_one { two_digits 40 ≢ codes "4" }
    // In C each letter has its hundred.
    ensures number { number_in (codes "I12") ≡ 112 }
    ensures past_texts { number_in (codes "O23") ≡ 1323 }
    ensures other_number { number_in (codes "P1") ≢ 101 }
    ensures small { IsNamed (codes "i12") (codes "I12") }
    ensures not_small { ¬ (IsNamed (codes "i1") (codes "I12")) }
{}

/// The sentence of each code ends with its sources, in brackets.
pub fn sentences_end_with_sources()
    ensures { (code : AnyCode) → (told : List ℕ)
        × (any_sentence code ≡ told ++ codes " [" ++ any_section code ++ codes "]") }
{}

/// What codes say, and the lines of it.
pub fn sentence_examples()
    ensures line { code_line (Verdict (Word W5)) ≡ codes "W5: The version, word 1, is 1.6: 0x00010600. [2.3; own]\n" }
    ensures section { any_section (Verdict (Word W5)) ≡ codes "2.3; own" }
    ensures not_first { any_section (Verdict (Word W5)) ≢ codes "2.3" }
    ensures meaning { any_meaning (Error J5) ≡ codes "an unknown category or quantifier" }
    ensures lines { indented (codes "a\nb") ≡ codes "    a\n    b\n" }
    ensures not_indented { indented (codes "a\nb") ≢ codes "    a\nb\n" }
{}
