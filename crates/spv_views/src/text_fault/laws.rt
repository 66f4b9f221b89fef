//! Worked examples of the lines, under the small table of `spv_module`. Each function does nothing.
ghost use Rattle.std.specs.Prelude.{◌≡◌, ◌∷◌, [], codes};
ghost use Rattle.spv_module.specs.Example.{small};
ghost use Rattle.spv_parser.specs.Example.{reason_with};
ghost use Rattle.spv_parser.specs.declared.text_reason.Wanted.TheVariants as wanted;
ghost use Rattle.spv_views.specs.text_fault.Lines.{first_of, found_text, reason_text, rest_mark, shown, wanted_text};

/// Texts in a line.
pub fn cut_examples()
    ensures plain { shown (codes "OpNop") ≡ codes "OpNop" }
    ensures control { shown (codes "a\tb") ≡ codes "a\\x09b" }
    ensures first { first_of 2 (codes "abc") ≡ codes "ab" }
    // A letter of two octets is one character.
    ensures character { first_of 1 (195 ∷ 169 ∷ 195 ∷ 168 ∷ []) ≡ 195 ∷ 169 ∷ [] }
    ensures not_octet { ¬ (first_of 1 (195 ∷ 169 ∷ 195 ∷ 168 ∷ []) ≡ 195 ∷ []) }
    ensures mark { rest_mark (codes "ab") (codes "abc") ≡ codes " .." }
{}

/// Lines.
pub fn line_examples()
    ensures lines { reason_text small (codes "S") (reason_with (codes "%9 = OpLoad %2 x") (codes "x") wanted.Id)
        ≡ codes "rule: S\nat: %9 = OpLoad %2 x\ncolumn: 16\nwanted: an id, as %7\nfound: x\n" }
    ensures kind { wanted_text small (wanted.Mask 3) ≡ codes "a mask of MemoryAccess" }
    ensures end { found_text wanted.Id [] ≡ codes "the end of the line" }
    ensures space { found_text wanted.Id (codes " x") ≡ codes "a space" }
    ensures no_result { wanted_text small wanted.NoResult ≡ codes "no result id" }
    ensures header { found_text (wanted.HeaderLine 4) (codes "; Bound: 0") ≡ codes "; Bound: 0" }
    // Of another line, the word alone is told.
    ensures not_line { ¬ (found_text wanted.Id (codes "%2 %8") ≡ codes "%2 %8") }
{}
