//! Laws of the page, and worked examples. Each function does nothing: its contract is what is proved.

ghost use Rattle.std.specs.Prelude.{◌≡◌, ◌≢◌, ◌∷◌, [], ℕ, List, Some, None, false, codes, flat_map};
ghost use Rattle.spv_annotate.specs.declared.linked.Quoting.TheVariants.{Commented, Outside};
ghost use Rattle.spv_annotate.specs.Html.{untagged};
ghost use Rattle.spv_annotate.specs.declared.finding.Finding.{Finding};
ghost use Rattle.spv_annotate.specs.Document.{verdict_line};
ghost use Rattle.spv_annotate.specs.Example.{two_blocks};
ghost use Rattle.spv_annotate.specs.Page.{Scene, contents_of, cut_from, linked, notice, on_page, page_of, users_of};
ghost use Rattle.spv_annotate.specs.Page.{walk_of};
ghost use Rattle.spv_annotate.specs.Piece.{PlainPiece, Function, Header, Line, Mark, text_of};
ghost use Rattle.spv_annotate.specs.Scenes.{nothing_known};

/// The page without its tags, and with its character references read, is the text for reading without colours, whatever
/// stands in the module: no text of it makes a tag, a link or a style.
pub fn page_reads_back()
    ensures { (S : Scene) (pieces : List PlainPiece)
        → untagged (flat_map (page_of S) pieces) ≡ flat_map (text_of false) pieces }
{}

/// Worked examples of lines, where instruction 12 defines each id.
pub fn linked_examples()
    // A line is cut before each id, but not before one in quotes.
    ensures cut { cut_from Outside (codes "a %4 \"%5\\\"%6\"") ≡ codes "a " ∷ codes "%4 \"%5\\\"%6\"" ∷ [] }
    ensures cut_comment { cut_from Commented (codes "\"%4, %5")
        ≡ codes "\"" ∷ codes "%4, " ∷ codes "%5" ∷ [] }
    ensures one { linked (λ x. Some 12) Outside (codes "%4 \"<\"")
        ≡ codes "<a href=#12>%4</a> &quot;&lt;&quot;" }
    ensures undefined { linked (λ x. None) Outside (codes "%4") ≡ codes "%4" }
    ensures not_number { linked (λ x. Some 12) Outside (codes "%007") ≢ codes "<a href=#12>%007</a>" }
{}

/// Worked examples of the blocks of a walk.
pub fn walk_examples()
    ensures walk { (f : Finding) → f.walk.now ≡ 13 ∷ 9 ∷ [] → walk_of (Some f) ≡ 13 ∷ 9 ∷ [] }
    ensures none { walk_of None ≢ 13 ∷ [] }
{}

/// Worked examples of what a page of one function leads to.
pub fn asked_examples()
    ensures there { on_page two_blocks (Some 4) 8 ≡ Some 8 }
    ensures not_there { on_page two_blocks (Some 4) 3 ≡ None }
    // No link leads behind the last instruction.
    ensures end { on_page two_blocks None 11 ≡ None }
    ensures users { users_of two_blocks None 2 ≡ 3 ∷ 4 ∷ 8 ∷ [] }
    ensures asked_users { users_of two_blocks (Some 4) 2 ≡ 4 ∷ 8 ∷ [] }
{}

/// Worked examples of the line of a verdict.
pub fn verdict_examples()
    ensures line { (f : Finding) → f.lines.now ≡ codes "fault A1\nrule: a\n" → verdict_line f ≡ codes "fault A1" }
    ensures not_whole { (f : Finding) → f.lines.now ≡ codes "fault A1\nrule: a\n" → verdict_line f ≢ f.lines.now }
    ensures notice { (f : Finding) → f.inst ≡ 4 → f.lines.now ≡ codes "fault A1" → notice two_blocks (Some 4) (Some f)
        ≡ codes "<p class=fault><a href=#4>fault A1</a></p>\n" }
    ensures unlinked { (f : Finding) → f.inst ≡ 3 → f.lines.now ≡ codes "fault A1" → notice two_blocks (Some 4) (Some f)
        ≡ codes "<p class=fault>fault A1</p>\n" }
    // In the list of contents the function of the fault is marked, and no other.
    ensures marked { contents_of (nothing_known 3) (Function 3)
        ≡ codes "</details>\n<details>\n<summary class=fault><a href=#3></a></summary>\n" }
    ensures unmarked { contents_of (nothing_known 3) (Function 4)
        ≡ codes "</details>\n<details>\n<summary><a href=#4></a></summary>\n" }
{}

/// Worked examples of pieces, where nothing is known of the module but that instruction 3 is that of the fault.
pub fn piece_examples()
    ensures header { page_of (nothing_known 3) (Header (codes "; <")) ≡ codes "<div>; &lt;" }
    ensures fault { page_of (nothing_known 3) (Line 3 (codes "OpNop")) ≡ codes "<div id=3 class=fault>OpNop" }
    ensures other { page_of (nothing_known 3) (Line 4 (codes "OpNop")) ≡ codes "<div id=4>OpNop" }
    ensures function { page_of (nothing_known 3) (Function 4) ≡ codes "<br>\n" }
    ensures not_bare { page_of (nothing_known 3) (Mark (codes "; ^ at: x")) ≢ codes "; ^ at: x" }
{}
