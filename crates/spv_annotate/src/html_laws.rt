//! Laws of texts in HTML, and worked examples. Each function does nothing: its contract is what is proved.

ghost use Rattle.std.specs.Prelude.{◌≡◌, ◌≢◌, ◌++◌, ℕ, List, true, codes};
ghost use Rattle.std.specs.List.{list_all};
ghost use Rattle.spv_annotate.specs.Html.{escaped, is_harmless, untagged};

/// What is written of a text is read as that text, whatever follows it. So it holds no tag, and ends in none.
pub fn reads_back()
    ensures { (text more : List ℕ) → untagged (escaped text ++ more) ≡ text ++ untagged more }
{}

/// What is written of a text begins and ends no tag, and no value of an attribute.
pub fn holds_no_tag()
    ensures { (text : List ℕ) → list_all is_harmless (escaped text) ≡ true }
{}

/// Worked examples.
pub fn html_examples()
    ensures escaped_tag { escaped (codes "<a b='\"&\">") ≡ codes "&lt;a b=&#39;&quot;&amp;&quot;&gt;" }
    ensures not_kept { escaped (codes "<b>") ≢ codes "<b>" }
    // Tags are left out, and references are what they stand for.
    ensures read { untagged (codes "<b id=n7>%7 &lt; &amp;lt;</b>") ≡ codes "%7 < &lt;" }
    ensures not_twice { untagged (codes "&amp;lt;") ≢ codes "<" }
    // A tag and a reference end at the end, at the latest.
    ensures open { untagged (codes "%7<b") ≡ codes "%7" }
    ensures unknown { untagged (codes "%7&deg;8") ≡ codes "%78" }
{}
