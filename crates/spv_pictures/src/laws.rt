//! Laws of the definitions, and worked examples. Each function does nothing: its contract is what is proved.

ghost use Rattle.std.specs.Prelude.{◌≡◌, ◌↔◌, ◌&&◌, ◌∷◌, [], ℕ, List, Option, None, IsTrue, true, false, codes};
ghost use Rattle.std.specs.Prelude.{map, nat_eq, nat_le, not};
ghost use Rattle.std.specs.List.{list_all, list_any};
ghost use Rattle.spv_table.specs.Table.{Table};
ghost use Rattle.spv_layout.specs.Shape.{FitsShape, IsUse};
ghost use Rattle.spv_layout.specs.declared.form.Role.TheVariants as role;
ghost use Rattle.spv_module.specs.declared.opcode.TheConstants as opcode;
ghost use Rattle.spv_module.specs.Operand.{Id, PlainInst, Text, Value};
ghost use Rattle.spv_pictures.specs.Blocks.{block_graph_text, edges_of, goes, marked_row};
ghost use Rattle.spv_pictures.specs.Calls.{call_graph_text, entry_lines, entry_names};
ghost use Rattle.spv_pictures.specs.Example.{inst, kernel, kernel_blocks, kernel_calls, kernel_lines, no_blocks};
ghost use Rattle.spv_pictures.specs.Label.{drawn_text, label_text};
ghost use Rattle.spv_pictures.specs.Reading.{frame_of, is_mark, read_back, retold};
ghost use Rattle.spv_pictures.specs.declared.marks.Finding.{Finding};

/// No text of a module leaves the label that it stands in: there it has no `<`, `>`, `"` or `'`, and once its entities
/// are read it is the text as it is drawn.
pub fn labels()
    ensures marks { (t : List ℕ) → list_all (λ b. not (is_mark b)) (label_text t) ≡ true }
    ensures read { (t : List ℕ) → read_back (label_text t) ≡ drawn_text t }
{}

/// No text of a module puts anything into a picture but text of a label: without these, the picture of blocks is the
/// same whatever the lines are, as it is with empty ones, and the picture of calls is the same whatever the texts are.
pub fn frames()
    ensures blocks { (f : Option Finding) (is : List PlainInst) (lines : List (List ℕ)) (x : ℕ)
        → frame_of (block_graph_text f is lines x) ≡ frame_of (block_graph_text f is (map (λ l. []) lines) x) }
    ensures calls { (f : List ℕ → List ℕ) (is : List PlainInst)
        → frame_of (call_graph_text is) ≡ frame_of (call_graph_text (map (retold f) is)) }
{}

/// The edges of an OpBranch, an OpBranchConditional and an OpSwitch lead to the ids that it uses as labels, which are
/// the targets that the rules on flow speak of, and to no others.
pub fn edges()
    ensures { (G : Table) (i : PlainInst) (x : ℕ) → FitsShape G i
        → IsTrue (nat_le opcode.BRANCH i.opcode && nat_le i.opcode opcode.SWITCH)
        → IsTrue (list_any (λ e. nat_eq e.to x) (edges_of i)) ↔ ((k : ℕ) × IsUse G i k x role.Label) }
{}

/// Characters in labels, and what is left of a label without them.
pub fn label_examples()
    ensures marked { label_text (codes "a<b> \\N") ≡ codes "a&lt;b&gt; \\\\N" }
    ensures hidden { label_text (10 ∷ []) ≡ codes "\\\\x0a" }
    ensures not_hidden { ¬ (drawn_text (10 ∷ []) ≡ 10 ∷ []) }
    ensures read { read_back (codes "&lt;&amp;\\\\") ≡ codes "<&\\" }
    ensures order { read_back (codes "\\N") ≡ [] }
    ensures frame { frame_of (codes "1 [label=<a<BR/>b>];") ≡ codes "1 [label=<<BR/>>];" }
{}

/// A kernel that calls a function which is declared, and its three blocks.
pub fn picture_examples()
    ensures calls { call_graph_text kernel ≡ kernel_calls }
    ensures entries { entry_names (inst opcode.ENTRY_POINT (Value 0 6 ∷ Id 1 ∷ Text (codes "l") ∷ []) ∷ kernel) 1
        ≡ codes "l" ∷ codes "k" ∷ [] }
    ensures entry_lines { entry_lines (codes "l" ∷ codes "k" ∷ []) ≡ codes "<B><BR/>l</B><B><BR/>k</B>" }
    ensures no_entry { entry_names kernel 2 ≡ [] }
    ensures blocks { block_graph_text None kernel kernel_lines 1 ≡ kernel_blocks }
    ensures none { block_graph_text None kernel kernel_lines 9 ≡ no_blocks }
    ensures step { goes (5 ∷ 7 ∷ 8 ∷ []) 7 8 ≡ true }
    ensures no_step { goes (5 ∷ 7 ∷ 8 ∷ []) 5 8 ≡ false }
    ensures red { marked_row true (record { number = 3; inst = inst 253 []; line = codes "OpReturn" })
        ≡ codes "<FONT COLOR=\"red\">3: OpReturn</FONT><BR ALIGN=\"LEFT\"/>" }
{}
