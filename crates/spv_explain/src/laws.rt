//! That evidence suffices, whatever the rule, and worked examples. Each function does nothing: its contract is what is
//! proved.

ghost use Rattle.std.specs.Prelude.{◌≡◌, ◌≢◌, ◌≤◌, ◌++◌, ◌-◌, ◌⊎◌, ℕ, List, [], ◌∷◌, Some, None, codes, drop, false};
ghost use Rattle.std.specs.Prelude.{true};
ghost use Rattle.std.specs.Prelude.{slice_index};
ghost use Rattle.json.specs.Token.{Token, key as name, string as text};
ghost use Rattle.spv_words.specs.Header.{IsModule};
ghost use Rattle.spv_words.specs.declared.words.Order.{Order};
ghost use Rattle.spv_words.specs.declared.words.WordError.TheVariants.{W2, W4, W5};
ghost use Rattle.spv_table.specs.Table.{Table};
ghost use Rattle.spv_module.specs.Example.{small, string};
ghost use Rattle.spv_module.specs.Instruction.{IsListing};
ghost use Rattle.spv_module.specs.Module.{plain_insts};
ghost use Rattle.spv_module.specs.Operand.{PlainInst};
ghost use Rattle.spv_module.specs.declared.fault.Fault.{Fault};
ghost use Rattle.spv_module.specs.declared.fault.Rule.{Rule as AnyRule};
ghost use Rattle.spv_module.specs.declared.fault.Rule.TheVariants.{D2, L1, Y9, Y10};
ghost use Rattle.spv_module.specs.declared.module.Module.{Module};
ghost use Rattle.spv_module.specs.declared.opcode.TheConstants as opcode;
ghost use Rattle.spv_extended.specs.declared.reach.Reach.{Reach};
ghost use Rattle.spv_extended.specs.declared.reach.Reach.TheVariants.{Profile, Extended, OpenCl};
ghost use Rattle.spv_extended.specs.Reach.{looked_at};
ghost use Rattle.spv_std_types.specs.Example.{unlike};
ghost use Rattle.spv_layout.specs.First.{stage_of};
ghost use Rattle.spv_layout.specs.Stage.{of_profile};
ghost use Rattle.spv_ids.specs.Example.{of_void};
ghost use Rattle.spv_form_evidence.specs.words.Evidence as instructions;
ghost use Rattle.spv_evidence.specs.declared.evidence.Evidence.{Evidence};
ghost use Rattle.spv_evidence.specs.declared.evidence.Evidence.TheVariants.{MayCome, Miscalled, NoEntry, Operand, Walk};
ghost use Rattle.spv_inst.specs.Outcome.{IsHeaderOf};
ghost use Rattle.spv_rules.specs.declared.errors.AnyCode.TheVariants.{Error};
ghost use Rattle.spv_rules.specs.declared.errors.ErrorCode.TheVariants.{J5};
ghost use Rattle.spv_check.specs.Broken.{Broken};
ghost use Rattle.spv_check.specs.Verdict.{line_end};
ghost use Rattle.spv_explain.specs.Evidence.{IsEvidence};
ghost use Rattle.spv_explain.specs.Example.{labels, many_opcodes, short_call, string_fault, string_words, twice_void};
ghost use Rattle.spv_explain.specs.Explained.{IsShown, IsSpelled};
ghost use Rattle.spv_fault_lines.specs.Lines.{line_of};
ghost use Rattle.spv_facts.specs.Place.{comes_early, open_before, place_of};
ghost use Rattle.spv_lines.specs.Plain.{plain_of};
ghost use Rattle.spv_fault_lines.specs.Refused.{found_lines};
ghost use Rattle.spv_facts.specs.Refused.{front_of};
ghost use Rattle.spv_facts.specs.declared.fact.Detail.TheVariants.{Full, Short};
ghost use Rattle.spv_facts.specs.declared.fact.Fact.TheVariants as fact;
ghost use Rattle.spv_rules.specs.declared.rules.Code.TheVariants.{Rule, Word};
ghost use Rattle.spv_fault_json.specs.Members.{refused_members};
ghost use Rattle.spv_check.specs.declared.verdict_line.Judgment.TheVariants as verdicts;
ghost use Rattle.spv_explain.specs.Json.{AreMembers, code_line, error_object, json_line, object_of};
ghost use Rattle.spv_explain.specs.Json.{profile_members, profile_text};
ghost use Rattle.spv_explain.specs.Lines.{refused_text, rule_line};
ghost use Rattle.spv_explain.specs.Stream.{AreLinesOf, IsWalk, walk_in};
ghost use Rattle.spv_explain.specs.declared.stream.Explanation.{Explanation};
ghost use Rattle.spv_explain.specs.declared.reading.Explained.TheVariants as explained;
ghost use Rattle.spv_explain.specs.declared.answers.Unread.TheVariants as unread;

/// Evidence of whatever rule, from P on, shows that the rule is broken at the instruction.
pub fn suffices()
    ensures { (G : Table) (reach : Reach) (bound : ℕ) (is : List PlainInst) (r : AnyRule) (n : ℕ) (e : Evidence)
        → IsEvidence G reach bound is r n e → Broken G reach bound is r n }
{}

/// The lines of facts.
pub fn line_examples()
    // That an earlier instruction has the same result: its number is told, and not that of the later one.
    ensures earlier { line_of Short small twice_void (codes "%1 = OpTypeVoid" ∷ []) (fact.Earlier 0)
        ≡ codes "earlier: inst 0, %1 = OpTypeVoid" ++ line_end }
    ensures not_later { ¬ (line_of Short small twice_void (codes "%1 = OpTypeVoid" ∷ []) (fact.Earlier 0)
        ≡ codes "earlier: inst 1, %1 = OpTypeVoid" ++ line_end) }
    // An operand and the id that it is.
    ensures operand { line_of Short small (of_void ∷ []) [] (fact.Operand 0 1) ≡ codes "operand: 1 %1" ++ line_end }
    // Nine opcodes that may come, in short by their classes and in full by their names, of which the small table has
    // but two.
    ensures classes { line_of Short small [] [] (fact.MayCome many_opcodes true)
        ≡ codes "may come: OpUndef; a source; a line; a type or constant; OpFunction; end of module" ++ line_end }
    ensures names { line_of Full small [] [] (fact.MayCome many_opcodes true)
        ≡ codes "may come: OpString OpTypeInt end of module" ++ line_end }
    // A control character, and one of those from U+0080 on; U+00A9 is none.
    ensures escaped { plain_of (97 ∷ 27 ∷ 92 ∷ []) ≡ codes "a\\x1b\\" }
    ensures late { plain_of (194 ∷ 155 ∷ 97 ∷ []) ≡ codes "\\xc2\\x9ba" }
    ensures kept { plain_of (194 ∷ 169 ∷ []) ≡ 194 ∷ 169 ∷ [] }
{}

/// What is open before instructions. An OpLabel after an OpLabel misses the end of a block, and one after the end of a
/// block does not.
pub fn place_examples()
    ensures open { open_before labels 2 ≡ record { function = Some 0; block = Some 1 } }
    ensures inside { ¬ (open_before labels 2 ≡ place_of labels 2) }
    ensures early { comes_early opcode.LABEL (open_before labels 2) ≡ true }
    ensures not_early { comes_early opcode.LABEL (open_before labels 1) ≡ false }
    ensures unended { line_of Short small twice_void [] (fact.Unended (record { function = Some 0; block = None }))
        ≡ codes "missing: the end of function %1" ++ line_end }
    ensures no_block { ¬ (line_of Short small twice_void [] (fact.Unended (record { function = Some 0; block = None }))
        ≡ codes "missing: the end of block %1" ++ line_end) }
{}

/// What is found in bytes that are no words of a module.
pub fn refused_examples()
    // Too few bytes.
    ensures few { refused_text W2 (1 ∷ 2 ∷ 3 ∷ []) ≡ rule_line (Word W2) ++ (codes "found: 3 bytes" ++ line_end) }
    ensures one { found_lines W2 (front_of (1 ∷ [])) ≡ codes "found: 1 byte" ++ line_end }
    // No magic number: the lowest byte comes first.
    ensures no_magic { found_lines W4 (front_of (127 ∷ 69 ∷ 76 ∷ 70 ∷ [])) ≡ codes "found: 0x464c457f" ++ line_end }
    ensures not_turned { ¬ (found_lines W4 (front_of (127 ∷ 69 ∷ 76 ∷ 70 ∷ []))
        ≡ codes "found: 0x7f454c46" ++ line_end) }
    // Version 1.4, the highest byte first, and version 2.0, which is not read as version 1.6.
    ensures earlier { found_lines W5 (front_of (7 ∷ 35 ∷ 2 ∷ 3 ∷ 0 ∷ 1 ∷ 4 ∷ 0 ∷ []))
        ≡ codes "found: version 1.4" ++ (line_end
        ++ (codes "help: --as-1.6 reads it as a module of version 1.6" ++ line_end)) }
    ensures later { found_lines W5 (front_of (3 ∷ 2 ∷ 35 ∷ 7 ∷ 0 ∷ 0 ∷ 2 ∷ 0 ∷ []))
        ≡ codes "found: version 2.0" ++ line_end }
{}

/// The lines of a module that begins with an OpString, under the bound 9: what may come has no names in the small
/// table. Without the instruction they are not its lines.
pub fn stream_examples()
    ensures lines { AreLinesOf Short small Profile 9 (string ∷ []) L1 0 (rule_line (Rule L1)
        ++ ((codes "at: %5 = OpString \"abc\"" ++ line_end) ++ (codes "may come:" ++ line_end))) }
    ensures not_first { (lines : List ℕ) → ¬ (AreLinesOf Short small Profile 5 twice_void D2 0 lines) }
{}

/// The walk that shows a fault, of two instructions with the result 1.
pub fn walk_examples()
    ensures walk { walk_in twice_void (Walk 0 0 (1 ∷ 0 ∷ [])) ≡ 1 ∷ 1 ∷ [] }
    ensures no_walk { walk_in twice_void NoEntry ≡ [] }
    // A valid module has none.
    ensures valid { (G : Table) (reach : Reach) (bytes : List ℕ) (e : Explanation) → e.judgment ≡ verdicts.Valid
        → IsWalk Short G reach bytes e [] }
    ensures not_valid { (G : Table) (reach : Reach) (bytes : List ℕ) (e : Explanation) → e.judgment ≡ verdicts.Valid
        → ¬ (IsWalk Short G reach bytes e (1 ∷ [])) }
{}

/// A module that begins with an OpString, under a small table.
pub fn explained_examples()
    // There may come OpExtension, OpExtInstImport, OpMemoryModel or OpCapability.
    ensures shown { (m : Module) → IsShown small Profile string_words
        (explained.Broken string_fault (MayCome (10 ∷ 11 ∷ 14 ∷ 17 ∷ []) false) m) }
    // That there is no entry point does not show it.
    ensures not_shown { (m : Module)
        → ¬ (IsShown small Profile string_words (explained.Broken string_fault NoEntry m)) }
    // The module that the words spell has this one instruction, and their header.
    ensures spelled { (m : Module) → plain_insts m ≡ string ∷ [] → IsHeaderOf string_words m.header
        → IsSpelled small string_words (explained.Broken string_fault NoEntry m) }
    ensures not_spelled { (m : Module) → plain_insts m ≡ []
        → ¬ (IsSpelled small string_words (explained.Broken string_fault NoEntry m)) }
{}

/// A module that calls vloadn of OpenCL.std, number 171, without its last operand.
pub fn extended_examples()
    // Where extended instructions are looked at, its number and how many operands it has show it; not by the profile.
    ensures shown { (G : Table) (bound : ℕ)
        → IsEvidence G Extended bound (looked_at Extended short_call) Y9 2 (Miscalled 171 2 (Some 3) (Some 3)) }
    ensures not_so_many { (G : Table) (bound : ℕ)
        → ¬ (IsEvidence G Extended bound (looked_at Extended short_call) Y9 2 (Miscalled 171 1 (Some 3) (Some 3))) }
    ensures by_profile { (G : Table) (bound : ℕ) (e : Evidence)
        → ¬ (IsEvidence G Profile bound (looked_at Profile short_call) Y9 2 e) }
{}

/// A call of acos in OpenCL.std whose operand is a float, and whose result a vector.
pub fn type_examples()
    // In a kernel of OpenCL the operand shows it, and not the result type; nothing does where types are not asked.
    ensures shown { (G : Table) (minor bound : ℕ) → IsEvidence G (OpenCl minor) bound unlike Y10 22 (Operand 4) }
    ensures not_the_result { (G : Table) (minor bound : ℕ)
        → ¬ (IsEvidence G (OpenCl minor) bound unlike Y10 22 (Operand 0)) }
    ensures by_extended { (G : Table) (bound : ℕ) (e : Evidence) → ¬ (IsEvidence G Extended bound unlike Y10 22 e) }
{}

/// The objects of verdicts and of codes, as texts.
pub fn json_examples()
    ensures valid { json_line (object_of Profile (Some (codes "a.spv")) verdicts.Valid [])
        ≡ codes "{\"file\":\"a.spv\",\"verdict\":\"valid\",\"profile\":\"own\"}" ++ line_end }
    ensures unnamed { json_line (object_of (OpenCl 4) None verdicts.Valid [])
        ≡ codes "{\"verdict\":\"valid\",\"profile\":\"opencl\"}" ++ line_end }
    ensures not_named { ¬ (json_line (object_of (OpenCl 4) None verdicts.Valid [])
        ≡ codes "{\"file\":\"\",\"verdict\":\"valid\",\"profile\":\"opencl\"}" ++ line_end) }
    // How far a module is looked at.
    ensures profile { profile_text Extended ≡ codes "extended" }
    ensures no_profile { profile_text Profile ≢ codes "extended" }
    ensures profile_members { profile_members Profile ≡ name (codes "profile") ∷ text (codes "own") ∷ [] }
    ensures no_profile_members { profile_members Profile ≢ profile_members Extended }
    // A code, and one with where it is broken.
    ensures code { code_line false (Error J5) ≡ codes "{\"code\":\"J5\"," ++ codes "\"rule\":\"Each category and each quantifier "
        ++ codes "is a known one. [own]\"," ++ codes "\"section\":\"own\"}" ++ line_end }
    ensures not_full { code_line true (Error J5) ≢ code_line false (Error J5) }
    // A control character is escaped as JSON has it, and so is a quotation mark.
    ensures escaped { json_line (object_of Profile (Some (34 ∷ 27 ∷ [])) verdicts.Valid [])
        ≡ codes "{\"file\":\"\\\"\\u001b\",\"verdict\":\"valid\",\"profile\":\"own\"}" ++ line_end }
    // And so are DEL and a control character from U+0080 on.
    ensures late { json_line (object_of Profile (Some (127 ∷ 194 ∷ 155 ∷ [])) verdicts.Valid [])
        ≡ codes "{\"file\":\"\\u007f\\u009b\",\"verdict\":\"valid\",\"profile\":\"own\"}" ++ line_end }
    ensures unread { json_line (error_object (Some (codes "a.spv")) unread.File)
        ≡ codes "{\"file\":\"a.spv\",\"verdict\":\"error\",\"error\":\"file\"}" ++ line_end }
    // What is found in three bytes.
    ensures found { refused_members W2 (front_of (1 ∷ 2 ∷ 3 ∷ []))
        ≡ name (codes "found") ∷ text (codes "3 bytes") ∷ [] }
{}

/// The members of a fault are never those of a valid module: of that nothing is told.
pub fn nothing_of_valid()
    ensures { (G : Table) (reach : Reach) (bytes : List ℕ) (members : List Token)
        → AreMembers G reach bytes verdicts.Valid members → members ≡ [] }
{}

/// The members of a fault of words that spell a list of instructions come from evidence, and that suffices: the rule is
/// broken at the instruction, from P on.
pub fn members_suffice()
    ensures { (G : Table) (reach : Reach) (bytes : List ℕ) (f : Fault) (members : List Token)
        → AreMembers G reach bytes (verdicts.Broken f) members
        → ((words : List ℕ) × (order : Order) × (is : List PlainInst) × IsModule order bytes words
        × IsListing G is (drop 5 words) × (of_profile ≤ stage_of f.rule
        → Broken G reach (slice_index words 3) (looked_at reach is) f.rule f.inst))
        ⊎ ((words : List ℕ) × (order : Order) × (e : Evidence) × IsModule order bytes words
        × instructions.IsEvidence G (drop 5 words) f.rule f.inst (f.word - 5) e) }
{}
